//! The two small structures under a dependency graph: a stored graph that only grows, and an agenda
//! that hands out each number once.
#![tactic(auto)]

pub mod agenda;
pub mod graph;
pub mod laws;
