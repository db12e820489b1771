//! The rules of what cargo builds, as clauses over numbered facts: their instances in the tables of a document and a build, and what follows.
#![tactic(auto)]

pub mod derived;
mod ground;
mod grounding;
mod initial_rows;
mod linking_rows;
mod required_texts;
mod rows;
mod run_rows;
mod side_rows;
mod steps;
mod unit_rows;

pub use derived::Derived;
