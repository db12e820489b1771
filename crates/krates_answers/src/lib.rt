//! The answers to questions about a graph of crates, as values, each with its definition: who needs what, trees, duplicates, licences, uses,
//! differences, materials, and what can't be reached.
#![tactic(auto)]

pub mod builds;
pub mod changed;
pub mod compared;
pub mod crate_uses;
pub mod difference;
pub mod direct_links;
pub mod duplicates;
pub mod enabled_feature;
mod grouped;
pub mod kept;
mod labelled;
pub mod licences;
pub mod materials;
pub mod meaning;
pub mod naming;
pub mod order;
mod package_text;
mod pushing;
mod same_package;
mod similar;
pub mod three_graphs;
pub mod tree;
pub mod unreachable;
mod word_specification;
