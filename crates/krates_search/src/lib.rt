//! The state of a search for what is kept of a document: what was found so far with its steps, what waits for an edge, how crates,
//! features and edges are put, and what was found in the order of ids.
//!
//! It follows no reference and knows no root: the crate above goes by the rules.
#![tactic(auto)]

pub mod enabling;
pub mod expansion;
pub mod found;
pub mod kept_lists;
pub mod links;
pub mod search_state;
