//! Whether a fact follows by one rule from given facts, and whether what is given by one rule is in a list of facts. No search is
//! trusted: each question goes to the document.
#![tactic(auto)]

pub mod closing;
pub mod fact_ref;
pub mod fact_set;
pub mod following;
mod referring;
