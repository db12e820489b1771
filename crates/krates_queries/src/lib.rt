//! The graph that a build keeps, and its queries.
#![tactic(auto)]

pub mod from_package;
pub mod kept;
pub mod laws;
pub mod numbers;
pub mod queries;
