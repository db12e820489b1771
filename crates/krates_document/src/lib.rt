//! A document that is ready to be resolved: its ids read once, its crates numbered, and what the caller's setting says of it.
#![tactic(auto)]

pub mod admission;
pub mod comparisons;
pub mod corrected_document;
pub mod crate_table;
pub mod declared_dependency;
pub mod declared_source;
pub mod dependency_name;
pub mod folded_name;
pub mod ids;
pub mod named_places;
pub mod setting;
pub mod sorted;

pub use admission::admit;
pub use ids::Ids;
pub use setting::Setting;
