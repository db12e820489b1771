//! A document that is asked: its crates, nodes and features by number, its dependencies by name, and its answer to each of the questions
//! of the rules under a setting. Nothing here searches for what is kept.
#![tactic(auto)]

pub mod availability;
pub mod comparisons;
pub mod context;
pub mod crate_questions;
pub mod dependency_questions;
pub mod feature_table;
pub mod lookup;
pub mod name_index;
pub mod node_entry;
pub mod questions;
pub mod referent;
pub mod root_choice;

pub use availability::Availability;
pub use dependency_questions::Need;
pub use krates_document::{Ids, Setting, admit};
pub use krates_rules::{DepKind, Scope, laws};
pub use lookup::NodePlace;
pub use questions::Document;
pub use referent::Referent;
pub use root_choice::RootChoice;
