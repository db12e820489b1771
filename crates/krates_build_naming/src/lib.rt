//! Facts about a build by words, which name what they are about as a document does: crates by their id texts, links by their crates, kind,
//! target text and name, and targets by their crate, kind and name. They are read back against a document, whose order doesn't matter then.
#![tactic(auto)]

mod activating;
mod building;
pub mod fact;
pub mod laws;
mod linking;
mod links;
mod names;
mod parts;
mod places;
mod reading;
mod texts;
pub mod writing;
mod written_facts;
mod written_parts;

pub use fact::fact_named;
pub use names::{FactNames, NameFault};
pub use writing::words_of;
