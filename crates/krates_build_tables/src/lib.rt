//! What a document and a build say to the rules of what cargo builds, as tables in which each side condition is decided; and which
//! request of a build names nothing.
#![tactic(auto)]

mod contents;
mod features;
mod fitting;
mod given;
mod lacking;
mod leading;
mod links;
mod machines;
mod named;
mod package_names;
mod pairs;
mod pushing;
pub mod reference;
mod requests;
mod roots;
mod selection;
mod sides;
pub mod tables;
pub mod tables_of;
mod taken;
mod targets;
mod texts;
pub mod unanswered;

pub use reference::FeatureReference;
pub use tables::{CrateEntry, Lacking, Link, LinkPlace, Tables, TargetEntry, TargetPlace};
pub use unanswered::Unanswered;
