//! What has to be trusted about resolution, and nothing else: a document seen by package id, a setting, the seven rules, what is
//! derivable, and which documents are admitted. Also the laws that hold of these definitions, whatever the code does, the
//! types in which a caller gives facts and steps, and how these are printed.
#![tactic(auto)]

pub mod derivation;
mod derivation_texts;
pub mod kind;
pub mod laws;
pub mod uses;

pub use derivation::{Derivation, Fact, Step};
pub use kind::{DepKind, Scope};
pub use uses::Uses;
