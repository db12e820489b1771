//! Resolution: which crates, features and edges of a document are kept under a setting.
//!
//! The questions of the rules, which a search asks too, and the types of a selection are re-exported from the crates below.
#![tactic(auto)]

mod kept_crates;
mod references;
pub mod resolution;
mod roots;
mod saturation;

pub use krates_questions::{
    Availability, DepKind, Document, Ids, Need, NodePlace, Referent, RootChoice, Scope, Setting,
    admit, laws,
};
pub use krates_selection::{
    EnabledFeature, KeptEdge, NumberedFact, NumberedStep, Reason, Selection, ToggledFeature, Work,
};
pub use resolution::{NumberedSelection, select, select_in};
