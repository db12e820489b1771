//! What a search found of a document under a setting, the steps by which it did, and the derivations made from them.
//!
//! What a search found is a selection: what is kept, in which order, and how much work it was, with a step for each fact. The crate that resolves
//! makes it; what is drawn or asked of a graph needs no more than what is said here.
//!
//! A build keeps the steps: each fact once, by the numbers of the kept crates. From these the derivation of one fact is made, with ids.
//! Parts of lists of steps are made by number alone: those on which one step depends, and the first step of each fact. What a step says is
//! another's concern: a part of a list of steps that follow follows too, whatever they say.
#![tactic(auto)]

pub mod comparisons;
mod explaining;
pub mod kept;
pub mod kept_tables;
mod key;
mod part_of_steps;
pub mod selection;
pub mod trace;
pub mod work;

pub use kept::{CrateOrFeature, Explanation, KeptFact, KeptStep, step_of};
pub use selection::{EnabledFeature, KeptEdge, Selection, ToggledFeature};
pub use trace::{NumberedFact, NumberedStep, Reason};
pub use work::Work;
