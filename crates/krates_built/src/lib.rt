//! What cargo builds for a document and a build, as lists in order: units, build scripts and their runs, needs and features; or why it can't
//! be said.
#![tactic(auto)]

mod features;
pub mod laws;
pub mod listed;
mod lists;
pub mod not_built;
pub mod places;
mod refusal;
pub mod units;
mod visit_order;

pub use listed::Listed;
pub use lists::Lists;
pub use not_built::NotBuilt;
pub use places::{FeaturePlace, LostPlace, NeedPlace, RunNeedPlace, RunPlace, ScriptPlace};
pub use units::{Units, units_of};
