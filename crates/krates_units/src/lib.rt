//! What cargo builds: the rules of it, as definitions in `specs/`, and the parts of a document and of a build that they speak
//! of. Which units a build has isn't decided here.
#![tactic(auto)]

mod form;
pub mod kinds;
pub mod laws;
mod lines;
pub mod machine;
pub mod setting;
pub mod sides;

pub use kinds::Mode;
pub use machine::{Machine, MachineError};
pub use setting::{BuildSetting, PackageSelection, Resolver, TargetFlags};
pub use sides::{Meeting, Side};
