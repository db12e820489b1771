//! Facts about a build by number, what they mean, and the instances of the rules of what cargo builds that tables have.
#![tactic(auto)]

pub mod facts;
pub mod laws;
pub mod steps;

pub use facts::{BuildFact, PlacementNumber, PlatformNumber, UnitPlace};
pub use steps::BuildStep;
