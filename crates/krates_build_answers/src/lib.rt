//! Answers about what cargo builds, as values, each with its definition: which crates are built, and what for; which of them need which; what
//! each is used for; what is built twice; and what isn't built.
#![tactic(auto)]

pub mod built_crates;
mod each_once;
pub mod laws;
pub mod links;
pub mod positions;
pub mod twice;
pub mod unbuilt;
pub mod uses;

pub use built_crates::{BuiltCrate, BuiltCrates};
pub use links::{BuildLink, build_links};
pub use positions::link_positions;
pub use twice::built_twice;
pub use unbuilt::is_unbuilt;
pub use uses::{BuildUse, UsedCrate, build_uses};
