//! Two checkers of what is said about what cargo builds: of lists of steps by which facts follow, and of lists of facts that are closed. They
//! share no function with what decides which facts follow.
#![tactic(auto)]

pub mod build_check_error;
pub mod checking;
pub mod closed;
mod given;
mod initial;
pub mod laws;
mod linking;
mod rows;
mod runs;
mod same;
mod sides;
mod sought;
mod units;

pub use build_check_error::BuildCheckError;
pub use checking::check_built;
pub use closed::check_built_closed;
