//! Two checkers that trust no search: of lists of steps by which facts follow, and of lists of facts that are closed.
#![tactic(auto)]

pub mod check_error;
pub mod checking;
mod closed;
mod corrected_copy;

pub use check_error::CheckError;
pub use checking::{check, check_closed};
