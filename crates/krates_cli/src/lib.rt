//! The command line of `krates-list`: what `main` does, over any reader and writers.
#![tactic(auto)]

pub mod command_line;
pub mod counted;
mod failed_call;
pub mod laws;
mod lines;
mod listed;
pub mod listing;
pub mod options;
mod reported;
pub mod run_error;
mod why_kept;

pub use command_line::{program, refuse_words};
pub use counted::Counted;
pub use listed::Listed;
pub use listing::{listing_of, run, run_by_cargo};
pub use options::{Options, OptionsError, kid_of, options_of, targets_of};
pub use run_error::RunError;
