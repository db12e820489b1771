//! The command `cargo metadata`: what is asked of it, the words that it is run with, and what is read from its output.
#![tactic(auto)]

pub mod cargo_options;
pub mod command;
mod output;
mod running;
mod words;

pub use cargo_options::{Cmd, LockOptions};
pub use command::{Features, MetadataCommand};
