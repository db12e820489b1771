//! What a program does on its machine: its words, the documents, targets and builds that they name, and what it prints and says.
#![tactic(auto)]

pub mod build;
mod colours;
pub mod configuration;
pub mod document;
pub mod failure;
mod flags;
pub mod inputs;
pub mod machines;
mod printed;
pub mod program;
mod reading;
pub mod resolver;
mod running;
mod rustc;
pub mod shell;
pub mod status;
pub mod targets;
mod wrapped;

pub use failure::Failure;
pub use inputs::Inputs;
pub use shell::Shell;
