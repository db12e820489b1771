//! What is asked about what cargo builds, answered as text and as JSON, without input or output. The values are those of
//! `krates_build_answers`, what is asked is what `krates_words` reads, and the program `cargo-krates` prints the answers.
#![tactic(auto)]

mod bill;
pub mod build;
mod certificate;
pub mod error;
mod features;
mod list;
mod places;
pub mod reporter;
mod sentences;
mod stated;
mod unbuilt;
mod uses;
mod why;

pub use error::BuildReportError;
pub use reporter::BuildReporter;
