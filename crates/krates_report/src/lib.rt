//! What is asked of a graph of crates by a person or a script, answered as text and as JSON, without input or output. The values are those
//! of `krates_answers`, what is asked is what `krates_words` reads, and the program `cargo-krates` prints the answers.
#![tactic(auto)]

pub mod absent;
pub mod answer;
pub mod bill;
pub mod builds;
mod component;
pub mod crate_name;
pub mod difference;
mod divided;
pub mod dot;
pub mod drawn_tree;
pub mod duplicates;
pub mod error;
pub mod feature_list;
pub mod json;
pub mod kept;
pub mod licence_expression;
pub mod lines;
mod mermaid;
pub mod order;
mod package_url;
pub mod picture;
pub mod reporter;
mod sentences;
pub mod tree;
mod walk;
pub mod why;

pub use error::ReportError;
pub use reporter::{Report, Reporter};
