//! Texts that someone else wrote, as a program shows them: nothing in them ends a line, moves the cursor or turns the direction.
#![tactic(auto)]

pub mod json;
pub mod laws;
pub mod shown;
pub mod value;

pub use json::ShownJson;
pub use shown::Shown;
pub use value::ShownValue;
