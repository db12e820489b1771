//! The document of `cargo metadata --format-version 1` as JSON: how its types are read, and how they are written. They are read from JSON
//! values of two kinds by one trait: those of `serde_json`, and those that borrow their texts from the text that was parsed.
#![tactic(auto)]

pub mod borrowed;
mod by_item;
pub mod document;
pub mod json_ref;
pub mod laws;
pub mod owned;
pub mod parsed;
mod parsing;
pub mod range;
pub mod read;
pub mod write;

pub use borrowed::Borrowed;
pub use document::parse;
pub use json_ref::JsonRef;
pub use owned::Owned;
pub use parsed::Parsed;
pub use read::FromValue;
pub use write::ToValue;
