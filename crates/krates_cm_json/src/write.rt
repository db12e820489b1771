//! Writing the document's types as JSON values.

pub mod metadata;
pub mod names;
pub mod object;
pub mod package;
pub mod resolve;
pub mod to_value;
pub mod values;
pub mod versions;

pub use to_value::ToValue;
