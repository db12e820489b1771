//! Reading the document's types from JSON values.

pub mod dependency;
pub mod fields;
pub mod from_value;
pub mod metadata;
pub mod package;
pub mod resolve;
pub mod target;
pub mod values;
pub mod versions;

pub use from_value::FromValue;
