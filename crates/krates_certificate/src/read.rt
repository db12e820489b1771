//! Reading the parts of a certificate from JSON values.

pub(crate) mod facts;
pub(crate) mod fields;
