//! Writing the parts of a certificate as JSON values.

pub(crate) mod facts;
pub(crate) mod ids;
pub(crate) mod list;
pub(crate) mod names;
pub(crate) mod object;
