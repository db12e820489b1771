//! Why a package id is not read.

use krates_cm::PackageId;
use thiserror::Error;

/// Why a package id is not read; each error returns the id unchanged.
#[derive(Debug, Drop, Error)]
pub enum IdError {
    /// The text has a space, and is not of the opaque form.
    #[error("bad opaque id: {}", .0.repr)]
    Opaque(PackageId),
    /// The text has no space, and is not of the stable form.
    #[error("bad stable id: {}", .0.repr)]
    Stable(PackageId),
    /// A `%` in the query of a git source does not begin an escape of a byte that may be escaped.
    #[error("bad escape: {}", .0.repr)]
    Escape(PackageId),
    /// Memory ran out while the query of a git source was decoded.
    #[error("out of memory")]
    Memory(PackageId),
}
