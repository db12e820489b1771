//! Why a JSON value isn't read.

ghost use Rattle.std.specs.Prelude.{◌≡◌};
ghost use Rattle.krates_cm.specs.declared.read_error.ReadError.TheVariants.{Memory};

use std::alloc::{AllocError, AllocFailed};
use thiserror::Error;

/// What is wrong with a JSON value that isn't read. If several refusals apply to a value, it isn't specified which one is returned.
#[derive(Clone, Copy, Debug, Error)]
pub enum ReadError {
    /// An object lacks this key.
    #[error("missing key: {0}")]
    Missing(&'static str),
    /// The value under this key, or one in the list under it, has another JSON type, or is null where
    /// null isn't allowed. The key is empty for the whole value.
    #[error("wrong type at key: {0}")]
    WrongType(&'static str),
    /// A text isn't a semantic version.
    #[error("bad version")]
    BadVersion,
    /// A text isn't a version requirement.
    #[error("bad version requirement")]
    BadReq,
    /// A text isn't the name of a dependency kind.
    #[error("bad dependency kind")]
    BadKind,
    /// A text isn't the name of a target kind.
    #[error("bad target kind")]
    BadTargetKind,
    /// A text isn't the name of a crate type.
    #[error("bad crate type")]
    BadCrateType,
    /// A text isn't the name of an edition.
    #[error("bad edition")]
    BadEdition,
    /// A text isn't a version of Rust.
    #[error("bad rust version")]
    BadRustVersion,
    /// Memory ran out.
    #[error("out of memory")]
    Memory,
}

impl From<AllocError> for ReadError {
    ghost from_gives = { λ _ e. e ≡ Memory };

    fn from(_error: AllocError) -> ReadError {
        ReadError::Memory
    }
}

impl<T: Drop> From<AllocFailed<T>> for ReadError {
    ghost from_gives = { λ _ e. e ≡ Memory };

    fn from(_error: AllocFailed<T>) -> ReadError {
        ReadError::Memory
    }
}
