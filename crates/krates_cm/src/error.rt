//! Why there is no metadata.

ghost use Rattle.std.specs.Prelude.{◌≡◌};
ghost use Rattle.krates_cm.specs.declared.error.Error.TheVariants as errors;

use crate::read_error::ReadError;
use std::alloc::AllocError;
use std::io;
use std::str::Utf8Error;

/// Why a call that runs `cargo metadata` or reads its output gives no document.
#[derive(Debug, Drop, thiserror::Error)]
pub enum Error {
    /// Cargo ended with a failure, and wrote this to standard error.
    #[error("`cargo metadata` exited with an error: {stderr}")]
    CargoMetadata {
        /// What cargo wrote.
        stderr: String,
    },
    /// Cargo couldn't be run.
    #[error("failed to start `cargo metadata`: {0}")]
    Io(io::Error),
    /// What cargo wrote to standard output isn't UTF-8.
    #[error("cannot convert the stdout of `cargo metadata`: {0}")]
    Utf8(Utf8Error),
    /// What cargo wrote to standard error isn't UTF-8.
    #[error("cannot convert the stderr of `cargo metadata`: {0}")]
    ErrUtf8(Utf8Error),
    /// A text isn't JSON (RFC 8259), or nests deeper than is read.
    #[error("failed to interpret `cargo metadata`'s json: {0}")]
    Json(serde_json::Error),
    /// No line of cargo's output begins a JSON object.
    #[error("could not find any json in the output of `cargo metadata`")]
    NoJson,
    /// A JSON value isn't read as metadata.
    #[error("failed to interpret `cargo metadata`'s json: {0}")]
    Value(ReadError),
    /// All features, or only those named, were requested twice.
    #[error("features given twice")]
    FeaturesTwice,
    /// The path of a manifest has no parent.
    #[error("manifest path without parent")]
    NoManifestParent,
    /// Memory ran out.
    #[error("out of memory")]
    Memory,
}

impl From<AllocError> for Error {
    ghost from_gives = { λ _ e. e ≡ errors.Memory };

    fn from(_error: AllocError) -> Error {
        Error::Memory
    }
}

impl From<io::Error> for Error {
    ghost from_gives = { λ cause e. e ≡ errors.Io cause };

    fn from(error: io::Error) -> Error {
        Error::Io(error)
    }
}

impl From<Utf8Error> for Error {
    ghost from_gives = { λ cause e. e ≡ errors.Utf8 cause };

    fn from(error: Utf8Error) -> Error {
        Error::Utf8(error)
    }
}

impl From<serde_json::Error> for Error {
    ghost use Rattle.krates_cm.specs.Errors.{JsonBecomes};

    ghost from_gives = { JsonBecomes };

    fn from(error: serde_json::Error) -> Error {
        if error.is_memory() {
            Error::Memory
        } else {
            Error::Json(error)
        }
    }
}

impl From<ReadError> for Error {
    ghost use Rattle.krates_cm.specs.Errors.{ReadErrorBecomes};

    ghost from_gives = { ReadErrorBecomes };

    fn from(error: ReadError) -> Error {
        match error {
            ReadError::Memory => Error::Memory,
            _ => Error::Value(error),
        }
    }
}
