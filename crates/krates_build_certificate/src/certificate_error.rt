//! Why a certificate isn't read.

ghost use Rattle.std.specs.Prelude.{◌≡◌, ◌↔◌, IsTrue};
ghost use Rattle.krates_cm.specs.declared.read_error.ReadError.TheVariants as read_errors;
ghost use Rattle.krates_build_certificate.specs.declared.certificate_error.BuildCertificateError.TheVariants as errors;

use krates_cm::ReadError;
use std::alloc::AllocError;
use thiserror::Error;

/// What is wrong with a certificate that isn't read. If several refusals apply to it, it isn't specified which one is returned.
#[derive(Clone, Copy, Debug, Error)]
pub enum BuildCertificateError {
    /// The text isn't JSON (RFC 8259), or nests deeper than is read.
    #[error("not JSON, at line {line} column {column}")]
    NotJson {
        /// The line where that shows, from 1.
        line: usize,
        /// The column where that shows.
        column: usize,
    },
    /// A key is missing, or the value under it has another JSON type; or memory ran out.
    #[error("{0}")]
    Read(ReadError),
}

impl BuildCertificateError {
    /// Whether memory ran out. Time O(1).
    pub fn is_memory(&self) -> bool
        ensures { IsTrue result ↔ (self.now ≡ errors.Read read_errors.Memory) }
    {
        matches!(self, BuildCertificateError::Read(ReadError::Memory))
    }
}

impl From<ReadError> for BuildCertificateError {
    ghost from_gives = { λ cause e. e ≡ errors.Read cause };

    fn from(error: ReadError) -> BuildCertificateError {
        BuildCertificateError::Read(error)
    }
}

impl From<AllocError> for BuildCertificateError {
    ghost from_gives = { λ _ e. e ≡ errors.Read read_errors.Memory };

    fn from(_error: AllocError) -> BuildCertificateError {
        BuildCertificateError::Read(ReadError::Memory)
    }
}

impl From<serde_json::Error> for BuildCertificateError {
    ghost use Rattle.krates_build_certificate.specs.BuildCertificateTexts.{JsonBecomes};

    ghost from_gives = { JsonBecomes };

    fn from(error: serde_json::Error) -> BuildCertificateError {
        if error.is_memory() {
            return BuildCertificateError::Read(ReadError::Memory);
        }
        BuildCertificateError::NotJson {
            line: error.line(),
            column: error.column(),
        }
    }
}
