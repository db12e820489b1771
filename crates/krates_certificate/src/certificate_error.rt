//! Why a certificate isn't read.

ghost use Rattle.std.specs.Prelude.{◌≡◌, ◌↔◌, IsTrue};
ghost use Rattle.krates_cm.specs.declared.read_error.ReadError.TheVariants as read_errors;
ghost use Rattle.krates_certificate.specs.CertificateRefusals.{IsMemory, fault_of};
ghost use Rattle.krates_certificate.specs.declared.certificate_error.CertificateError.TheVariants as errors;

use krates_cm::ReadError;
use std::alloc::{AllocError, AllocFailed};
use thiserror::Error;

/// What is wrong with a certificate that isn't read. If several refusals apply to it, it isn't specified which one is returned.
#[derive(Clone, Copy, Debug, Error)]
pub enum CertificateError {
    /// The text isn't JSON (RFC 8259), or nests deeper than is read.
    #[error("not JSON, at line {line} column {column}")]
    NotJson {
        /// The line where that shows, from 1.
        line: usize,
        /// The column where that shows.
        column: usize,
    },
    /// A key is missing, or the value under it has another JSON type; or memory ran out.
    #[error("{0}")]
    Read(ReadError),
    /// The text under this key isn't a package id.
    #[error("no package id at key: {0}")]
    BadId(&'static str),
    /// The text under this key is none of the names that are allowed there.
    #[error("unknown name at key: {0}")]
    UnknownName(&'static str),
    /// The number under this key is larger than the number of any rule.
    #[error("number above 255 at key: {0}")]
    TooLarge(&'static str),
}

impl CertificateError {
    /// Whether memory ran out. Time O(1).
    pub fn is_memory(&self) -> bool
        ensures { IsTrue result ↔ IsMemory (fault_of self.now) }
    {
        matches!(self, CertificateError::Read(ReadError::Memory))
    }
}

impl From<ReadError> for CertificateError {
    ghost from_gives = { λ cause e. e ≡ errors.Read cause };

    fn from(error: ReadError) -> CertificateError {
        CertificateError::Read(error)
    }
}

impl From<AllocError> for CertificateError {
    ghost from_gives = { λ _ e. e ≡ errors.Read read_errors.Memory };

    fn from(_error: AllocError) -> CertificateError {
        CertificateError::Read(ReadError::Memory)
    }
}

impl<T: Drop> From<AllocFailed<T>> for CertificateError {
    ghost from_gives = { λ _ e. e ≡ errors.Read read_errors.Memory };

    fn from(_error: AllocFailed<T>) -> CertificateError {
        CertificateError::Read(ReadError::Memory)
    }
}

impl From<serde_json::Error> for CertificateError {
    ghost use Rattle.krates_certificate.specs.CertificateRefusals.{JsonBecomes};

    ghost from_gives = { JsonBecomes };

    fn from(error: serde_json::Error) -> CertificateError {
        if error.is_memory() {
            return CertificateError::Read(ReadError::Memory);
        }
        CertificateError::NotJson {
            line: error.line(),
            column: error.column(),
        }
    }
}
