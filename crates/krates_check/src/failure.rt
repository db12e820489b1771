//! Why there is no yes.

use krates_build_verdict::BuildRefusal;
use krates_checkers::CheckError;
use krates_host::status::{NO, NO_ANSWER};
use krates_verdict::Refusal;
use std::alloc::AllocError;

/// Why there is no yes.
#[derive(Debug, Drop, thiserror::Error)]
pub(crate) enum CheckFailure {
    /// There is no document or target to check against.
    #[error("{0}")]
    Host(#[from] krates_host::Failure),
    /// The certificate doesn't hold, or isn't read.
    #[error("{0}")]
    Refused(#[from] Refusal),
    /// The certificate doesn't hold of the build, or isn't read.
    #[error("{0}")]
    Build(#[from] BuildRefusal),
    /// The certificate is one by krates, and is judged by build.
    #[error("this is a certificate by krates: write '--by krates' too")]
    OfKrates,
    /// The certificate is one by build, and is judged by krates.
    #[error("this is a certificate by build: leave '--by krates' out, or write '--by build'")]
    OfBuild,
    /// Memory ran out.
    #[error("out of memory")]
    Memory,
}

impl CheckFailure {
    /// The status with which the program ends: that of a no where the certificate is refused, and that of no answer where the document, a
    /// request, a machine, a stream or memory is at fault.
    pub(crate) fn status(&self) -> u8 {
        let is_no = match self {
            CheckFailure::Host(_) | CheckFailure::Memory => false,
            CheckFailure::Refused(cause) => is_of_certificate(cause),
            CheckFailure::Build(cause) => is_of_build_certificate(cause),
            CheckFailure::OfKrates | CheckFailure::OfBuild => true,
        };
        if is_no { NO } else { NO_ANSWER }
    }
}

/// Whether the certificate is at fault.
fn is_of_certificate(cause: &Refusal) -> bool {
    !matches!(
        cause,
        Refusal::Read(_)
            | Refusal::Check(CheckError::Document | CheckError::Memory)
            | Refusal::Write(_)
            | Refusal::Memory
    )
}

/// Whether the certificate of a build is at fault.
fn is_of_build_certificate(cause: &BuildRefusal) -> bool {
    !matches!(
        cause,
        BuildRefusal::Document(_)
            | BuildRefusal::Unanswered(_)
            | BuildRefusal::Lost(_)
            | BuildRefusal::Memory
    )
}

impl From<AllocError> for CheckFailure {
    fn from(_error: AllocError) -> CheckFailure {
        CheckFailure::Memory
    }
}
