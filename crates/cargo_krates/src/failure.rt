//! Why there is no answer.

use krates_build_report::BuildReportError;
use krates_report::ReportError;

/// Why there is no answer.
#[derive(Debug, Drop, thiserror::Error)]
pub(crate) enum AnswerFailure {
    /// There is no document or target to answer about.
    #[error("{0}")]
    Host(#[from] krates_host::Failure),
    /// The question has no answer.
    #[error("{0}")]
    Refused(#[from] ReportError),
    /// The question has no answer by a build.
    #[error("{0}")]
    Build(#[from] BuildReportError),
}
