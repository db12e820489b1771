//! Why there is no answer.

use krates::Error;
use krates::derive::CheckError;
use krates_answers::naming::NamingError;
use krates_shown::ShownValue;
use std::alloc::{AllocError, AllocFailed};
use std::fmt;

/// Why what is asked isn't answered.
#[derive(Debug, Drop, thiserror::Error)]
pub enum ReportError {
    /// The document can't be built.
    #[error("{}", DocumentFault(.0))]
    Build(Error),
    /// A word doesn't mean one package.
    #[error("{0}")]
    Naming(NamingError),
    /// The checker doesn't say yes.
    #[error("the checker refuses the facts of the build: {0}")]
    Check(CheckError),
    /// A second document is required, and there is none.
    #[error("there is no second document")]
    NoOther,
    /// Memory ran out.
    #[error("out of memory")]
    Memory,
}

/// Why a document has no answer, as people are told.
#[derive(Clone, Copy)]
pub struct DocumentFault<'a>(pub &'a Error);

/// The cause, as `ShownValue` shows it; and where the document has no graph, how it is written with one.
impl fmt::Display for DocumentFault<'_> {
    fn fmt<W: fmt::Write>(&self, f: &mut fmt::Formatter<W>) -> fmt::Result {
        write!(f, "{}", ShownValue(self.0))?;
        match self.0 {
            Error::NoResolveGraph => {
                f.write_str("; `cargo metadata --format-version 1` writes one, without --no-deps")
            }
            _ => Ok(()),
        }
    }
}

impl From<AllocError> for ReportError {
    fn from(_: AllocError) -> ReportError {
        ReportError::Memory
    }
}

impl<T: Drop> From<AllocFailed<T>> for ReportError {
    fn from(_: AllocFailed<T>) -> ReportError {
        ReportError::Memory
    }
}

impl From<Error> for ReportError {
    fn from(cause: Error) -> ReportError {
        match cause {
            Error::Memory => ReportError::Memory,
            cause => ReportError::Build(cause),
        }
    }
}

impl From<NamingError> for ReportError {
    fn from(cause: NamingError) -> ReportError {
        match cause {
            NamingError::Memory => ReportError::Memory,
            cause => ReportError::Naming(cause),
        }
    }
}

impl From<CheckError> for ReportError {
    fn from(cause: CheckError) -> ReportError {
        match cause {
            CheckError::Memory => ReportError::Memory,
            cause => ReportError::Check(cause),
        }
    }
}
