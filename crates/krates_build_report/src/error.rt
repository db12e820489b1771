//! Why there is no answer about a build.

use krates::Error;
use krates_answers::naming::NamingError;
use krates_build_checkers::BuildCheckError;
use krates_built::NotBuilt;
use krates_report::error::DocumentFault;
use krates_shown::Shown;
use std::alloc::{AllocError, AllocFailed, Global};
use std::fmt;

/// Why what is asked about a build isn't answered. What comes from outside is printed as `Shown` shows it.
#[derive(Debug, Drop)]
pub enum BuildReportError {
    /// The document can't be admitted.
    Document(Error),
    /// It isn't said what cargo builds; the text says why.
    NotBuilt(String),
    /// The document has no edge for a dependency that the build needs; the text names it.
    Lost(String),
    /// A word doesn't mean one package that is built.
    Naming(NamingError),
    /// The checker doesn't say yes.
    Check(BuildCheckError),
    /// No words name a fact alone, as a certificate has to: what it is about is named as something else is.
    Unnamed(String),
    /// A second document is required, and there is none.
    NoOther,
    /// The word isn't answered by build.
    NoAnswer,
    /// Memory ran out.
    Memory,
}

impl BuildReportError {
    /// The refusal that this is, with its text.
    pub(crate) fn of_build(
        alloc: Global,
        refusal: &NotBuilt<'_>,
    ) -> Result<BuildReportError, AllocError> {
        match refusal {
            NotBuilt::Memory => Ok(BuildReportError::Memory),
            NotBuilt::Lost { .. } => { Ok(BuildReportError::Lost(format!(in alloc; "{refusal}")?)) }
            NotBuilt::NamesNothing(_) | NotBuilt::DependsOnOrder { .. } => {
                Ok(BuildReportError::NotBuilt(format!(in alloc; "{refusal}")?))
            }
        }
    }
}

/// Writes each of these below the line.
fn write_each<W: fmt::Write>(f: &mut fmt::Formatter<W>, texts: &[String]) -> fmt::Result {
    for text in texts {
        write!(f, "\n    {}", Shown(text.as_str()))?;
    }
    Ok(())
}

impl fmt::Display for BuildReportError {
    fn fmt<W: fmt::Write>(&self, f: &mut fmt::Formatter<W>) -> fmt::Result {
        match self {
            BuildReportError::Document(cause) => write!(f, "{}", DocumentFault(cause)),
            BuildReportError::NotBuilt(text) => f.write_str(text.as_str()),
            BuildReportError::Lost(text) => write!(
                f,
                "{text}\nask cargo for the document with --all-features and the --features of the build"
            ),
            BuildReportError::Naming(NamingError::NotKept { word, packages }) => {
                let word = Shown(word.as_str());
                write!(f, "cargo doesn't build `{word}`, which means:")?;
                write_each(f, packages)
            }
            BuildReportError::Naming(cause) => write!(f, "{cause}"),
            BuildReportError::Check(cause) => {
                write!(f, "the checker refuses the facts of the build: {cause}")
            }
            BuildReportError::Unnamed(fact) => {
                write!(f, "no words name this fact alone: {}", Shown(fact.as_str()))
            }
            BuildReportError::NoOther => f.write_str("there is no second document"),
            BuildReportError::NoAnswer => {
                f.write_str("this word isn't answered by build: write --by krates")
            }
            BuildReportError::Memory => f.write_str("out of memory"),
        }
    }
}

impl From<AllocError> for BuildReportError {
    fn from(_: AllocError) -> BuildReportError {
        BuildReportError::Memory
    }
}

impl<T: Drop> From<AllocFailed<T>> for BuildReportError {
    fn from(_: AllocFailed<T>) -> BuildReportError {
        BuildReportError::Memory
    }
}

impl From<Error> for BuildReportError {
    fn from(cause: Error) -> BuildReportError {
        match cause {
            Error::Memory => BuildReportError::Memory,
            cause => BuildReportError::Document(cause),
        }
    }
}

impl From<NamingError> for BuildReportError {
    fn from(cause: NamingError) -> BuildReportError {
        match cause {
            NamingError::Memory => BuildReportError::Memory,
            cause => BuildReportError::Naming(cause),
        }
    }
}

impl From<BuildCheckError> for BuildReportError {
    fn from(cause: BuildCheckError) -> BuildReportError {
        match cause {
            BuildCheckError::Memory => BuildReportError::Memory,
            cause => BuildReportError::Check(cause),
        }
    }
}
