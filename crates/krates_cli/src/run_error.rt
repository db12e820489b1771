//! Why a run has no answer.

ghost use Rattle.std.specs.Prelude.{◌≡◌};
ghost use Rattle.krates_cli.specs.declared.run_error.RunError.TheVariants.{Memory};

use krates::cm::Error as ParseError;
use krates::{Error as BuildError, Kid};
use std::alloc::AllocError;
use std::fmt;
use thiserror::Error;

/// Why a run wrote no lines, or not all of them.
///
/// The first that applies counts: a failed read, then bytes that aren't a text, a text that isn't a document, a document that
/// can't be built, a crate that it doesn't keep, then a failed write. Memory may run out at each of these.
#[derive(Debug, Drop, Error)]
pub enum RunError {
    /// A call of the reader failed.
    Read,
    /// What was read isn't UTF-8.
    Utf8,
    /// The text isn't a document.
    Parse(ParseError),
    /// The document has no graph of crates.
    Build(BuildError),
    /// A call of the writer failed, or took no byte. Some bytes may have been written.
    Write,
    /// Memory ran out.
    Memory,
    /// The crate of this id, which is to be explained, isn't kept.
    NotKept(Kid),
}

// By hand, since a clause says what is printed, and what a derive writes has none.
impl fmt::Display for RunError {
    ghost use Rattle.krates_cli.specs.RunError.{run_error_text};

    ghost output = { run_error_text };

    fn fmt<W: fmt::Write>(&self, f: &mut fmt::Formatter<W>) -> fmt::Result {
        match self {
            RunError::Read => f.write_str("read failed"),
            RunError::Utf8 => f.write_str("input is not UTF-8"),
            RunError::Parse(cause) => write!(f, "{cause}"),
            RunError::Build(cause) => write!(f, "{cause}"),
            RunError::Write => f.write_str("write failed"),
            RunError::Memory => f.write_str("out of memory"),
            RunError::NotKept(krate) => write!(f, "not kept: {krate}"),
        }
    }
}

impl From<ParseError> for RunError {
    ghost use Rattle.krates_cli.specs.RunError.{ParseErrorBecomes};

    ghost from_gives = { ParseErrorBecomes };

    fn from(error: ParseError) -> RunError {
        match error {
            ParseError::Memory => RunError::Memory,
            _ => RunError::Parse(error),
        }
    }
}

impl From<BuildError> for RunError {
    ghost use Rattle.krates_cli.specs.RunError.{BuildErrorBecomes};

    ghost from_gives = { BuildErrorBecomes };

    fn from(error: BuildError) -> RunError {
        match error {
            BuildError::Memory => RunError::Memory,
            _ => RunError::Build(error),
        }
    }
}

impl From<AllocError> for RunError {
    ghost from_gives = { λ _ e. e ≡ Memory };

    fn from(_error: AllocError) -> RunError {
        RunError::Memory
    }
}
