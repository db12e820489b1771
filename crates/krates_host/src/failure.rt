//! Why there is no document, target, build or text.

use krates_cm::Error;
use krates_manifest::ManifestError;
use krates_shown::{Shown, ShownValue};
use krates_units::MachineError;
use std::alloc::{AllocError, AllocFailed, Global};
use std::process::ExitStatus;
use std::{fmt, io};

/// Why there is no document, target, build or text. What comes from outside is printed as `Shown` shows it.
#[derive(Debug, Drop, thiserror::Error)]
pub enum Failure {
    /// A file can't be read.
    #[error("{}: {cause}", Shown(.file.as_str()))]
    Unread {
        /// The path of the file, or what standard input is called.
        file: String,
        /// What the system says.
        cause: io::Error,
    },
    /// A file, standard input, or what a program printed is longer than the limit.
    #[error("{}: this is longer than {max_bytes} bytes, the limit that --max-bytes sets", Shown(.file.as_str()))]
    TooLong {
        /// The path of the file, or what the input is called.
        file: String,
        /// The limit.
        max_bytes: u64,
    },
    /// A file or what a program printed isn't UTF-8.
    #[error("{}: this isn't UTF-8", Shown(.file.as_str()))]
    NoText {
        /// The path of the file, or what printed it.
        file: String,
    },
    /// A file or what a program printed begins with a byte order mark, which JSON doesn't have.
    #[error("{}: this begins with a byte order mark; save it as UTF-8 without one", Shown(.file.as_str()))]
    Marked {
        /// The path of the file, or what printed it.
        file: String,
    },
    /// A file isn't a document.
    #[error("{}: {}", Shown(.file.as_str()), ShownValue(.cause))]
    NoDocument {
        /// The path of the file, or what standard input is called.
        file: String,
        /// Why it isn't one.
        cause: Error,
    },
    /// A program ended with a failure.
    #[error("`{}` failed ({status}){reason}", Shown(.program.as_str()))]
    ProgramFailed {
        /// The program.
        program: String,
        /// How it ended: with which status, or by which signal.
        status: ExitStatus,
        /// What it said.
        reason: Reason,
    },
    /// Cargo gave no document.
    #[error("{}", ShownValue(.0))]
    Cargo(Error),
    /// A program can't be run.
    #[error("can't run `{}`: {cause}{advice}", Shown(.program.as_str()))]
    NotRun {
        /// The program.
        program: String,
        /// What the system says.
        cause: io::Error,
        /// What would help.
        advice: &'static str,
    },
    /// A variable of the environment isn't UTF-8.
    #[error("the variable {0} isn't UTF-8")]
    Variable(&'static str),
    /// A target isn't known.
    #[error("unknown target `{}`: {}", Shown(.triple.as_str()), Shown(.reason.as_str()))]
    UnknownTarget {
        /// Its triple.
        triple: String,
        /// What rustc says.
        reason: String,
    },
    /// A file describes no target, or another one.
    #[error("{}: this doesn't describe the target `{}`", Shown(.file.as_str()), Shown(.triple.as_str()))]
    NoDescription {
        /// The path of the file.
        file: String,
        /// The triple of the target.
        triple: String,
    },
    /// What describes a machine has a line that is no cfg.
    #[error("{}: {cause}", Shown(.file.as_str()))]
    NoMachine {
        /// The path of the file, or what printed it.
        file: String,
        /// Which line.
        cause: MachineError,
    },
    /// The manifest of a workspace, which would say which resolver the workspace has, can't be read.
    #[error("{}: {cause}; say by --resolver 1, 2 or 3 which resolver the workspace has", Shown(.file.as_str()))]
    NoResolver {
        /// The path of the manifest.
        file: String,
        /// Why it isn't read.
        cause: NoManifest,
    },
    /// Rustc doesn't say what its host is.
    #[error("`{} -vV` prints no line that begins with `host: `", Shown(.program.as_str()))]
    NoHost {
        /// The program that was run as rustc.
        program: String,
    },
    /// Memory ran out.
    #[error("out of memory")]
    Memory,
}

impl Failure {
    /// The failure of a file that can't be read; `Memory` where that is the cause, or where there is none for the name of the file.
    /// Time O(length of the name).
    pub fn unread(alloc: Global, file: &str, cause: io::Error) -> Failure {
        match String::from_str(alloc, file) {
            Ok(file) if cause.kind() != io::ErrorKind::OutOfMemory => {
                Failure::Unread { file, cause }
            }
            _ => Failure::Memory,
        }
    }

    /// The failure of a program that ended with this status, and wrote this to standard error, of which U+FFFD stands for what isn't UTF-8.
    pub(crate) fn of_program(
        alloc: Global,
        program: &str,
        status: ExitStatus,
        errors: &[u8],
    ) -> Result<Failure, AllocError> {
        let reason = reason_in(alloc, errors)?;
        Ok(Failure::ProgramFailed {
            program: String::from_str(alloc, program)?,
            status,
            reason,
        })
    }
}

/// What a program wrote to standard error, without the word for an error at its beginning.
fn reason_in(alloc: Global, errors: &[u8]) -> Result<Reason, AllocError> {
    let errors = String::from_utf8_lossy(alloc, errors)?;
    let text = errors.trim();
    let text = text.strip_prefix("error: ").unwrap_or(text);
    Ok(Reason(String::from_str(alloc, text)?))
}

/// Why the manifest of a workspace doesn't say which resolver the workspace has.
#[derive(Debug, Drop, thiserror::Error)]
pub enum NoManifest {
    /// It can't be read.
    #[error("{0}")]
    Unread(io::Error),
    /// It is longer than the limit.
    #[error("this is longer than {0} bytes, the limit that --max-bytes sets")]
    TooLong(u64),
    /// It isn't UTF-8.
    #[error("this isn't UTF-8")]
    NoText,
    /// It begins with a byte order mark.
    #[error("this begins with a byte order mark")]
    Marked,
    /// It says nothing of it, or what is wrong.
    #[error("{0}")]
    Refused(ManifestError),
}

/// What a program said when it failed, which may be nothing.
#[derive(Debug, Drop)]
pub struct Reason(pub String);

/// A colon and its lines, each as `Shown` shows it and those after the first further in, so that none can be taken for one of ours; or
/// nothing.
impl fmt::Display for Reason {
    fn fmt<W: fmt::Write>(&self, f: &mut fmt::Formatter<W>) -> fmt::Result {
        for (number, line) in self.0.lines().enumerate() {
            let before = if number == 0 { ": " } else { "\n    " };
            write!(f, "{before}{}", Shown(line))?;
        }
        Ok(())
    }
}

impl From<AllocError> for Failure {
    fn from(_error: AllocError) -> Failure {
        Failure::Memory
    }
}

impl<T: Drop> From<AllocFailed<T>> for Failure {
    fn from(_error: AllocFailed<T>) -> Failure {
        Failure::Memory
    }
}

impl From<Error> for Failure {
    fn from(error: Error) -> Failure {
        match error {
            Error::Memory => Failure::Memory,
            _ => Failure::Cargo(error),
        }
    }
}
