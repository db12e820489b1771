//! Why there is no verdict.

ghost use Rattle.std.specs.Prelude.{◌≡◌, Some, map};
ghost use Rattle.krates_cm.specs.Document.{text_view};
ghost use Rattle.krates_verdict.specs.RefusalText.{CertificateErrorBecomes, CheckErrorBecomes, ReadErrorBecomes};
ghost use Rattle.krates_verdict.specs.RefusalText.{check_text, refusal_text, words_text};
ghost use Rattle.krates_verdict.specs.declared.refusal.Refusal.TheVariants.{Memory};

use krates_certificate::CertificateError;
use krates_checkers::CheckError;
use krates_shown::Shown;
use std::alloc::AllocError;
use std::{fmt, io};

/// Why a certificate isn't found to hold, or its verdict isn't written.
///
/// The first that is true counts. Memory may run out at each of them.
#[derive(Debug, Drop, thiserror::Error)]
pub enum Refusal {
    /// The reader failed.
    Read(io::Error),
    /// What was read isn't UTF-8.
    Utf8,
    /// The text isn't a certificate.
    Certificate(CertificateError),
    /// The certificate is of another setting.
    Setting {
        /// The words under which it was made.
        claimed: Vec<String>,
    },
    /// The checker says no.
    Check(CheckError),
    /// The writer failed. Some bytes may have been written.
    Write(io::Error),
    /// Memory ran out.
    Memory,
}

impl Refusal {
    /// The refusal of a run whose reader failed in this way.
    pub(crate) fn unread(cause: io::Error) -> Refusal
        ensures { ReadErrorBecomes cause result }
    {
        if cause.kind() == io::ErrorKind::OutOfMemory {
            Refusal::Memory
        } else {
            Refusal::Read(cause)
        }
    }
}

/// The words under which a certificate was made.
#[derive(Clone, Copy)]
struct Words<'a>(&'a [String]);

/// Each word after a space, as it is shown, or ` no options` where there are none.
impl fmt::Display for Words<'_> {
    ghost output = { λ words. Some (words_text (map text_view words.0.now)) };

    fn fmt<W: fmt::Write>(&self, f: &mut fmt::Formatter<W>) -> fmt::Result {
        if self.0.is_empty() {
            return f.write_str(" no options");
        }
        for word in self.0 {
            write!(f, " {}", Shown(word.as_str()))?;
        }
        Ok(())
    }
}

/// Why a checker refuses a certificate.
#[derive(Clone, Copy)]
struct Objection(CheckError);

/// Which step does not follow, or what else is wrong.
impl fmt::Display for Objection {
    ghost output = { λ objection. Some (check_text objection.0) };

    fn fmt<W: fmt::Write>(&self, f: &mut fmt::Formatter<W>) -> fmt::Result {
        match self.0 {
            CheckError::Document => f.write_str(
                "the document has no resolved graph, or an id that can't be read or stands twice",
            ),
            CheckError::Empty => f.write_str("the derivation has no step"),
            CheckError::Step(number) => write!(f, "step {number} does not follow"),
            CheckError::Memory => f.write_str("out of memory"),
            CheckError::Open => {
                f.write_str("something follows from the facts and isn't among them")
            }
        }
    }
}

// By hand, since a clause says what is printed, and what a derive writes has none.
impl fmt::Display for Refusal {
    ghost output = { refusal_text };

    fn fmt<W: fmt::Write>(&self, f: &mut fmt::Formatter<W>) -> fmt::Result {
        match self {
            Refusal::Read(cause) => write!(f, "the certificate can't be read: {cause}"),
            Refusal::Utf8 => f.write_str("the certificate is not UTF-8"),
            Refusal::Certificate(cause) => write!(f, "this is no certificate: {cause}"),
            Refusal::Setting { claimed } => write!(
                f,
                "the certificate is of another setting:{}",
                Words(claimed)
            ),
            Refusal::Check(cause) => write!(f, "{}", Objection(*cause)),
            Refusal::Write(cause) => write!(f, "the verdict can't be written: {cause}"),
            Refusal::Memory => f.write_str("out of memory"),
        }
    }
}

impl From<CertificateError> for Refusal {
    ghost from_gives = { CertificateErrorBecomes };

    fn from(cause: CertificateError) -> Refusal {
        if cause.is_memory() {
            return Refusal::Memory;
        }
        Refusal::Certificate(cause)
    }
}

impl From<CheckError> for Refusal {
    ghost from_gives = { CheckErrorBecomes };

    fn from(cause: CheckError) -> Refusal {
        match cause {
            CheckError::Memory => Refusal::Memory,
            _ => Refusal::Check(cause),
        }
    }
}

impl From<AllocError> for Refusal {
    ghost from_gives = { λ _ e. e ≡ Memory };

    fn from(_error: AllocError) -> Refusal {
        Refusal::Memory
    }
}
