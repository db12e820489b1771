//! Why a call has no answer.

ghost use Rattle.std.specs.Prelude.{◌≡◌};
ghost use Rattle.krates_foreign.specs.CallRefusalText.{IsOfListing, ListingErrorBecomes, refusal_text};
ghost use Rattle.krates_foreign.specs.Status.{status_of};
ghost use Rattle.krates_foreign.specs.declared.refusal.CallRefusal.TheVariants.{Memory};

use crate::status::Status;
use krates::cm::Error as ParseError;
use krates::{Error as BuildError, Kid};
use krates_cli::RunError;
use std::alloc::AllocError;
use std::fmt;

/// Why a call has no answer. Of several that are true the first counts, but memory may run out at each of them. It prints ids as they
/// are, and `hand_over` shows what is printed.
#[derive(Debug, Drop, thiserror::Error)]
pub enum CallRefusal {
    /// The words aren't UTF-8, or aren't options, or say more than a setting.
    Words,
    /// The id of the crate that is to be explained can't be read.
    Id,
    /// The document isn't UTF-8.
    Utf8,
    /// The text isn't a document.
    Parse(ParseError),
    /// The document has no graph of crates under the setting.
    Build(BuildError),
    /// The crate of this id, which is to be explained, isn't kept.
    NotKept(Kid),
    /// The certificate doesn't hold.
    Certificate(krates_verdict::Refusal),
    /// Memory ran out.
    Memory,
}

impl CallRefusal {
    /// Its status. Time O(1).
    pub fn status(&self) -> Status
        ensures { result ≡ status_of self.now }
    {
        match self {
            CallRefusal::Words => Status::Words,
            CallRefusal::Id => Status::Id,
            CallRefusal::Utf8 => Status::Utf8,
            CallRefusal::Parse(_) => Status::Parse,
            CallRefusal::Build(_) => Status::Build,
            CallRefusal::NotKept(_) => Status::NotKept,
            CallRefusal::Certificate(_) => Status::Certificate,
            CallRefusal::Memory => Status::Memory,
        }
    }

    /// That of a document that has no listing for this cause.
    pub(crate) fn of_listing(cause: RunError) -> CallRefusal
        requires { IsOfListing cause }
        ensures { ListingErrorBecomes cause result }
    {
        match cause {
            RunError::Build(cause) => CallRefusal::Build(cause),
            RunError::NotKept(krate) => CallRefusal::NotKept(krate),
            RunError::Memory => CallRefusal::Memory,
            _ => unreachable!(),
        }
    }
}

// By hand, since a clause says what is printed, and what a derive writes has none.
impl fmt::Display for CallRefusal {
    ghost output = { refusal_text };

    fn fmt<W: fmt::Write>(&self, f: &mut fmt::Formatter<W>) -> fmt::Result {
        match self {
            CallRefusal::Words => f.write_str("the options are not those of a setting"),
            CallRefusal::Id => f.write_str("the text is not a package id"),
            CallRefusal::Utf8 => f.write_str("the document is not UTF-8"),
            CallRefusal::Parse(cause) => write!(f, "{cause}"),
            CallRefusal::Build(cause) => write!(f, "{cause}"),
            CallRefusal::NotKept(krate) => write!(f, "not kept: {krate}"),
            CallRefusal::Certificate(cause) => write!(f, "{cause}"),
            CallRefusal::Memory => f.write_str("out of memory"),
        }
    }
}

impl From<ParseError> for CallRefusal {
    ghost use Rattle.krates_foreign.specs.CallRefusalText.{ParseErrorBecomes};

    ghost from_gives = { ParseErrorBecomes };

    fn from(error: ParseError) -> CallRefusal {
        match error {
            ParseError::Memory => CallRefusal::Memory,
            _ => CallRefusal::Parse(error),
        }
    }
}

impl From<BuildError> for CallRefusal {
    ghost use Rattle.krates_foreign.specs.CallRefusalText.{BuildErrorBecomes};

    ghost from_gives = { BuildErrorBecomes };

    fn from(error: BuildError) -> CallRefusal {
        match error {
            BuildError::Memory => CallRefusal::Memory,
            _ => CallRefusal::Build(error),
        }
    }
}

impl From<krates_verdict::Refusal> for CallRefusal {
    ghost use Rattle.krates_foreign.specs.CallRefusalText.{VerdictErrorBecomes};

    ghost from_gives = { VerdictErrorBecomes };

    fn from(error: krates_verdict::Refusal) -> CallRefusal {
        match error {
            krates_verdict::Refusal::Memory => CallRefusal::Memory,
            _ => CallRefusal::Certificate(error),
        }
    }
}

impl From<AllocError> for CallRefusal {
    ghost from_gives = { λ _ e. e ≡ Memory };

    fn from(_error: AllocError) -> CallRefusal {
        CallRefusal::Memory
    }
}
