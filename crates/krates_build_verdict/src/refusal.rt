//! Why there is no verdict about a build.

ghost use Rattle.std.specs.Prelude.{◌≡◌, IfOk, map, option_map, string_bytes};
ghost use Rattle.krates_build_verdict.specs.ClaimRefusals.{TellsWord, place_of};
ghost use Rattle.krates_build_verdict.specs.RefusalCauses.{DocumentErrorBecomes, HasRequestText, ObjectionBecomes, TextErrorBecomes};
ghost use Rattle.krates_build_verdict.specs.declared.refusal.BuildRefusal.TheVariants.{Memory};

use krates_build_certificate::BuildCertificateError;
use krates_build_checkers::BuildCheckError;
use krates_build_naming::NameFault;
use krates_build_tables::Unanswered;
use krates_ids::Error;
use krates_shown::{Shown, ShownValue};
use krates_units::MachineError;
use std::alloc::{AllocError, AllocFailed, Global};
use std::fmt;

/// Why a certificate isn't found to hold of a document and a build. The first that is true counts. Memory may run out at each of them. What
/// comes from outside is printed as `Shown` shows it.
#[derive(Debug, Drop, thiserror::Error)]
pub enum BuildRefusal {
    /// What was read isn't UTF-8.
    #[error("the certificate is not UTF-8")]
    Utf8,
    /// The text isn't a certificate of a build.
    #[error("this is no certificate of a build: {0}")]
    Certificate(BuildCertificateError),
    /// The certificate is of another build.
    #[error("the certificate is of another build:{}", Words(.claimed))]
    Setting {
        /// The words under which it was made.
        claimed: Vec<String>,
    },
    /// It has a machine more or less.
    #[error("the certificate describes {found} machines, and the build has {wanted}")]
    Count {
        /// How many it has.
        found: usize,
        /// How many the build has, with the one that builds.
        wanted: usize,
    },
    /// It describes a machine in another way.
    #[error("the certificate describes the machine `{}` in another way", Shown(.triple.as_str()))]
    Machine {
        /// The triple of the machine.
        triple: String,
    },
    /// Its description of a machine isn't read.
    #[error("the certificate doesn't describe the machine `{}`: {cause}", Shown(.triple.as_str()))]
    NoMachine {
        /// The triple of the machine.
        triple: String,
        /// Which line.
        cause: MachineError,
    },
    /// The document can't be admitted.
    #[error("{}", ShownValue(.0))]
    Document(Error),
    /// A request of the build names nothing, so that cargo refuses it; the text says which.
    #[error("{0}")]
    Unanswered(String),
    /// The words of a fact name none.
    #[error("{part} {number} says nothing of the document and the build: {word}")]
    Unnamed {
        /// What has the fact: `step` or `fact`.
        part: &'static str,
        /// The number of that.
        number: usize,
        /// The word that names nothing.
        word: Wrong,
    },
    /// A step uses one that isn't before it.
    #[error("step {number} uses step {used}, which isn't before it")]
    Later {
        /// The number of the step.
        number: usize,
        /// The number that it uses.
        used: usize,
    },
    /// The document lacks what the build needs, as a fact says, so that nothing is said by what isn't among the facts.
    #[error("fact {0} says that the document has no edge for a dependency that the build needs")]
    Lost(usize),
    /// The checker says no.
    #[error("{}", Objection(*.0))]
    Check(BuildCheckError),
    /// Memory ran out.
    #[error("out of memory")]
    Memory,
}

impl BuildRefusal {
    /// The refusal of words that name no fact: those of the step or the fact of this number.
    pub(crate) fn unnamed(
        part: &'static str,
        number: usize,
        fault: NameFault,
        words: &[String],
    ) -> BuildRefusal
        ensures { TellsWord part.now number (place_of fault) (map string_bytes words.now) result }
    {
        let place = place_of(fault);
        match copied(words.get(place)) {
            Ok(text) => BuildRefusal::Unnamed {
                part,
                number,
                word: Wrong { place, text },
            },
            Err(_) => BuildRefusal::Memory,
        }
    }

    /// The refusal of a request that names nothing.
    pub(crate) fn unanswered(alloc: Global, request: Unanswered<'_>) -> BuildRefusal
        ensures { HasRequestText result }
    {
        match format!(in alloc; "{}", NoAnswer(request)) {
            Ok(text) => BuildRefusal::Unanswered(text),
            Err(_) => BuildRefusal::Memory,
        }
    }
}

/// A copy of a text, if there is one.
fn copied(text: Option<&String>) -> Result<Option<String>, AllocError>
    ensures { IfOk result (λ copy. option_map string_bytes copy
        ≡ option_map (λ t. string_bytes t.now) text.entry) }
{
    match text {
        Some(text) => Ok(Some(text.clone()?)),
        None => Ok(None),
    }
}

/// The place of the first word that names nothing.
fn place_of(fault: NameFault) -> usize
    ensures { result ≡ place_of fault }
{
    match fault {
        NameFault::Missing(place)
        | NameFault::Form(place)
        | NameFault::Crate(place)
        | NameFault::Meeting(place)
        | NameFault::Side(place)
        | NameFault::Mode(place)
        | NameFault::Reference(place)
        | NameFault::Link(place)
        | NameFault::Lacking(place)
        | NameFault::Target(place)
        | NameFault::Platform(place)
        | NameFault::Further(place) => place,
    }
}

/// A word that names nothing.
#[derive(Debug, Drop)]
pub struct Wrong {
    /// Its place among the words, from 0.
    pub place: usize,
    /// The word, if it is there.
    pub text: Option<String>,
}

/// Which word it is.
impl fmt::Display for Wrong {
    fn fmt<W: fmt::Write>(&self, f: &mut fmt::Formatter<W>) -> fmt::Result {
        match &self.text {
            Some(text) => write!(f, "its word {}, `{}`", self.place, Shown(text.as_str())),
            None => write!(f, "its word {} is missing", self.place),
        }
    }
}

/// The words under which a certificate was made.
#[derive(Clone, Copy)]
struct Words<'a>(&'a [String]);

/// Each word after a space, as it is shown, or ` no options` where there are none.
impl fmt::Display for Words<'_> {
    fn fmt<W: fmt::Write>(&self, f: &mut fmt::Formatter<W>) -> fmt::Result {
        if self.0.is_empty() {
            return f.write_str(" no options");
        }
        for word in self.0 {
            write!(f, " {}", Shown(word.as_str()))?;
        }
        Ok(())
    }
}

/// A request that names nothing.
#[derive(Clone, Copy)]
struct NoAnswer<'a>(Unanswered<'a>);

/// Which request it is.
impl fmt::Display for NoAnswer<'_> {
    fn fmt<W: fmt::Write>(&self, f: &mut fmt::Formatter<W>) -> fmt::Result {
        match self.0 {
            Unanswered::Package(spec) => write!(f, "no package fits `{}`", ShownValue(spec)),
            Unanswered::Selection => f.write_str("no package is asked for"),
            Unanswered::Feature(text) => {
                write!(
                    f,
                    "no package that is asked for has the feature `{}`",
                    Shown(text)
                )
            }
            Unanswered::FeatureFlag => {
                f.write_str("no member is asked for that could take the flags for features")
            }
        }
    }
}

/// Why a checker refuses a certificate.
#[derive(Clone, Copy)]
struct Objection(BuildCheckError);

/// Which step does not follow, or what else is wrong.
impl fmt::Display for Objection {
    fn fmt<W: fmt::Write>(&self, f: &mut fmt::Formatter<W>) -> fmt::Result {
        match self.0 {
            BuildCheckError::Empty => f.write_str("the derivation has no step"),
            BuildCheckError::Step(number) => write!(f, "step {number} does not follow"),
            BuildCheckError::Open => {
                f.write_str("something follows from the facts and isn't among them")
            }
            BuildCheckError::Memory => f.write_str("out of memory"),
        }
    }
}

impl From<BuildCertificateError> for BuildRefusal {
    ghost from_gives = { TextErrorBecomes };

    fn from(cause: BuildCertificateError) -> BuildRefusal {
        if cause.is_memory() {
            return BuildRefusal::Memory;
        }
        BuildRefusal::Certificate(cause)
    }
}

impl From<BuildCheckError> for BuildRefusal {
    ghost from_gives = { ObjectionBecomes };

    fn from(cause: BuildCheckError) -> BuildRefusal {
        match cause {
            BuildCheckError::Memory => BuildRefusal::Memory,
            cause => BuildRefusal::Check(cause),
        }
    }
}

impl From<Error> for BuildRefusal {
    ghost from_gives = { DocumentErrorBecomes };

    fn from(cause: Error) -> BuildRefusal {
        match cause {
            Error::Memory => BuildRefusal::Memory,
            cause => BuildRefusal::Document(cause),
        }
    }
}

impl From<AllocError> for BuildRefusal {
    ghost from_gives = { λ _ e. e ≡ Memory };

    fn from(_error: AllocError) -> BuildRefusal {
        BuildRefusal::Memory
    }
}

impl<T: Drop> From<AllocFailed<T>> for BuildRefusal {
    ghost from_gives = { λ _ e. e ≡ Memory };

    fn from(_error: AllocFailed<T>) -> BuildRefusal {
        BuildRefusal::Memory
    }
}
