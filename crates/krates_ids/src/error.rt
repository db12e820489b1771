//! Why there is no graph of crates.

ghost use Rattle.std.specs.Prelude.{◌≡◌, Some};
ghost use Rattle.krates_ids.specs.ErrorTexts.{error_text, lost_text};
ghost use Rattle.krates_ids.specs.declared.error.Error.TheVariants.{Memory};

use crate::kid::Kid;
use std::alloc::{AllocError, AllocFailed};
use std::fmt;

/// Why a build has no graph. The first kind of refusal that applies to a document counts: no graph, then ids that
/// can't be read or occur twice, then what is lost, then no root.
#[derive(Debug, Drop, thiserror::Error)]
pub enum Error {
    /// The document has no resolved graph.
    NoResolveGraph,
    /// There is no document.
    Metadata(krates_cm::Error),
    /// A text isn't a package specification.
    InvalidPkgSpec(&'static str),
    /// No root is left to start from.
    NoRootKrates,
    /// A text of the document must be an id and isn't one, or is the id of a dependency without a semantic version.
    InvalidId(String),
    /// Two packages, two nodes or two dependencies of one node have this id.
    Doubled(Kid),
    /// The document lacks what its graph refers to.
    Lost(Lost),
    /// The graph has more nodes or edges than can be numbered.
    TooMany,
    /// Memory ran out.
    Memory,
}

/// What a document lacks.
#[derive(Debug, Drop, thiserror::Error)]
pub enum Lost {
    /// A root or a dependency that is needed has no package.
    Package(Kid),
    /// A root or a dependency that is needed has a package and no node.
    Node(Kid),
    /// A feature is required that the crate's node doesn't list.
    Feature {
        /// The crate that lacks it.
        krate: Kid,
        /// The name of the feature.
        name: String,
    },
    /// A dependency of a kept crate's node is declared nowhere in its package.
    Undeclared {
        /// The crate whose package lacks the declaration.
        krate: Kid,
        /// The dependency.
        dep: Kid,
    },
}

// By hand, since a clause says what is printed, and what a derive writes has none.
impl fmt::Display for Error {
    ghost output = { error_text };

    fn fmt<W: fmt::Write>(&self, f: &mut fmt::Formatter<W>) -> fmt::Result {
        match self {
            Error::NoResolveGraph => f.write_str("no resolution graph was provided"),
            Error::Metadata(cause) => write!(f, "{cause}"),
            Error::InvalidPkgSpec(what) => write!(f, "package spec was invalid: {what}"),
            Error::NoRootKrates => f.write_str("no root crates available"),
            Error::InvalidId(id) => write!(f, "invalid package id: {id}"),
            Error::Doubled(id) => write!(f, "doubled id: {id}"),
            Error::Lost(what) => write!(f, "{what}"),
            Error::TooMany => f.write_str("too many nodes or edges"),
            Error::Memory => f.write_str("out of memory"),
        }
    }
}

// By hand, since a clause says what is printed, and what a derive writes has none.
impl fmt::Display for Lost {
    ghost output = { λ lost. Some (lost_text lost) };

    fn fmt<W: fmt::Write>(&self, f: &mut fmt::Formatter<W>) -> fmt::Result {
        match self {
            Lost::Package(id) => write!(f, "lost package: {id}"),
            Lost::Node(id) => write!(f, "lost node: {id}"),
            Lost::Feature { krate, name } => write!(f, "lost feature: {name} of {krate}"),
            Lost::Undeclared { krate, dep } => {
                write!(f, "undeclared dependency: {dep} of {krate}")
            }
        }
    }
}

impl From<krates_cm::Error> for Error {
    ghost use Rattle.krates_ids.specs.MetadataError.{MetadataErrorBecomes};

    ghost from_gives = { MetadataErrorBecomes };

    fn from(error: krates_cm::Error) -> Error {
        match error {
            krates_cm::Error::Memory => Error::Memory,
            _ => Error::Metadata(error),
        }
    }
}

impl From<AllocError> for Error {
    ghost from_gives = { λ _ e. e ≡ Memory };

    fn from(_error: AllocError) -> Error {
        Error::Memory
    }
}

impl<T: Drop> From<AllocFailed<T>> for Error {
    ghost from_gives = { λ _ e. e ≡ Memory };

    fn from(_error: AllocFailed<T>) -> Error {
        Error::Memory
    }
}
