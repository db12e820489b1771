//! The graph of a document, and the packages that it doesn't keep.

ghost use Rattle.std.specs.Prelude.{◌≡◌, IfOk, IsTrue};

use crate::error::ReportError;
use krates::{KrateMatch, Krates, OnFilter, Package};
use krates_answers::kept::kept_crates;
use krates_answers::meaning::{Meant, Packages};
use krates_answers::naming::NamingError;
use std::alloc::{AllocError, Global};

/// A filter that keeps the packages that a build doesn't, as long as there is memory.
#[derive(Drop)]
pub(crate) struct Others {
    /// Those packages so far.
    pub(crate) packages: Vec<Package>,
    /// Whether there was memory for all of them.
    pub(crate) is_whole: bool,
}

impl OnFilter for Others {
    ghost use Rattle.std.specs.Prelude.{◌≡◌, ◌++◌, ◌∷◌, [], IsTrue};

    ghost filters = { λ old pkg new. IsTrue new.is_whole
        → (IsTrue old.is_whole × (new.packages.items ≡ old.packages.items ++ pkg ∷ [])) };

    fn filtered(&mut self, pkg: Package) {
        self.is_whole = self.packages.push(pkg).is_ok() && self.is_whole;
    }
}

impl Others {
    /// These and the graph that doesn't keep them, if there was memory for all of them.
    pub(crate) fn beside(self, krates: Krates) -> Result<Divided, ReportError>
        ensures graph { IfOk result (λ divided. divided.krates ≡ krates) }
        ensures others { IfOk result (λ divided. IsTrue self.is_whole × (divided.others ≡ self.packages)) }
    {
        let Others { packages, is_whole } = self;
        if is_whole {
            Ok(Divided {
                krates,
                others: packages,
            })
        } else {
            Err(ReportError::Memory)
        }
    }
}

/// The graph of a document and the packages that it doesn't keep.
#[derive(Drop)]
pub(crate) struct Divided {
    /// The graph.
    pub(crate) krates: Krates,
    /// The other packages, in the order of their ids.
    pub(crate) others: Vec<Package>,
}

impl Divided {
    /// The one kept crate that a word means.
    pub(crate) fn one(
        &self,
        alloc: Global,
        word: &str,
    ) -> Result<KrateMatch<'_, Package>, NamingError> {
        let kept = kept_crates(alloc, &self.krates)?;
        let others = references(alloc, &self.others)?;
        let packages = Packages {
            kept: &kept,
            others: &others,
        };
        packages.one(alloc, word)
    }

    /// The one package that a word means, kept or not.
    pub(crate) fn any(&self, alloc: Global, word: &str) -> Result<Meant<'_>, NamingError> {
        let kept = kept_crates(alloc, &self.krates)?;
        let others = references(alloc, &self.others)?;
        let packages = Packages {
            kept: &kept,
            others: &others,
        };
        packages.any(alloc, word)
    }
}

/// The packages, borrowed.
fn references(alloc: Global, packages: &[Package]) -> Result<Vec<&Package>, AllocError> {
    let mut references = Vec::new(alloc);
    for package in packages {
        references.push(package)?;
    }
    Ok(references)
}
