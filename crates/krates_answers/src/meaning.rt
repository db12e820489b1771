//! Which packages of a document a word means: those whose id it is, or for which it asks as a specification.

ghost use Rattle.std.specs.Prelude.{◌≡◌, ◌≤◌, ◌+◌, ◌↔◌, ◌++◌, None, IfOk, IsTrue, length, map};
ghost use Rattle.krates_cm.specs.Document.{id_view};
ghost use Rattle.krates_queries.specs.KrateNodes.{match_view};
ghost use Rattle.krates_rules.specs.Resolved.{ReadsAs, id_of};
ghost use Rattle.krates_answers.specs.Meaning.{AreParted, IsFaulty, IsMeantBy, ReadsIfAny, kept, kept_in, other, others_in};
ghost use Rattle.krates_answers.specs.Those.{AreThose};

use crate::pushing::{again, push};
use crate::word_specification::WordSpecification;
use krates::{IdError, Kid, KrateMatch, Package, PackageId};
use std::alloc::{AllocError, Global};

/// The packages of a document: those that are kept, and the others.
#[derive(Clone, Copy)]
pub struct Packages<'p, 'a> {
    /// Those that are kept, each with its number.
    pub kept: &'p [KrateMatch<'a, Package>],
    /// The others.
    pub others: &'p [&'a Package],
}

/// A package that a word means.
#[derive(Drop)]
pub enum Meant<'a> {
    /// It is kept.
    Kept(KrateMatch<'a, Package>),
    /// It isn't.
    Other(&'a Package),
}

/// By what a word means packages.
#[derive(Drop)]
pub(crate) enum Reading<'w> {
    /// It is their id.
    Id(&'w Kid),
    /// It asks for them.
    Specification(&'w WordSpecification),
}

impl Reading<'_> {
    /// Whether a kept crate is meant.
    fn means_kept(&self, found: &KrateMatch<'_, Package>) -> bool
        ensures { IsTrue result ↔ IsMeantBy self.now (kept (match_view found.now)) }
    {
        match self {
            Reading::Id(kid) => found.kid == *kid,
            Reading::Specification(asked) => asked.asks_for(found.krate),
        }
    }

    /// Whether a package that isn't kept is meant.
    fn means_other(&self, pkg: &Package) -> Result<bool, AllocError>
        ensures { IfOk result (λ is_meant. IsTrue is_meant ↔ IsMeantBy self.now (other pkg.now)) }
    {
        match self {
            Reading::Id(kid) => has_id(pkg, kid),
            Reading::Specification(asked) => Ok(asked.asks_for(pkg)),
        }
    }
}

/// Whether a package has an id.
fn has_id(pkg: &Package, kid: &Kid) -> Result<bool, AllocError>
    ensures { IfOk result (λ has. IsTrue has ↔ ReadsAs (id_view pkg.now.id) (id_of kid.now)) }
{
    match read_id(pkg.id.clone()?)? {
        Some(own) => Ok(own == *kid),
        None => Ok(false),
    }
}

/// The id that a word is, as cargo prints it, if it is one.
pub(crate) fn id_in(alloc: Global, word: &str) -> Result<Option<Kid>, AllocError>
    ensures { IfOk result (ReadsIfAny word.now) }
{
    let repr = String::from_str(alloc, word)?;
    read_id(PackageId { repr })
}

/// The id as which a text is read, if it is one.
fn read_id(id: PackageId) -> Result<Option<Kid>, AllocError>
    ensures { IfOk result (ReadsIfAny (id_view id)) }
{
    match Kid::try_from(id) {
        Ok(kid) => Ok(Some(kid)),
        Err(refusal) => no_id(refusal),
    }
}

/// No id, unless memory ran out while one was read.
fn no_id(refusal: IdError) -> Result<Option<Kid>, AllocError>
    ensures { IfOk result (λ found. (found ≡ None) × IsFaulty refusal) }
{
    match refusal {
        IdError::Opaque(_) | IdError::Stable(_) | IdError::Escape(_) => Ok(None),
        IdError::Memory(_) => Err(AllocError),
    }
}

/// Packages of a document that are meant.
#[derive(Drop)]
pub(crate) struct MeantPackages<'a> {
    /// Those that are kept, by number.
    pub kept: Vec<KrateMatch<'a, Package>>,
    /// Those that aren't, in their order.
    pub others: Vec<&'a Package>,
}

impl<'a> MeantPackages<'a> {
    /// Whether there is none.
    pub(crate) fn is_empty(&self) -> bool
        ensures { IsTrue result ↔ (length self.now.kept.items + length self.now.others.items ≡ 0) }
    {
        self.kept.is_empty() && self.others.is_empty()
    }

    /// Whether there is more than one.
    pub(crate) fn are_several(&self) -> bool
        ensures { IsTrue result ↔ (2 ≤ length self.now.kept.items + length self.now.others.items) }
    {
        self.kept.len() > 1
            || self.others.len() > 1
            || !(self.kept.is_empty() || self.others.is_empty())
    }

    /// Those that are kept.
    pub(crate) fn kept_packages(&self, alloc: Global) -> Result<Vec<&'a Package>, AllocError>
        ensures { IfOk result (λ packages. map (λ pkg. pkg.now) packages.items
            ≡ map (λ m. m.krate) (map match_view self.now.kept.items)) }
    {
        packages_of(alloc, &self.kept)
    }

    /// All of them, first those that are kept.
    pub(crate) fn packages(&self, alloc: Global) -> Result<Vec<&'a Package>, AllocError>
        ensures { IfOk result (λ packages. map (λ pkg. pkg.now) packages.items
            ≡ map (λ m. m.krate) (map match_view self.now.kept.items) ++ map (λ pkg. pkg.now) self.now.others.items) }
    {
        packages_of_all(alloc, &self.kept, &self.others)
    }
}

impl<'a> Packages<'_, 'a> {
    /// The packages that are meant by this.
    pub(crate) fn meant_by(
        &self,
        alloc: Global,
        reading: &Reading<'_>,
    ) -> Result<MeantPackages<'a>, AllocError>
        ensures { IfOk result (λ found. AreParted (IsMeantBy reading.now) self.now
            (map match_view found.kept.items) (map (λ pkg. pkg.now) found.others.items)) }
    {
        let kept = self.kept_by(alloc, reading)?;
        let others = self.others_by(alloc, reading)?;
        Ok(MeantPackages { kept, others })
    }

    /// The kept crates that are meant, by number.
    fn kept_by(
        &self,
        alloc: Global,
        reading: &Reading<'_>,
    ) -> Result<Vec<KrateMatch<'a, Package>>, AllocError>
        ensures { IfOk result (λ found. AreThose (λ m. IsMeantBy reading.now (kept m))
            (kept_in self.now) (map match_view found.items)) }
    {
        let mut meant = Vec::new(alloc);
        for found in self.kept {
            if reading.means_kept(found) {
                push(&mut meant, again(found))?;
            }
        }
        Ok(meant)
    }

    /// The other packages that are meant, in their order.
    fn others_by(
        &self,
        alloc: Global,
        reading: &Reading<'_>,
    ) -> Result<Vec<&'a Package>, AllocError>
        ensures { IfOk result (λ found. AreThose (λ pkg. IsMeantBy reading.now (other pkg))
            (others_in self.now) (map (λ pkg. pkg.now) found.items)) }
    {
        let mut meant = Vec::new(alloc);
        for pkg in self.others {
            if reading.means_other(pkg)? {
                meant.push(*pkg)?;
            }
        }
        Ok(meant)
    }
}

/// The packages of these crates.
fn packages_of<'a>(
    alloc: Global,
    crates: &[KrateMatch<'a, Package>],
) -> Result<Vec<&'a Package>, AllocError>
    ensures { IfOk result (λ packages. map (λ pkg. pkg.now) packages.items
        ≡ map (λ m. m.krate) (map match_view crates.now)) }
{
    crates.iter().map(|found| found.krate).collect(alloc)
}

/// The packages of these crates, and others behind them.
pub(crate) fn packages_of_all<'a>(
    alloc: Global,
    crates: &[KrateMatch<'a, Package>],
    others: &[&'a Package],
) -> Result<Vec<&'a Package>, AllocError>
    ensures { IfOk result (λ packages. map (λ pkg. pkg.now) packages.items
        ≡ map (λ m. m.krate) (map match_view crates.now) ++ map (λ pkg. pkg.now) others.now) }
{
    let mut packages = packages_of(alloc, crates)?;
    for pkg in others {
        packages.push(*pkg)?;
    }
    Ok(packages)
}
