//! What a word asks for, as cargo's `--package` takes it: a package specification whose version may lack its last numbers.

ghost use Rattle.std.specs.Prelude.{◌≡◌, ◌↔◌, IfErr, IfOk, IfSome, IsTrue, MatchOption, None, Some};
ghost use Rattle.krates_cm.specs.Document.{package_view};
ghost use Rattle.krates_ids.specs.PackageSpecification.{spec_view};
ghost use Rattle.semver.specs.Identifiers.{parts_of};
ghost use Rattle.krates_answers.specs.WordSpecification.{AskedPackages, AsksFor, AsksForNothing, BeginsWith, IsAskedFor, IsCompletedBy, IsNotCompletedBy, LacksNumbers, asked_view};
ghost use Rattle.krates_answers.specs.Naming.{IsUnread};

use crate::naming::NamingError;
use krates::semver::Version;
use krates::{Error, Package, PkgSpec};
use std::alloc::{AllocError, Global};

/// The first numbers of a version: the major one, and the minor one where that is given.
#[derive(Clone, Copy, Debug)]
pub(crate) struct FirstNumbers {
    /// The first.
    pub major: u64,
    /// The second.
    pub minor: Option<u64>,
}

impl FirstNumbers {
    /// Whether a version begins with these, and is no pre-release, which has to be named whole.
    fn begin(self, version: &Version) -> bool
        ensures { IsTrue result ↔ BeginsWith self (parts_of version.now) }
    {
        version.major == self.major
            && version.minor == self.minor.unwrap_or(version.minor)
            && version.pre.is_empty()
    }
}

/// What a word asks for.
#[derive(Debug, Drop)]
pub(crate) struct WordSpecification {
    /// The specification, without a version where the word has only the first numbers of one.
    pub spec: PkgSpec,
    /// These numbers.
    pub numbers: Option<FirstNumbers>,
}

/// A specification without its version, and that version.
#[derive(Drop)]
struct Completed {
    spec: PkgSpec,
    version: Version,
}

impl WordSpecification {
    /// What a word asks for: a package specification (Cargo Book, "Package ID Specifications"), whose version may lack its last
    /// number or its last two, as in `rand@0.8`. It is refused as `Unread`; it may instead return `Memory`. Time O(length).
    pub(crate) fn read(alloc: Global, word: &str) -> Result<WordSpecification, NamingError>
        ensures read { IfOk result (λ asked. AsksFor word.now (asked_view asked)) }
        ensures refused { IfErr result (IsUnread word.now) }
    {
        let what = match PkgSpec::from_str(alloc, word) {
            Ok(spec) => {
                return Ok(WordSpecification {
                    spec,
                    numbers: None,
                });
            }
            Err(Error::InvalidPkgSpec(what)) => what,
            // beside that only memory can be lacking
            Err(_) => return Err(NamingError::Memory),
        };
        match lacking_numbers(alloc, word)? {
            Some(asked) => Ok(asked),
            None => Err(unread(alloc, word, what)?),
        }
    }

    /// Whether it asks for a package. Takes no memory. Time O(length of the texts that are compared).
    pub(crate) fn asks_for(&self, pkg: &Package) -> bool
        ensures { IsTrue result ↔ IsAskedFor (asked_view self.now) (package_view pkg.now) }
    {
        self.spec.matches(pkg) && self.has_version_of(pkg)
    }
}

impl WordSpecification {
    /// Whether a package has the version, as far as the word has one outside of the specification.
    fn has_version_of(&self, pkg: &Package) -> bool
        ensures { IsTrue result ↔ IfSome self.now.numbers (λ numbers. BeginsWith numbers (parts_of pkg.now.version)) }
    {
        match self.numbers {
            Some(numbers) => numbers.begin(&pkg.version),
            None => true,
        }
    }
}

impl Completed {
    /// What is asked for where only these numbers of the version are given.
    fn with(self, numbers: FirstNumbers) -> WordSpecification
        ensures { asked_view result ≡ record { spec = spec_view self.spec; numbers = Some numbers } }
    {
        WordSpecification {
            spec: self.spec,
            numbers: Some(numbers),
        }
    }
}

/// The specification that a word is with these zeros at its end, if it is one that has a version.
fn with_zeros(alloc: Global, word: &str, zeros: &str) -> Result<Option<Completed>, AllocError>
    ensures { IfOk result (λ found. MatchOption found (IsNotCompletedBy zeros.now word.now)
        (λ whole. IsCompletedBy zeros.now word.now (spec_view whole.spec) (parts_of whole.version))) }
{
    let text = format!(in alloc; "{word}{zeros}")?;
    match PkgSpec::from_str(alloc, text.as_str()) {
        Ok(spec) => Ok(without_version(spec)),
        Err(Error::InvalidPkgSpec(_)) => Ok(None),
        // beside that only memory can be lacking
        Err(_) => Err(AllocError),
    }
}

/// A specification without its version, and that version, if it has one.
fn without_version(spec: PkgSpec) -> Option<Completed>
    ensures { MatchOption result (spec.version ≡ None) (λ whole. (whole.spec ≡ record spec { version = None })
        × (spec.version ≡ Some whole.version)) }
{
    let PkgSpec { name, version, url } = spec;
    match version {
        Some(version) => {
            let spec = PkgSpec {
                name,
                version: None,
                url,
            };
            Some(Completed { spec, version })
        }
        None => None,
    }
}

/// What a word asks for whose version lacks its last numbers, if it is such a word.
fn lacking_numbers(alloc: Global, word: &str) -> Result<Option<WordSpecification>, AllocError>
    ensures { IfOk result (λ found. MatchOption found ((asked : AskedPackages) → LacksNumbers word.now asked → ⊥)
        (λ asked. LacksNumbers word.now (asked_view asked))) }
{
    if let Some(whole) = with_zeros(alloc, word, ".0")? {
        let numbers = FirstNumbers {
            major: whole.version.major,
            minor: Some(whole.version.minor),
        };
        return Ok(Some(whole.with(numbers)));
    }
    match with_zeros(alloc, word, ".0.0")? {
        Some(whole) => {
            let numbers = FirstNumbers {
                major: whole.version.major,
                minor: None,
            };
            Ok(Some(whole.with(numbers)))
        }
        None => Ok(None),
    }
}

/// The refusal of a word that asks for nothing, for this reason.
fn unread(alloc: Global, word: &str, what: &str) -> Result<NamingError, AllocError>
    requires { AsksForNothing word.now what.now }
    ensures { IfOk result (IsUnread word.now) }
{
    let word = String::from_str(alloc, word)?;
    let what = String::from_str(alloc, what)?;
    Ok(NamingError::Unread { word, what })
}
