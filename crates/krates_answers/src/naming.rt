//! Which crate a word means, or why it doesn't mean one.

ghost use Rattle.std.specs.Prelude.{◌≡◌, ◌≤◌, ◌+◌, ◌∷◌, [], IfErr, IfOk, length, map};
ghost use Rattle.krates_cm.specs.declared.package.Package.{Package};
ghost use Rattle.krates_queries.specs.KrateNodes.{Match, match_view};
ghost use Rattle.krates_answers.specs.Meaning.{AreParted, DocumentPackage, IsNoId, Means, MeansKept, kept_in, meant_view, packages_in};
ghost use Rattle.krates_answers.specs.Naming.{MeansNone, MeansNotOne, MeansNotOneKept, TellsNotKept, TellsSeveral, TellsUnknown, all_of};
ghost use Rattle.krates_answers.specs.Those.{AreThose};
ghost use Rattle.krates_answers.specs.declared.naming.NamingError.TheVariants.{Memory};

use crate::meaning::{Meant, MeantPackages, Packages, Reading, id_in, packages_of_all};
use crate::package_text::texts_among;
use crate::similar::near;
use crate::word_specification::WordSpecification;
use krates::{KrateMatch, Package};
use krates_shown::Shown;
use std::alloc::{AllocError, AllocFailed, Global};
use std::fmt;

/// Why a word doesn't mean one package.
#[derive(Debug, Drop, thiserror::Error)]
pub enum NamingError {
    /// The word isn't a package specification, for this reason.
    Unread {
        /// The word.
        word: String,
        /// What is wrong.
        what: String,
    },
    /// No package of the document fits.
    Unknown {
        /// The word.
        word: String,
        /// What is similar, as specifications.
        near: Vec<String>,
    },
    /// Packages of the document fit, and none of them is kept.
    NotKept {
        /// The word.
        word: String,
        /// The packages, as specifications.
        packages: Vec<String>,
    },
    /// Several kept crates fit.
    Several {
        /// The word.
        word: String,
        /// Each of them, as a specification that fits no other.
        specs: Vec<String>,
    },
    /// Memory ran out.
    Memory,
}

impl From<AllocError> for NamingError {
    ghost from_gives = { λ _ error. error ≡ Memory };

    fn from(_: AllocError) -> NamingError {
        NamingError::Memory
    }
}

impl<T: Drop> From<AllocFailed<T>> for NamingError {
    ghost from_gives = { λ _ error. error ≡ Memory };

    fn from(_: AllocFailed<T>) -> NamingError {
        NamingError::Memory
    }
}

/// Writes each of these below the line.
fn write_each<W: fmt::Write>(f: &mut fmt::Formatter<W>, texts: &[String]) -> fmt::Result {
    for text in texts {
        write!(f, "\n    {}", Shown(text.as_str()))?;
    }
    Ok(())
}

/// The word and the packages are printed as `Shown` shows them.
impl fmt::Display for NamingError {
    fn fmt<W: fmt::Write>(&self, f: &mut fmt::Formatter<W>) -> fmt::Result {
        match self {
            NamingError::Unread { word, what } => write!(
                f,
                "`{}` names no package: {what}\nwrite NAME, NAME@VERSION, or an id as cargo prints it",
                Shown(word.as_str())
            ),
            NamingError::Unknown { word, near } if near.is_empty() => {
                write!(f, "no package fits `{}`", Shown(word.as_str()))
            }
            NamingError::Unknown { word, near } => {
                write!(
                    f,
                    "no package fits `{}`; these come near:",
                    Shown(word.as_str())
                )?;
                write_each(f, near)
            }
            NamingError::NotKept { word, packages } => {
                let word = Shown(word.as_str());
                write!(f, "nothing that is kept needs `{word}`, which means:")?;
                write_each(f, packages)
            }
            NamingError::Several { word, specs } => {
                let word = Shown(word.as_str());
                write!(f, "`{word}` fits several packages; name one of them:")?;
                write_each(f, specs)
            }
            NamingError::Memory => f.write_str("out of memory"),
        }
    }
}

/// The packages that a word means.
impl<'a> Packages<'_, 'a> {
    /// The one kept crate that a word means: by an id as cargo prints it, or else by a package specification as cargo's `--package`
    /// takes it (Cargo Book, "Package ID Specifications"), whose version may lack its last numbers, as in `rand@0.8`. It is refused as
    /// `Unread` where the word is neither, as `Unknown` where it means no package of the document, as `NotKept` where it means only
    /// packages that aren't kept, as `Several` where it means several kept crates; it may instead return `Memory`. Time O(n) for n
    /// packages; where it is refused their names are compared with the word's.
    ///
    /// ```text
    /// let found = packages.one(alloc, "rand@0.8")?;
    /// ```
    pub fn one(&self, alloc: Global, word: &str) -> Result<KrateMatch<'a, Package>, NamingError>
        ensures one { IfOk result (λ found. AreThose (MeansKept self.now word.now)
            (kept_in self.now) (match_view found ∷ [])) }
        ensures refused { IfErr result (MeansNotOneKept self.now word.now) }
        ensures only_memory { (m : Match Package)
            → AreThose (MeansKept self.now word.now) (kept_in self.now) (m ∷ [])
            → IfErr result (λ error. error ≡ Memory) }
    {
        let mut found = self.meant(alloc, word)?;
        if found.kept.len() > 1 {
            let crates = found.kept_packages(alloc)?;
            return Err(self.several(alloc, word, &crates)?);
        }
        match found.kept.pop() {
            Some(krate) => Ok(krate),
            None => Err(self.not_kept(alloc, word, &found.others)?),
        }
    }

    /// The one package of the document that a word means, kept or not. It takes words as `one` does, and is refused as that is, but never
    /// as `NotKept`, and as `Several` where the word means several packages, kept or not. Time: that of `one`.
    ///
    /// ```text
    /// let is_kept = matches!(packages.any(alloc, "rand@0.8")?, Meant::Kept(_));
    /// ```
    pub fn any(&self, alloc: Global, word: &str) -> Result<Meant<'a>, NamingError>
        ensures one { IfOk result (λ found. AreThose (Means self.now word.now)
            (packages_in self.now) (meant_view found ∷ [])) }
        ensures refused { IfErr result (MeansNotOne self.now word.now) }
        ensures only_memory { (d : DocumentPackage)
            → AreThose (Means self.now word.now) (packages_in self.now) (d ∷ [])
            → IfErr result (λ error. error ≡ Memory) }
    {
        let mut found = self.meant(alloc, word)?;
        if found.are_several() {
            let packages = found.packages(alloc)?;
            return Err(self.several(alloc, word, &packages)?);
        }
        match (found.kept.pop(), found.others.pop()) {
            (Some(krate), _) => Ok(Meant::Kept(krate)),
            (None, Some(pkg)) => Ok(Meant::Other(pkg)),
            (None, None) => unreachable!(),
        }
    }

    /// The packages that a word means: at least one.
    fn meant(&self, alloc: Global, word: &str) -> Result<MeantPackages<'a>, NamingError>
        ensures meant { IfOk result (λ found. AreParted (Means self.now word.now) self.now
            (map match_view found.kept.items) (map (λ pkg. pkg.now) found.others.items)) }
        ensures some { IfOk result (λ found. 1 ≤ length found.kept.items + length found.others.items) }
        ensures refused { IfErr result (MeansNone self.now word.now) }
    {
        if let Some(kid) = id_in(alloc, word)? {
            let found = self.meant_by(alloc, &Reading::Id(&kid))?;
            if !found.is_empty() {
                return Ok(found);
            }
        }
        self.asked_for(alloc, word)
    }

    /// The packages for which a word asks, which is the id of none: at least one.
    fn asked_for(&self, alloc: Global, word: &str) -> Result<MeantPackages<'a>, NamingError>
        requires { IsNoId self.now word.now }
        ensures meant { IfOk result (λ found. AreParted (Means self.now word.now) self.now
            (map match_view found.kept.items) (map (λ pkg. pkg.now) found.others.items)) }
        ensures some { IfOk result (λ found. 1 ≤ length found.kept.items + length found.others.items) }
        ensures refused { IfErr result (MeansNone self.now word.now) }
    {
        let asked = WordSpecification::read(alloc, word)?;
        let found = self.meant_by(alloc, &Reading::Specification(&asked))?;
        if found.is_empty() {
            Err(self.unknown(alloc, word, asked.spec.name.as_str())?)
        } else {
            Ok(found)
        }
    }

    /// All packages of the document, first the kept ones.
    fn all(&self, alloc: Global) -> Result<Vec<&'a Package>, AllocError>
        ensures { IfOk result (λ all. map (λ pkg. pkg.now) all.items ≡ all_of self.now) }
    {
        packages_of_all(alloc, self.kept, self.others)
    }

    /// The refusal that a word asks for packages of this name, and means none of the document.
    fn unknown(&self, alloc: Global, word: &str, name: &str) -> Result<NamingError, AllocError>
        ensures { IfOk result (TellsUnknown self.now word.now) }
    {
        let all = self.all(alloc)?;
        let near = near(alloc, &all, name)?;
        let word = String::from_str(alloc, word)?;
        Ok(NamingError::Unknown { word, near })
    }

    /// The refusal that a word means these packages, none of which is kept.
    fn not_kept(
        &self,
        alloc: Global,
        word: &str,
        others: &[&Package],
    ) -> Result<NamingError, AllocError>
        ensures { IfOk result (TellsNotKept self.now word.now (map (λ pkg. pkg.now) others.now)) }
    {
        let all = self.all(alloc)?;
        let packages = texts_among(alloc, &all, others)?;
        let word = String::from_str(alloc, word)?;
        Ok(NamingError::NotKept { word, packages })
    }

    /// The refusal that a word means all of these packages.
    fn several(
        &self,
        alloc: Global,
        word: &str,
        packages: &[&Package],
    ) -> Result<NamingError, AllocError>
        ensures { IfOk result (TellsSeveral self.now word.now (map (λ pkg. pkg.now) packages.now)) }
    {
        let all = self.all(alloc)?;
        let specs = texts_among(alloc, &all, packages)?;
        let word = String::from_str(alloc, word)?;
        Ok(NamingError::Several { word, specs })
    }
}
