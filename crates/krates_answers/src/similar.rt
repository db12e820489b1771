//! Packages whose names are like a word.

ghost use Rattle.std.specs.Prelude.{All, Contains, IfOk, map, string_bytes};
ghost use Rattle.krates_answers.specs.PackageText.{named};

use crate::package_text::named;
use krates::Package;
use std::alloc::{AllocError, Global};
use strsim::osa_distance;

/// How many similar names are reported.
const NEAR: usize = 5;

/// How similar two names are.
#[derive(Clone, Copy)]
enum Likeness {
    /// They are equal.
    Same,
    /// The one has the other in it, or they differ by no more than one letter in three.
    Near,
}

impl Likeness {
    /// Whether a name is this similar to a word.
    fn holds(self, alloc: Global, name: &str, word: &str) -> Result<bool, AllocError> {
        match self {
            Likeness::Same => Ok(name == word),
            Likeness::Near if word.is_empty() => Ok(false),
            Likeness::Near if name.contains(word) => Ok(true),
            Likeness::Near => Ok(osa_distance(alloc, name, word)? <= word.len() / 3),
        }
    }
}

/// A few packages whose names are this similar to this one, in their order, as specifications.
fn alike(
    alloc: Global,
    packages: &[&Package],
    name: &str,
    likeness: Likeness,
) -> Result<Vec<String>, AllocError>
    ensures { IfOk result (λ texts. All (Contains (map named (map (λ pkg. pkg.now) packages.now)))
        (map string_bytes texts.items)) }
{
    let mut texts = Vec::new(alloc);
    for pkg in packages {
        if texts.len() < NEAR && likeness.holds(alloc, pkg.name.as_str(), name)? {
            texts.push(named(alloc, pkg)?)?;
        }
    }
    Ok(texts)
}

/// A few packages of this name, or else with a similar one, in their order, as specifications. The only refusal is running out of memory.
/// Time O(n) for n packages, but for comparing their names.
pub(crate) fn near(
    alloc: Global,
    packages: &[&Package],
    name: &str,
) -> Result<Vec<String>, AllocError>
    ensures { IfOk result (λ texts. All (Contains (map named (map (λ pkg. pkg.now) packages.now)))
        (map string_bytes texts.items)) }
{
    let same = alike(alloc, packages, name, Likeness::Same)?;
    if same.is_empty() {
        alike(alloc, packages, name, Likeness::Near)
    } else {
        Ok(same)
    }
}
