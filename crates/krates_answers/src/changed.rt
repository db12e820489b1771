//! Names under which versions changed.

ghost use Rattle.std.specs.Prelude.{IfOk, map};
ghost use Rattle.krates_queries.specs.KrateNodes.{match_view};
ghost use Rattle.krates_answers.specs.Changed.{AreChanges, HoldsVersions, change_view};

use crate::grouped::put_under;
use crate::pushing::push;
use krates::semver::Version;
use krates::{KrateMatch, Package};
use std::alloc::{AllocError, Global};
use std::collections::BTreeMap;

/// A name for which some crates were removed and others added.
#[derive(Drop)]
pub struct Changed<'a> {
    /// The name.
    pub name: &'a str,
    /// The versions of those that were removed, by number.
    pub from: Vec<&'a Version>,
    /// The versions of those that were added, by number.
    pub to: Vec<&'a Version>,
}

/// The versions of crates by name.
type Versions<'a> = BTreeMap<&'a str, Vec<&'a Version>>;

/// The versions of crates by name.
fn versions_of<'a>(
    alloc: Global,
    krates: &[KrateMatch<'a, Package>],
) -> Result<Versions<'a>, AllocError>
    ensures { IfOk result (HoldsVersions (map match_view krates.now)) }
{
    let mut versions = BTreeMap::new(alloc);
    for found in krates {
        put_under(
            found.krate.name.as_str(),
            &found.krate.version,
            &mut versions,
        )?;
    }
    Ok(versions)
}

impl<'a> Changed<'a> {
    /// The names that crates of both lists have, in the order of their bytes, each with its versions in the one and in the other. The
    /// only refusal is running out of memory. Time O(n log n) for n crates of both.
    pub fn between(
        alloc: Global,
        removed: &[KrateMatch<'a, Package>],
        added: &[KrateMatch<'a, Package>],
    ) -> Result<Vec<Changed<'a>>, AllocError>
        ensures { IfOk result (λ changed. AreChanges (map match_view removed.now) (map match_view added.now)
            (map change_view changed.items)) }
    {
        let gone = versions_of(alloc, removed)?;
        let came = versions_of(alloc, added)?;
        let mut changed = Vec::new(alloc);
        for (name, from) in gone {
            if let Some(to) = came.get(&name) {
                let to = to.clone()?;
                push(&mut changed, Changed { name, from, to })?;
            }
        }
        Ok(changed)
    }
}
