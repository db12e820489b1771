//! What the crates of a build are used for: they are shipped, or only used in building, or only in tests, examples and benchmarks.
ghost use Rattle.std.specs.Prelude.{◌≡◌, All, IfOk, map};
ghost use Rattle.krates_build_answers.specs.Uses.{AreUses, IsUse};

use crate::built_crates::BuiltCrates;
use std::alloc::{AllocError, Global};

/// What a crate is used for, by a build as it is asked for and the same build with all targets.
#[derive(Clone, Copy, Debug, PartialEq, Eq)]
pub enum BuildUse {
    /// The build as it is asked for builds it for a machine that the build is for.
    Shipped,
    /// It builds it only for the host, where build scripts and procedural macros are run.
    Build,
    /// Only the build of all targets builds it.
    Tests,
}

/// A crate, and what it is used for.
#[derive(Clone, Copy, Debug)]
pub struct UsedCrate {
    /// The number of the crate.
    pub krate: usize,
    /// What it is used for.
    pub usage: BuildUse,
}

/// What each crate is used for that the build of all targets builds, where the first list is of the build as it is asked for and the second of
/// that of all targets, of one document: by number, each once. The only error is running out of memory. Time O(n²) for n crates that are
/// built.
///
/// ```text
/// for used in build_uses(alloc, &as_asked, &with_all)? {
///     println!(rt; "{used:?}")?;
/// }
/// ```
pub fn build_uses(
    alloc: Global,
    as_asked: &BuiltCrates,
    with_all: &BuiltCrates,
) -> Result<Vec<UsedCrate>, AllocError>
    ensures { IfOk result (λ uses. AreUses as_asked.now with_all.now uses.items) }
{
    let krates = with_all.krates(alloc)?;
    let uses = uses_of(alloc, as_asked, &krates)?;
    Ok(uses)
}

impl BuiltCrates {
    /// What a crate is used for, where these are the crates of the build as it is asked for, and the build of all targets builds it. Takes no
    /// memory. Time O(n) for n crates that are built.
    pub fn use_of(&self, krate: usize) -> BuildUse
        ensures { IsUse self.now krate result }
    {
        if self.is_for_targets(krate) {
            BuildUse::Shipped
        } else if self.is_for_host(krate) {
            BuildUse::Build
        } else {
            BuildUse::Tests
        }
    }
}

/// What these crates are used for.
fn uses_of(
    alloc: Global,
    as_asked: &BuiltCrates,
    krates: &[usize],
) -> Result<Vec<UsedCrate>, AllocError>
    ensures krates { IfOk result (λ uses. map (λ u. u.krate) uses.items ≡ krates.now) }
    ensures uses { IfOk result (λ uses. All (λ u. IsUse as_asked.now u.krate u.usage) uses.items) }
{
    let mut uses = Vec::new(alloc);
    for krate in krates {
        let usage = as_asked.use_of(*krate);
        uses.push(UsedCrate {
            krate: *krate,
            usage,
        })?;
    }
    Ok(uses)
}
