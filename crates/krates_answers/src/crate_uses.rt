//! What the kept crates are used for: they are shipped, or used in building, or only in development.

ghost use Rattle.std.specs.Prelude.{◌≡◌, All, IfOk, map};
ghost use Rattle.krates_queries.specs.KrateNodes.{crates_of, match_view};
ghost use Rattle.krates_rules.specs.Resolved.{id_of};
ghost use Rattle.krates_answers.specs.CrateUses.{IsUse};

use crate::builds::Builds;
use crate::pushing::push;
use krates::{Kid, KrateMatch, Package};
use std::alloc::{AllocError, Global};

/// What a crate is used for.
#[derive(Clone, Copy, Debug, PartialEq, Eq)]
pub enum Use {
    /// It is needed by what is shipped, through normal dependencies.
    Shipped,
    /// It isn't shipped, but build scripts need it.
    Build,
    /// Only tests, examples and benchmarks need it.
    Dev,
}

/// A kept crate, and what it is used for.
#[derive(Debug, Drop)]
pub struct UsedKrate<'a> {
    /// The crate.
    pub krate: KrateMatch<'a, Package>,
    /// What it is used for.
    pub usage: Use,
}

impl Builds {
    /// What a crate that is kept is used for. Takes no memory. Time O(log n).
    pub fn use_of(&self, kid: &Kid) -> Use
        ensures { IsUse self.now.shipped self.now.without_dev (id_of kid.now) result }
    {
        if self.graphs.shipped.nid_for_kid(kid).is_some() {
            Use::Shipped
        } else if self.graphs.without_dev.nid_for_kid(kid).is_some() {
            Use::Build
        } else {
            Use::Dev
        }
    }

    /// The kept crates by id, each with what it is used for. The only refusal is running out of memory. Time O(n log n).
    pub fn uses(&self, alloc: Global) -> Result<Vec<UsedKrate<'_>>, AllocError>
        ensures crates { IfOk result (λ used. map (λ u. match_view u.krate) used.items ≡ crates_of self.now.all) }
        ensures uses { IfOk result (λ used. All (λ u. IsUse self.now.shipped self.now.without_dev
            (id_of u.krate.kid.now) u.usage) used.items) }
    {
        let mut used = Vec::new(alloc);
        for krate in self.graphs.all.krate_nodes() {
            let usage = self.use_of(krate.kid);
            push(&mut used, UsedKrate { krate, usage })?;
        }
        Ok(used)
    }
}
