//! Duplicate versions: the names that several crates have.

ghost use Rattle.std.specs.Prelude.{IfOk, map};
ghost use Rattle.krates_cm.specs.Document.{text_view};
ghost use Rattle.krates_queries.specs.KrateNodes.{match_view};
ghost use Rattle.krates_answers.specs.Duplicates.{AreDuplicates, duplicate_view};

use crate::labelled::{Label, labelled};
use crate::pushing::push;
use krates::{KrateMatch, Package};
use std::alloc::{AllocError, Global};

/// A name that several crates have.
#[derive(Debug, Drop)]
pub struct Duplicate<'a> {
    /// The name of their packages.
    pub name: &'a str,
    /// The crates, in their order.
    pub krates: Vec<KrateMatch<'a, Package>>,
}

/// The name of a package, as a label.
struct Name;

impl Label for Name {
    ghost label_of = { λ pkg. text_view pkg.name };

    fn label(pkg: &Package) -> &str {
        pkg.name.as_str()
    }
}

/// The names that two or more of these crates have, in the order of their bytes, each with its crates in their order. The only
/// refusal is running out of memory. Time O(n log n) for n crates.
///
/// A name is that of the package, which may differ from the one in its id.
pub fn duplicates<'a>(
    alloc: Global,
    crates: &[KrateMatch<'a, Package>],
) -> Result<Vec<Duplicate<'a>>, AllocError>
    ensures { IfOk result (λ found. AreDuplicates (map match_view crates.now) (map duplicate_view found.items)) }
{
    let by_name = labelled::<Name>(alloc, crates)?;
    let mut duplicates = Vec::new(alloc);
    for (name, krates) in by_name {
        if krates.len() > 1 {
            push(&mut duplicates, Duplicate { name, krates })?;
        }
    }
    Ok(duplicates)
}
