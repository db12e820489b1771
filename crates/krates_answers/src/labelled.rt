//! Crates, grouped by a label.

ghost use Rattle.std.specs.Prelude.{◌≡◌, IfOk, map};
ghost use Rattle.krates_cm.specs.Document.{Text};
ghost use Rattle.krates_cm.specs.declared.package.Package.{Package};
ghost use Rattle.krates_queries.specs.KrateNodes.{match_view};
ghost use Rattle.krates_answers.specs.Grouped.{AreGroups, groups_in, seen_group};
ghost use Rattle.krates_answers.specs.Labelled.{with_label};

use crate::grouped::put_under;
use crate::pushing::again;
use krates::{KrateMatch, Package};
use std::alloc::{AllocError, Global};
use std::collections::BTreeMap;

/// A text that each package has, and by which crates are grouped, such as the name.
pub(crate) trait Label {
    /// The text of a package.
    ghost label_of: { Package → Text };

    /// The text of a package.
    fn label(pkg: &Package) -> &str
        ensures { result.now ≡ label_of pkg.now };
}

/// Crates under their labels.
pub(crate) type Labelled<'a> = BTreeMap<&'a str, Vec<KrateMatch<'a, Package>>>;

/// Crates under their labels, in their order under each, and the labels in the order of their bytes. The only refusal is running
/// out of memory. Time O(n log n) for n crates.
pub(crate) fn labelled<'a, L: Label>(
    alloc: Global,
    crates: &[KrateMatch<'a, Package>],
) -> Result<Labelled<'a>, AllocError>
    ensures { IfOk result (λ groups. AreGroups (map (with_label L.label_of) (map match_view crates.now))
        (map (seen_group match_view) (groups_in groups))) }
{
    let mut groups = BTreeMap::new(alloc);
    for found in crates {
        let label = L::label(found.krate);
        put_under(label, again(found), &mut groups)?;
    }
    Ok(groups)
}
