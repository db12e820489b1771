//! Items under keys of text.

ghost use Rattle.std.specs.Prelude.{[], ◌∷◌, ◌++◌, List, OnOk};
ghost use Rattle.krates_cm.specs.Document.{Text};
ghost use Rattle.krates_answers.specs.Grouped.{AreGroups, groups_in};

use std::alloc::AllocError;
use std::collections::BTreeMap;

/// Puts an item after those under its key: a map that has the items of a list, each under its key, then has one more, the last of
/// that list. The keys are in the order of their bytes. The only refusal is running out of memory. Time O(log n) for n keys.
pub(crate) fn put_under<'a, T: Drop>(
    key: &'a str,
    item: T,
    groups: &mut BTreeMap<&'a str, Vec<T>>,
) -> Result<(), AllocError>
    ensures { OnOk result ((items : List (Text × T)) → AreGroups items (groups_in groups.old)
        → AreGroups (items ++ (key.now, item) ∷ []) (groups_in groups.new)) }
{
    groups.entry(key)?.or_default().push(item)?;
    Ok(())
}
