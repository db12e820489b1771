//! One more item: at the end of a list, or under a key.

ghost use Rattle.std.specs.Prelude.{◌≡◌, ◌++◌, ◌∷◌, [], OnOk, Some, if◌then◌else◌};
ghost use Rattle.std.specs.Str.{bytes_eq};
ghost use Rattle.krates_cm.specs.Document.{Text};
ghost use Rattle.krates_build_tables.specs.FeatureLists.{under};

use std::alloc::AllocError;
use std::collections::BTreeMap;

/// Adds an item at the end of a list. The only refusal is running out of memory, and the item is dropped then.
///
/// Where an item borrows, `?` on the error that would return it isn't covered by the borrow checker, so the call is here, where
/// the item's type isn't known.
pub(crate) fn push<T: Drop>(list: &mut Vec<T>, item: T) -> Result<(), AllocError>
    ensures { OnOk result (list.new.items ≡ list.old.items ++ item ∷ []) }
{
    list.push(item)?;
    Ok(())
}

/// Puts an item under a key of text, in place of the one that was there. The only refusal is running out of memory.
pub(crate) fn put<'a, T: Drop>(
    items: &mut BTreeMap<&'a str, T>,
    key: &'a str,
    item: T,
) -> Result<(), AllocError>
    ensures { OnOk result ((text : Text) → under text items.new
        ≡ (if bytes_eq key.now text then Some item else under text items.old)) }
{
    drop(items.insert(key, item)?);
    Ok(())
}

/// Adds the items of another list at the end of a list. The only refusal is running out of memory.
pub(crate) fn append<T: Drop>(list: &mut Vec<T>, more: &mut Vec<T>) -> Result<(), AllocError>
    ensures { OnOk result (list.new.items ≡ list.old.items ++ more.old.items) }
{
    list.append(more)?;
    Ok(())
}
