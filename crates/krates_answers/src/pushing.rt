//! An item at the end of a list, and a crate that was found once more.

ghost use Rattle.std.specs.Prelude.{◌≡◌, ◌++◌, ◌∷◌, [], OnOk};

use krates::{KrateMatch, Package};
use std::alloc::AllocError;

/// Adds an item at the end of a list. The only refusal is running out of memory, and the item is dropped then.
///
/// Where an item borrows, as a found crate does, `?` on the error that would return it isn't covered by the borrow checker, so
/// the call is here, where the item's type isn't known.
pub(crate) fn push<T: Drop>(list: &mut Vec<T>, item: T) -> Result<(), AllocError>
    ensures { OnOk result (list.new.items ≡ list.old.items ++ item ∷ []) }
{
    list.push(item)?;
    Ok(())
}

/// The same crate, found once more.
pub(crate) fn again<'a>(found: &KrateMatch<'a, Package>) -> KrateMatch<'a, Package>
    ensures { result ≡ found.now }
{
    KrateMatch {
        krate: found.krate,
        kid: found.kid,
        node_id: found.node_id,
    }
}
