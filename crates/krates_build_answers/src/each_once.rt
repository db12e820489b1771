//! Lists in order, with each item once.
ghost use Rattle.std.specs.Prelude.{◌↔◌, Contains, IfOk};
ghost use Rattle.std.specs.List.Sorted.{IsStrictlySortedBy};
ghost use Rattle.krates_build_answers.specs.Orders.{TellsApart};

use std::alloc::AllocError;

/// The items in ascending order, each once. The only error is running out of memory. Time O(n log n).
pub(crate) fn each_once<T: Ord + Drop>(mut items: Vec<T>) -> Result<Vec<T>, AllocError>
    ensures ascending { IfOk result (λ all. IsStrictlySortedBy T.cmp all.items) }
    ensures kept { IfOk result (λ all. TellsApart T.cmp
        → (x : T) → Contains all.items x ↔ Contains items.items x) }
{
    items.sort()?;
    items.dedup();
    Ok(items)
}
