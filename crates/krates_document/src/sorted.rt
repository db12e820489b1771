//! Lists in order, without doubles.

ghost use Rattle.std.specs.Prelude.{◌≡◌, IfOk, Contains, true};
ghost use Rattle.std.specs.List.{IsDistinct};
ghost use Rattle.std.specs.List.Sorted.{IsPermutation, IsStrictlySortedBy};

use std::alloc::AllocError;

/// The items in order; of those that are equal, one. So it has all of them where no two are equal. The only error is
/// running out of memory. Time O(n log n).
pub fn in_order<T: Ord + Drop>(mut items: Vec<T>) -> Result<Vec<T>, AllocError>
    ensures ascending { IfOk result (λ sorted. IsStrictlySortedBy T.cmp sorted.items) }
    ensures from { IfOk result (λ sorted. (x : T) → Contains sorted.items x → Contains items.items x) }
    ensures whole { IfOk result (λ all. IsDistinct T.eq items.items → IsPermutation items.items all.items) }
    ensures kept { IfOk result (λ all. (x : T) → Contains items.items x
        → (y : T) × Contains all.items y × (T.eq x y ≡ true)) }
{
    items.sort()?;
    items.dedup();
    Ok(items)
}
