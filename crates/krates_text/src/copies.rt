//! Copies of several values in one step.
ghost use Rattle.std.specs.Prelude.{IfOk};

use std::alloc::AllocError;

/// A copy of each of four values, in their order. The only error is running out of memory, and then no copy is kept. The time is
/// that of the four copies.
///
/// It is how a struct of many fields is copied: each `?` in a body has to drop all that was copied before it, and so
/// four fields that are copied in one step are four times as cheap to prove.
pub fn four_copies<A: Clone + Drop, B: Clone + Drop, C: Clone + Drop, D: Clone + Drop>(
    first: &A,
    second: &B,
    third: &C,
    fourth: &D,
) -> Result<(A, B, C, D), AllocError>
    ensures { IfOk result (λ copies. A.is_clone first.now copies.0 × B.is_clone second.now copies.1
        × C.is_clone third.now copies.2 × D.is_clone fourth.now copies.3) }
{
    Ok((
        first.clone()?,
        second.clone()?,
        third.clone()?,
        fourth.clone()?,
    ))
}
