//! What one answer about a workspace has and another lacks, where each may be about a checkout of its own.

ghost use Rattle.std.specs.Prelude.{◌≡◌, ◌↔◌, List, IfOk, IsTrue, map};
ghost use Rattle.krates_cm.specs.Document.{Text};
ghost use Rattle.krates_answers.specs.Compared.{HasSame, HoldsNamed, IsLackedBy};
ghost use Rattle.krates_answers.specs.Those.{AreThose};

use crate::grouped::put_under;
use crate::pushing::push;
use std::alloc::{AllocError, Global};
use std::collections::BTreeMap;

/// A part of an answer about a workspace, such as a crate, which another answer may have too.
pub trait Part: Sized + Drop {
    /// The name by which it is looked up.
    ghost named: { Self → Text };

    /// It means the same as another; each is of a checkout of a workspace with a root.
    ghost MeansSame: { Text → Self → Text → Self → Type 0 };

    /// The name by which it is looked up.
    fn name(&self) -> &str
        ensures { result.now ≡ named self.now };

    /// Whether it means the same as another; each is of a checkout of a workspace with a root.
    fn means_same(&self, root: &str, other: &Self, other_root: &str) -> bool
        ensures { IsTrue result ↔ MeansSame root.now self.now other_root.now other.now };

    /// The same part, once more.
    fn again(&self) -> Self
        ensures { result ≡ self.now };

    ghost one_name: { (root other_root : Text) (x y : Self) → MeansSame root x other_root y → named x ≡ named y };
}

/// Parts under their names.
type Named<'s, T> = BTreeMap<&'s str, Vec<&'s T>>;

/// Those of the parts of an answer that mean the same as none of another's, in their order; each is about a checkout of a workspace with a root. The
/// only refusal is running out of memory. Time O(n log m + p) for n and m parts, and p pairs of parts of one name.
pub fn lacking<'s, T: Part>(
    alloc: Global,
    root: &str,
    parts: &'s [T],
    other_root: &str,
    others: &'s [T],
) -> Result<Vec<T>, AllocError>
    ensures { IfOk result (λ found. AreThose (IsLackedBy T.MeansSame root.now other_root.now others.now)
        parts.now found.items) }
{
    let named = by_name(alloc, others)?;
    let mut lacking = Vec::new(alloc);
    for part in parts {
        if !has_same(root, part, other_root, &named) {
            push(&mut lacking, part.again())?;
        }
    }
    Ok(lacking)
}

/// These parts under their names.
fn by_name<'s, T: Part>(alloc: Global, parts: &'s [T]) -> Result<Named<'s, T>, AllocError>
    ensures { IfOk result (HoldsNamed T.named parts.now) }
{
    let mut named = BTreeMap::new(alloc);
    for part in parts {
        put_under(part.name(), part, &mut named)?;
    }
    Ok(named)
}

/// Whether one of the parts that are under these names means the same as this one.
fn has_same<'s, T: Part>(root: &str, part: &'s T, other_root: &str, others: &Named<'s, T>) -> bool
    ensures { (parts : List T) → HoldsNamed T.named parts others.now
        → IsTrue result ↔ HasSame T.MeansSame root.now part.now other_root.now parts }
{
    match others.get(&part.name()) {
        Some(named) => is_among(root, part, other_root, named),
        None => false,
    }
}

/// Whether one of these parts means the same as this one.
fn is_among<T: Part>(root: &str, part: &T, other_root: &str, others: &[&T]) -> bool
    ensures { IsTrue result ↔ HasSame T.MeansSame root.now part.now other_root.now (map (λ other. other.now) others.now) }
{
    for other in others {
        if part.means_same(root, other, other_root) {
            return true;
        }
    }
    false
}
