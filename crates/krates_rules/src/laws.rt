//! Laws of resolution, for all documents and settings. Each is the contract of a function that does nothing.
ghost use Rattle.std.specs.Prelude.{◌≡◌, ◌↔◌, Some, true};
ghost use Rattle.std.specs.Ordering.{nat_cmp};
ghost use Rattle.krates_rules.specs.Checks.{AreComplete, AreSound, GivenIsDerivable, GivenIsPut, GivenStays, LastIsDerivable, PartsFollow};
ghost use Rattle.krates_rules.specs.Kind.{kind_place};
ghost use Rattle.krates_rules.specs.Naming.{IsNamedPart};
ghost use Rattle.krates_rules.specs.Narrowing.{IsNarrowing};
ghost use Rattle.krates_rules.specs.Reordering.{IsOrderFree};

use crate::kind::DepKind;

/// What is resolved doesn't depend on the order in which a document lists its packages, its members, the nodes of its graph,
/// or the dependencies and features of a node. Of two documents that differ only in this, the same facts have derivations
/// under each setting, and both are refused for the same causes, before resolution and in it.
pub fn reordering()
    ensures { IsOrderFree }
{}

/// A setting that excludes more packages, ignores one more kind, or sets targets where none was set, selects a
/// part of what the setting before it selects. If that loses nothing, the narrower one is refused only because no crate is left, or because memory ran out.
pub fn narrowing()
    ensures { IsNarrowing }
{}

/// What is selected where a name in a feature reference means the least, by id, of the dependencies that match it, is a
/// part of what is selected where it means all of them, under settings that are equal otherwise. So is what is lost.
pub fn named_part()
    ensures { IsNamedPart }
{}

/// The fact of each step of an accepted list of steps is derivable, and so is the one in which the list ends.
pub fn accepted_lists()
    ensures each { AreSound }
    ensures last { LastIsDerivable }
{}

/// A closed list of facts has every fact that is derivable: a crate that it lacks can't be kept.
pub fn closed_lists()
    ensures { AreComplete }
{}

/// What follows from the facts of a list of steps is derivable, may be put at the list's end as a step, and still follows after
/// the list has grown.
pub fn lists_grow()
    ensures derivable { GivenIsDerivable }
    ensures put { GivenIsPut }
    ensures stays { GivenStays }
{}

/// If the steps of a list follow, so do those of a part that has what its steps use, renumbered.
pub fn parts_follow()
    ensures { PartsFollow }
{}

/// Each kind is equal to itself alone; kinds come in the order normal, build, development.
pub fn kinds_compared()
    ensures equal { (a b : DepKind) → (⟦<DepKind as PartialEq>⟧.eq a b ≡ true) ↔ (a ≡ b) }
    ensures partial_order { (a b : DepKind)
        → ⟦<DepKind as PartialOrd>⟧.partial_cmp a b ≡ Some (nat_cmp (kind_place a) (kind_place b)) }
    ensures order { (a b : DepKind) → ⟦<DepKind as Ord>⟧.cmp a b ≡ nat_cmp (kind_place a) (kind_place b) }
{}
