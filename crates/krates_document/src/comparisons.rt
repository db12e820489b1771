//! Laws of the comparison of places by name, each the contract of a function that does nothing.
ghost use Rattle.std.specs.Prelude.{◌≡◌, ◌↔◌, Some, true};
ghost use Rattle.krates_document.specs.FoldedNames.{same_name};
ghost use Rattle.krates_document.specs.NamedPlaces.{place_cmp};

use crate::named_places::NamedPlace;

/// Named places are compared by name, target and place, in this order.
pub fn named_places_compared()
    ensures equal { (a b : NamedPlace) → (⟦<NamedPlace<'static> as PartialEq>⟧.eq a b ≡ true)
        ↔ (same_name a.name b.name ≡ true) × (a.target.now ≡ b.target.now) × (a.place ≡ b.place) }
    ensures partial_order { (a b : NamedPlace)
        → ⟦<NamedPlace<'static> as PartialOrd>⟧.partial_cmp a b ≡ Some (place_cmp a b) }
    ensures order { (a b : NamedPlace) → ⟦<NamedPlace<'static> as Ord>⟧.cmp a b ≡ place_cmp a b }
{}
