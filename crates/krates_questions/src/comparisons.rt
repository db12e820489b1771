//! Laws of the comparisons of what is looked up and of what the questions answer, each the contract of a function that does nothing.
ghost use Rattle.std.specs.Prelude.{◌≡◌, ◌↔◌, Some, true};
ghost use Rattle.std.specs.Cmp.Lexicographic.{slice_cmp};
ghost use Rattle.std.specs.Ordering.{nat_cmp, ordering_then};
ghost use Rattle.krates_ids.specs.Identity.{IsSameId, id_cmp};

use crate::availability::Availability;
use crate::feature_table::ListedFeature;
use crate::referent::Referent;

/// Listed features are compared by the place of the node and the bytes of the name, in this order.
pub fn listed_features_compared()
    ensures equal { (a b : ListedFeature) → (⟦<ListedFeature<'static> as PartialEq>⟧.eq a b ≡ true)
        ↔ (a.place.index ≡ b.place.index) × (a.name.now ≡ b.name.now) }
    ensures partial_order { (a b : ListedFeature) → ⟦<ListedFeature<'static> as PartialOrd>⟧.partial_cmp a b
        ≡ Some (ordering_then (nat_cmp a.place.index b.place.index) (slice_cmp nat_cmp a.name.now b.name.now)) }
    ensures order { (a b : ListedFeature) → ⟦<ListedFeature<'static> as Ord>⟧.cmp a b
        ≡ ordering_then (nat_cmp a.place.index b.place.index) (slice_cmp nat_cmp a.name.now b.name.now) }
{}

/// What there is for a crate is equal to itself alone.
pub fn availabilities_compared()
    ensures { (a b : Availability) → (⟦<Availability as PartialEq>⟧.eq a b ≡ true) ↔ (a ≡ b) }
{}

/// Referents are compared by id and place, in this order.
pub fn referents_compared()
    ensures equal { (a b : Referent) → (⟦<Referent<'static> as PartialEq>⟧.eq a b ≡ true)
        ↔ (IsSameId a.id.now b.id.now) × (a.place ≡ b.place) }
    ensures partial_order { (a b : Referent) → ⟦<Referent<'static> as PartialOrd>⟧.partial_cmp a b
        ≡ Some (ordering_then (id_cmp a.id.now b.id.now) (nat_cmp a.place b.place)) }
    ensures order { (a b : Referent) → ⟦<Referent<'static> as Ord>⟧.cmp a b
        ≡ ordering_then (id_cmp a.id.now b.id.now) (nat_cmp a.place b.place) }
{}
