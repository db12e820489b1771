//! Laws of the comparisons of what a selection has, each the contract of a function that does nothing.
ghost use Rattle.std.specs.Prelude.{◌≡◌, ◌↔◌, Some, true};
ghost use Rattle.krates_cm.specs.Document.{text_view};
ghost use Rattle.krates_selection.specs.Selection.{feature_cmp, place_cmp, toggled_cmp};

use crate::selection::{EnabledFeature, KeptEdge, ToggledFeature};
use crate::work::Work;

/// Kept edges are compared by parent, child and place, in this order.
pub fn kept_edges_compared()
    ensures equal { (a b : KeptEdge) → (⟦<KeptEdge as PartialEq>⟧.eq a b ≡ true)
        ↔ (a.parent ≡ b.parent) × (a.child ≡ b.child) × (a.place ≡ b.place) }
    ensures partial_order { (a b : KeptEdge) → ⟦<KeptEdge as PartialOrd>⟧.partial_cmp a b ≡ Some (place_cmp a b) }
    ensures order { (a b : KeptEdge) → ⟦<KeptEdge as Ord>⟧.cmp a b ≡ place_cmp a b }
{}

/// Enabled features are compared by crate and name, in this order.
pub fn features_compared()
    ensures equal { (a b : EnabledFeature) → (⟦<EnabledFeature as PartialEq>⟧.eq a b ≡ true)
        ↔ (a.krate ≡ b.krate) × (text_view a.name ≡ text_view b.name) }
    ensures partial_order { (a b : EnabledFeature)
        → ⟦<EnabledFeature as PartialOrd>⟧.partial_cmp a b ≡ Some (feature_cmp a b) }
    ensures order { (a b : EnabledFeature) → ⟦<EnabledFeature as Ord>⟧.cmp a b ≡ feature_cmp a b }
{}

/// Toggled features are compared by the crate that toggles, the crate of the feature and the name, in this order.
pub fn toggled_compared()
    ensures equal { (a b : ToggledFeature) → (⟦<ToggledFeature as PartialEq>⟧.eq a b ≡ true)
        ↔ (a.by ≡ b.by) × (a.krate ≡ b.krate) × (text_view a.name ≡ text_view b.name) }
    ensures partial_order { (a b : ToggledFeature)
        → ⟦<ToggledFeature as PartialOrd>⟧.partial_cmp a b ≡ Some (toggled_cmp a b) }
    ensures order { (a b : ToggledFeature) → ⟦<ToggledFeature as Ord>⟧.cmp a b ≡ toggled_cmp a b }
{}

/// Works are equal where their counts are.
pub fn works_compared()
    ensures { (a b : Work) → (⟦<Work as PartialEq>⟧.eq a b ≡ true)
        ↔ (a.krates ≡ b.krates) × (a.features ≡ b.features) × (a.references ≡ b.references) }
{}
