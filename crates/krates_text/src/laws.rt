//! Laws of the definitions in `specs/` and of comparisons, each the contract of a function that does nothing.
ghost use Rattle.std.specs.Prelude.{◌≡◌, ◌↔◌, ℕ, List, true};
ghost use Rattle.krates_text.specs.FeatureReference.{HasOneReading, reference_of};
ghost use Rattle.krates_text.specs.CfgGrammar.{Tree, IsExpression, IsTooDeep};

use crate::cfg::CfgError;
use crate::features::Feature;

/// Each text is exactly one feature reference.
pub fn one_reference()
    ensures { (text : List ℕ) → HasOneReading text }
{}

/// A text is at most one cfg expression, and isn't one if it opens too many forms.
pub fn one_expression()
    ensures once { (text : List ℕ) (p q : Tree) → IsExpression text p → IsExpression text q → p ≡ q }
    ensures apart { (text : List ℕ) (p : Tree) → IsExpression text p → IsTooDeep text → ⊥ }
{}

/// Feature references are equal where they are of one form and the texts of their parts are equal.
pub fn references_compared()
    ensures { (a b : Feature) → (⟦<Feature<'static> as PartialEq>⟧.eq a b ≡ true) ↔ (reference_of a ≡ reference_of b) }
{}

/// Each cause is equal to itself alone.
pub fn causes_compared()
    ensures { (a b : CfgError) → (⟦<CfgError as PartialEq>⟧.eq a b ≡ true) ↔ (a ≡ b) }
{}
