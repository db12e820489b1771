//! Laws of what follows from clauses, for all clauses, and of their numbers. Each is the contract of a function that does nothing.
ghost use Rattle.std.specs.Prelude.{◌≡◌, ◌==◌, ◌↔◌, ℕ, Contains, List, Some};
ghost use Rattle.std.specs.List.Sorted.{IsPermutation};
ghost use Rattle.std.specs.Ordering.{nat_cmp};
ghost use Rattle.krates_closure.specs.Clauses.{ClauseModel};
ghost use Rattle.krates_closure.specs.Closure.{Derivable, IsDerivation, given_by};

use crate::clause_number::ClauseNumber;
use crate::fact_number::FactNumber;

/// The order of the clauses doesn't matter: by the same clauses in another order, the same facts are derivable.
pub fn reordering()
    ensures { (clauses reordered : List ClauseModel) → IsPermutation clauses reordered
        → (fact : ℕ) → Derivable clauses fact ↔ Derivable reordered fact }
{}

/// By more clauses, no less is derivable.
pub fn more_clauses()
    ensures { (clauses more : List ClauseModel)
        → ((clause : ClauseModel) → Contains clauses clause → Contains more clause)
        → (fact : ℕ) → Derivable clauses fact → Derivable more fact }
{}

/// What a derivation gives is derivable.
pub fn given_facts()
    ensures { (clauses : List ClauseModel) (steps : List ℕ) → IsDerivation clauses steps
        → (fact : ℕ) → Contains (given_by clauses steps) fact → Derivable clauses fact }
{}

/// Facts are equal and are ordered as their numbers are.
pub fn facts_compared()
    ensures equal { (a b : ℕ) → ⟦<FactNumber as PartialEq>⟧.eq a b ≡ (a == b) }
    ensures partial_order { (a b : ℕ) → ⟦<FactNumber as PartialOrd>⟧.partial_cmp a b ≡ Some (nat_cmp a b) }
    ensures order { (a b : ℕ) → ⟦<FactNumber as Ord>⟧.cmp a b ≡ nat_cmp a b }
{}

/// Clauses are equal and are ordered as their numbers are.
pub fn clauses_compared()
    ensures equal { (a b : ℕ) → ⟦<ClauseNumber as PartialEq>⟧.eq a b ≡ (a == b) }
    ensures partial_order { (a b : ℕ) → ⟦<ClauseNumber as PartialOrd>⟧.partial_cmp a b ≡ Some (nat_cmp a b) }
    ensures order { (a b : ℕ) → ⟦<ClauseNumber as Ord>⟧.cmp a b ≡ nat_cmp a b }
{}
