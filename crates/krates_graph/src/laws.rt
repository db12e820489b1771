//! Laws of comparisons, each the contract of a function that does nothing.
ghost use Rattle.std.specs.Prelude.{◌≡◌, ◌==◌, ◌↔◌, ℕ, Some, true};
ghost use Rattle.std.specs.Hash as fed;
ghost use Rattle.std.specs.Ordering.{nat_cmp};
ghost use Rattle.krates_graph.specs.SameErrors.{IsSameError};

use crate::graph::{Direction, EdgeId, GraphEdge, GraphError, NodeId};
use std::hash::Hash;

/// Edges are equal, are ordered and are hashed as their numbers are.
pub fn edges_compared()
    ensures equal { (a b : ℕ) → ⟦<EdgeId as PartialEq>⟧.eq a b ≡ (a == b) }
    ensures partial_order { (a b : ℕ) → ⟦<EdgeId as PartialOrd>⟧.partial_cmp a b ≡ Some (nat_cmp a b) }
    ensures order { (a b : ℕ) → ⟦<EdgeId as Ord>⟧.cmp a b ≡ nat_cmp a b }
    ensures hash { (a : ℕ) → ⟦<EdgeId as Hash>⟧.hash_input a ≡ fed.u32 a }
{}

/// Nodes are equal, are ordered and are hashed as their numbers are.
pub fn nodes_compared()
    ensures equal { (a b : ℕ) → ⟦<NodeId as PartialEq>⟧.eq a b ≡ (a == b) }
    ensures partial_order { (a b : ℕ) → ⟦<NodeId as PartialOrd>⟧.partial_cmp a b ≡ Some (nat_cmp a b) }
    ensures order { (a b : ℕ) → ⟦<NodeId as Ord>⟧.cmp a b ≡ nat_cmp a b }
    ensures hash { (a : ℕ) → ⟦<NodeId as Hash>⟧.hash_input a ≡ fed.u32 a }
{}

/// Each direction is equal to itself alone.
pub fn directions_compared()
    ensures { (a b : Direction) → (⟦<Direction as PartialEq>⟧.eq a b ≡ true) ↔ (a ≡ b) }
{}

/// Stored edges are equal where they have the same ends and what they carry is equal.
pub fn stored_edges_compared<E: PartialEq>()
    ensures { (a b : GraphEdge E) → (⟦<GraphEdge<E> as PartialEq>⟧.eq a b ≡ true)
        ↔ (a.source ≡ b.source) × (a.target ≡ b.target) × (E.eq a.weight b.weight ≡ true) }
{}

/// Errors are equal where their causes are the same and the values that they hand back are equal.
pub fn errors_compared<T: PartialEq>()
    ensures { (a b : GraphError T) → (⟦<GraphError<T> as PartialEq>⟧.eq a b ≡ true) ↔ IsSameError T.eq a b }
{}
