//! An edge and its two ends, and the number of an edge.
ghost use Rattle.std.specs.Prelude.{◌≡◌, ℕ};

use crate::graph::node_id::NodeId;
use std::marker::Model;

/// Which edges of a node are meant: those that leave it or those that enter it.
#[derive(Clone, Copy, Debug, PartialEq, Eq)]
pub enum Direction {
    /// The edges whose source the node is.
    Outgoing,
    /// The edges whose target the node is.
    Incoming,
}

/// A stored edge.
#[derive(Debug, PartialEq, Eq, Drop)]
pub struct GraphEdge<E> {
    /// The node that the edge leaves.
    pub source: NodeId,
    /// The node that the edge enters.
    pub target: NodeId,
    /// What the edge carries.
    pub weight: E,
}

/// The number of an edge, counted from 0 in the order in which the edges were added.
#[derive(Clone, Copy, Debug, PartialEq, Eq, PartialOrd, Ord, Hash)]
pub struct EdgeId(u32);

impl Model for EdgeId {
    ghost Value = { ℕ };

    ghost view = { λ id. id.0 };

    ghost inverse = { λ number. record { 0 = number } };
}

impl EdgeId {
    /// The id of the edge with that number. Time O(1).
    pub fn new(number: u32) -> EdgeId
        ensures { result ≡ number }
    {
        EdgeId(number)
    }

    /// The number, as an index of a list of edges. Time O(1).
    pub fn index(self) -> usize
        ensures { result ≡ self }
    {
        self.0 as usize
    }
}
