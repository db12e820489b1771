//! The number of a node.
ghost use Rattle.std.specs.Prelude.{◌≡◌, ℕ};

use std::marker::Model;

/// The number of a node, counted from 0 in the order in which the nodes were added.
#[derive(Clone, Copy, Debug, PartialEq, Eq, PartialOrd, Ord, Hash)]
pub struct NodeId(u32);

impl Model for NodeId {
    ghost Value = { ℕ };

    ghost view = { λ id. id.0 };

    ghost inverse = { λ number. record { 0 = number } };
}

impl NodeId {
    /// The id of the node with that number. Time O(1).
    pub fn new(number: u32) -> NodeId
        ensures { result ≡ number }
    {
        NodeId(number)
    }

    /// The number, as an index of a list of nodes. Time O(1).
    pub fn index(self) -> usize
        ensures { result ≡ self }
    {
        self.0 as usize
    }
}
