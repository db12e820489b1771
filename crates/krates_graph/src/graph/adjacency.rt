//! For each node, the numbers of its edges in one direction.
ghost use Rattle.std.specs.Prelude.{◌≡◌, [], ◌∷◌, ◌++◌, ◌<◌, length, OnOk, slice_index_or, slice_set};
ghost use Rattle.krates_graph.specs.Adjacency.{HasEdgeRoom, HasNodeRoom, lists_of};

use crate::graph::edge::EdgeId;
use std::alloc::{AllocError, Global};

/// For each node, the numbers of its edges in one direction, in the order in which they were added.
/// Room is made first, so that adding can't fail.
#[derive(Debug, Drop)]
pub(super) struct Adjacency {
    lists: Vec<Vec<EdgeId>>,
}

impl Adjacency {
    /// No nodes.
    pub(super) fn new(alloc: Global) -> Adjacency
        ensures { lists_of result ≡ [] }
    {
        Adjacency {
            lists: Vec::new(alloc),
        }
    }

    /// Makes room for one more node.
    pub(super) fn reserve_node(&mut self) -> Result<(), AllocError>
        ensures room { OnOk result (HasNodeRoom self.new) }
        ensures unchanged { lists_of self.new ≡ lists_of self.old }
    {
        self.lists.reserve(1)
    }

    /// Appends a node with no edges.
    pub(super) fn add_node(&mut self)
        requires { HasNodeRoom self.old }
        ensures { lists_of self.new ≡ lists_of self.old ++ [] ∷ [] }
    {
        let alloc = *self.lists.allocator();
        let _ = self.lists.push(Vec::new(alloc));
    }

    /// Makes room for one more edge of the node.
    pub(super) fn reserve_edge(&mut self, node: usize) -> Result<(), AllocError>
        requires { node < length (lists_of self.old) }
        ensures room { OnOk result (HasEdgeRoom self.new node) }
        ensures unchanged { lists_of self.new ≡ lists_of self.old }
    {
        self.lists[node].reserve(1)
    }

    /// Appends an edge to those of the node.
    pub(super) fn add_edge(&mut self, node: usize, edge: EdgeId)
        requires within { node < length (lists_of self.old) }
        requires room { HasEdgeRoom self.old node }
        ensures { lists_of self.new
            ≡ slice_set (lists_of self.old) node (slice_index_or (lists_of self.old) node [] ++ edge ∷ []) }
    {
        let _ = self.lists[node].push(edge);
    }

    /// The edges of the node; none where there is no such node.
    pub(super) fn edges(&self, node: usize) -> &[EdgeId]
        ensures { result.now ≡ slice_index_or (lists_of self.now) node [] }
    {
        match self.lists.get(node) {
            Some(list) => list.as_slice(),
            None => &[],
        }
    }
}
