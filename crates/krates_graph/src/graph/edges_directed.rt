//! A walk over the edges of a node.
ghost use Rattle.std.specs.Iterator.{YieldsFirstBy, item_count};
ghost use Rattle.krates_graph.specs.Graph.{numbered_edge};

use crate::graph::edge::{EdgeId, GraphEdge};
use crate::graph::node_id::NodeId;
use std::marker::Model;

/// An edge of a graph, with its number.
#[derive(Debug, Drop)]
pub struct EdgeReference<'a, E> {
    /// The number of the edge.
    pub id: EdgeId,
    /// The node that the edge leaves.
    pub source: NodeId,
    /// The node that the edge enters.
    pub target: NodeId,
    /// What the edge carries.
    pub weight: &'a E,
}

/// The edges of a node in one direction, by increasing number.
#[derive(Debug, Drop)]
pub struct EdgesDirected<'a, E> {
    pub(crate) numbers: &'a [EdgeId],
    pub(crate) edges: &'a [GraphEdge<E>],
}

impl<'a, E> Model for EdgesDirected<'a, E> {
    ghost use Rattle.std.specs.Prelude.{ℕ, ◌<◌, All, List, length};
    ghost use Rattle.krates_graph.specs.declared.graph.edge.GraphEdge.{GraphEdge};
    ghost use Rattle.krates_graph.specs.Graph.{numbered};

    ghost Value = { List (ℕ × GraphEdge E) };

    ghost view = { λ walk. numbered walk.edges.now walk.numbers.now };

    ghost invariant = { λ walk. All (λ number. number < length walk.edges.now) walk.numbers.now };
}

impl<'a, E> Iterator for EdgesDirected<'a, E> {
    type Item = EdgeReference<'a, E>;

    ghost next_gives = { YieldsFirstBy numbered_edge (λ left. left) };

    ghost remaining = { item_count (λ left. left) };

    fn next(&mut self) -> Option<EdgeReference<'a, E>> {
        let (id, rest) = self.numbers.split_first()?;
        let edge = &self.edges[id.index()];
        self.numbers = rest;
        Some(EdgeReference {
            id: *id,
            source: edge.source,
            target: edge.target,
            weight: &edge.weight,
        })
    }
}
