//! A directed graph that only grows: nodes and edges are numbered in the order in which they were
//! added. Two edges may join the same nodes, and an edge may join a node to itself.
//!
//! For each node the numbers of its outgoing and incoming edges are kept in addition to the edges, so
//! walking them takes no search. No contract mentions this: callers see two lists and two limits.
ghost use Rattle.std.specs.Prelude.{◌≡◌, [], ◌∷◌, ◌++◌, ◌<◌, ◌≤◌, ◌↔◌, All, IfOk, IfErr, OnErr, Some, length, map, option_map, slice_get};
ghost use Rattle.krates_graph.specs.Graph.{IsFull, edges_at, numbers_at, value_in, HasEnds};

mod adjacency;
mod edge;
mod edges_directed;
mod graph_error;
mod node_id;

use adjacency::Adjacency;
pub use edge::{Direction, EdgeId, GraphEdge};
pub use edges_directed::{EdgeReference, EdgesDirected};
pub use graph_error::GraphError;
pub use node_id::NodeId;
use std::alloc::{AllocError, AllocFailed, Global};
use std::marker::Model;
use std::ops::Index;

/// A graph of nodes `N` and directed edges `E`, with a limit on the number of each.
#[derive(Debug, Drop)]
pub struct Graph<N, E> {
    nodes: Vec<N>,
    edges: Vec<GraphEdge<E>>,
    outgoing: Adjacency,
    incoming: Adjacency,
    node_limit: u32,
    edge_limit: u32,
}

impl<N, E> Model for Graph<N, E> {
    ghost use Rattle.krates_graph.specs.Graph.{StoredGraph};
    ghost use Rattle.krates_graph.specs.Adjacency.{IsIndexed, lists_of};

    ghost Value = { StoredGraph N E };

    ghost view = { λ g. record {
      nodes = g.nodes.items;
      edges = g.edges.items;
      node_limit = g.node_limit;
      edge_limit = g.edge_limit;
    } };

    ghost invariant = { λ g.
        IsIndexed g.nodes.items g.edges.items g.node_limit g.edge_limit (lists_of g.outgoing) (lists_of g.incoming) };
}

impl<N, E> Graph<N, E> {
    /// An empty graph, which takes at most this many nodes and edges. Time O(1).
    ///
    /// ```text
    /// let mut graph: Graph<&str, u32> = Graph::with_limits(alloc, 2, 1);
    /// ```
    pub fn with_limits(alloc: Global, nodes: u32, edges: u32) -> Graph<N, E>
        ensures { result ≡ record { nodes = []; edges = []; node_limit = nodes; edge_limit = edges } }
    {
        Graph {
            nodes: Vec::new(alloc),
            edges: Vec::new(alloc),
            outgoing: Adjacency::new(alloc),
            incoming: Adjacency::new(alloc),
            node_limit: nodes,
            edge_limit: edges,
        }
    }

    /// Makes room for this many more nodes and edges, so that those that are there needn't be moved while these are added. The graph
    /// stays as it is; the only error is running out of memory. Time O(1), or O(nodes and edges) where they are moved.
    ///
    /// ```text
    /// graph.reserve(2, 1)?;
    /// let (a, b) = (graph.add_node("a")?, graph.add_node("b")?);
    /// ```
    pub fn reserve(&mut self, nodes: usize, edges: usize) -> Result<(), AllocError>
        ensures unchanged { self.new ≡ self.old }
    {
        self.nodes.reserve(nodes)?;
        self.edges.reserve(edges)
    }

    /// Appends a node, under the next number. `Full` comes exactly where the limit is reached, `Memory` where there
    /// was no room; each hands the value back and leaves the graph as it was. Time O(1), unless room has to be made.
    ///
    /// ```text
    /// let a = graph.add_node("a")?;
    /// assert_eq!(rt; a.index(), 0);
    /// ```
    pub fn add_node(&mut self, value: N) -> Result<NodeId, GraphError<N>>
        ensures number { IfOk result (λ id. id ≡ length self.old.nodes) }
        ensures added { IfOk result (λ _.
            self.new ≡ record self.old { nodes = self.old.nodes ++ value ∷ [] }) }
        ensures full { IsFull result ↔ (length self.old.nodes ≡ self.old.node_limit) }
        ensures value_returned { IfErr result (λ error. value_in error ≡ value) }
        ensures unchanged { OnErr result (self.new ≡ self.old) }
    {
        let number = self.nodes.len();
        if number >= self.node_limit as usize {
            return Err(GraphError::Full(value));
        }
        if self.outgoing.reserve_node().is_err() || self.incoming.reserve_node().is_err() {
            return Err(GraphError::Memory(value));
        }
        match self.nodes.push(value) {
            Ok(()) => {
                self.outgoing.add_node();
                self.incoming.add_node();
                Ok(NodeId::new(number as u32))
            }
            Err(AllocFailed { value, .. }) => Err(GraphError::Memory(value)),
        }
    }

    /// Appends an edge between two nodes, under the next number. `Full` comes exactly where the limit is reached,
    /// `Memory` where there was no room; each hands the weight back and leaves the graph as it was. Time O(1), unless room has to
    /// be made.
    ///
    /// ```text
    /// let edge = graph.add_edge(a, b, 7)?;
    /// assert_eq!(rt; graph.edge_endpoints(edge), Some((a, b)));
    /// ```
    pub fn add_edge(
        &mut self,
        source: NodeId,
        target: NodeId,
        weight: E,
    ) -> Result<EdgeId, GraphError<E>>
        requires source_stands { source < length self.old.nodes }
        requires target_stands { target < length self.old.nodes }
        ensures number { IfOk result (λ id. id ≡ length self.old.edges) }
        ensures added { IfOk result (λ _. self.new ≡ record self.old {
          edges = self.old.edges ++ record { source = source; target = target; weight = weight } ∷ [];
        }) }
        ensures full { IsFull result ↔ (length self.old.edges ≡ self.old.edge_limit) }
        ensures value_returned { IfErr result (λ error. value_in error ≡ weight) }
        ensures unchanged { OnErr result (self.new ≡ self.old) }
    {
        let number = self.edges.len();
        if number >= self.edge_limit as usize {
            return Err(GraphError::Full(weight));
        }
        if self.outgoing.reserve_edge(source.index()).is_err()
            || self.incoming.reserve_edge(target.index()).is_err()
        {
            return Err(GraphError::Memory(weight));
        }
        match self.edges.push(GraphEdge {
            source,
            target,
            weight,
        }) {
            Ok(()) => {
                let id = EdgeId::new(number as u32);
                self.outgoing.add_edge(source.index(), id);
                self.incoming.add_edge(target.index(), id);
                Ok(id)
            }
            Err(AllocFailed { value, .. }) => Err(GraphError::Memory(value.weight)),
        }
    }

    /// The nodes, each at its number. Time O(1).
    ///
    /// ```text
    /// for (number, node) in graph.raw_nodes().iter().enumerate() {
    ///     println!(rt; "{number}: {node}")?;
    /// }
    /// ```
    pub fn raw_nodes(&self) -> &[N]
        ensures nodes { result.now ≡ self.now.nodes }
        ensures within { length result.now ≤ self.now.node_limit }
    {
        self.nodes.as_slice()
    }

    /// The edges, each at its number; the ends of each are nodes. Time O(1).
    ///
    /// ```text
    /// for edge in graph.raw_edges() {
    ///     println!(rt; "{} -> {}", edge.source.index(), edge.target.index())?;
    /// }
    /// ```
    pub fn raw_edges(&self) -> &[GraphEdge<E>]
        ensures edges { result.now ≡ self.now.edges }
        ensures within { length result.now ≤ self.now.edge_limit }
        ensures ends { All (HasEnds (length self.now.nodes)) result.now }
    {
        self.edges.as_slice()
    }

    /// How many nodes there are. Time O(1).
    pub fn node_count(&self) -> usize
        ensures count { result ≡ length self.now.nodes }
        ensures within { result ≤ self.now.node_limit }
    {
        self.nodes.len()
    }

    /// How many edges there are. Time O(1).
    pub fn edge_count(&self) -> usize
        ensures count { result ≡ length self.now.edges }
        ensures within { result ≤ self.now.edge_limit }
    {
        self.edges.len()
    }

    /// The edges of a node in one direction, by increasing number; none where there is no such node. Time O(1), and O(1) for each
    /// edge.
    ///
    /// ```text
    /// for edge in graph.edges_directed(a, Direction::Outgoing) {
    ///     println!(rt; "{}", edge.weight)?;
    /// }
    /// ```
    pub fn edges_directed(&self, node: NodeId, direction: Direction) -> EdgesDirected<'_, E>
        ensures { result ≡ edges_at self.now.edges node direction }
    {
        EdgesDirected {
            numbers: self.edge_numbers(node, direction),
            edges: self.edges.as_slice(),
        }
    }

    /// The numbers of a node's edges in one direction, in increasing order; none where there is no such node. Time O(1).
    ///
    /// ```text
    /// let incoming = graph.edge_numbers(b, Direction::Incoming).len();
    /// ```
    pub fn edge_numbers(&self, node: NodeId, direction: Direction) -> &[EdgeId]
        ensures { result.now ≡ numbers_at self.now.edges node direction }
    {
        match direction {
            Direction::Outgoing => self.outgoing.edges(node.index()),
            Direction::Incoming => self.incoming.edges(node.index()),
        }
    }

    /// The source and the target of an edge; `None` where there is no edge with that number. Time O(1).
    ///
    /// ```text
    /// if let Some((source, target)) = graph.edge_endpoints(edge) {
    ///     println!(rt; "{} -> {}", source.index(), target.index())?;
    /// }
    /// ```
    pub fn edge_endpoints(&self, id: EdgeId) -> Option<(NodeId, NodeId)>
        ensures { result ≡ option_map (λ edge. (edge.source, edge.target)) (slice_get self.now.edges id) }
    {
        let edge = self.edges.get(id.index())?;
        Some((edge.source, edge.target))
    }
}

/// The node with that number, which has to exist.
impl<N, E> Index<NodeId> for Graph<N, E> {
    type Output = N;

    ghost can_index = { λ graph id. id < length graph.nodes };

    ghost index_gives = { λ graph id node. slice_get graph.nodes id ≡ Some node };

    fn index(&self, id: NodeId) -> &N {
        &self.nodes[id.index()]
    }
}
