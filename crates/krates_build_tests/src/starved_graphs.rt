//! The stored graph.

use krates_graph::graph::{Graph, GraphError, NodeId};
use krates_samples::starving::{Call, granted, other_refusal, refused, starved};
use std::alloc::{AllocError, Global};
use std::test::Fail;

/// What is added to a graph: a node where there is none, or an edge or room for more where there is one node.
#[derive(Debug)]
enum Add {
    Node,
    Edge,
    Room,
}

/// All that may be added.
static ADDED: &[Add] = &[Add::Node, Add::Edge, Add::Room];

impl Call for Add {
    type Given = Graph<u32, u32>;

    type Answer = Result<usize, GraphError<u32>>;

    fn given(&self, alloc: Global) -> Result<Graph<u32, u32>, Fail> {
        let mut graph = Graph::with_limits(alloc, 9, 9);
        if !matches!(self, Add::Node) {
            graph.add_node(7)?;
        }
        Ok(graph)
    }

    fn answer(
        &self,
        _alloc: Global,
        given: &mut Graph<u32, u32>,
    ) -> Result<usize, GraphError<u32>> {
        match self {
            Add::Node => Ok(given.add_node(7)?.index()),
            Add::Edge if given.node_count() == 0 => Err(GraphError::Full(0)),
            Add::Edge => Ok(given.add_edge(NodeId::new(0), NodeId::new(0), 5)?.index()),
            Add::Room => match given.reserve(100, 100) {
                Ok(()) => Ok(0),
                Err(AllocError) => Err(GraphError::Memory(0)),
            },
        }
    }

    fn is_granted(
        &self,
        _alloc: Global,
        given: &mut Graph<u32, u32>,
        answer: &Result<usize, GraphError<u32>>,
    ) -> Result<bool, Fail> {
        match answer {
            Ok(index) => granted(*index == 0 && self.is_done(given)),
            Err(GraphError::Memory(value)) => refused(self.is_unchanged(given, *value)),
            Err(_) => other_refusal(),
        }
    }
}

impl Add {
    /// Whether the node or the edge is there, or the graph is as it was that has room for more.
    fn is_done(&self, graph: &Graph<u32, u32>) -> bool {
        match self {
            Add::Edge => graph.edge_count() == 1,
            _ => graph.raw_nodes() == [7].as_slice() && graph.edge_count() == 0,
        }
    }

    /// Whether the graph is as it was, and the value is given back that would have been added.
    fn is_unchanged(&self, graph: &Graph<u32, u32>, value: u32) -> bool {
        match self {
            Add::Node => value == 7 && graph.node_count() == 0,
            Add::Edge => value == 5 && graph.edge_count() == 0,
            Add::Room => self.is_done(graph),
        }
    }
}

#[test]
fn nodes_and_edges(rt: HostRuntime) -> Result<(), Fail> {
    starved(&rt, ADDED)
}
