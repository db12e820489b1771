//! The planned edges, put into a graph.
ghost use Rattle.std.specs.Prelude.{◌≡◌, ◌<◌, ◌^◌, [], map, length, All, IfOk, OnOk, IfErr};
ghost use Rattle.std.specs.List.{AllZip};
ghost use Rattle.krates_drawing.specs.Ends.{HasEnds};
ghost use Rattle.krates_drawing.specs.Stored.{IsStoredAs};
ghost use Rattle.krates_drawing.specs.Views.{planned_edge_view};
ghost use Rattle.krates_drawing.specs.declared.edge.Edge.{Edge};
ghost use Rattle.krates_drawing.specs.Limits.{GraphErrorBecomes, StopsAt, StoringRefusal};

use crate::edge::{Edge, PlannedEdge};
use krates_graph::graph::{Graph, GraphError};
use krates_ids::Error;
use std::alloc::{AllocError, Global};

/// A value that is made of an edge, and is held in its place.
///
/// An edge is held as it is.
pub trait FromEdge {
    /// How an edge relates to the value that is made of it.
    ghost made_from_edge: { Edge → Self → Type 0 };

    /// Makes the value. The only error is running out of memory.
    fn from_edge(alloc: Global, edge: Edge) -> Result<Self, AllocError>
    where
        Self: Sized,
        ensures { IfOk result (made_from_edge edge) };
}

impl FromEdge for Edge {
    ghost made_from_edge = { λ edge made. made ≡ edge };

    fn from_edge(_alloc: Global, edge: Edge) -> Result<Edge, AllocError> {
        Ok(edge)
    }
}

/// Puts the planned edges, in their order, into a graph that has the nodes and no edge yet. It is refused as
/// `TooMany` only where there are more than the graph takes, and then the graph is full; or as `Memory`, before the last is in it.
/// Time O(edges).
pub fn store_edges<N, E: FromEdge + Drop>(
    alloc: Global,
    planned_edges: &[PlannedEdge],
    graph: &mut Graph<N, E>,
) -> Result<(), Error>
    requires stand { All (HasEnds (length graph.old.nodes)) (map planned_edge_view planned_edges.now) }
    requires few { length graph.old.nodes < 2 ^ 32 }
    requires empty { graph.old.edges ≡ [] }
    ensures drawn { OnOk result (AllZip (IsStoredAs E.made_from_edge)
        (map planned_edge_view planned_edges.now) graph.new.edges) }
    ensures rest { graph.new ≡ record graph.old { edges = graph.new.edges } }
    ensures refused { IfErr result (StoringRefusal graph.old.edge_limit (length planned_edges.now)) }
    ensures stopped { IfErr result (StopsAt graph.new (length planned_edges.now)) }
{
    for x in planned_edges {
        let edge = x.edge.clone()?;
        let weight = E::from_edge(alloc, edge)?;
        match graph.add_edge(x.source, x.target, weight) {
            Ok(_) => {}
            Err(cause) => return Err(refusal(cause)),
        }
    }
    Ok(())
}

/// As what it is told that the graph takes no further edge: too many where it is full, and want of memory as such.
fn refusal<E: Drop>(cause: GraphError<E>) -> Error
    ensures { GraphErrorBecomes cause result }
{
    match cause {
        GraphError::Full(_) => Error::TooMany,
        GraphError::Memory(_) => Error::Memory,
    }
}
