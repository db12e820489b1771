//! A selection's graph, drawn within limits to the numbers of its nodes and edges.
ghost use Rattle.std.specs.Prelude.{◌≡◌, IfErr, IfOk, map};
ghost use Rattle.krates_drawing.specs.Drawing.{planned_edges};
ghost use Rattle.krates_drawing.specs.Limits.{DrawingRefusal, IsWithin};
ghost use Rattle.krates_drawing.specs.Views.{ArePlannedNodes, planned_edge_view, outline_view};

use crate::edge::PlannedEdge;
use crate::nodes::PlannedNodes;
use crate::numbers::NumberedOutline;
use crate::outline::Outline;
use krates_ids::Error;
use std::alloc::Global;

/// How many nodes and how many edges a graph may have.
#[derive(Clone, Copy, Debug, PartialEq, Eq)]
pub struct Limits {
    /// The greatest number of nodes.
    pub nodes: u32,
    /// The greatest number of edges.
    pub edges: u32,
}

/// The nodes and edges of an outline, by number.
#[derive(Drop)]
pub struct Plan {
    /// The nodes, before packages are put into them.
    pub planned_nodes: PlannedNodes,
    /// The edges.
    pub planned_edges: Vec<PlannedEdge>,
}

/// Draws the nodes and the edges of an outline. It is refused as `TooMany` exactly where there are more nodes or more edges than the
/// limits allow; the nodes are counted before they are drawn, and the edges as they are planned. It may instead return
/// `Memory`.
///
/// Time: O(n log n) for n nodes and edges.
pub fn plan_within(alloc: Global, outline: &Outline, limits: Limits) -> Result<Plan, Error>
    ensures nodes { IfOk result (λ p. ArePlannedNodes (outline_view outline.now) p.planned_nodes) }
    ensures edges { IfOk result (λ p. map planned_edge_view p.planned_edges.items
        ≡ planned_edges (outline_view outline.now)) }
    ensures within { IfOk result (λ _. IsWithin limits (outline_view outline.now)) }
    ensures refused { IfErr result (DrawingRefusal limits (outline_view outline.now)) }
{
    let Some(numbered) = NumberedOutline::of(outline, limits.nodes) else {
        return Err(Error::TooMany);
    };
    let planned_nodes = numbered.plan_nodes(alloc)?;
    let planned_edges = numbered.plan(alloc)?;
    if planned_edges.len() > limits.edges as usize {
        return Err(Error::TooMany);
    }
    Ok(Plan {
        planned_nodes,
        planned_edges,
    })
}
