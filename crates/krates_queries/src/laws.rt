//! Laws of queries, for all graphs. Each is the contract of a function that does nothing.

ghost use Rattle.std.specs.Prelude.{List};
ghost use Rattle.krates_graph.specs.declared.graph.edge.GraphEdge.{GraphEdge};
ghost use Rattle.krates_queries.specs.Reached.{DependentsReach, DirectAreAmongAll};
ghost use Rattle.krates_drawing.specs.declared.node.Node.{Node};

/// A kept crate reaches a node exactly if it is among all dependents of the node, and the direct dependents of the node are
/// among them.
pub fn dependents_reach<N, E>()
    ensures reach { (nodes : List (Node N)) (edges : List (GraphEdge E)) → DependentsReach nodes edges }
    ensures direct { (nodes : List (Node N)) (edges : List (GraphEdge E)) → DirectAreAmongAll nodes edges }
{}
