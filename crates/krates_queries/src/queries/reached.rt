//! What is reached along edges: nodes from nodes, in the direction of the edges or against it.

ghost use Rattle.std.specs.Prelude.{◌≡◌, ◌↔◌, ◌<◌, ◌^◌, ◌++◌, ℕ, ⊤, All, Contains, IfOk, IsTrue, OnOk, length, map, option_map, slice_get};
ghost use Rattle.std.specs.List.{filter_map};
ghost use Rattle.std.specs.List.Sorted.{IsStrictlySortedBy};
ghost use Rattle.std.specs.Ordering.{nat_cmp};
ghost use Rattle.krates_drawing.specs.Paths.{Passes, Reaches};
ghost use Rattle.krates_drawing.specs.Views.{listed, tie_view};
ghost use Rattle.krates_graph.specs.Agenda.{IsOrderly};
ghost use Rattle.krates_graph.specs.Graph.{HasEnds};
ghost use Rattle.krates_queries.specs.Direct.{value_at};
ghost use Rattle.krates_queries.specs.KrateNodes.{match_at, match_view};
ghost use Rattle.krates_queries.specs.Reached.{AreAllDependents, AreReached, Grows, HasPath, IsFarEnd, IsFarEndOf, IsNext, IsReached, TellsPath, far_end};

use crate::kept::Krates;
use crate::queries::direct::sorted_once;
use crate::queries::krate_nodes::{KrateMatch, krate_at};
use krates_drawing::edge::Edge;
use krates_drawing::node::Node;
use krates_graph::agenda::Agenda;
use krates_graph::graph::{Direction, EdgeId, Graph, GraphEdge, NodeId};
use krates_rules::DepKind;
use std::alloc::{AllocError, Global};

/// Which edges are followed, by what they carry.
trait EdgeFilter<E> {
    /// An edge that carries this is followed.
    ghost admits: { Self → E → Type 0 };

    /// Whether an edge that carries this is followed.
    fn passes(&self, weight: &E) -> bool
        ensures { IsTrue result ↔ admits self.now weight.now };
}

/// All edges.
#[derive(Clone, Copy)]
struct EveryEdge;

impl<E> EdgeFilter<E> for EveryEdge {
    ghost admits = { λ _ _. ⊤ };

    fn passes(&self, _weight: &E) -> bool {
        true
    }
}

/// Edges that have no kind or another one.
#[derive(Clone, Copy)]
struct WithoutKind {
    kind: DepKind,
}

impl EdgeFilter<Edge> for WithoutKind {
    ghost admits = { λ filter edge. Passes filter.kind (tie_view edge) };

    fn passes(&self, weight: &Edge) -> bool {
        weight.is_without(self.kind)
    }
}

/// The edge with a number.
fn edge_at<E>(edges: &[GraphEdge<E>], id: EdgeId) -> Option<&GraphEdge<E>>
    ensures { option_map (λ edge. edge.now) result ≡ slice_get edges.now id }
{
    edges.get(id.index())
}

/// The other node of an edge that is found in this direction.
fn other_end<E>(edge: &GraphEdge<E>, direction: Direction) -> NodeId
    ensures { result ≡ far_end direction edge.now }
{
    match direction {
        Direction::Outgoing => edge.target,
        Direction::Incoming => edge.source,
    }
}

/// Puts the other end of an edge, if the edge passes.
fn put_end<E, F: EdgeFilter<E>>(
    filter: &F,
    direction: Direction,
    edges: &[GraphEdge<E>],
    id: EdgeId,
    agenda: &mut Agenda,
)
    requires { All (HasEnds agenda.old.size) edges.now }
    ensures { Grows (IsFarEnd (F.admits filter.now) edges.now direction id) agenda.old agenda.new }
{
    if let Some(edge) = edge_at(edges, id) {
        if filter.passes(&edge.weight) {
            agenda.put(other_end(edge, direction).index());
        }
    }
}

/// Puts the other ends of the edges with these numbers that pass.
fn put_ends<E, F: EdgeFilter<E>>(
    filter: &F,
    direction: Direction,
    edges: &[GraphEdge<E>],
    ids: &[EdgeId],
    agenda: &mut Agenda,
)
    requires { All (HasEnds agenda.old.size) edges.now }
    ensures { Grows (IsFarEndOf (F.admits filter.now) edges.now direction ids.now) agenda.old agenda.new }
{
    for id in ids {
        put_end(filter, direction, edges, *id, agenda);
    }
}

/// Puts all nodes that are reached from those that were put, none of which was taken yet. Each is followed once.
fn put_reached<N, E, F: EdgeFilter<E>>(
    filter: &F,
    direction: Direction,
    graph: &Graph<N, E>,
    agenda: &mut Agenda,
)
    requires size { agenda.old.size ≡ length graph.now.nodes }
    requires none_taken { agenda.old.taken ≡ 0 }
    requires numbered { length graph.now.nodes < 2 ^ 32 }
    ensures put { (n : ℕ) → Contains agenda.new.put n
        ↔ Reaches (IsNext (F.admits filter.now) graph.now.edges direction) (Contains agenda.old.put) n }
    ensures size { agenda.new.size ≡ length graph.now.nodes }
    ensures orderly { IsOrderly agenda.new }
{
    while let Some(taken) = agenda.take() {
        let node = NodeId::new(taken.number() as u32);
        let ids = graph.edge_numbers(node, direction);
        put_ends(filter, direction, graph.raw_edges(), ids, agenda);
    }
}

/// The numbers as those of nodes.
fn as_nodes(alloc: Global, numbers: &[usize]) -> Result<Vec<NodeId>, AllocError>
    requires { All (λ n. n < 2 ^ 32) numbers.now }
    ensures { IfOk result (λ nodes. nodes.items ≡ numbers.now) }
{
    numbers
        .iter()
        .map(|number| NodeId::new(*number as u32))
        .collect(alloc)
}

/// The nodes that were put, by number.
fn nodes_put(alloc: Global, agenda: &Agenda) -> Result<Vec<NodeId>, AllocError>
    requires { agenda.now.size < 2 ^ 32 }
    ensures ascending { IfOk result (λ nodes. IsStrictlySortedBy nat_cmp nodes.items) }
    ensures same { IfOk result (λ nodes. (n : ℕ) → Contains nodes.items n ↔ Contains agenda.now.put n) }
{
    Ok(sorted_once(as_nodes(alloc, agenda.numbers())?))
}

/// Puts a node, if there is one of this number.
fn put_node<N, E>(graph: &Graph<Node<N>, E>, node: NodeId, agenda: &mut Agenda)
    requires { agenda.old.size ≡ length graph.now.nodes }
    ensures { Grows (λ n. (n ≡ node) × (node < length graph.now.nodes)) agenda.old agenda.new }
{
    if node.index() < graph.node_count() {
        agenda.put(node.index());
    }
}

/// The nodes from which a path of edges leads to this one.
fn leading_to<N, E>(
    alloc: Global,
    graph: &Graph<Node<N>, E>,
    node: NodeId,
) -> Result<Agenda, AllocError>
    requires { length graph.now.nodes < 2 ^ 32 }
    ensures put { IfOk result (λ agenda. (n : ℕ) → Contains agenda.put n
        ↔ HasPath graph.now.nodes graph.now.edges n node) }
    ensures size { IfOk result (λ agenda. agenda.size ≡ length graph.now.nodes) }
{
    let mut agenda = Agenda::new(alloc, graph.node_count())?;
    put_node(graph, node, &mut agenda);
    put_reached(&EveryEdge, Direction::Incoming, graph, &mut agenda);
    Ok(agenda)
}

/// Adds the crate with a number, if it is one.
fn push_crate<'a, N>(
    nodes: &'a [Node<N>],
    number: NodeId,
    found: &mut Vec<KrateMatch<'a, N>>,
) -> Result<(), AllocError>
    ensures { OnOk result (map match_view found.new.items
        ≡ map match_view found.old.items ++ listed (match_at nodes.now number)) }
{
    match krate_at(nodes, number) {
        Some(krate) => match found.push(krate) {
            Ok(()) => Ok(()),
            Err(_) => Err(AllocError),
        },
        None => Ok(()),
    }
}

/// The crates among the nodes with these numbers, in their order.
fn crates_among<'a, N>(
    alloc: Global,
    nodes: &'a [Node<N>],
    numbers: &[NodeId],
) -> Result<Vec<KrateMatch<'a, N>>, AllocError>
    ensures { IfOk result (λ found. map match_view found.items ≡ filter_map (match_at nodes.now) numbers.now) }
{
    let mut found = Vec::new(alloc);
    for number in numbers {
        push_crate(nodes, *number, &mut found)?;
    }
    Ok(found)
}

/// Puts these numbers.
fn put_all(numbers: &[NodeId], agenda: &mut Agenda)
    requires { All (λ n. n < agenda.old.size) numbers.now }
    ensures { Grows (Contains numbers.now) agenda.old agenda.new }
{
    for number in numbers {
        agenda.put(number.index());
    }
}

/// The nodes that are reached from these over edges that have no kind or another one.
fn reached<N>(
    alloc: Global,
    kind: DepKind,
    graph: &Graph<Node<N>, Edge>,
    starts: &[NodeId],
) -> Result<Agenda, AllocError>
    requires starts { All (λ n. n < length graph.now.nodes) starts.now }
    requires numbered { length graph.now.nodes < 2 ^ 32 }
    ensures put { IfOk result (λ agenda. (n : ℕ) → Contains agenda.put n
        ↔ IsReached kind graph.now.edges starts.now n) }
    ensures size { IfOk result (λ agenda. agenda.size ≡ length graph.now.nodes) }
{
    let mut agenda = Agenda::new(alloc, graph.node_count())?;
    put_all(starts, &mut agenda);
    put_reached(
        &WithoutKind { kind },
        Direction::Outgoing,
        graph,
        &mut agenda,
    );
    Ok(agenda)
}

/// Adds the value held for the crate with a number, if it is a crate.
fn push_krate<'a, N>(
    nodes: &'a [Node<N>],
    number: NodeId,
    krates: &mut Vec<&'a N>,
) -> Result<(), AllocError>
    ensures { OnOk result (map (λ krate. krate.now) krates.new.items
        ≡ map (λ krate. krate.now) krates.old.items ++ listed (value_at nodes.now number)) }
{
    match krate_at(nodes, number) {
        Some(found) => match krates.push(found.krate) {
            Ok(()) => Ok(()),
            Err(_) => Err(AllocError),
        },
        None => Ok(()),
    }
}

/// The values held for the crates among the nodes with these numbers, in their order.
fn krates_among<'a, N>(
    alloc: Global,
    nodes: &'a [Node<N>],
    numbers: &[NodeId],
) -> Result<Vec<&'a N>, AllocError>
    ensures { IfOk result (λ krates. map (λ krate. krate.now) krates.items
        ≡ filter_map (value_at nodes.now) numbers.now) }
{
    let mut krates = Vec::new(alloc);
    for number in numbers {
        push_krate(nodes, *number, &mut krates)?;
    }
    Ok(krates)
}

impl<N, E> Krates<N, E> {
    /// Whether a path of edges leads from one node to the other. A node reaches itself, by the path without
    /// edges. A number that no node has reaches nothing, and nothing reaches it. The only refusal is running
    /// out of memory.
    ///
    /// Time: O(n + e), where n counts the nodes of the graph and e the edges to those from which `to` is
    /// reached, each of which is looked at once.
    ///
    /// Whether the program that is built uses what an advisory names:
    ///
    /// ```text
    /// if krates.reaches(app, vulnerable)? {
    ///     println!(rt; "the program is affected")?;
    /// }
    /// ```
    pub fn reaches(&self, from: NodeId, to: NodeId) -> Result<bool, AllocError>
        ensures { IfOk result (TellsPath self.now.graph.nodes self.now.graph.edges from to) }
    {
        let found = leading_to(self.alloc(), self.graph(), to)?;
        Ok(found.numbers().contains(&from.index()))
    }

    /// The kept crates from which a path of edges leads to a node, each once, by number, which is the order
    /// of the ids: those that depend on it directly, those that depend on one of these, and so on. A crate is
    /// among its own, by the path without edges; the crate of a feature is among the feature's only if a path
    /// leads from the crate to the feature. The list is empty for a number that no node has. The only refusal is running
    /// out of memory.
    ///
    /// Time: O(n log n + e), where n counts the nodes of the graph and e the edges to those from which the
    /// node is reached, each of which is looked at once.
    ///
    /// All that an advisory concerns, however far away:
    ///
    /// ```text
    /// for found in &krates.all_dependents(vulnerable)? {
    ///     println!(rt; "{} {}", found.krate.name, found.krate.version)?;
    /// }
    /// ```
    pub fn all_dependents(&self, node: NodeId) -> Result<Vec<KrateMatch<'_, N>>, AllocError>
        ensures { IfOk result (λ found. AreAllDependents self.now.graph.nodes self.now.graph.edges node
            (map match_view found.items)) }
    {
        let alloc = self.alloc();
        let graph = self.graph();
        let agenda = leading_to(alloc, graph, node)?;
        let numbers = nodes_put(alloc, &agenda)?;
        crates_among(alloc, graph.raw_nodes(), &numbers)
    }
}

impl<N> Krates<N, Edge> {
    /// The crates that the kept members of the workspace reach over edges that have no kind or another one, in the
    /// order of their ids, the members included. What a build keeps that ignores this kind for all crates is among
    /// them, where the graph of the document has no root or one of the members. The only refusal is running out of
    /// memory.
    ///
    /// Time: O(n log n + e), where n counts the nodes of the graph and e the edges from those that are reached, each of which is
    /// looked at once.
    ///
    /// The crates that only dev dependencies bring, since both lists are in the order of the ids:
    ///
    /// ```text
    /// let others = krates.krates_filtered(DepKind::Dev)?;
    /// let mut left = others.as_slice();
    /// for krate in krates.krates() {
    ///     match left.split_first() {
    ///         Some((first, rest)) if first.id == krate.id => left = rest,
    ///         _ => writeln!(text, "{}", krate.name())?,
    ///     }
    /// }
    /// ```
    pub fn krates_filtered(&self, kind: DepKind) -> Result<Vec<&N>, AllocError>
        ensures { IfOk result (λ krates. AreReached kind self.now.graph.nodes self.now.graph.edges self.now.members
            (map (λ krate. krate.now) krates.items)) }
    {
        let alloc = self.alloc();
        let graph = self.graph();
        let agenda = reached(alloc, kind, graph, self.members())?;
        let numbers = nodes_put(alloc, &agenda)?;
        krates_among(alloc, graph.raw_nodes(), &numbers)
    }
}
