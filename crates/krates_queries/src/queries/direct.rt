//! What edges and mappings join to a node: crates on which it depends directly, and those that depend on it.

ghost use Rattle.std.specs.Prelude.{◌≡◌, ◌↔◌, ◌<◌, ◌++◌, ℕ, All, Contains, IfOk, OnOk, Some, length, map, option_map, slice_get};
ghost use Rattle.std.specs.Iterator.{YieldsFirstBy, item_count};
ghost use Rattle.std.specs.List.Sorted.{IsStrictlySortedBy};
ghost use Rattle.std.specs.Ordering.{nat_cmp};
ghost use Rattle.krates_drawing.specs.Views.{listed};
ghost use Rattle.krates_graph.specs.Graph.{HasEnds, numbers_at};
ghost use Rattle.krates_graph.specs.declared.graph.edge.Direction.TheVariants.{Outgoing};
ghost use Rattle.krates_queries.specs.Direct.{AreDependencies, AreDependents, AreInOrder, Joined, dependency_view, dependent_view, deps_of, first_edge, is_feature_of as is_feature, joined_all, joined_by, named_by, number_in, numbers_in, resolved_at, sources_into, sources_over, sources_to, target_in, target_of, targets_from, value_at};

use crate::kept::Krates;
use crate::numbers::{home_of, node_at, standing_at};
use crate::queries::krate_nodes::{KrateMatch, krate_at};
use krates_drawing::node::Node;
use krates_graph::graph::{Direction, EdgeId, Graph, GraphEdge, NodeId};
use std::alloc::{AllocError, Global};
use std::marker::Model;

/// A crate that an edge joins to a node.
#[derive(Clone, Copy, PartialEq, Eq, PartialOrd, Ord)]
struct Neighbour {
    /// The number of the crate.
    krate: NodeId,
    /// The number of the edge.
    edge: EdgeId,
}

/// The neighbours by crate, and then by edge.
fn ordered(mut neighbours: Vec<Neighbour>) -> Vec<Neighbour>
    ensures ordered { AreInOrder result.items }
    ensures same { (n : Neighbour) → Contains result.items n ↔ Contains neighbours.items n }
{
    neighbours.sort_unstable();
    neighbours
}

/// The edge of the first of the neighbours that is the crate with this number.
fn first_edge(neighbours: &[Neighbour], number: NodeId) -> Option<EdgeId>
    requires { AreInOrder neighbours.now }
    ensures { result ≡ first_edge neighbours.now number }
{
    let below = neighbours.partition_point(|neighbour| neighbour.krate < number);
    match neighbours.get(below) {
        Some(neighbour) if neighbour.krate == number => Some(neighbour.edge),
        _ => None,
    }
}

/// Whether the number is that of a feature of the crate of another.
fn is_feature_of<N>(nodes: &[Node<N>], krate: NodeId, number: NodeId) -> bool
    ensures { result ≡ is_feature nodes.now krate number }
{
    match node_at(nodes, number.index()) {
        Some(node) => node.is_feature_of(krate),
        None => false,
    }
}

/// What is told of a crate that an edge joins to a node: that it is a dependency, or that it is a dependent.
trait FromJoined<'a, N>: Sized + Drop {
    /// The crate that it tells of.
    ghost joined_view: { Self → Joined N };

    /// Tells of a crate with its number and that of an edge.
    fn from_joined(krate: &'a N, node_id: NodeId, edge_id: EdgeId) -> Self
        ensures { joined_view result ≡ record { krate = krate.now; node = node_id; edge = edge_id } };
}

/// Adds the crate with a number, with the first edge by which it is a neighbour; nothing if it isn't one.
fn push_joined<'a, N, J: FromJoined<'a, N>>(
    nodes: &'a [Node<N>],
    neighbours: &[Neighbour],
    number: NodeId,
    found: &mut Vec<J>,
) -> Result<(), AllocError>
    requires { AreInOrder neighbours.now }
    ensures { OnOk result (map J.joined_view found.new.items ≡ map J.joined_view found.old.items
        ++ listed (joined_by number (value_at nodes.now number) (first_edge neighbours.now number))) }
{
    let Some(KrateMatch { krate, .. }) = krate_at(nodes, number) else {
        return Ok(());
    };
    let Some(edge_id) = first_edge(neighbours, number) else {
        return Ok(());
    };
    // No `?` here: what it makes of the refusal would have to own references.
    match found.push(J::from_joined(krate, number, edge_id)) {
        Ok(()) => Ok(()),
        Err(_) => Err(AllocError),
    }
}

/// The crates with these numbers that are neighbours, each with the first edge by which it is one.
fn joined_krates<'a, N, J: FromJoined<'a, N>>(
    alloc: Global,
    nodes: &'a [Node<N>],
    neighbours: &[Neighbour],
    numbers: &[NodeId],
) -> Result<Vec<J>, AllocError>
    requires { AreInOrder neighbours.now }
    ensures { IfOk result (λ found. map J.joined_view found.items
        ≡ joined_all (value_at nodes.now) (first_edge neighbours.now) numbers.now) }
{
    let mut found = Vec::new(alloc);
    for number in numbers {
        push_joined(nodes, neighbours, *number, &mut found)?;
    }
    Ok(found)
}

/// The numbers in order, each once.
pub(crate) fn sorted_once(mut numbers: Vec<NodeId>) -> Vec<NodeId>
    ensures ascending { IsStrictlySortedBy nat_cmp result.items }
    ensures same { (n : ℕ) → Contains result.items n ↔ Contains numbers.items n }
{
    numbers.sort_unstable();
    numbers.dedup();
    numbers
}

/// A crate on which another depends directly.
#[derive(Debug, Drop)]
pub struct DirectDependency<'a, N> {
    /// The value held for the package of the crate.
    pub krate: &'a N,
    /// The number of the crate.
    pub node_id: NodeId,
    /// The least edge from the crate that depends on it, to it or to a feature of it.
    pub edge_id: EdgeId,
}

impl<'a, N> FromJoined<'a, N> for DirectDependency<'a, N> {
    ghost joined_view = { dependency_view };

    fn from_joined(krate: &'a N, node_id: NodeId, edge_id: EdgeId) -> DirectDependency<'a, N> {
        DirectDependency {
            krate,
            node_id,
            edge_id,
        }
    }
}

/// The numbers that a mapping names.
fn mapped_numbers(alloc: Global, mapping: &[Option<NodeId>]) -> Result<Vec<NodeId>, AllocError>
    ensures { IfOk result (λ numbers. numbers.items ≡ numbers_in mapping.now) }
{
    mapping.iter().filter_map(|entry| *entry).collect(alloc)
}

/// The numbers that a node's mapping names.
fn named<N>(alloc: Global, node: &Node<N>) -> Result<Vec<NodeId>, AllocError>
    ensures { IfOk result (λ numbers. numbers.items ≡ named_by (Some node.now)) }
{
    match node {
        Node::Krate { dep_mapping, .. } => mapped_numbers(alloc, dep_mapping),
        Node::Feature { .. } => Ok(Vec::new(alloc)),
    }
}

/// Adds the crate to which, or to a feature of which, an edge leads.
fn push_target<N, E>(
    graph: &Graph<Node<N>, E>,
    edge: EdgeId,
    targets: &mut Vec<Neighbour>,
) -> Result<(), AllocError>
    ensures { OnOk result (targets.new.items ≡ targets.old.items
        ++ listed (target_in graph.now.nodes edge (slice_get graph.now.edges edge))) }
{
    let Some((_, target)) = graph.edge_endpoints(edge) else {
        return Ok(());
    };
    let krate = home_of(graph.raw_nodes(), target);
    targets.push(Neighbour { krate, edge })?;
    Ok(())
}

/// The crates to which, or to features of which, the edges from a node lead.
fn targets_of<N, E>(
    alloc: Global,
    graph: &Graph<Node<N>, E>,
    from: NodeId,
) -> Result<Vec<Neighbour>, AllocError>
    ensures { IfOk result (λ targets. targets.items ≡ targets_from graph.now.nodes graph.now.edges from) }
{
    let mut targets = Vec::new(alloc);
    for id in graph.edge_numbers(from, Direction::Outgoing) {
        push_target(graph, *id, &mut targets)?;
    }
    Ok(targets)
}

/// A crate that depends directly on another, or on a feature of it.
#[derive(Debug, Drop)]
pub struct DirectDependent<'a, N> {
    /// The value held for the package of the crate.
    pub krate: &'a N,
    /// The number of the crate.
    pub node_id: NodeId,
    /// The least edge from it: to the crate that was asked about or to a feature of that, or to the feature that was
    /// asked about.
    pub edge_id: EdgeId,
}

impl<'a, N> FromJoined<'a, N> for DirectDependent<'a, N> {
    ghost joined_view = { dependent_view };

    fn from_joined(krate: &'a N, node_id: NodeId, edge_id: EdgeId) -> DirectDependent<'a, N> {
        DirectDependent {
            krate,
            node_id,
            edge_id,
        }
    }
}

/// Adds the sources of the edges to a node.
fn push_sources<N, E>(
    graph: &Graph<Node<N>, E>,
    to: NodeId,
    sources: &mut Vec<Neighbour>,
) -> Result<(), AllocError>
    ensures { OnOk result (sources.new.items ≡ sources.old.items ++ sources_to graph.now.edges to) }
{
    for id in graph.edge_numbers(to, Direction::Incoming) {
        if let Some((source, _)) = graph.edge_endpoints(*id) {
            sources.push(Neighbour {
                krate: source,
                edge: *id,
            })?;
        }
    }
    Ok(())
}

/// Adds, for each of these that is a feature of the node, the sources of the edges to it.
fn push_feature_sources<N, E>(
    graph: &Graph<Node<N>, E>,
    to: NodeId,
    among: &[Neighbour],
    sources: &mut Vec<Neighbour>,
) -> Result<(), AllocError>
    ensures { OnOk result (sources.new.items ≡ sources.old.items
        ++ sources_over graph.now.nodes graph.now.edges to among.now) }
{
    for source in among {
        if is_feature_of(graph.raw_nodes(), to, source.krate) {
            push_sources(graph, source.krate, sources)?;
        }
    }
    Ok(())
}

/// The sources of the edges to a node and to its features.
fn sources_of<N, E>(
    alloc: Global,
    graph: &Graph<Node<N>, E>,
    to: NodeId,
) -> Result<Vec<Neighbour>, AllocError>
    ensures { IfOk result (λ sources. sources.items ≡ sources_into graph.now.nodes graph.now.edges to) }
{
    let mut own = Vec::new(alloc);
    push_sources(graph, to, &mut own)?;
    let mut sources = Vec::new(alloc);
    push_sources(graph, to, &mut sources)?;
    push_feature_sources(graph, to, &own, &mut sources)?;
    Ok(sources)
}

/// The numbers of the neighbours.
fn neighbour_numbers(alloc: Global, neighbours: &[Neighbour]) -> Result<Vec<NodeId>, AllocError>
    ensures { IfOk result (λ numbers. numbers.items ≡ map (λ n. n.krate) neighbours.now) }
{
    neighbours
        .iter()
        .map(|neighbour| neighbour.krate)
        .collect(alloc)
}

/// The number that a node has at a place of its mapping.
fn mapped_number<N>(node: &Node<N>, place: usize) -> Option<NodeId>
    ensures { result ≡ number_in (Some node.now) place }
{
    match node {
        Node::Krate { dep_mapping, .. } => *dep_mapping.get(place)?,
        Node::Feature { .. } => None,
    }
}

/// The nodes at the ends of a node's outgoing edges, each with what the edge carries, by the numbers of the edges.
#[derive(Debug, Drop)]
pub struct Deps<'a, N, E> {
    nodes: &'a [Node<N>],
    edges: &'a [GraphEdge<E>],
    left: &'a [EdgeId],
}

impl<'a, N, E> Model for Deps<'a, N, E> {
    ghost use Rattle.std.specs.Prelude.{◌<◌, All, List, length};
    ghost use Rattle.krates_graph.specs.Graph.{HasEnds};
    ghost use Rattle.krates_queries.specs.Direct.{targets_of};
    ghost use Rattle.krates_drawing.specs.declared.node.Node.{Node};

    ghost Value = { List (Node N × E) };

    ghost view = { λ deps. targets_of deps.nodes.now deps.edges.now deps.left.now };

    ghost invariant = { λ deps. All (HasEnds (length deps.nodes.now)) deps.edges.now
        × All (λ number. number < length deps.edges.now) deps.left.now };
}

impl<'a, N, E> Iterator for Deps<'a, N, E> {
    type Item = (&'a Node<N>, &'a E);

    ghost next_gives = { YieldsFirstBy (λ dep. (dep.0.now, dep.1.now)) (λ left. left) };

    ghost remaining = { item_count (λ left. left) };

    fn next(&mut self) -> Option<(&'a Node<N>, &'a E)> {
        let Some((id, rest)) = self.left.split_first() else {
            return None;
        };
        let dep = dep_by(self.nodes, self.edges, *id);
        self.left = rest;
        Some(dep)
    }
}

/// The node at the end of the edge with that number, with what the edge carries.
fn dep_by<'a, N, E>(
    nodes: &'a [Node<N>],
    edges: &'a [GraphEdge<E>],
    id: EdgeId,
) -> (&'a Node<N>, &'a E)
    requires stands { id < length edges.now }
    requires ends { All (HasEnds (length nodes.now)) edges.now }
    ensures { target_of nodes.now (slice_get edges.now id) ≡ Some (result.0.now, result.1.now) }
{
    let edge = &edges[id.index()];
    let node = standing_at(nodes, edge.target.index());
    (node, &edge.weight)
}

impl<N, E> Krates<N, E> {
    /// The crates that the declared dependencies of a crate mean, each once, by number, with the least edge to each;
    /// none for a feature. There must be a node with that number. The only refusal is running out of memory.
    ///
    /// A build promises that these are exactly the crates that have this one among their `direct_dependents`, where no
    /// two kept crates come by one declared dependency of it. Where two do, the other has it as a dependent alone.
    ///
    /// Time: O(n log n), where n counts the declared dependencies of the crate and the edges from it.
    ///
    /// ```text
    /// if node.index() < krates.graph().node_count() {
    ///     for found in &krates.direct_dependencies(node)? {
    ///         println!(rt; "needs {}", found.krate.name)?;
    ///     }
    /// }
    /// ```
    pub fn direct_dependencies(
        &self,
        node: NodeId,
    ) -> Result<Vec<DirectDependency<'_, N>>, AllocError>
        requires stands { node < length self.now.graph.nodes }
        ensures { IfOk result (λ found. AreDependencies self.now.graph.nodes self.now.graph.edges node
            (map dependency_view found.items)) }
    {
        let alloc = self.alloc();
        let graph = self.graph();
        let numbers = sorted_once(named(alloc, &graph[node])?);
        let targets = ordered(targets_of(alloc, graph, node)?);
        joined_krates(alloc, graph.raw_nodes(), &targets, &numbers)
    }

    /// The crates that depend directly on a node, each once, by number, with the least edge from each: on a crate
    /// those with an edge to it or to a feature of it, on a feature those with an edge to it; none where there is no such node. The
    /// only refusal is running out of memory.
    ///
    /// Which crates depend on one, and by which edge:
    ///
    /// ```text
    /// for found in &krates.direct_dependents(node)? {
    ///     if let Some(edge) = krates.graph().raw_edges().get(found.edge_id.index()) {
    ///         writeln!(text, "{} {}", found.krate.name(), edge.weight)?;
    ///     }
    /// }
    /// ```
    ///
    /// Time: O(n log n), where n counts the edges to the node and to its features.
    pub fn direct_dependents(&self, node: NodeId) -> Result<Vec<DirectDependent<'_, N>>, AllocError>
        ensures { IfOk result (λ found. AreDependents self.now.graph.nodes self.now.graph.edges node
            (map dependent_view found.items)) }
    {
        let alloc = self.alloc();
        let graph = self.graph();
        let sources = ordered(sources_of(alloc, graph, node)?);
        let numbers = sorted_once(neighbour_numbers(alloc, &sources)?);
        joined_krates(alloc, graph.raw_nodes(), &sources, &numbers)
    }

    /// The value held for the crate that a crate's declared dependency means: the dependency at that place of its package. `None`
    /// where no crate is kept for it, where there is no such place, and for a feature or no node. Time
    /// O(1), whatever the graph.
    ///
    /// ```text
    /// // the first dependency that the manifest declares
    /// let first = krates.resolved_dependency(node, 0);
    /// ```
    pub fn resolved_dependency(&self, node: NodeId, place: usize) -> Option<&N>
        ensures { option_map (λ krate. krate.now) result ≡ resolved_at self.now.graph.nodes node place }
    {
        let nodes = self.graph().raw_nodes();
        let number = mapped_number(node_at(nodes, node.index())?, place)?;
        // No `?` here: what it makes of no crate would have to own references.
        let Some(found) = krate_at(nodes, number) else {
            return None;
        };
        Some(found.krate)
    }

    /// The node at the end of each outgoing edge of a node, with what the edge carries, by the numbers of the edges;
    /// nothing where there is no node. Time O(1), and O(1) for each edge, whatever the graph.
    ///
    /// ```text
    /// let count = krates.get_deps(NodeId::new(0)).count();
    /// ```
    pub fn get_deps(&self, node: NodeId) -> Deps<'_, N, E>
        ensures targets { result ≡ deps_of self.now.graph.nodes self.now.graph.edges node }
        ensures all { length result ≡ length (numbers_at self.now.graph.edges node Outgoing) }
    {
        let graph = self.graph();
        Deps {
            nodes: graph.raw_nodes(),
            edges: graph.raw_edges(),
            left: graph.edge_numbers(node, Direction::Outgoing),
        }
    }
}
