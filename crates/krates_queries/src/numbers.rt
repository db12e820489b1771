//! Crates and enabled features among the nodes of a graph, found by their ids and by their numbers.

ghost use Rattle.std.specs.Prelude.{◌≡◌, ◌↔◌, ◌<◌, ◌∷◌, ◌++◌, [], ℕ, ⊤, IfOk, IsSome, IsTrue, MatchOption, OnOk, Some, length, map, option_map, slice_get};
ghost use Rattle.krates_rules.specs.Resolved.{id_of, StandsAt};
ghost use Rattle.krates_drawing.specs.Node.{IsFeatureAt, crate_ids, crate_features, crate_values, names_in};
ghost use Rattle.krates_queries.specs.Direct.{home};
ghost use Rattle.krates_queries.specs.Kept.{AreNodes, AreStarts, HasEnabled, HasFeatures, IsNodeOf, IsNotKept, IsStart, StandsBefore, features_of, ids_of, values_of};
ghost use Rattle.krates_queries.specs.Numbers.{IsNumberFor, IsNumberIn, feature_cmp, id_in, kid_at, node_cmp};

use crate::kept::Krates;
use krates_drawing::node::{EnabledFeatures, Node};
use krates_graph::graph::NodeId;
use krates_ids::{Kid, laws};
use std::alloc::{AllocError, Global};
use std::cmp::Ordering;
use std::ops::Index;

impl<N, E> Krates<N, E> {
    /// The number of a crate: `Some` exactly for a kept crate, with its place in the order of the ids. Time O(log n)
    /// for n nodes.
    ///
    /// ```text
    /// let kid = Kid::try_from(pkg.id.clone()?)?;
    /// if let Some(number) = krates.nid_for_kid(&kid) {
    ///     println!(rt; "{} is number {}", kid.name(), number.index())?;
    /// }
    /// ```
    pub fn nid_for_kid(&self, kid: &Kid) -> Option<NodeId>
        ensures { (n : ℕ) → (result ≡ Some n) ↔ StandsAt (ids_of self.now) (id_of kid.now) n }
    {
        match number_of(self.nodes(), kid) {
            Some(number) => Some(NodeId::new(number as u32)),
            None => None,
        }
    }

    /// The id of a node's crate: of a crate its own, and of a feature that of the crate that has it; `None` exactly where
    /// there is no such node. Time O(1).
    ///
    /// ```text
    /// for found in &krates.direct_dependents(node)? {
    ///     if let Some(kid) = krates.kid(found.node_id) {
    ///         println!(rt; "needed by {kid}")?;
    ///     }
    /// }
    /// ```
    pub fn kid(&self, node: NodeId) -> Option<&Kid>
        ensures id { option_map (λ kid. kid.now) result ≡ kid_at self.now.graph.nodes node }
        ensures there { IsSome result ↔ node < length self.now.graph.nodes }
    {
        let nodes = self.nodes();
        id_at(nodes, home_of(nodes, node).index())
    }

    /// The node of a crate: `Some` exactly for a kept crate. Time O(log n) for n nodes.
    ///
    /// ```text
    /// let is_needed = krates.node_for_kid(&kid).is_some();
    /// ```
    pub fn node_for_kid(&self, kid: &Kid) -> Option<&Node<N>>
        ensures { MatchOption result (IsNotKept self.now (id_of kid.now))
            (λ node. IsNodeOf self.now (id_of kid.now) node.now) }
    {
        let nodes = self.nodes();
        match number_of(nodes, kid) {
            Some(number) => Some(standing_at(nodes, number)),
            None => None,
        }
    }

    /// The node of a crate, or that of an enabled feature of it, with its number. Without a feature it is `Some`
    /// exactly for a kept crate; with one exactly where `get_enabled_features` of the crate has that name. Time
    /// O(log n + log f) for n nodes, of which f are those of features of the crate: no other feature's is looked at.
    ///
    /// ```text
    /// let has_std = krates.get_node(&kid, Some("std")).is_some();
    /// ```
    pub fn get_node(&self, kid: &Kid, feature: Option<&str>) -> Option<(NodeId, &Node<N>)>
        ensures number { (n : ℕ) → (option_map (λ found. found.0) result ≡ Some n)
            ↔ IsNumberFor self.now.graph.nodes (id_of kid.now) (option_map (λ name. name.now) feature.entry) n }
        ensures node { MatchOption result ⊤ (λ found. slice_get self.now.graph.nodes found.0 ≡ Some found.1.now) }
        ensures enabled { MatchOption feature.entry ⊤ (λ name.
            IsSome result ↔ HasEnabled self.now (id_of kid.now) name.now) }
    {
        let nodes = self.nodes();
        match number_in(nodes, self.starts(), kid, feature) {
            Some(number) => Some((NodeId::new(number as u32), standing_at(nodes, number))),
            None => None,
        }
    }

    /// The enabled features of a crate, in the order of their names as bytes: `Some` exactly for a kept crate. A kept
    /// crate may have none, and then the set is empty. Time O(log n) for n nodes.
    ///
    /// ```text
    /// if let Some(features) = krates.get_enabled_features(&kid) {
    ///     for name in features.iter() {
    ///         println!(rt; "{name}")?;
    ///     }
    /// }
    /// ```
    pub fn get_enabled_features(&self, kid: &Kid) -> Option<&EnabledFeatures>
        ensures { MatchOption result (IsNotKept self.now (id_of kid.now))
            (λ features. HasFeatures (ids_of self.now) (features_of self.now) (id_of kid.now) (names_in features.now)) }
    {
        let nodes = self.nodes();
        match number_of(nodes, kid) {
            Some(number) => features_at(nodes, number),
            None => None,
        }
    }
}

/// The value held for the package of the crate with a number, which must be below `len()`. Time O(1).
///
/// ```text
/// let first = &krates[NodeId::new(0)];
/// ```
impl<N, E> Index<NodeId> for Krates<N, E> {
    type Output = N;

    ghost can_index = { λ krates id. id < length (ids_of krates) };

    ghost index_gives = { λ krates id krate. slice_get (values_of krates) id ≡ Some krate };

    fn index(&self, id: NodeId) -> &N {
        value_at(self.nodes(), id.index())
    }
}

/// The same by a plain number.
///
/// ```text
/// for number in 0..krates.len() {
///     println!(rt; "{number}: {}", krates[number].name)?;
/// }
/// ```
impl<N, E> Index<usize> for Krates<N, E> {
    type Output = N;

    ghost can_index = { λ krates number. number < length (ids_of krates) };

    ghost index_gives = { λ krates number krate. slice_get (values_of krates) number ≡ Some krate };

    fn index(&self, number: usize) -> &N {
        value_at(self.nodes(), number)
    }
}

/// The value held for the package of the crate with this number.
fn value_at<N>(nodes: &[Node<N>], number: usize) -> &N
    requires first { AreNodes nodes.now }
    requires stands { number < length (crate_ids nodes.now) }
    ensures { slice_get (crate_values nodes.now) number ≡ Some result.now }
{
    match standing_at(nodes, number) {
        Node::Krate { krate, .. } => krate,
        Node::Feature { .. } => unreachable!(),
    }
}

/// How a node compares with an id: a crate by its own, and a feature after every crate.
fn compare<N>(node: &Node<N>, kid: &Kid) -> Ordering
    ensures { result ≡ node_cmp node.now kid.now }
{
    match node {
        Node::Krate { id, .. } => id.cmp(kid),
        Node::Feature { .. } => Ordering::Greater,
    }
}

/// The number of the crate with an id, if there is one.
///
/// Time: O(log n).
pub fn number_of<N>(nodes: &[Node<N>], kid: &Kid) -> Option<usize>
    requires { AreNodes nodes.now }
    ensures { (n : ℕ) → (result ≡ Some n) ↔ StandsAt (crate_ids nodes.now) (id_of kid.now) n }
{
    laws::comparison();
    match nodes.binary_search_by(|node| compare(node, kid)) {
        Ok(place) => Some(place),
        Err(_) => None,
    }
}

/// The ids of the crates among the nodes, by number. The only error is running out of memory. Time: O(n).
pub(crate) fn lent_ids<N>(alloc: Global, nodes: &[Node<N>]) -> Result<Vec<&Kid>, AllocError>
    ensures { IfOk result (λ kids. map (λ kid. kid.now) kids.items ≡ crate_ids nodes.now) }
{
    let mut kids = Vec::new(alloc);
    for node in nodes {
        push_id(node, &mut kids)?;
    }
    Ok(kids)
}

/// Adds the id of a crate; nothing for a feature.
fn push_id<'a, N>(node: &'a Node<N>, kids: &mut Vec<&'a Kid>) -> Result<(), AllocError>
    ensures { OnOk result (map (λ kid. kid.now) kids.new.items
        ≡ map (λ kid. kid.now) kids.old.items ++ crate_ids (node.now ∷ [])) }
{
    match node {
        Node::Krate { id, .. } => match kids.push(id) {
            Ok(()) => Ok(()),
            Err(_) => Err(AllocError),
        },
        Node::Feature { .. } => Ok(()),
    }
}

/// The enabled features of the crate with a number, if there is one.
pub(crate) fn features_at<N>(nodes: &[Node<N>], number: usize) -> Option<&EnabledFeatures>
    requires { AreNodes nodes.now }
    ensures { option_map (λ features. names_in features.now) result ≡ slice_get (crate_features nodes.now) number }
{
    match node_at(nodes, number) {
        Some(Node::Krate { features, .. }) => Some(features),
        Some(Node::Feature { .. }) => None,
        None => None,
    }
}

/// The node with a number.
pub(crate) fn node_at<N>(nodes: &[Node<N>], number: usize) -> Option<&Node<N>>
    ensures { option_map (λ node. node.now) result ≡ slice_get nodes.now number }
{
    nodes.get(number)
}

/// The number of the crate of a node: that of a feature's crate, otherwise the node's own.
pub(crate) fn home_of<N>(nodes: &[Node<N>], number: NodeId) -> NodeId
    ensures { result ≡ home nodes.now number }
{
    match node_at(nodes, number.index()) {
        Some(Node::Feature { krate_index, .. }) => *krate_index,
        Some(Node::Krate { .. }) => number,
        None => number,
    }
}

/// The id of the crate with a number.
fn id_at<N>(nodes: &[Node<N>], number: usize) -> Option<&Kid>
    ensures { option_map (λ kid. kid.now) result ≡ id_in (slice_get nodes.now number) }
{
    match node_at(nodes, number) {
        Some(Node::Krate { id, .. }) => Some(id),
        Some(Node::Feature { .. }) => None,
        None => None,
    }
}

/// The node with a number.
pub(crate) fn standing_at<N>(nodes: &[Node<N>], number: usize) -> &Node<N>
    requires { number < length nodes.now }
    ensures { slice_get nodes.now number ≡ Some result.now }
{
    &nodes[number]
}

/// The number of the node of a crate, or of that of an enabled feature of it.
fn number_in<N>(
    nodes: &[Node<N>],
    starts: &[usize],
    kid: &Kid,
    feature: Option<&str>,
) -> Option<usize>
    requires nodes { AreNodes nodes.now }
    requires starts { AreStarts nodes.now starts.now }
    ensures { (n : ℕ) → (result ≡ Some n)
        ↔ IsNumberFor nodes.now (id_of kid.now) (option_map (λ name. name.now) feature.entry) n }
{
    match number_of(nodes, kid) {
        Some(krate) => crate_or_feature_number(nodes, starts, krate, feature),
        None => None,
    }
}

/// The number of the node of the crate with a number, or of that of an enabled feature of it.
fn crate_or_feature_number<N>(
    nodes: &[Node<N>],
    starts: &[usize],
    krate: usize,
    feature: Option<&str>,
) -> Option<usize>
    requires nodes { AreNodes nodes.now }
    requires starts { AreStarts nodes.now starts.now }
    requires stands { krate < length (crate_ids nodes.now) }
    ensures { (n : ℕ) → (result ≡ Some n)
        ↔ IsNumberIn nodes.now krate (option_map (λ name. name.now) feature.entry) n }
{
    match feature {
        Some(name) => kept_feature_number(nodes, starts, krate, name),
        None => Some(krate),
    }
}

/// The number of the enabled feature of this name of a crate, which is looked for among the crate's own features alone.
fn kept_feature_number<N>(
    nodes: &[Node<N>],
    starts: &[usize],
    krate: usize,
    name: &str,
) -> Option<usize>
    requires nodes { AreNodes nodes.now }
    requires starts { AreStarts nodes.now starts.now }
    requires stands { krate < length (crate_ids nodes.now) }
    ensures { (n : ℕ) → (result ≡ Some n) ↔ IsFeatureAt nodes.now n krate name.now }
{
    let start = start_in(starts, krate);
    let end = start_in(starts, krate + 1);
    let own = &nodes[start..end];
    match own.binary_search_by(|node| compare_feature(node, krate, name)) {
        Ok(place) => Some(start + place),
        Err(_) => None,
    }
}

/// The number that stands at a place.
fn start_in(starts: &[usize], place: usize) -> usize
    requires { place < length starts.now }
    ensures { slice_get starts.now place ≡ Some result }
{
    starts[place]
}

/// For the number of each of as many crates as stated, and for the one behind the last, the number of the node where its features
/// begin. Returns `AllocError` if memory runs out. Time: O(c log n) for c crates and n nodes.
pub fn starts_of<N>(
    alloc: Global,
    nodes: &[Node<N>],
    count: usize,
) -> Result<Vec<usize>, AllocError>
    requires nodes { AreNodes nodes.now }
    requires counted { count ≡ length (crate_ids nodes.now) }
    ensures { IfOk result (λ starts. AreStarts nodes.now starts.items) }
{
    let mut starts = Vec::with_capacity(alloc, count + 1)?;
    for krate in 0..count + 1 {
        starts.push(start_of(nodes, krate))?;
    }
    Ok(starts)
}

/// The number of the node where the features of the crate with a number begin.
fn start_of<N>(nodes: &[Node<N>], krate: usize) -> usize
    requires { AreNodes nodes.now }
    ensures { IsStart nodes.now krate result }
{
    nodes.partition_point(|node| stands_before(node, krate))
}

/// Whether a node is a crate, or a feature of a crate with a lower number.
fn stands_before<N>(node: &Node<N>, krate: usize) -> bool
    ensures { IsTrue result ↔ StandsBefore krate node.now }
{
    match node {
        Node::Krate { .. } => true,
        Node::Feature { krate_index, .. } => krate_index.index() < krate,
    }
}

/// How a node compares with the feature of this name of a crate: a feature by the number of its crate and then by its name, and a
/// crate before every feature.
fn compare_feature<N>(node: &Node<N>, krate: usize, name: &str) -> Ordering
    ensures { result ≡ feature_cmp node.now krate name.now }
{
    match node {
        Node::Krate { .. } => Ordering::Less,
        Node::Feature {
            krate_index,
            name: own,
        } => match krate_index.index().cmp(&krate) {
            Ordering::Equal => own.as_str().cmp(name),
            unequal => unequal,
        },
    }
}
