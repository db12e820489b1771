//! The crates that a build keeps.

ghost use Rattle.std.specs.Prelude.{◌≡◌, ◌<◌, ◌^◌, length, string_bytes};
ghost use Rattle.std.specs.Iterator.{YieldsFirstRef, item_count};
ghost use Rattle.krates_queries.specs.Direct.{AreConnected};
ghost use Rattle.krates_queries.specs.Why.{AreExplained};
ghost use Rattle.krates_queries.specs.Kept.{AreCrateNumbers, AreFeatures, AreNodes, AreOrdered, AreStarts, ids_of, values_of};
ghost use Rattle.krates_drawing.specs.Node.{CratesFirst, crate_ids};

use krates_cm::Package;
use krates_drawing::edge::Edge;
use krates_drawing::node::Node;
use krates_graph::graph::{Graph, NodeId};
use krates_selection::{KeptStep, Work};
use std::alloc::Global;
use std::marker::Model;

/// How much work a build took, and why all that it keeps is kept.
#[derive(Drop)]
pub struct Findings {
    /// How much work it took.
    pub work: Work,
    /// The steps by which all that it keeps is kept, its crates by number.
    pub steps: Vec<KeptStep>,
}

/// Where crates and their features stand among the nodes of a graph.
#[derive(Drop)]
pub struct Places {
    /// The numbers of the kept members of the workspace, ascending, each once.
    pub members: Vec<NodeId>,
    /// The number of the node with which the features of each crate begin; last that of all nodes, where they end.
    pub starts: Vec<usize>,
}

/// The graph of the crates that a build keeps, and the path of the workspace.
///
/// The nodes of the crates come first, numbered from 0 in the order of their ids; then one for each enabled feature, in the
/// order of the crates and then of the names. Each crate holds an `N` for its package, and each edge an `E`.
#[derive(Debug, Drop)]
pub struct Krates<N = Package, E = Edge> {
    graph: Graph<Node<N>, E>,
    count: usize,
    members: Vec<NodeId>,
    starts: Vec<usize>,
    workspace_root: String,
    work: Work,
    steps: Vec<KeptStep>,
}

impl<N, E> Model for Krates<N, E> {
    ghost use Rattle.std.specs.Prelude.{◌≡◌, length, string_bytes};
    ghost use Rattle.krates_queries.specs.Direct.{AreConnected};
    ghost use Rattle.krates_queries.specs.Why.{AreExplained};
    ghost use Rattle.krates_queries.specs.Kept.{AreCrateNumbers, AreNodes, AreStarts, KeptCrates};
    ghost use Rattle.krates_drawing.specs.Node.{crate_ids};

    ghost Value = { KeptCrates N E };

    ghost view = { λ k. record {
      graph = k.graph;
      members = k.members.items;
      workspace_root = string_bytes k.workspace_root;
      work = k.work;
      steps = k.steps.items;
    } };

    ghost invariant = { λ k. AreNodes k.graph.nodes
        × (k.count ≡ length (crate_ids k.graph.nodes))
        × AreCrateNumbers k.graph.nodes k.members.items
        × AreStarts k.graph.nodes k.starts.items
        × AreConnected k.graph.nodes k.graph.edges
        × AreExplained k.graph.nodes k.steps.items };
}

/// The kept crates of this graph, as many as stated, which stand at these places, for a workspace at this path, and how they were
/// found. Only a build makes them, so it isn't a method, which whoever has the type could call. Time: O(1).
pub fn krates_of<N, E>(
    graph: Graph<Node<N>, E>,
    count: usize,
    places: Places,
    workspace_root: String,
    findings: Findings,
) -> Krates<N, E>
    requires nodes { AreNodes graph.nodes }
    requires counted { count ≡ length (crate_ids graph.nodes) }
    requires members { AreCrateNumbers graph.nodes places.members.items }
    requires starts { AreStarts graph.nodes places.starts.items }
    requires connected { AreConnected graph.nodes graph.edges }
    requires explained { AreExplained graph.nodes findings.steps.items }
    ensures { result ≡ record {
      graph = graph;
      members = places.members.items;
      workspace_root = string_bytes workspace_root;
      work = findings.work;
      steps = findings.steps.items;
    } }
{
    Krates {
        graph,
        count,
        members: places.members,
        starts: places.starts,
        workspace_root,
        work: findings.work,
        steps: findings.steps,
    }
}

impl<N, E> Krates<N, E> {
    /// How many crates are kept: at most 4,294,967,295. Time O(1).
    ///
    /// ```text
    /// println!(rt; "{} crates", krates.len())?;
    /// ```
    pub fn len(&self) -> usize
        ensures count { result ≡ length (ids_of self.now) }
        ensures numbered { result < 2 ^ 32 }
    {
        self.count
    }

    /// The graph: its nodes and its edges, each at its number. The nodes of the crates come first, by id; then those
    /// of their enabled features, by crate and then by name. An edge leads from a crate to each crate that its
    /// mapping names, or to a feature of that, and from each feature to its crate. Time O(1).
    ///
    /// ```text
    /// for edge in krates.graph().raw_edges() {
    ///     println!(rt; "{} -> {}", edge.source.index(), edge.target.index())?;
    /// }
    /// ```
    pub fn graph(&self) -> &Graph<Node<N>, E>
        ensures graph { result.now ≡ self.now.graph }
        ensures first { CratesFirst result.now.nodes }
        ensures features { AreFeatures result.now.nodes }
        ensures connected { AreConnected result.now.nodes result.now.edges }
    {
        &self.graph
    }

    /// The nodes, each at its number.
    pub(crate) fn nodes(&self) -> &[Node<N>]
        ensures nodes { result.now ≡ self.now.graph.nodes }
        ensures are { AreNodes result.now }
    {
        self.graph.raw_nodes()
    }

    /// The numbers of the kept members of the workspace, ascending, each once.
    pub(crate) fn members(&self) -> &[NodeId]
        ensures members { result.now ≡ self.now.members }
        ensures crates { AreCrateNumbers self.now.graph.nodes result.now }
    {
        self.members.as_slice()
    }

    /// For the number of each crate, and for the one behind the last, the number of the node where its features begin.
    pub(crate) fn starts(&self) -> &[usize]
        ensures starts { AreStarts self.now.graph.nodes result.now }
    {
        self.starts.as_slice()
    }

    /// The steps by which all that is kept is kept.
    pub(crate) fn steps(&self) -> &[KeptStep]
        ensures steps { result.now ≡ self.now.steps }
        ensures explained { AreExplained self.now.graph.nodes result.now }
    {
        self.steps.as_slice()
    }

    /// Where memory comes from.
    pub(crate) fn alloc(&self) -> Global {
        *self.members.allocator()
    }

    /// The values held for the packages of the kept crates, by increasing id, each once. Time O(1), and O(1) for each.
    ///
    /// ```text
    /// for pkg in krates.krates() {
    ///     println!(rt; "{} {}", pkg.name, pkg.version)?;
    /// }
    /// ```
    pub fn krates(&self) -> KratesIter<'_, N>
        ensures values { result ≡ values_of self.now }
        ensures ordered { AreOrdered (ids_of self.now) }
        ensures matched { length (values_of self.now) ≡ length (ids_of self.now) }
    {
        KratesIter {
            left: self.graph.raw_nodes(),
        }
    }

    /// How much work it took to find them: how many crates are kept, how many features are enabled, and how many
    /// references these have. Each count stays at its greatest value. Time O(1).
    ///
    /// ```text
    /// println!(rt; "{} features", krates.work().features)?;
    /// ```
    pub fn work(&self) -> Work
        ensures { result ≡ self.now.work }
    {
        self.work
    }

    /// The path of the workspace, as the document writes it. Time O(1).
    ///
    /// ```text
    /// println!(rt; "workspace {}", krates.workspace_root())?;
    /// ```
    pub fn workspace_root(&self) -> &str
        ensures { result.now ≡ self.now.workspace_root }
    {
        self.workspace_root.as_str()
    }
}

/// The values held for the packages of the kept crates, by increasing id.
#[derive(Debug, Drop)]
pub struct KratesIter<'a, N> {
    left: &'a [Node<N>],
}

impl<'a, N> Model for KratesIter<'a, N> {
    ghost use Rattle.std.specs.Prelude.{List};
    ghost use Rattle.krates_drawing.specs.Node.{crate_values};

    ghost Value = { List N };

    ghost view = { λ iter. crate_values iter.left.now };
}

impl<'a, N> Iterator for KratesIter<'a, N> {
    type Item = &'a N;

    ghost next_gives = { YieldsFirstRef (λ left. left) };

    ghost remaining = { item_count (λ left. left) };

    fn next(&mut self) -> Option<&'a N> {
        while let Some((first, rest)) = self.left.split_first() {
            self.left = rest;
            if let Node::Krate { krate, .. } = first {
                return Some(krate);
            }
        }
        None
    }
}
