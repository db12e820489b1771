//! The kept crates, each with its number and its id: all of them, those of a name, and the members.

ghost use Rattle.std.specs.Prelude.{◌≡◌, ◌<◌, All, Some, filter, length, map, option_map};
ghost use Rattle.std.specs.Iterator.{YieldsFirstBy, YieldsFirstRef, item_count};
ghost use Rattle.std.specs.List.{range_with_len};
ghost use Rattle.krates_queries.specs.Direct.{value_at};
ghost use Rattle.krates_queries.specs.Kept.{AreOrdered, ids_of, values_of};
ghost use Rattle.krates_queries.specs.KrateNodes.{crates_of, fits, has_fitting, is_named, match_at, match_view, nodes_at};

use crate::from_package::KrateDetails;
use crate::kept::Krates;
use crate::numbers::{node_at, standing_at};
use krates_drawing::node::Node;
use krates_graph::graph::NodeId;
use krates_ids::Kid;
use semver::VersionReq;
use std::marker::Model;

/// A kept crate with its number.
#[derive(Debug, Drop)]
pub struct KrateMatch<'a, N> {
    /// The value held for its package.
    pub krate: &'a N,
    /// Its id.
    pub kid: &'a Kid,
    /// The number of its node.
    pub node_id: NodeId,
}

/// The crate with a number; `None` for a feature, and where there is no node.
pub(crate) fn krate_at<N>(nodes: &[Node<N>], number: NodeId) -> Option<KrateMatch<'_, N>>
    ensures is { option_map match_view result ≡ match_at nodes.now number }
    ensures value { option_map (λ found. found.krate.now) result ≡ value_at nodes.now number }
{
    match node_at(nodes, number.index()) {
        Some(Node::Krate { id, krate, .. }) => Some(KrateMatch {
            krate,
            kid: id,
            node_id: number,
        }),
        Some(Node::Feature { .. }) => None,
        None => None,
    }
}

impl<N, E> Krates<N, E> {
    /// The kept crates, each with its id and the number of its node, by increasing number: from 0 to below
    /// `len()`, in the order of their ids. The nodes of features, which `graph()` has too, aren't among them. Takes
    /// no memory. Time O(1), and O(1) for each.
    ///
    /// How many kept crates depend directly on each:
    ///
    /// ```text
    /// for found in krates.krate_nodes() {
    ///     let count = krates.direct_dependents(found.node_id)?.len();
    ///     println!(rt; "{} {} {count}", found.node_id.index(), found.kid.name())?;
    /// }
    /// ```
    pub fn krate_nodes(&self) -> KrateNodes<'_, N>
        ensures all { result ≡ crates_of self.now }
        ensures numbers { map (λ m. m.number) result ≡ range_with_len 0 (length (ids_of self.now)) }
        ensures below { All (λ m. m.number < length (ids_of self.now)) result }
        ensures ids { map (λ m. m.id) result ≡ ids_of self.now }
        ensures krates { map (λ m. m.krate) result ≡ values_of self.now }
        ensures matched { length result ≡ length (ids_of self.now) }
        ensures ordered { AreOrdered (ids_of self.now) }
    {
        KrateNodes {
            left: self.nodes(),
            number: 0,
        }
    }

    /// The nodes of the kept members of the workspace, in the order of their ids, each once. Time O(1), and O(1) for
    /// each node.
    ///
    /// ```text
    /// let count = krates.workspace_members().count();
    /// ```
    pub fn workspace_members(&self) -> Members<'_, N>
        ensures { result ≡ nodes_at self.now.graph.nodes self.now.members }
    {
        Members {
            nodes: self.nodes(),
            left: self.members(),
        }
    }
}

/// Kept crates, by increasing number.
#[derive(Debug, Drop)]
pub struct KrateNodes<'a, N> {
    left: &'a [Node<N>],
    /// The number of the first that is left.
    number: usize,
}

impl<'a, N> Model for KrateNodes<'a, N> {
    ghost use Rattle.std.specs.Prelude.{◌≤◌, ◌+◌, ◌^◌, List, length};
    ghost use Rattle.krates_queries.specs.KrateNodes.{Match, numbered_crates};

    ghost Value = { List (Match N) };

    ghost view = { λ nodes. numbered_crates nodes.number nodes.left.now };

    ghost invariant = { λ nodes. nodes.number + length nodes.left.now ≤ 2 ^ 32 };
}

impl<'a, N> Iterator for KrateNodes<'a, N> {
    type Item = KrateMatch<'a, N>;

    ghost next_gives = { YieldsFirstBy match_view (λ left. left) };

    ghost remaining = { item_count (λ left. left) };

    fn next(&mut self) -> Option<KrateMatch<'a, N>> {
        while let Some((first, rest)) = self.left.split_first() {
            let node_id = NodeId::new(self.number as u32);
            self.left = rest;
            self.number += 1;
            if let Node::Krate { id, krate, .. } = first {
                return Some(KrateMatch {
                    krate,
                    kid: id,
                    node_id,
                });
            }
        }
        None
    }
}

impl<N: KrateDetails, E> Krates<N, E> {
    /// The kept crates of a name, by increasing number, so by id. The name is that of `KrateDetails`: a package's own,
    /// which may differ from the name in its id. Time O(n) for n nodes, so a report over all names groups the crates by name instead.
    ///
    /// ```text
    /// for found in krates.krates_by_name("rand") {
    ///     println!(rt; "{} {}", found.krate.name, found.krate.version)?;
    /// }
    /// ```
    pub fn krates_by_name<'a>(&'a self, name: &'a str) -> Matches<'a, N>
        ensures { result ≡ filter (is_named N.name_of name.now) (crates_of self.now) }
    {
        Matches {
            left: self.krate_nodes(),
            name,
            wanted: None,
        }
    }

    /// The kept crates of a name whose version fits a requirement, by increasing number. Name and version are those of
    /// `KrateDetails`: a package's own. A version fits as `semver` says. Time O(n) for n nodes.
    ///
    /// ```text
    /// let affected = VersionReq::parse(alloc, ">=0.7, <0.7.3")?;
    /// for found in krates.search_matches("rand", &affected) {
    ///     println!(rt; "{} {}", found.krate.name, found.krate.version)?;
    /// }
    /// ```
    pub fn search_matches<'a>(&'a self, name: &'a str, req: &'a VersionReq) -> Matches<'a, N>
        ensures { result ≡ filter (fits N.version_of (Some req.now))
            (filter (is_named N.name_of name.now) (crates_of self.now)) }
    {
        Matches {
            left: self.krate_nodes(),
            name,
            wanted: Some(req),
        }
    }
}

/// Kept crates of a name, by increasing number; with a version requirement, only those whose version fits.
#[derive(Drop)]
pub struct Matches<'a, N: KrateDetails> {
    left: KrateNodes<'a, N>,
    /// The name that they have.
    name: &'a str,
    wanted: Option<&'a VersionReq>,
}

impl<'a, N: KrateDetails> Model for Matches<'a, N> {
    ghost use Rattle.std.specs.Prelude.{List, filter, option_map};
    ghost use Rattle.krates_queries.specs.KrateNodes.{Match};
    ghost use Rattle.krates_queries.specs.KrateNodes.{fits, is_named};

    ghost Value = { List (Match N) };

    ghost view = { λ m. filter (fits N.version_of (option_map (λ req. req.now) m.wanted))
        (filter (is_named N.name_of m.name.now) m.left) };
}

impl<'a, N: KrateDetails> Iterator for Matches<'a, N> {
    type Item = KrateMatch<'a, N>;

    ghost next_gives = { YieldsFirstBy match_view (λ left. left) };

    ghost remaining = { item_count (λ left. left) };

    fn next(&mut self) -> Option<KrateMatch<'a, N>> {
        while let Some(found) = self.left.next() {
            if found.krate.name() == self.name && is_fitting(self.wanted, found.krate) {
                return Some(found);
            }
        }
        None
    }
}

/// Whether the version of a crate fits what is wanted, if anything is.
fn is_fitting<N: KrateDetails>(wanted: Option<&VersionReq>, krate: &N) -> bool
    ensures { result ≡ has_fitting N.version_of (option_map (λ req. req.now) wanted.entry) krate.now }
{
    match wanted {
        Some(req) => req.matches(krate.version()),
        None => true,
    }
}

/// The nodes of the kept members of the workspace, in the order of their ids.
#[derive(Debug, Drop)]
pub struct Members<'a, N> {
    nodes: &'a [Node<N>],
    left: &'a [NodeId],
}

impl<'a, N> Model for Members<'a, N> {
    ghost use Rattle.std.specs.Prelude.{◌<◌, All, List, length};
    ghost use Rattle.krates_queries.specs.KrateNodes.{nodes_at};
    ghost use Rattle.krates_drawing.specs.declared.node.Node.{Node};

    ghost Value = { List (Node N) };

    ghost view = { λ members. nodes_at members.nodes.now members.left.now };

    ghost invariant = { λ members. All (λ n. n < length members.nodes.now) members.left.now };
}

impl<'a, N> Iterator for Members<'a, N> {
    type Item = &'a Node<N>;

    ghost next_gives = { YieldsFirstRef (λ left. left) };

    ghost remaining = { item_count (λ left. left) };

    fn next(&mut self) -> Option<&'a Node<N>> {
        let Some((number, rest)) = self.left.split_first() else {
            return None;
        };
        let node = standing_at(self.nodes, number.index());
        self.left = rest;
        Some(node)
    }
}
