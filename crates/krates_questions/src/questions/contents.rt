//! What a document has for a crate: its package and its node.

ghost use Rattle.std.specs.Prelude.{◌≡◌, length, option_map};
ghost use Rattle.krates_cm.specs.Document.{node_view, package_view};
ghost use Rattle.krates_questions.specs.Lookup.{IsPackageOf, resolved_view, IsNodeOf};
ghost use Rattle.krates_questions.specs.FeatureTable.{listed_features};
ghost use Rattle.krates_rules.specs.Admission.{IsRootId};
ghost use Rattle.krates_rules.specs.Resolved.{id_of};

use crate::questions::Document;
use krates_cm::{Metadata, Node, Package};
use krates_ids::Kid;

impl<'a> Document<'a> {
    /// The document itself. Time O(1).
    pub fn metadata(&self) -> &'a Metadata
        ensures { result.now ≡ self.now.metadata.now }
    {
        self.lookup.metadata
    }

    /// The id of the graph's root; none where it has no root. Time O(1).
    pub fn graph_root(&self) -> Option<&'a Kid>
        ensures { IsRootId (resolved_view self.now).graph.root (option_map (λ root. root.now) result) }
    {
        self.agrees();
        self.lookup.ids.root.as_ref()
    }

    /// The package of a crate; none where the document has none. It is found by binary search. Time O(log n) in the crates.
    pub fn package_of(&self, krate: &Kid) -> Option<&'a Package>
        ensures { IsPackageOf (resolved_view self.now) (id_of krate.now) (option_map
            (λ pkg. package_view pkg.now) result) }
    {
        self.package_at(self.crate_number(krate))
    }

    /// The node of a crate; none where the graph has none. It is found by binary search. Time O(log n) in the crates.
    pub fn node_of(&self, krate: &Kid) -> Option<&'a Node>
        ensures { IsNodeOf (resolved_view self.now) (id_of krate.now) (option_map
            (λ node. node_view node.now) result) }
    {
        match self.node_place(krate) {
            Some(place) => Some(&self.lookup.resolve.nodes[place.index]),
            None => None,
        }
    }

    /// The packages, in the order of the document. Time O(1).
    pub fn packages(&self) -> &'a [Package]
        ensures { result.now ≡ self.now.metadata.now.packages.items }
    {
        &self.lookup.metadata.packages
    }

    /// The nodes of the graph, in the order of the document. Time O(1).
    pub fn nodes(&self) -> &'a [Node]
        ensures { result.now ≡ self.now.resolve.now.nodes.items }
    {
        &self.lookup.resolve.nodes
    }

    /// The ids of the nodes, in their order. Time O(1).
    pub fn node_ids(&self) -> &'a [Kid]
        ensures { result.now ≡ self.now.ids.now.nodes.items }
    {
        &self.lookup.ids.nodes
    }

    /// The ids of the members of the workspace, in the order of the document. Time O(1).
    pub fn members(&self) -> &'a [Kid]
        ensures { result.now ≡ self.now.ids.now.members.items }
    {
        &self.lookup.ids.members
    }

    /// The ids of all crates, by number: in their order, each once. Time O(1).
    pub fn crate_ids(&self) -> &[Kid]
        ensures { result.now ≡ self.now.ids.now.table.ids.items }
    {
        &self.lookup.ids.table.ids
    }

    /// How many features the nodes list: their numbers are the places below it. Time O(1).
    pub fn feature_count(&self) -> usize
        ensures { result ≡ length (listed_features (resolved_view self.now)) }
    {
        self.lookup.features.listed.len()
    }
}
