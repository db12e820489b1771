//! The document, looked up by id.

ghost use Rattle.std.specs.Prelude.{◌≡◌, ◌<◌, IfOk, IfSome, length};
ghost use Rattle.krates_cm.specs.Document.{metadata_view, resolve_view};
ghost use Rattle.krates_rules.specs.Admission.{AreIdsOf, NoneDoubled};
ghost use Rattle.krates_document.specs.Ids.{ids_view};
ghost use Rattle.krates_document.specs.CrateTable.{at_number};
ghost use Rattle.krates_questions.specs.Lookup.{IsLookup, IsNodePlace, IsNumber, IsNumberIn, IsOf, IsPackagePlace, TellsMember, TellsPackage, resolved_view};
ghost use Rattle.krates_rules.specs.Facts.{Id};
ghost use Rattle.krates_rules.specs.Resolved.{id_of};

use crate::feature_table::{FeatureTable, feature_table};
use crate::name_index::{Libraries, NameIndex, name_index, renamed_by_name};
use crate::questions::Document;
use krates_cm::{Metadata, Package, Resolve};
use krates_document::crate_table::number_of;
use krates_document::ids::Ids;
use krates_document::named_places::NamedPlace;
use krates_ids::{Kid, laws};
use std::alloc::{AllocError, Global};

/// The place of a node among those of a document's resolved graph, in the order of the document.
#[derive(Clone, Copy, Debug, PartialEq, Eq, PartialOrd, Ord)]
pub struct NodePlace {
    /// How many nodes are before it.
    pub index: usize,
}

/// A document with its ids, its crates by number, its features by number, and its dependencies by name.
#[derive(Drop)]
pub struct Lookup<'a> {
    /// The document.
    pub metadata: &'a Metadata,
    /// Its resolved graph.
    pub resolve: &'a Resolve,
    /// The ids that were read from it, place by place, and its crates by number.
    pub ids: &'a Ids,
    /// The features that its nodes list, by number.
    pub features: FeatureTable<'a>,
    /// Its dependencies, by name.
    pub names: NameIndex<'a>,
    /// The dependencies of each node whose own name is that of their package's library, by the names of their packages.
    pub renamed: Vec<Vec<NamedPlace<'a>>>,
}

/// The document, ready to be looked up. The only error is running out of memory. Time O(n log n) for n crates,
/// features and dependencies.
pub fn lookup_of<'a>(
    alloc: Global,
    metadata: &'a Metadata,
    resolve: &'a Resolve,
    ids: &'a Ids,
) -> Result<Lookup<'a>, AllocError>
    requires read { AreIdsOf (metadata_view metadata.now) (resolve_view resolve.now) (ids_view ids.now) }
    requires distinct { NoneDoubled (metadata_view metadata.now) (resolve_view resolve.now) }
    ensures lookup { IfOk result (λ d. IsLookup d) }
    ensures of_these { IfOk result (IsOf metadata.now resolve.now ids.now) }
{
    let features = feature_table(alloc, &resolve.nodes)?;
    let names = name_index(alloc, &metadata.packages, &resolve.nodes, &ids.deps)?;
    let libraries = Libraries {
        packages: &metadata.packages,
        table: &ids.table,
    };
    let renamed = renamed_by_name(alloc, &libraries, &resolve.nodes, &ids.deps)?;
    Ok(Lookup {
        metadata,
        resolve,
        ids,
        features,
        names,
        renamed,
    })
}

impl<'a> Document<'a> {
    /// The place of the node with the id. None where the graph has none. Time O(log n) in the crates.
    pub fn node_place(&self, id: &Kid) -> Option<NodePlace>
        ensures { IsNodePlace (resolved_view self.now) (id_of id.now) result }
    {
        self.node_place_at(self.crate_number(id))
    }

    /// Whether the crate is a member of the workspace. Time O(log n) in the crates.
    pub fn is_member(&self, id: &Kid) -> bool
        ensures { TellsMember (resolved_view self.now) (id_of id.now) result }
    {
        self.is_member_at(self.crate_number(id))
    }

    /// The number of the crate with the id. None where it has neither package nor node and is no member. Time O(log n) in the
    /// crates.
    pub fn crate_number(&self, id: &Kid) -> Option<usize>
        ensures { IsNumberIn self.now (id_of id.now) result }
    {
        number_of(&self.lookup.ids.table.ids, id)
    }
}

/// What a table has at a number; none where there is no number. Time: O(1).
pub fn at_number(places: &[Option<usize>], number: Option<usize>) -> Option<usize>
    requires { IfSome number (λ n. n < length places.now) }
    ensures { result ≡ at_number places.now number }
{
    match number {
        Some(number) => places[number],
        None => None,
    }
}

impl<'a> Document<'a> {
    /// The place of the package of the crate with the number. None where it has none. Time O(1).
    pub(crate) fn package_place_at(&self, number: Option<usize>) -> Option<usize>
        requires number { IsNumber self.now number }
        ensures { (i : Id) → IsNumberIn self.now i number → IsPackagePlace (resolved_view self.now) i result }
    {
        laws::one_reading();
        at_number(&self.lookup.ids.table.packages, number)
    }

    /// The package of the crate with the number. None where it has none. Time O(1).
    pub(crate) fn package_at(&self, number: Option<usize>) -> Option<&'a Package>
        requires number { IsNumber self.now number }
        ensures { (i : Id) → IsNumberIn self.now i number → TellsPackage (resolved_view self.now) i result }
    {
        let place = self.package_place_at(number)?;
        Some(&self.lookup.metadata.packages[place])
    }

    /// The place of the node of the crate with the number. None where it has none. Time O(1).
    pub(crate) fn node_place_at(&self, number: Option<usize>) -> Option<NodePlace>
        requires number { IsNumber self.now number }
        ensures { (i : Id) → IsNumberIn self.now i number → IsNodePlace (resolved_view self.now) i result }
    {
        laws::one_reading();
        let index = at_number(&self.lookup.ids.table.nodes, number)?;
        Some(NodePlace { index })
    }

    /// Whether the crate with the number is a member of the workspace.
    pub(crate) fn is_member_at(&self, number: Option<usize>) -> bool
        requires number { IsNumber self.now number }
        ensures { (i : Id) → IsNumberIn self.now i number → TellsMember (resolved_view self.now) i result }
    {
        laws::one_reading();
        at_number(&self.lookup.ids.table.members, number).is_some()
    }
}
