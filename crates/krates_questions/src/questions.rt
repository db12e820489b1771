//! What the rules of resolution ask of a document, asked one by one.

ghost use Rattle.std.specs.Prelude.{◌≡◌, ◌↔◌, ◌∷◌, [], All, Contains, IfOk, IsTrue, map};
ghost use Rattle.krates_cm.specs.Document.{dep_kind_info_view, metadata_view, node_dep_view};
ghost use Rattle.krates_rules.specs.Admission.{IsAdmitted};
ghost use Rattle.krates_document.specs.Ids.{ids_view};
ghost use Rattle.krates_questions.specs.Lookup.{IsDocumentOf, IsLookup, resolved_view};
ghost use Rattle.krates_questions.specs.DocumentAnswers.{AreRoots, AreRootsInOrder, IsOpenAs, TellsDeclaredPlace, TellsReferent, TellsReferents, edge_asked, PicksRoots, TellsDeclared, TellsEntry, TellsParts, AsksFor};
ghost use Rattle.krates_document.specs.NamedPlaces.{places_in};
ghost use Rattle.krates_questions.specs.NodeEntry.{AreParts, IsEntry};
ghost use Rattle.krates_rules.specs.Resolved.{IsMember, StandsAt, id_of};
ghost use Rattle.krates_document.specs.CrateTable.{IsPlaceAmong, IsPlaceOf};

mod contents;

use crate::dependency_questions::Need;
use crate::lookup::{Lookup, lookup_of};
use crate::node_entry::{EntryEdge, NodeEntry, NodeParts, is_same_info, parts_of, places_for};
use crate::referent::{Referent, referents_of};
use crate::root_choice::{RootChoice, is_root_member};
use krates_cm::{DepKindInfo, Metadata, NodeDep};
use krates_document::ids::Ids;
use krates_document::named_places::{NamedPlace, places_under};
use krates_document::setting::Setting;
use krates_ids::{Kid, laws};
use std::alloc::{AllocError, Global};
use std::marker::Model;

/// A document that was admitted, ready to be asked what the rules of resolution ask of it.
///
/// A crate is named by its id, and found by binary search. One that isn't of the document has no dependency, and is no root. The roots
/// take one walk over the members.
#[derive(Drop)]
pub struct Document<'a> {
    pub(crate) lookup: Lookup<'a>,
}

impl<'a> Model for Document<'a> {
    ghost use Rattle.krates_questions.specs.Lookup.{IsLookup, at_any};
    ghost use Rattle.krates_questions.specs.declared.lookup.Lookup.{Lookup};

    ghost Value = { Lookup };

    ghost use Rattle.std.specs.Coded.{codes};
    ghost use Rattle.krates_questions.specs.contracts.lookup.Lookup as looked_up;

    ghost coded = { Prim.hlevel (codes, (looked_up.the_row at_any).coded) };

    ghost view = { λ d. d.lookup };

    ghost invariant = { λ d. IsLookup d.lookup };
}

impl<'a> Document<'a> {
    /// The document that was admitted with these ids.
    ///
    /// The only error is running out of memory. Time: O(n log n) for n crates, features and dependencies.
    pub fn new(
        alloc: Global,
        metadata: &'a Metadata,
        ids: &'a Ids,
    ) -> Result<Document<'a>, AllocError>
        requires { IsAdmitted (metadata_view metadata.now) (ids_view ids.now) }
        ensures { IfOk result (IsDocumentOf (metadata_view metadata.now)) }
    {
        let Some(resolve) = &metadata.resolve else {
            unreachable!()
        };
        let lookup = lookup_of(alloc, metadata, resolve, ids)?;
        Ok(Document { lookup })
    }

    /// What always holds of a document: its ids are those that were read of it, no id is doubled, and its tables are right.
    pub fn agrees(&self)
        ensures { IsLookup self.now }
    {
        let _ = &self.lookup;
    }

    /// The least that a name means in a feature reference of a crate, as `dep:NAME` or `NAME/FEATURE`: the first, by id, of the
    /// dependencies of its node that answer to the name (Cargo Book, "Features" and "cargo metadata", `resolve`).
    ///
    /// A dependency answers to its own name, and to that of its package where its own is the package's library. In its
    /// own name `_` may stand for `-`. None where no dependency answers. Time: as `kinds`.
    pub fn referent(&self, krate: &Kid, name: &str) -> Option<&'a Kid>
        ensures { TellsReferent (resolved_view self.now) (id_of krate.now) name.now result }
    {
        let Some(parts) = self.parts_for(krate) else {
            return None;
        };
        let Some(index) = self.referent_of(&parts, name) else {
            return None;
        };
        Some(parts.entry_at(index).child)
    }

    /// All that a name means in a feature reference of a crate under a setting, in the order of ids: all dependencies of its node
    /// that answer to the name, as `referent` has it, or the least of them alone. Nothing where it has no node.
    ///
    /// The only error is running out of memory. Time: as `kinds`, and O(n log n) in the dependencies that have the name.
    pub fn referents(
        &self,
        alloc: Global,
        setting: &Setting,
        krate: &Kid,
        name: &str,
    ) -> Result<Vec<Referent<'a>>, AllocError>
        ensures { let all = setting.now.all_named in
            IfOk result (TellsReferents (resolved_view self.now) all (id_of krate.now) name.now) }
    {
        match self.parts_for(krate) {
            Some(parts) => {
                let all = setting.is_all_named();
                referents_of(self, alloc, &parts, name, all)
            }
            None => Ok(Vec::new(alloc)),
        }
    }

    /// The crates that are kept for themselves under a setting, also those that the setting excludes.
    ///
    /// Where it asks for no manifest, that is the graph's root alone, or every member of the workspace where the graph
    /// has no root or the setting says so. Where it asks for the one manifest of the workspace itself, that is every
    /// member too, and else the members with one of the manifests (Cargo Book, "cargo metadata", `workspace_members`
    /// and `resolve`). Members come in the order of the document.
    ///
    /// The only error is running out of memory.
    /// Time: O(m log n) for m members and n crates, and as much for each manifest that is asked for.
    pub fn roots(&self, alloc: Global, setting: &Setting) -> Result<Vec<&'a Kid>, AllocError>
        ensures each { IfOk result (AreRoots (resolved_view self.now) setting.now) }
        ensures order { IfOk result (AreRootsInOrder (resolved_view self.now) setting.now) }
    {
        laws::one_reading();
        match self.root_choice(setting) {
            RootChoice::Root(root) => alone(alloc, root),
            RootChoice::Members { all } => {
                self.root_members(alloc, setting, all, &self.lookup.ids.members)
            }
        }
    }

    /// As what a crate declares its dependency on another, of one kind and for one target: the place in the list of its
    /// package (Cargo Book, "cargo metadata", `dependencies` and `resolve`).
    ///
    /// A declared dependency fits where kind, target, name and version do. Where several fit, it is the first of them
    /// whose source is that of the other crate. None where the crate's node doesn't list the dependency of this kind
    /// and target, where none fits, and where several fit and none of them has the source. Time: as `kinds`, and the
    /// dependencies that the package declares under the names of the other.
    pub fn declared(&self, parent: &Kid, child: &Kid, info: &DepKindInfo) -> Option<usize>
        ensures { let edge = edge_asked parent.now child.now info.now in
            TellsDeclaredPlace (resolved_view self.now) edge result }
    {
        self.agrees();
        match self.entry_between(parent, child) {
            Some(entry) => self.declared_for(&entry, info),
            None => None,
        }
    }

    /// Whether a crate's dependency on another, of one kind and for one target, may be kept under a setting: the crate's node
    /// lists it, its package declares it, the setting doesn't ignore its kind, its target passes, and the other crate
    /// has a node and a package that isn't excluded.
    ///
    /// Whether it is optional, and whether the crate itself is kept, isn't asked. The only error is running out of memory.
    /// Time: as `need`, and the exclusions of the setting.
    pub fn is_open(
        &self,
        alloc: Global,
        setting: &Setting,
        parent: &Kid,
        child: &Kid,
        info: &DepKindInfo,
    ) -> Result<bool, AllocError>
        ensures { let edge = edge_asked parent.now child.now info.now in
            IfOk result (λ b. IsTrue b ↔ IsOpenAs (resolved_view self.now) setting.now edge) }
    {
        let need = self.need(alloc, setting, parent, child, info)?;
        match need {
            Need::Wanted(_) => Ok(self.stands(setting, child)),
            Need::Undeclared => Ok(false),
            Need::Nothing => Ok(false),
        }
    }
}

impl<'a> Document<'a> {
    /// The node of a crate, taken apart; none where it has no node.
    pub(crate) fn parts_for(&self, krate: &Kid) -> Option<NodeParts<'a>>
        ensures { TellsParts (resolved_view self.now) (id_of krate.now) result }
    {
        laws::one_reading();
        let Some(place) = self.node_place(krate) else {
            return None;
        };
        Some(parts_of(self, place))
    }

    /// The place of a node's dependency on a crate: of those whose package has its name, which are found by binary search, that with its id.
    fn place_of_child(&self, parts: &NodeParts<'a>, child: &Kid) -> Option<usize>
        requires parts { AreParts (resolved_view self.now) parts.now.place.index parts.now }
        ensures { IsPlaceOf parts.now.children.now (id_of child.now) result }
    {
        laws::one_reading();
        let named = places_under(
            &self.lookup.names.children[parts.place.index],
            child.name(),
            "",
        );
        place_among(parts.children, named, child)
    }
}

/// Of these places of a list, the first at which the id is.
fn place_among(ids: &[Kid], places: &[NamedPlace<'_>], id: &Kid) -> Option<usize>
    ensures { IsPlaceAmong ids.now (places_in places.now) (id_of id.now) result }
{
    for there in places {
        if stands_at(ids, there.place, id) {
            return Some(there.place);
        }
    }
    None
}

/// Whether the id is at the place of the list.
fn stands_at(ids: &[Kid], place: usize, id: &Kid) -> bool
    ensures { IsTrue result ↔ StandsAt ids.now (id_of id.now) place }
{
    if place < ids.len() {
        return is_same(&ids[place], id);
    }
    false
}

/// Whether two ids are the same. Time O(length).
pub fn is_same(one: &Kid, other: &Kid) -> bool
    ensures { IsTrue result ↔ (id_of one.now ≡ id_of other.now) }
{
    laws::comparison();
    one == other
}

/// The list of one id.
fn alone<'a>(alloc: Global, id: &'a Kid) -> Result<Vec<&'a Kid>, AllocError>
    ensures { IfOk result (λ ids. map (λ id. id_of id.now) ids.items ≡ id_of id.now ∷ []) }
{
    let mut ids = Vec::new(alloc);
    ids.push(id)?;
    Ok(ids)
}

impl<'a> Document<'a> {
    /// Those of these members that are roots: all of them, or those with one of the manifests.
    fn root_members(
        &self,
        alloc: Global,
        setting: &Setting,
        all: bool,
        members: &'a [Kid],
    ) -> Result<Vec<&'a Kid>, AllocError>
        requires asks { AsksFor (resolved_view self.now) setting.now all }
        requires members { All (λ member. IsMember (resolved_view self.now) (id_of member)) members.now }
        ensures { IfOk result (PicksRoots (resolved_view self.now) setting.now members.now) }
    {
        let mut roots = Vec::new(alloc);
        for member in members {
            if is_root_member(self, setting, all, member) {
                roots.push(member)?;
            }
        }
        Ok(roots)
    }

    /// The dependency of a crate's node on another crate; none where there is none.
    pub(crate) fn entry_between(&self, parent: &Kid, child: &Kid) -> Option<NodeEntry<'a>>
        ensures { TellsEntry (resolved_view self.now) (id_of parent.now) (id_of child.now) result }
    {
        self.agrees();
        laws::one_reading();
        let Some(parts) = self.parts_for(parent) else {
            return None;
        };
        let Some(index) = self.place_of_child(&parts, child) else {
            return None;
        };
        Some(parts.entry_at(index))
    }

    /// The place of the declared dependency of an entry, of a kind and for a target that it lists.
    pub(crate) fn declared_for(&self, entry: &NodeEntry<'a>, info: &DepKindInfo) -> Option<usize>
        requires entry { IsEntry (resolved_view self.now) entry.now }
        ensures { TellsDeclared entry.now (dep_kind_info_view info.now) result }
    {
        if !lists(entry.dep, info) {
            return None;
        }
        let edge = EntryEdge {
            entry,
            info,
            places: places_for(self, entry),
        };
        edge.declared()
    }
}

/// Whether the dependency of a node lists this kind and target.
pub(crate) fn lists(dep: &NodeDep, info: &DepKindInfo) -> bool
    ensures { IsTrue result ↔ Contains (node_dep_view dep.now).dep_kinds (dep_kind_info_view info.now) }
{
    for other in dep.dep_kinds.as_slice() {
        if is_same_info(other, info) {
            return true;
        }
    }
    false
}
