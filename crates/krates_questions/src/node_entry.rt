//! The node of a kept crate, and each dependency of it.

ghost use Rattle.std.specs.Prelude.{◌≡◌, ◌<◌, ◌↔◌, IfSome, IsTrue, length, map, Some, slice_get};
ghost use Rattle.std.specs.Option.{IsSome};
ghost use Rattle.krates_cm.specs.Document.{NodeModel, dependency_view, dep_kind_info_view, text_view};
ghost use Rattle.krates_questions.specs.FeatureTable.{AreNamed, AreValuesOf};
ghost use Rattle.krates_questions.specs.Lookup.{IsLookup, IsNodePlace, IsNumber, IsNumberIn, resolved_view};
ghost use Rattle.krates_questions.specs.NodeEntry.{AreDeclaredBy, AreParts, HasItsPlaces, HasItsVersion, IsEntry, IsEntryOf, TellsDeclaredPlaces, TellsItsDeclared, child_of, krate_of, parent_of};
ghost use Rattle.krates_rules.specs.Facts.{Id};
ghost use Rattle.krates_rules.specs.Resolved.{DepAt, HasNode, NodeAt, id_of};

use crate::lookup::NodePlace;
use crate::questions::Document;
use krates_cm::{DepKindInfo, Dependency, NodeDep};
use krates_document::declared_dependency::{Sought, declared_of};
use krates_document::named_places::NamedPlace;
use krates_ids::{Kid, laws};
use semver::Version;

/// A dependency of a kept crate's node, beside what its package declares.
#[derive(Clone, Copy)]
pub struct NodeEntry<'a> {
    /// The kept crate.
    pub parent: &'a Kid,
    /// The dependencies that its package declares.
    pub declared: &'a [Dependency],
    /// The dependency of its node.
    pub dep: &'a NodeDep,
    /// The crate that is depended on.
    pub child: &'a Kid,
    /// The version of its id.
    pub version: &'a Version,
    /// The place of the node.
    pub place: NodePlace,
    /// The place of the dependency among those of the node.
    pub index: usize,
    /// Whether the kept crate is a member of the workspace.
    pub is_member: bool,
}

/// A dependency of a kept crate's node, of one kind and for one target.
#[derive(Clone, Copy)]
pub struct EntryEdge<'a, 's> {
    /// The dependency.
    pub entry: &'s NodeEntry<'a>,
    /// The kind and target.
    pub info: &'s DepKindInfo,
    /// Where what the package of the kept crate declares is found by name.
    pub places: &'s [NamedPlace<'a>],
}

/// The node of a kept crate, taken apart.
#[derive(Clone, Copy)]
pub struct NodeParts<'a> {
    /// The kept crate.
    pub parent: &'a Kid,
    /// The dependencies that its package declares.
    pub declared: &'a [Dependency],
    /// The dependencies of its node.
    pub deps: &'a [NodeDep],
    /// Their ids.
    pub children: &'a [Kid],
    /// The versions of these.
    pub versions: &'a [Version],
    /// The place of the node.
    pub place: NodePlace,
    /// Whether the kept crate is a member of the workspace.
    pub is_member: bool,
}

/// The node at a place, taken apart. Time O(1).
pub fn parts_of<'a>(document: &Document<'a>, place: NodePlace) -> NodeParts<'a>
    requires within { place.index < length (resolved_view document.now).graph.nodes }
    ensures { AreParts (resolved_view document.now) place.index result }
{
    let parent = &document.lookup.ids.nodes[place.index];
    let number = node_number(document, place);
    NodeParts {
        parent,
        declared: document.declared_by(number),
        deps: &document.lookup.resolve.nodes[place.index].deps,
        children: &document.lookup.ids.deps[place.index],
        versions: &document.lookup.ids.versions[place.index],
        place,
        is_member: document.is_member_at(number),
    }
}

/// The references of a feature of the crate whose node was taken apart, as its package has them, in its order; none where it lacks
/// the feature. The package is found by the place of the node.
///
/// Time: O(log n) in the features of the package.
pub fn values_at<'a>(document: &Document<'a>, parts: &NodeParts<'a>, name: &str) -> &'a [String]
    requires parts { AreParts (resolved_view document.now) parts.now.place.index parts.now }
    ensures references { AreValuesOf (resolved_view document.now) (krate_of parts.now) name.now
        (map text_view result.now) }
    ensures named { AreNamed (resolved_view document.now) (krate_of parts.now) name.now
        (map text_view result.now) }
{
    document.agrees();
    let Some(pkg) = document.package_at(node_number(document, parts.place)) else {
        return &[];
    };
    match pkg.features.get(name) {
        Some(values) => values,
        None => &[],
    }
}

impl<'a> NodeParts<'a> {
    /// The dependency of a node at a place. Time O(1).
    pub fn entry_at(&self, index: usize) -> NodeEntry<'a>
        requires lengths { length self.now.deps.now ≡ length self.now.children.now }
        requires versions { length self.now.versions.now ≡ length self.now.children.now }
        requires within { index < length self.now.children.now }
        ensures { IsEntryOf self.now index result }
    {
        NodeEntry {
            parent: self.parent,
            declared: self.declared,
            dep: &self.deps[index],
            child: &self.children[index],
            version: &self.versions[index],
            place: self.place,
            index,
            is_member: self.is_member,
        }
    }
}

impl EntryEdge<'_, '_> {
    /// The place of the declared dependency that the edge comes from, among those that the package of the kept crate
    /// declares. None where none fits, and where several fit and none has the source of the crate that is depended on.
    ///
    /// Time: O(log n + k) for k of them under one of the dependency's two names.
    pub fn declared(&self) -> Option<usize>
        requires version { HasItsVersion self.now.entry.now }
        requires places { HasItsPlaces self.now }
        ensures within { IfSome result (λ place. place < length self.now.entry.now.declared.now) }
        ensures declared { TellsItsDeclared self.now result }
    {
        let sought = Sought {
            dep: self.entry.dep,
            kid: self.entry.child,
            version: self.entry.version,
            info: self.info,
        };
        declared_of(self.entry.declared, self.places, &sought)
    }
}

impl<'a> NodeEntry<'a> {
    /// The declared dependency of an entry at a place. Time O(1).
    pub fn declared_at(&self, place: usize) -> &'a Dependency
        requires { place < length self.now.declared.now }
        ensures { slice_get self.now.declared.now place ≡ Some result.now }
    {
        &self.declared[place]
    }
}

impl<'a> Document<'a> {
    /// The dependencies that the package of the crate with the number declares; none where it has no package.
    fn declared_by(&self, number: Option<usize>) -> &'a [Dependency]
        requires number { IsNumber self.now number }
        ensures { (i : Id) → IsNumberIn self.now i number
            → AreDeclaredBy (resolved_view self.now) i (map dependency_view result.now) }
    {
        self.agrees();
        match self.package_at(number) {
            Some(pkg) => &pkg.dependencies,
            None => &[],
        }
    }
}

/// The number of the crate whose node is at the place; it has one. Time O(1).
pub fn node_number(document: &Document<'_>, place: NodePlace) -> Option<usize>
    requires within { place.index < length (resolved_view document.now).graph.nodes }
    ensures number { (i : Id) → NodeAt (resolved_view document.now) i place.index
        → IsNumberIn document.now i result }
    ensures has_one { (i : Id) → NodeAt (resolved_view document.now) i place.index → IsSome result }
{
    laws::one_reading();
    document.lookup.ids.table.node_numbers[place.index]
}

/// The number of the crate that a dependency of a node leads to, by the places of both. None where that has neither
/// package nor node and is no member. Time O(1).
pub fn child_number_at(document: &Document<'_>, place: NodePlace, index: usize) -> Option<usize>
    requires there { (parent : Id) × (child : Id)
        × DepAt (resolved_view document.now) parent child place.index index }
    ensures number { (parent : Id) (child : Id)
        → DepAt (resolved_view document.now) parent child place.index index
        → IsNumberIn document.now child result }
    ensures has_one { (parent : Id) (child : Id)
        → DepAt (resolved_view document.now) parent child place.index index
        → (n : NodeModel) × HasNode (resolved_view document.now) child n → IsSome result }
{
    laws::one_reading();
    document.lookup.ids.table.dep_numbers[place.index][index]
}

/// The place of the node of the crate that a dependency leads to. None where it has none. Time O(1).
pub fn child_place(document: &Document<'_>, entry: &NodeEntry<'_>) -> Option<NodePlace>
    requires entry { IsEntry (resolved_view document.now) entry.now }
    ensures { IsNodePlace (resolved_view document.now) (child_of entry.now) result }
{
    document.node_place_at(child_number_at(document, entry.place, entry.index))
}

/// Where what the package of a dependency's parent declares is found by name. Nothing where it has no package. Time O(1).
pub fn places_for<'a, 's>(document: &'s Document<'a>, entry: &NodeEntry<'_>) -> &'s [NamedPlace<'a>]
    requires entry { IsEntry (resolved_view document.now) entry.now }
    ensures { TellsDeclaredPlaces (resolved_view document.now) (parent_of entry.now) result.now }
{
    match document.package_place_at(node_number(document, entry.place)) {
        Some(place) => &document.lookup.names.declared[place],
        None => &[],
    }
}

/// Whether the two are of the same kind and for the same target. Time O(length of the targets).
pub fn is_same_info(one: &DepKindInfo, other: &DepKindInfo) -> bool
    ensures { IsTrue result ↔ (dep_kind_info_view one.now ≡ dep_kind_info_view other.now) }
{
    one.kind == other.kind && one.target == other.target
}
