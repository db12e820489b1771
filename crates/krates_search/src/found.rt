//! Kept edges and toggled features, as the search finds them: what they say stays where the document has it. And the kinds and targets
//! of a dependency, each once.

ghost use Rattle.std.specs.Prelude.{◌≡◌, ◌<◌, IfOk, Some, length, map, slice_get};
ghost use Rattle.krates_questions.specs.NodeEntry.{edge_of};
ghost use Rattle.krates_search.specs.Found.{found_view, IsFirstOf, kind_view, AreFirstKinds};
ghost use Rattle.krates_cm.specs.Document.{dep_kind_info_view};

use krates_cm::DepKindInfo;
use krates_ids::Kid;
use krates_questions::NodePlace;
use krates_questions::node_entry::EntryEdge;
use krates_rules::DepKind;
use std::alloc::{AllocError, Global};
use std::collections::BTreeSet;

/// A kept edge, by references into the document.
#[derive(Clone, Copy)]
pub struct FoundEdge<'a> {
    /// The crate that has the dependency.
    pub parent: &'a Kid,
    /// The crate that it depends on.
    pub child: &'a Kid,
    /// Its kind and target.
    pub info: &'a DepKindInfo,
    /// The place of the node of the crate that has the dependency.
    pub parent_node: NodePlace,
    /// The place of the node of the crate that it depends on.
    pub child_node: NodePlace,
    /// The first place of this kind and target in the `dep_kinds` of the dependency.
    pub place: usize,
    /// The place of the declared dependency.
    pub declared: usize,
}

/// The edge of an entry, whose kind and target comes first at this place, with the places of its declared dependency and of the
/// node of the crate that it leads to.
pub(crate) fn found_edge<'a>(
    edge: &EntryEdge<'a, '_>,
    place: usize,
    declared: usize,
    node: NodePlace,
) -> FoundEdge<'a>
    requires { IsFirstOf edge.now place }
    ensures edge { found_view result ≡ edge_of edge.now }
    ensures place { result.place ≡ place }
    ensures declared { result.declared ≡ declared }
    ensures parent_node { result.parent_node ≡ edge.now.entry.now.place }
    ensures child_node { result.child_node ≡ node }
{
    let entry = edge.entry;
    FoundEdge {
        parent: entry.parent,
        child: entry.child,
        info: info_at(entry.dep.dep_kinds.as_slice(), place),
        parent_node: entry.place,
        child_node: node,
        place,
        declared,
    }
}

/// A toggled feature, by references into the document.
#[derive(Clone, Copy)]
pub struct FoundToggle<'a> {
    /// The crate whose feature enables it.
    pub by: &'a Kid,
    /// The crate whose feature it is.
    pub krate: &'a Kid,
    /// The name of the feature.
    pub name: &'a str,
    /// The place of the node of the crate whose feature enables it.
    pub by_node: NodePlace,
    /// The place of the node of the crate whose feature it is.
    pub krate_node: NodePlace,
}

/// A kind and a target, as a key of a set.
#[derive(Clone, Copy, PartialEq, Eq, PartialOrd, Ord)]
pub(crate) struct KindKey<'a> {
    /// For what the dependency is needed.
    pub kind: DepKind,
    /// The target that it is needed for.
    pub target: &'a Option<String>,
}

/// The places at which a kind and a target comes that came at no earlier place, in order.
///
/// Time: O(n log n) for n of them.
pub(crate) fn first_kinds(alloc: Global, infos: &[DepKindInfo]) -> Result<Vec<usize>, AllocError>
    ensures { IfOk result (λ places. AreFirstKinds (map dep_kind_info_view infos.now) places.items) }
{
    if infos.len() == 1 {
        return Ok(vec![in alloc; 0]?);
    }
    let mut seen = BTreeSet::new(alloc);
    let mut places = Vec::new(alloc);
    for (place, info) in infos.iter().enumerate() {
        if seen.insert(kind_key(info))? {
            places.push(place)?;
        }
    }
    Ok(places)
}

/// The kind and target at a place. Time O(1).
pub(crate) fn info_at(infos: &[DepKindInfo], place: usize) -> &DepKindInfo
    requires { place < length infos.now }
    ensures { slice_get infos.now place ≡ Some result.now }
{
    &infos[place]
}

/// The kind and the target, as a key.
fn kind_key<'a>(info: &'a DepKindInfo) -> KindKey<'a>
    ensures { kind_view result ≡ dep_kind_info_view info.now }
{
    KindKey {
        kind: DepKind::from(info.kind),
        target: &info.target,
    }
}
