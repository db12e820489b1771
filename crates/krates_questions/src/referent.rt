//! Which dependencies a name in a feature reference means.

ghost use Rattle.std.specs.Prelude.{◌↔◌, ◌<◌, IfOk, IfSome, IsTrue, OnOk, length, true};
ghost use Rattle.krates_document.specs.NamedPlaces.{places_in};
ghost use Rattle.krates_questions.specs.Lookup.{IsLookup, resolved_view};
ghost use Rattle.krates_questions.specs.NodeEntry.{AreParts};
ghost use Rattle.krates_questions.specs.ReferentPlace.{AnswersAs, AnswersBefore, AreReferentsIn, FindsMore, GoesOn, IsBefore, TellsReferent};

use crate::name_index::is_library_rename;
use crate::node_entry::NodeParts;
use crate::questions::Document;
use krates_cm::NodeDep;
use krates_document::dependency_name::is_name_of;
use krates_document::named_places::{NamedPlace, places_under};
use krates_document::sorted::in_order;
use krates_ids::{Kid, laws};
use std::alloc::{AllocError, Global};

/// A dependency of a node that a name means.
#[derive(Clone, Copy, Debug, Drop, PartialEq, Eq, PartialOrd, Ord)]
pub struct Referent<'a> {
    /// The crate that is depended on.
    pub id: &'a Kid,
    /// Its place among the dependencies of the node.
    pub place: usize,
}

/// All that a name means in a reference of a crate, in the order of ids: the dependencies of its node that answer to it, as
/// `referent_of` has it, or the least of them alone.
///
/// Only those are looked at that may answer, which are found by binary search. The only error is running out of memory.
/// Time: O(log n + k log k) for n dependencies, of which k have the name.
pub fn referents_of<'a>(
    document: &Document<'a>,
    alloc: Global,
    parts: &NodeParts<'a>,
    name: &str,
    all: bool,
) -> Result<Vec<Referent<'a>>, AllocError>
    requires parts { AreParts (resolved_view document.now) parts.now.place.index parts.now }
    ensures { IfOk result (λ found. AreReferentsIn (resolved_view document.now) all parts.now name.now
        found.items) }
{
    if all {
        return document.all_referents(alloc, parts, name);
    }
    let mut referents = Vec::new(alloc);
    if let Some(place) = document.referent_of(parts, name) {
        let id = &parts.children[place];
        referents.push(Referent { id, place })?;
    }
    Ok(referents)
}

impl<'a> Document<'a> {
    /// All dependencies of a node that answer to a name, in the order of ids.
    fn all_referents(
        &self,
        alloc: Global,
        parts: &NodeParts<'a>,
        name: &str,
    ) -> Result<Vec<Referent<'a>>, AllocError>
        requires parts { AreParts (resolved_view self.now) parts.now.place.index parts.now }
        ensures { IfOk result (λ found. AreReferentsIn (resolved_view self.now) true parts.now name.now
            found.items) }
    {
        laws::one_reading();
        laws::comparison();
        let mut referents = Vec::new(alloc);
        let own = places_under(&self.lookup.names.deps[parts.place.index], name, "");
        self.push_answering(parts, own, name, &mut referents)?;
        let of_package = places_under(&self.lookup.renamed[parts.place.index], name, "");
        self.push_answering(parts, of_package, name, &mut referents)?;
        in_order(referents)
    }

    /// Adds those of these dependencies that answer to a name.
    fn push_answering(
        &self,
        parts: &NodeParts<'a>,
        places: &[NamedPlace<'_>],
        name: &str,
        referents: &mut Vec<Referent<'a>>,
    ) -> Result<(), AllocError>
        requires parts { AreParts (resolved_view self.now) parts.now.place.index parts.now }
        ensures { OnOk result (FindsMore (resolved_view self.now) parts.now name.now (places_in places.now)
            referents.old.items referents.new.items) }
    {
        for there in places {
            let place = there.place;
            if self.answers_before(parts, name, place, None) {
                let id = &parts.children[place];
                referents.push(Referent { id, place })?;
            }
        }
        Ok(())
    }

    /// The place of the least dependency, by id, that a name means in a reference of a crate: of the dependencies of its node
    /// that answer to it, by their own name or by that of their package where their own is the package's library
    /// (Cargo Book, "Features" and "cargo metadata", `resolve`).
    ///
    /// Only those are looked at that have the name as their own, or as that of a package whose library they are named as. They are
    /// found by binary search.
    ///
    /// Time: O(log n + k) for n dependencies, of which k have the name.
    pub(crate) fn referent_of(&self, parts: &NodeParts<'a>, name: &str) -> Option<usize>
        requires parts { AreParts (resolved_view self.now) parts.now.place.index parts.now }
        ensures { TellsReferent (resolved_view self.now) parts.now name.now result }
    {
        laws::one_reading();
        let own = places_under(&self.lookup.names.deps[parts.place.index], name, "");
        let least = self.least_answering(parts, own, name, None);
        let of_package = places_under(&self.lookup.renamed[parts.place.index], name, "");
        self.least_answering(parts, of_package, name, least)
    }

    /// The place of the least, by id, of these dependencies that answer to a name, or the one before where it is less.
    fn least_answering(
        &self,
        parts: &NodeParts<'a>,
        places: &[NamedPlace<'_>],
        name: &str,
        before: Option<usize>,
    ) -> Option<usize>
        requires parts { AreParts (resolved_view self.now) parts.now.place.index parts.now }
        requires before { IfSome before (λ at. at < length parts.now.children.now) }
        ensures { GoesOn (resolved_view self.now) parts.now name.now (places_in places.now) before result }
    {
        laws::comparison();
        let mut least = before;
        for there in places {
            if self.answers_before(parts, name, there.place, least) {
                least = Some(there.place);
            }
        }
        least
    }

    /// Whether the dependency at this place of the node answers to the name, and its id comes before the one at a place, or there is
    /// no such place.
    fn answers_before(
        &self,
        parts: &NodeParts<'a>,
        name: &str,
        index: usize,
        least: Option<usize>,
    ) -> bool
        requires parts { AreParts (resolved_view self.now) parts.now.place.index parts.now }
        requires least { IfSome least (λ at. at < length parts.now.children.now) }
        ensures { IsTrue result ↔ AnswersBefore (resolved_view self.now) parts.now name.now index least }
    {
        if index < parts.children.len() {
            let child = &parts.children[index];
            let dep = &parts.deps[index];
            return self.answers_to(child, dep, name) && is_id_before(parts.children, child, least);
        }
        false
    }
}

/// Whether the id comes before the one at a place, or there is no place.
fn is_id_before(ids: &[Kid], id: &Kid, place: Option<usize>) -> bool
    requires { IfSome place (λ at. at < length ids.now) }
    ensures { IsTrue result ↔ IsBefore ids.now id.now place }
{
    match place {
        Some(place) => *id < ids[place],
        None => true,
    }
}

impl<'a> Document<'a> {
    /// Whether a dependency of a node answers to a name.
    pub(crate) fn answers_to(&self, child: &'a Kid, dep: &NodeDep, name: &str) -> bool
        ensures { IsTrue result ↔ AnswersAs (resolved_view self.now) child.now dep.now name.now }
    {
        self.agrees();
        if is_name_of(dep.name.as_str(), name) {
            return true;
        }
        if child.name() != name {
            return false;
        }
        match self.package_of(child) {
            Some(pkg) => is_library_rename(pkg, dep.name.as_str()),
            None => false,
        }
    }
}
