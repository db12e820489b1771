//! What a document and a setting answer of the dependencies of a crate.

ghost use Rattle.std.specs.Prelude.{◌↔◌, Contains, IfOk, IsTrue, map};
ghost use Rattle.krates_cm.specs.Document.{DepKindInfoModel, dep_kind_info_view};
ghost use Rattle.krates_questions.specs.Lookup.{IsLookup, resolved_view};
ghost use Rattle.krates_questions.specs.NodeEntry.{IsEntry, edge_for};
ghost use Rattle.krates_questions.specs.Availability.{HasChild, ListsKind, TellsDeclaration, TellsNeed};
ghost use Rattle.krates_rules.specs.Facts.{Id};
ghost use Rattle.krates_rules.specs.Questions.{edge_between};
ghost use Rattle.krates_rules.specs.Referent.{IsReferent};
ghost use Rattle.krates_rules.specs.Resolved.{id_of};

use crate::lookup::Lookup;
use crate::node_entry::NodeEntry;
use crate::questions::{Document, is_same, lists};
use krates_cm::{DepKindInfo, Dependency};
use krates_document::setting::Setting;
use krates_ids::{Kid, laws};
use std::alloc::{AllocError, Global};

/// What a document and a setting have for a dependency of a crate on another, of one kind and for one target.
#[derive(Clone, Copy)]
pub enum Need<'a> {
    /// It is listed, not ignored, declared as this dependency, and passes the targets.
    Wanted(&'a Dependency),
    /// It is listed and not ignored, and no declared dependency fits.
    Undeclared,
    /// It isn't listed, or ignored, or doesn't pass.
    Nothing,
}

impl<'a> Document<'a> {
    /// The crates that the node of a crate depends on, in the order of the document; none where it has no node. Time: O(log n)
    /// in the crates of the document.
    pub fn children(&self, krate: &Kid) -> &'a [Kid]
        ensures { (child : Id) → HasChild (resolved_view self.now) (id_of krate.now) child
            ↔ Contains (map id_of result.now) child }
    {
        self.agrees();
        laws::one_reading();
        match self.parts_for(krate) {
            Some(parts) => parts.children,
            None => &[],
        }
    }

    /// Of which kinds and for which targets the node of a crate lists another crate, in the order of the document; none where it
    /// doesn't depend on it. Time: O(log n) in the crates of the document, and the dependencies of the node.
    pub fn kinds(&self, krate: &Kid, child: &Kid) -> &'a [DepKindInfo]
        ensures { (k : DepKindInfoModel)
            → ListsKind (resolved_view self.now) (id_of krate.now) (id_of child.now) k
            ↔ Contains (map dep_kind_info_view result.now) k }
    {
        self.agrees();
        match self.entry_between(krate, child) {
            Some(entry) => entry.dep.dep_kinds.as_slice(),
            None => &[],
        }
    }

    /// Whether a name in a feature reference of a crate means another crate under a setting, as `referents` has it. Time: as
    /// `kinds`.
    pub fn means(&self, setting: &Setting, krate: &Kid, name: &str, child: &Kid) -> bool
        ensures { let all = setting.now.all_named in
            IsTrue result
            ↔ IsReferent (resolved_view self.now) all (id_of krate.now) name.now (id_of child.now) }
    {
        self.agrees();
        if setting.is_all_named() {
            return match self.entry_between(krate, child) {
                Some(entry) => self.answers_to(entry.child, entry.dep, name),
                None => false,
            };
        }
        match self.referent(krate, name) {
            Some(referent) => is_same(referent, child),
            None => false,
        }
    }

    /// What there is for a dependency of a crate on another, of one kind and for one target, under a setting. Whether it is
    /// optional, and what there is for either crate, isn't asked.
    ///
    /// The only error is running out of memory. Time: as `kinds`, and the dependencies that the package declares.
    pub fn need(
        &self,
        alloc: Global,
        setting: &Setting,
        parent: &Kid,
        child: &Kid,
        info: &DepKindInfo,
    ) -> Result<Need<'a>, AllocError>
        ensures { let edge = edge_between (id_of parent.now) (id_of child.now)
            (dep_kind_info_view info.now) in
            IfOk result (TellsNeed (resolved_view self.now) setting.now edge) }
    {
        match self.entry_between(parent, child) {
            Some(entry) => self.entry_need(alloc, setting, &entry, info),
            None => Ok(Need::Nothing),
        }
    }

    /// As what a dependency of a crate on another is declared, of one kind and for one target, whatever the setting; none where
    /// it isn't. Time: as `declared`.
    pub fn declaration(
        &self,
        parent: &Kid,
        child: &Kid,
        info: &DepKindInfo,
    ) -> Option<&'a Dependency>
        ensures { let edge = edge_between (id_of parent.now) (id_of child.now)
            (dep_kind_info_view info.now) in
            TellsDeclaration (resolved_view self.now) edge result }
    {
        self.agrees();
        let Some(entry) = self.entry_between(parent, child) else {
            return None;
        };
        let Some(place) = self.declared_for(&entry, info) else {
            return None;
        };
        Some(entry.declared_at(place))
    }
}

impl<'a> Document<'a> {
    /// What there is for an edge of an entry.
    fn entry_need(
        &self,
        alloc: Global,
        setting: &Setting,
        entry: &NodeEntry<'a>,
        info: &DepKindInfo,
    ) -> Result<Need<'a>, AllocError>
        requires entry { IsEntry (resolved_view self.now) entry.now }
        ensures { IfOk result (TellsNeed (resolved_view self.now) setting.now
            (edge_for entry.now (dep_kind_info_view info.now))) }
    {
        self.agrees();
        if !lists(entry.dep, info) {
            return Ok(Need::Nothing);
        }
        if setting.ignores(info.kind, entry.is_member) {
            return Ok(Need::Nothing);
        }
        let Some(place) = self.declared_for(entry, info) else {
            return Ok(Need::Undeclared);
        };
        let passes = setting.passes(alloc, &info.target)?;
        if !passes {
            return Ok(Need::Nothing);
        }
        Ok(Need::Wanted(entry.declared_at(place)))
    }
}
