//! Whether what is given by one rule is in a list: by the roots, by a crate or an edge of the list, or by a name in a reference.
//!
//! What a feature gives together with an edge is asked with the feature, for the edges in the list.

ghost use Rattle.std.specs.Prelude.{◌↔◌, IfOk, IsTrue, map};
ghost use Rattle.krates_cm.specs.Document.{dependency_view, text_view};
ghost use Rattle.krates_derive.specs.Giving.{document_in, facts_in, setting_in, ChildIn, CrateIn, DefaultIn, DepIn, EdgeIn, EdgesIn, EdgesToIn, KeptIn, MeantIn, NamedIn, NamesIn, RootIn, StockIn, TheseRootsIn, ToggledIn, UsedIn};
ghost use Rattle.krates_derive.specs.FactRef.{edge_of_ref};
ghost use Rattle.krates_questions.specs.DocumentAnswers.{lent_ids};
ghost use Rattle.krates_rules.specs.Resolved.{id_of};

use crate::fact_ref::{EdgeRef, FactRef, ToggleRef};
use crate::fact_set::FactSet;
use crate::following::is_taken;
use krates_cm::Dependency;
use krates_ids::Kid;
use krates_questions::context::Context;
use krates_questions::{Availability, Need};
use std::alloc::AllocError;

/// What the check of a list of facts is made against: a document and a setting, and the list.
#[derive(Clone, Copy)]
pub struct ClosureCheck<'a, 's> {
    /// The document and the setting.
    pub context: Context<'a, 's>,
    /// The list.
    pub facts: &'s FactSet<'a>,
}

impl<'a, 's> ClosureCheck<'a, 's> {
    // ---- roots

    /// Whether all that these roots give is in the list.
    pub fn are_roots_in(&self, roots: &[&'a Kid]) -> bool
        ensures { IsTrue result
            ↔ TheseRootsIn (document_in self.now) (setting_in self.now) (facts_in self.now)
            (lent_ids roots.now) }
    {
        for root in roots {
            if !self.is_root_in(root) {
                return false;
            }
        }
        true
    }

    /// Whether all that a root gives is in the list.
    fn is_root_in(&self, krate: &'a Kid) -> bool
        ensures { IsTrue result
            ↔ RootIn (document_in self.now) (setting_in self.now) (facts_in self.now) (id_of krate.now) }
    {
        let context = &self.context;
        match context.document.availability(context.setting, krate) {
            Availability::Available(_) => self.is_stock_in(krate),
            Availability::NoPackage => false,
            Availability::NoNode => false,
            Availability::Excluded => true,
        }
    }

    /// Whether a root that stands is in the list with its features.
    fn is_stock_in(&self, krate: &'a Kid) -> bool
        ensures { IsTrue result ↔ StockIn (document_in self.now) (facts_in self.now) (id_of krate.now) }
    {
        let names = self.context.document.features(krate);
        self.facts.has_crate(krate) && self.are_names_in(krate, names)
    }

    // ---- facts

    /// Whether all that a crate gives by its edges is in the list.
    pub fn is_crate_in(&self, krate: &'a Kid) -> Result<bool, AllocError>
        ensures { IfOk result
            (λ b. IsTrue b ↔ CrateIn (document_in self.now) (setting_in self.now) (facts_in self.now)
            (id_of krate.now)) }
    {
        for child in self.context.document.children(krate) {
            if !self.are_edges_in(krate, child, false)? {
                return Ok(false);
            }
        }
        Ok(true)
    }

    /// Whether all that an edge of the list gives is in it.
    pub fn is_kept_in(&self, edge: &EdgeRef<'a>) -> Result<bool, AllocError>
        ensures { IfOk result
            (λ b. IsTrue b ↔ KeptIn (document_in self.now) (facts_in self.now) (edge_of_ref edge.now)) }
    {
        if !self.facts.has_crate(edge.child) {
            return Ok(false);
        }
        match edge.declaration(self.context.document)? {
            Some(dependency) => Ok(self.is_used_in(edge.child, dependency)),
            None => Ok(true),
        }
    }

    // ---- edges

    /// Whether all that the edges from one crate to another give is in the list.
    fn are_edges_in(&self, krate: &'a Kid, child: &'a Kid, asked: bool) -> Result<bool, AllocError>
        ensures { IfOk result
            (λ b. IsTrue b ↔ EdgesIn (document_in self.now) (setting_in self.now) (facts_in self.now)
            (id_of krate.now) (id_of child.now) asked) }
    {
        for info in self.context.document.kinds(krate, child) {
            let edge = EdgeRef::between(krate, child, info);
            if !self.is_edge_in(&edge, asked)? {
                return Ok(false);
            }
        }
        Ok(true)
    }

    /// Whether all that an edge gives is in the list, if a feature asks for it or its parent needs it.
    fn is_edge_in(&self, edge: &EdgeRef<'a>, asked: bool) -> Result<bool, AllocError>
        ensures { IfOk result
            (λ b. IsTrue b ↔ EdgeIn (document_in self.now) (setting_in self.now) (facts_in self.now)
            (edge_of_ref edge.now) asked) }
    {
        match edge.need(&self.context)? {
            Need::Nothing => Ok(true),
            Need::Undeclared => Ok(asked),
            Need::Wanted(dependency) => {
                if is_taken(asked, dependency) {
                    return Ok(self.is_child_in(edge));
                }
                Ok(true)
            }
        }
    }

    /// Whether a wanted edge is in the list if its child stands, and nothing is lost.
    fn is_child_in(&self, edge: &EdgeRef<'a>) -> bool
        ensures { IsTrue result
            ↔ ChildIn (document_in self.now) (setting_in self.now) (facts_in self.now) (edge_of_ref edge.now) }
    {
        let context = &self.context;
        match context.document.availability(context.setting, edge.child) {
            Availability::Available(_) => self.facts.has(&FactRef::Kept(*edge)),
            Availability::NoPackage => false,
            Availability::NoNode => false,
            Availability::Excluded => true,
        }
    }

    /// Whether all edges from a crate to what a name means are in the list.
    pub fn are_edges_to_in(&self, krate: &'a Kid, dep: &str) -> Result<bool, AllocError>
        ensures { IfOk result
            (λ b. IsTrue b ↔ EdgesToIn (document_in self.now) (setting_in self.now) (facts_in self.now)
            (id_of krate.now) dep.now) }
    {
        let context = &self.context;
        let referents = context
            .document
            .referents(context.alloc, context.setting, krate, dep)?;
        for referent in &referents {
            if !self.are_edges_in(krate, referent.id, true)? {
                return Ok(false);
            }
        }
        Ok(true)
    }

    // ---- references

    /// Whether a feature of what a name means is toggled, if the list has an edge there.
    pub fn is_dep_in(&self, krate: &'a Kid, dep: &str, name: &'a str) -> Result<bool, AllocError>
        ensures { IfOk result
            (λ b. IsTrue b ↔ DepIn (document_in self.now) (setting_in self.now) (facts_in self.now)
            (id_of krate.now) dep.now name.now) }
    {
        let context = &self.context;
        let referents = context
            .document
            .referents(context.alloc, context.setting, krate, dep)?;
        for referent in &referents {
            if !self.is_meant_in(krate, referent.id, name) {
                return Ok(false);
            }
        }
        Ok(true)
    }

    /// Whether a feature of a crate is toggled, if the list has an edge there.
    fn is_meant_in(&self, krate: &'a Kid, child: &'a Kid, name: &'a str) -> bool
        ensures { IsTrue result
            ↔ MeantIn (document_in self.now) (facts_in self.now)
            (id_of krate.now) (id_of child.now) name.now }
    {
        if !self.facts.has_between(krate, child) {
            return true;
        }
        self.is_toggled_in(krate, child, name)
    }

    // ---- features

    /// Whether a toggled feature is in the list if its crate lists it, and isn't lost.
    fn is_toggled_in(&self, by: &'a Kid, krate: &'a Kid, name: &'a str) -> bool
        ensures { IsTrue result
            ↔ ToggledIn (document_in self.now) (facts_in self.now) (id_of by.now) (id_of krate.now) name.now }
    {
        if !self.context.document.lists(krate, name) {
            return false;
        }
        self.facts
            .has(&FactRef::Toggled(ToggleRef { by, krate, name }))
    }

    /// Whether a feature is in the list if its crate lists it, and isn't lost.
    pub fn is_named_in(&self, krate: &'a Kid, name: &'a str) -> bool
        ensures { IsTrue result
            ↔ NamedIn (document_in self.now) (facts_in self.now) (id_of krate.now) name.now }
    {
        if !self.context.document.lists(krate, name) {
            return false;
        }
        self.facts.has_feature(krate, name)
    }

    /// Whether all that a declared dependency asks for is in the list.
    fn is_used_in(&self, krate: &'a Kid, dependency: &'a Dependency) -> bool
        ensures { IsTrue result
            ↔ UsedIn (document_in self.now) (facts_in self.now) (id_of krate.now)
            (dependency_view dependency.now) }
    {
        if !self.are_names_in(krate, &dependency.features) {
            return false;
        }
        self.is_default_in(krate, dependency.uses_default_features)
    }

    /// Whether the features that a declared dependency lists are in the list.
    fn are_names_in(&self, krate: &'a Kid, names: &'a [String]) -> bool
        ensures { let texts = map text_view names.now in
            IsTrue result ↔ NamesIn (document_in self.now) (facts_in self.now) (id_of krate.now) texts }
    {
        for name in names {
            if !self.is_named_in(krate, name.as_str()) {
                return false;
            }
        }
        true
    }

    /// Whether the default feature is in the list, if a declared dependency uses it.
    fn is_default_in(&self, krate: &'a Kid, uses: bool) -> bool
        ensures { IsTrue result ↔ DefaultIn (document_in self.now) (facts_in self.now)
            (id_of krate.now) uses }
    {
        if !uses {
            return true;
        }
        if !self.context.document.lists(krate, "default") {
            return true;
        }
        self.facts.has_feature(krate, "default")
    }
}
