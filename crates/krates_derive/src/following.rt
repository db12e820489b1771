//! Whether a fact follows from others by one rule, row by row.

ghost use Rattle.std.specs.Prelude.{◌≡◌, ◌↔◌, ◌∷◌, [], IfOk, IsTrue};
ghost use Rattle.krates_cm.specs.Document.{dependency_view};
ghost use Rattle.krates_questions.specs.Context.{document_of, rules_of};
ghost use Rattle.krates_derive.specs.Following.{AsksDefault, AsksFeature, AsksForFeature, IsAskedBy, IsChildWith, IsNamedBy, IsRooted, IsRootedFeature, MayKeep, TogglesOver};
ghost use Rattle.krates_derive.specs.FactRef.{edge_of_ref, feature_of_ref, toggle_of_ref};
ghost use Rattle.krates_derive.specs.Giving.{IsTaken};
ghost use Rattle.krates_questions.specs.Lookup.{resolved_view};
ghost use Rattle.krates_questions.specs.Availability.{TellsDeclaration, TellsNeed};
ghost use Rattle.krates_rules.specs.Facts.{Crate, Feature, Kept};
ghost use Rattle.krates_rules.specs.Resolved.{id_of};
ghost use Rattle.krates_rules.specs.Rules.{Rule};
ghost use Rattle.krates_rules.specs.StepViews.{fact_view};

use crate::fact_ref::FactRef::{Crate, Feature, Kept, Toggled};
use crate::fact_ref::{EdgeRef, FactRef, FeatureRef, ToggleRef};
use krates_cm::Dependency;
use krates_ids::Kid;
use krates_questions::context::Context;
use krates_questions::questions::is_same;
use krates_questions::{Document, Need};
use krates_rules::Fact;
use krates_text::texts::has_text;
use std::alloc::AllocError;

// ---- edges

impl<'a> EdgeRef<'a> {
    /// What is needed for the edge.
    pub(crate) fn need(&self, context: &Context<'a, '_>) -> Result<Need<'a>, AllocError>
        ensures { IfOk result (TellsNeed (document_of context.now) context.now.setting.now
            (edge_of_ref self.now)) }
    {
        let info = self.info()?;
        context.document.need(
            context.alloc,
            context.setting,
            self.parent,
            self.child,
            &info,
        )
    }

    /// The dependency that the edge is declared as.
    pub(crate) fn declaration(
        &self,
        document: &Document<'a>,
    ) -> Result<Option<&'a Dependency>, AllocError>
        ensures { IfOk result (TellsDeclaration (resolved_view document.now) (edge_of_ref self.now)) }
    {
        let info = self.info()?;
        Ok(document.declaration(self.parent, self.child, &info))
    }

    /// Whether the edge may be kept, where it is asked for, or by its parent.
    fn may_be_kept(&self, context: &Context<'a, '_>, asked: bool) -> Result<bool, AllocError>
        ensures { let r = document_of context.now in
            let s = context.now.setting.now in
            IfOk result (λ b. IsTrue b ↔ MayKeep r s (edge_of_ref self.now) asked) }
    {
        match self.need(context)? {
            Need::Wanted(dependency) => {
                if !is_taken(asked, dependency) {
                    return Ok(false);
                }
                Ok(context.document.stands(context.setting, self.child))
            }
            Need::Undeclared => Ok(false),
            Need::Nothing => Ok(false),
        }
    }

    /// Whether the edge asks for a feature of its child.
    fn asks_for(&self, document: &Document<'a>, name: &str) -> Result<bool, AllocError>
        ensures { IfOk result
            (λ b. IsTrue b ↔ AsksForFeature (resolved_view document.now) (edge_of_ref self.now) name.now) }
    {
        match self.declaration(document)? {
            Some(dependency) => Ok(asks_feature(dependency, name)),
            None => Ok(false),
        }
    }
}

/// Whether a dependency is taken: if it is asked for, or isn't optional.
pub(crate) fn is_taken(asked: bool, dependency: &Dependency) -> bool
    ensures { IsTrue result ↔ IsTaken asked (dependency_view dependency.now) }
{
    asked || !dependency.optional
}

/// Whether a declared dependency asks for a feature.
fn asks_feature(dependency: &Dependency, name: &str) -> bool
    ensures { IsTrue result ↔ AsksFeature (dependency_view dependency.now) name.now }
{
    has_text(&dependency.features, name) || asks_default(dependency, name)
}

/// Whether a declared dependency asks for the feature by default.
fn asks_default(dependency: &Dependency, name: &str) -> bool
    ensures { IsTrue result ↔ AsksDefault (dependency_view dependency.now) name.now }
{
    dependency.uses_default_features && name == "default"
}

// ---- the rows

/// Whether a crate is a root that stands.
fn is_rooted<'a>(context: &Context<'a, '_>, rule: u8, krate: &'a Kid) -> bool
    ensures { IsTrue result ↔ IsRooted (document_of context.now) context.now.setting.now rule (id_of krate.now) }
{
    if rule != 1 {
        return false;
    }
    if !context.document.is_root(context.setting, krate) {
        return false;
    }
    context.document.stands(context.setting, krate)
}

/// Whether a crate is a root that stands and lists a feature.
fn is_rooted_feature<'a>(context: &Context<'a, '_>, rule: u8, krate: &'a Kid, name: &'a str) -> bool
    ensures { IsTrue result ↔ IsRootedFeature (document_of context.now) context.now.setting.now rule
        (id_of krate.now) name.now }
{
    if !is_rooted(context, rule, krate) {
        return false;
    }
    context.document.lists(krate, name)
}

/// Whether the rule has the number, and the crates are the same.
fn is_same_by(rule: u8, number: u8, one: &Kid, other: &Kid) -> bool
    ensures { IsTrue result ↔ ((rule ≡ number) × (id_of one.now ≡ id_of other.now)) }
{
    rule == number && is_same(one, other)
}

/// Whether a toggled feature is enabled: the crates and the names are the same.
fn is_enabled(rule: u8, toggle: &ToggleRef<'_>, feature: &FeatureRef<'_>) -> bool
    ensures { let t = toggle.now in
        let f = feature.now in
        IsTrue result ↔ ((rule ≡ 7) × (id_of t.krate.now ≡ id_of f.krate.now) × (t.name.now ≡ f.name.now)) }
{
    rule == 7 && is_same(toggle.krate, feature.krate) && toggle.name == feature.name
}

/// Whether a feature of a crate refers to a listed feature of it.
fn is_named<'a>(
    context: &Context<'a, '_>,
    rule: u8,
    feature: &FeatureRef<'a>,
    other: &FeatureRef<'a>,
) -> bool
    ensures { let f = feature.now in
        let g = other.now in
        IsTrue result ↔ IsNamedBy (document_of context.now) rule (id_of f.krate.now) f.name.now (id_of g.krate.now) g.name.now }
{
    rule == 3
        && is_same(feature.krate, other.krate)
        && feature.names(context.document, other.name)
        && context.document.lists(feature.krate, other.name)
}

/// Whether a feature of a crate asks for an edge.
fn is_asked<'a>(
    context: &Context<'a, '_>,
    rule: u8,
    feature: &FeatureRef<'a>,
    edge: &EdgeRef<'a>,
) -> bool
    ensures { let f = feature.now in
        IsTrue result ↔ IsAskedBy (document_of context.now) context.now.setting.now rule (id_of f.krate.now) f.name.now (edge_of_ref edge.now) }
{
    rule == 4 && is_same(feature.krate, edge.parent) && feature.asks(context, edge.child)
}

/// Whether an edge follows from a feature.
fn is_kept_by_feature<'a>(
    context: &Context<'a, '_>,
    rule: u8,
    feature: &FeatureRef<'a>,
    edge: &EdgeRef<'a>,
) -> Result<bool, AllocError>
    ensures { IfOk result
        (λ b. IsTrue b ↔ Rule (rules_of context.now) rule (feature_of_ref feature.now ∷ [])
        (Kept (edge_of_ref edge.now))) }
{
    if !is_asked(context, rule, feature, edge) {
        return Ok(false);
    }
    edge.may_be_kept(context, true)
}

/// Whether an edge follows from its parent.
fn is_kept_by_crate<'a>(
    context: &Context<'a, '_>,
    rule: u8,
    krate: &Kid,
    edge: &EdgeRef<'a>,
) -> Result<bool, AllocError>
    ensures { IfOk result
        (λ b. IsTrue b ↔ Rule (rules_of context.now) rule (Crate (id_of krate.now) ∷ [])
        (Kept (edge_of_ref edge.now))) }
{
    if !is_same_by(rule, 5, krate, edge.parent) {
        return Ok(false);
    }
    edge.may_be_kept(context, false)
}

/// Whether a crate is the child of an edge and lists a feature.
fn is_child<'a>(
    document: &Document<'a>,
    rule: u8,
    edge: &EdgeRef<'a>,
    feature: &FeatureRef<'a>,
) -> bool
    ensures { let f = feature.now in
        IsTrue result ↔ IsChildWith (resolved_view document.now) rule (edge_of_ref edge.now) (id_of f.krate.now) f.name.now }
{
    rule == 6 && is_same(edge.child, feature.krate) && document.lists(edge.child, feature.name)
}

/// Whether a feature follows from an edge.
fn is_declared<'a>(
    context: &Context<'a, '_>,
    rule: u8,
    edge: &EdgeRef<'a>,
    feature: &FeatureRef<'a>,
) -> Result<bool, AllocError>
    ensures { IfOk result
        (λ b. IsTrue b ↔ Rule (rules_of context.now) rule (Kept (edge_of_ref edge.now) ∷ [])
        (feature_of_ref feature.now)) }
{
    if !is_child(context.document, rule, edge, feature) {
        return Ok(false);
    }
    edge.asks_for(context.document, feature.name)
}

/// Whether a feature is toggled over an edge, by weak references or by strong ones.
fn toggles_over<'a>(
    context: &Context<'a, '_>,
    weakly: bool,
    feature: &FeatureRef<'a>,
    edge: &EdgeRef<'a>,
    toggle: &ToggleRef<'a>,
) -> bool
    ensures { let r = document_of context.now in
        let s = context.now.setting.now in
        let f = feature.now in
        let t = toggle.now in
        IsTrue result ↔ TogglesOver r s weakly (id_of f.krate.now) f.name.now (edge_of_ref edge.now) (id_of t.by.now) (id_of t.krate.now) t.name.now }
{
    if !is_between(feature.krate, edge, toggle) {
        return false;
    }
    feature.toggles(context, weakly, toggle) && context.document.lists(toggle.krate, toggle.name)
}

/// Whether the edge goes from the crate, which toggles, to that whose feature is toggled.
fn is_between(krate: &Kid, edge: &EdgeRef<'_>, toggle: &ToggleRef<'_>) -> bool
    ensures { let e = edge.now in
        let t = toggle.now in
        IsTrue result ↔ ((id_of krate.now ≡ id_of e.parent.now) × (id_of e.parent.now ≡ id_of t.by.now) × (id_of e.child.now ≡ id_of t.krate.now)) }
{
    is_same(krate, edge.parent)
        && is_same(edge.parent, toggle.by)
        && is_same(edge.child, toggle.krate)
}

/// Whether a toggled feature follows from a feature and an edge.
fn is_toggled<'a>(
    context: &Context<'a, '_>,
    rule: u8,
    feature: &FeatureRef<'a>,
    edge: &EdgeRef<'a>,
    toggle: &ToggleRef<'a>,
) -> bool
    ensures { let premises = feature_of_ref feature.now ∷ Kept (edge_of_ref edge.now) ∷ [] in
        IsTrue result ↔ Rule (rules_of context.now) rule premises (toggle_of_ref toggle.now) }
{
    if rule == 4 {
        return toggles_over(context, false, feature, edge, toggle);
    }
    if rule == 7 {
        return toggles_over(context, true, feature, edge, toggle);
    }
    false
}

// ---- by the number of premises

/// Whether a fact follows by the rule from nothing.
pub fn from_nothing<'a>(context: &Context<'a, '_>, rule: u8, fact: &'a Fact) -> bool
    ensures { IsTrue result ↔ Rule (rules_of context.now) rule [] (fact_view fact.now) }
{
    match FactRef::of(fact) {
        Crate(krate) => is_rooted(context, rule, krate),
        Feature(feature) => is_rooted_feature(context, rule, feature.krate, feature.name),
        _ => false,
    }
}

/// Whether a fact follows by the rule from another.
pub fn from_one<'a>(
    context: &Context<'a, '_>,
    rule: u8,
    premise: &'a Fact,
    fact: &'a Fact,
) -> Result<bool, AllocError>
    ensures { IfOk result
        (λ b. IsTrue b ↔ Rule (rules_of context.now) rule (fact_view premise.now ∷ []) (fact_view fact.now)) }
{
    match (FactRef::of(premise), FactRef::of(fact)) {
        (Crate(krate), Kept(edge)) => is_kept_by_crate(context, rule, krate, &edge),
        (Feature(feature), Crate(krate)) => Ok(is_same_by(rule, 2, feature.krate, krate)),
        (Feature(feature), Feature(other)) => Ok(is_named(context, rule, &feature, &other)),
        (Feature(feature), Kept(edge)) => is_kept_by_feature(context, rule, &feature, &edge),
        (Kept(edge), Crate(krate)) => Ok(is_same_by(rule, 5, edge.child, krate)),
        (Kept(edge), Feature(feature)) => is_declared(context, rule, &edge, &feature),
        (Toggled(toggle), Feature(feature)) => Ok(is_enabled(rule, &toggle, &feature)),
        _ => Ok(false),
    }
}

/// Whether a fact follows by the rule from two others.
pub fn from_two<'a>(
    context: &Context<'a, '_>,
    rule: u8,
    first: &'a Fact,
    second: &'a Fact,
    fact: &'a Fact,
) -> bool
    ensures { let premises = fact_view first.now ∷ fact_view second.now ∷ [] in
        IsTrue result ↔ Rule (rules_of context.now) rule premises (fact_view fact.now) }
{
    match (FactRef::of(first), FactRef::of(second), FactRef::of(fact)) {
        (Feature(feature), Kept(edge), Toggled(toggle)) => {
            is_toggled(context, rule, &feature, &edge, &toggle)
        }
        _ => false,
    }
}
