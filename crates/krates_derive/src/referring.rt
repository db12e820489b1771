//! What the references of a feature ask for.

ghost use Rattle.std.specs.Prelude.{◌↔◌, IsTrue};
ghost use Rattle.krates_questions.specs.Context.{document_of};
ghost use Rattle.krates_derive.specs.Following.{Asks, AsksBy, IsToggleOf, Toggles, TogglesBy};
ghost use Rattle.krates_questions.specs.Lookup.{resolved_view};
ghost use Rattle.krates_rules.specs.Features.{HasReference};
ghost use Rattle.krates_rules.specs.Resolved.{id_of};
ghost use Rattle.krates_text.specs.FeatureReference.{IsReference, simple};

use crate::fact_ref::{FeatureRef, ToggleRef};
use krates_ids::Kid;
use krates_questions::Document;
use krates_questions::context::Context;
use krates_text::features::{Feature, ParsedFeature};
use krates_text::laws;

impl<'a> FeatureRef<'a> {
    /// Whether the feature refers to another feature of its crate.
    pub(crate) fn names(&self, document: &Document<'a>, name: &str) -> bool
        ensures { let r = resolved_view document.now in
            let f = self.now in
            IsTrue result ↔ HasReference r (id_of f.krate.now) f.name.now (simple name.now) }
    {
        let values = document.values(self.krate, self.name);
        values.iter().any(|value| is_simple(value.as_str(), name))
    }

    /// Whether the feature asks for the edges to another crate.
    pub(crate) fn asks(&self, context: &Context<'a, '_>, child: &Kid) -> bool
        ensures { let r = document_of context.now in
            let s = context.now.setting.now in
            let f = self.now in
            IsTrue result ↔ Asks r s (id_of f.krate.now) f.name.now (id_of child.now) }
    {
        let krate = self.krate;
        let values = context.document.values(krate, self.name);
        values
            .iter()
            .any(|value| asks_by(context, krate, value.as_str(), child))
    }

    /// Whether the feature refers to a feature of another crate, weakly or strongly.
    pub(crate) fn toggles(
        &self,
        context: &Context<'a, '_>,
        weakly: bool,
        toggle: &ToggleRef<'a>,
    ) -> bool
        ensures { let r = document_of context.now in
            let s = context.now.setting.now in
            let f = self.now in
            let t = toggle.now in
            IsTrue result ↔ Toggles r s (id_of f.krate.now) weakly f.name.now (id_of t.krate.now) t.name.now }
    {
        let krate = self.krate;
        let values = context.document.values(krate, self.name);
        values.iter().any(|value| toggles_by(context, weakly, krate, value.as_str(), toggle))
    }
}

/// Whether the reference is the feature.
fn is_simple(text: &str, name: &str) -> bool
    ensures { IsTrue result ↔ IsReference text.now (simple name.now) }
{
    laws::one_reference();
    match ParsedFeature::from(text).feat() {
        Feature::Simple(other) => other == name,
        _ => false,
    }
}

/// Whether the reference asks for the edges to another crate.
fn asks_by(context: &Context<'_, '_>, krate: &Kid, text: &str, child: &Kid) -> bool
    ensures { IsTrue result ↔ AsksBy (document_of context.now) context.now.setting.now (id_of krate.now) text.now
        (id_of child.now) }
{
    laws::one_reference();
    match ParsedFeature::from(text).feat() {
        Feature::Krate(dep) => context.document.means(context.setting, krate, dep, child),
        Feature::Strong { krate: dep, .. } => context
            .document
            .means(context.setting, krate, dep, child),
        _ => false,
    }
}

/// Whether the reference is to a feature of another crate, weakly or strongly.
fn toggles_by(
    context: &Context<'_, '_>,
    weakly: bool,
    krate: &Kid,
    text: &str,
    toggle: &ToggleRef<'_>,
) -> bool
    ensures { let r = document_of context.now in
        let s = context.now.setting.now in
        let t = toggle.now in
        IsTrue result ↔ TogglesBy r s (id_of krate.now) weakly text.now (id_of t.krate.now) t.name.now }
{
    laws::one_reference();
    match ParsedFeature::from(text).feat() {
        Feature::Strong {
            krate: dep,
            feature,
        } => !weakly && is_toggle(context, krate, dep, feature, toggle),
        Feature::Weak {
            krate: dep,
            feature,
        } => weakly && is_toggle(context, krate, dep, feature, toggle),
        _ => false,
    }
}

/// Whether a reference is to this feature of a crate: the name of the dependency means the crate, and the names of the
/// features are the same.
fn is_toggle(
    context: &Context<'_, '_>,
    krate: &Kid,
    dep: &str,
    feature: &str,
    toggle: &ToggleRef<'_>,
) -> bool
    ensures { let r = document_of context.now in
        let s = context.now.setting.now in
        let t = toggle.now in
        IsTrue result
        ↔ IsToggleOf r s (id_of krate.now) dep.now feature.now (id_of t.krate.now) t.name.now }
{
    feature == toggle.name
        && context
            .document
            .means(context.setting, krate, dep, toggle.krate)
}
