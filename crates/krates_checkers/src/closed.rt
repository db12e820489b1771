//! Whether a list of facts is closed.
//!
//! For each fact there is one question: whether all that it gives is in the list. What a feature gives together with an edge
//! is asked with the feature, for the edges in the list.

ghost use Rattle.std.specs.Prelude.{◌↔◌, IfOk, IsTrue, map};
ghost use Rattle.krates_cm.specs.Document.{text_view};
ghost use Rattle.krates_questions.specs.Context.{rules_of};
ghost use Rattle.krates_derive.specs.Giving.{document_in, facts_in, setting_in, AllIn, FactIn, FeatureIn, ReferenceIn, ReferencesIn};
ghost use Rattle.krates_rules.specs.Derivation.{IsClosed};
ghost use Rattle.krates_rules.specs.Resolved.{id_of};
ghost use Rattle.krates_rules.specs.StepViews.{fact_view, facts_view};

use krates_derive::closing::ClosureCheck;
use krates_derive::fact_ref::EdgeRef;
use krates_derive::fact_set::FactSet;
use krates_ids::Kid;
use krates_questions::context::Context;
use krates_rules::Fact;
use krates_text::features::{Feature, ParsedFeature};
use krates_text::laws;
use std::alloc::AllocError;

/// Whether a list is closed.
pub(crate) fn is_closed<'a>(
    context: &Context<'a, '_>,
    facts: &'a [Fact],
) -> Result<bool, AllocError>
    ensures { IfOk result (λ b. IsTrue b ↔ IsClosed (rules_of context.now) (facts_view facts.now)) }
{
    let set = FactSet::of(context.alloc, facts)?;
    let roots = context.document.roots(context.alloc, context.setting)?;
    let check = ClosureCheck {
        context: *context,
        facts: &set,
    };
    if !check.are_roots_in(&roots) {
        return Ok(false);
    }
    are_facts_in(&check, facts)
}

/// Whether all that these facts give is in the list.
fn are_facts_in<'a>(check: &ClosureCheck<'a, '_>, facts: &'a [Fact]) -> Result<bool, AllocError>
    ensures { IfOk result
        (λ b. IsTrue b ↔ AllIn (document_in check.now) (setting_in check.now) (facts_in check.now)
        (facts_view facts.now)) }
{
    for fact in facts {
        if !is_fact_in(check, fact)? {
            return Ok(false);
        }
    }
    Ok(true)
}

/// Whether all that a fact gives is in the list.
fn is_fact_in<'a>(check: &ClosureCheck<'a, '_>, fact: &'a Fact) -> Result<bool, AllocError>
    ensures { IfOk result
        (λ b. IsTrue b ↔ FactIn (document_in check.now) (setting_in check.now) (facts_in check.now)
        (fact_view fact.now)) }
{
    match fact {
        Fact::Crate(krate) => check.is_crate_in(krate),
        Fact::Feature { krate, name } => is_feature_in(check, krate, name.as_str()),
        Fact::Kept {
            parent,
            child,
            kind,
            cfg,
        } => {
            let edge = EdgeRef {
                parent,
                child,
                kind: *kind,
                cfg,
            };
            check.is_kept_in(&edge)
        }
        Fact::Toggled { child, name, .. } => { Ok(check.facts.has_feature(child, name.as_str())) }
    }
}

/// Whether all that a feature gives is in the list.
fn is_feature_in<'a>(
    check: &ClosureCheck<'a, '_>,
    krate: &'a Kid,
    feature: &'a str,
) -> Result<bool, AllocError>
    ensures { IfOk result
        (λ b. IsTrue b ↔ FeatureIn (document_in check.now) (setting_in check.now) (facts_in check.now)
        (id_of krate.now) feature.now) }
{
    if !check.facts.has_crate(krate) {
        return Ok(false);
    }
    are_references_in(check, krate, check.context.document.values(krate, feature))
}

/// Whether all that these references of a feature of the crate give is in the list.
fn are_references_in<'a>(
    check: &ClosureCheck<'a, '_>,
    krate: &'a Kid,
    values: &'a [String],
) -> Result<bool, AllocError>
    ensures { let texts = map text_view values.now in
        IfOk result (λ b. IsTrue b ↔ ReferencesIn (document_in check.now) (setting_in check.now) (facts_in check.now)
        (id_of krate.now) texts) }
{
    for value in values {
        if !is_reference_in(check, krate, value.as_str())? {
            return Ok(false);
        }
    }
    Ok(true)
}

/// Whether all that a reference of a feature of the crate gives is in the list.
fn is_reference_in<'a>(
    check: &ClosureCheck<'a, '_>,
    krate: &'a Kid,
    text: &'a str,
) -> Result<bool, AllocError>
    ensures { IfOk result
        (λ b. IsTrue b ↔ ReferenceIn (document_in check.now) (setting_in check.now) (facts_in check.now)
        (id_of krate.now) text.now) }
{
    laws::one_reference();
    match ParsedFeature::from(text).feat() {
        Feature::Simple(name) => Ok(check.is_named_in(krate, name)),
        Feature::Krate(dep) => check.are_edges_to_in(krate, dep),
        Feature::Strong {
            krate: dep,
            feature,
        } => Ok(check.are_edges_to_in(krate, dep)? && check.is_dep_in(krate, dep, feature)?),
        Feature::Weak {
            krate: dep,
            feature,
        } => check.is_dep_in(krate, dep, feature),
    }
}
