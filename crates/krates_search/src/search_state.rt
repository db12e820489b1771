//! What has been found of a selection while it is looked for; what is found is put with the step by which it is found.

ghost use Rattle.krates_search.specs.SearchContext.{HasPutStep, MayPutStep, MayPutFeature, MayPutKrate};
ghost use Rattle.std.specs.Prelude.{◌≡◌, Contains, IfOk, OnOk};
ghost use Rattle.krates_search.specs.SearchState.{IsSound, Advances};

use crate::found::{FoundEdge, FoundToggle};
use crate::links::Links;
use krates_graph::agenda::Agenda;
use krates_ids::laws;
use krates_questions::NodePlace;
use krates_questions::context::Context;
use krates_selection::trace::{NumberedFact, NumberedStep, Reason};
use std::alloc::AllocError;

/// What has been found so far.
#[derive(Drop)]
pub struct SearchState<'a> {
    /// The places of the nodes of the kept crates: those that were taken have been expanded.
    pub krates: Agenda,
    /// The numbers of the enabled features: the references of those that were taken have been followed.
    pub features: Agenda,
    /// The kept edges, in the order in which they were found.
    pub edges: Vec<FoundEdge<'a>>,
    /// The toggled features, in the order in which they were found.
    pub toggled: Vec<FoundToggle<'a>>,
    /// The steps by which all of that was found, each behind those that it uses.
    pub trace: Vec<NumberedStep>,
    /// The step of each crate that was put, in the order of their puts.
    pub krate_steps: Vec<usize>,
    /// The step of each feature that was put, in the order of their puts.
    pub feature_steps: Vec<usize>,
    /// What is kept for each dependency of each node.
    pub links: Links<'a>,
    /// Whether each package is excluded, in the order of the document: asked once, before the search.
    pub excluded: Vec<bool>,
}

/// Puts a step behind the others, and answers its number.
pub(crate) fn put_step<'a>(
    context: &Context<'a, '_>,
    step: NumberedStep,
    found: &mut SearchState<'a>,
) -> Result<usize, AllocError>
    requires sound { IsSound context.now found.old }
    requires may { MayPutStep context.now found.old step }
    ensures advanced { OnOk result (Advances context.now found.old found.new) }
    ensures put { IfOk result (HasPutStep context.now found.new step) }
    ensures same_links { OnOk result (found.new.links ≡ found.old.links) }
{
    laws::one_reading();
    let number = found.trace.len();
    found.trace.push(step)?;
    Ok(number)
}

/// Puts the crate of the node at a place, and its step, unless it was put before.
pub fn put_krate<'a>(
    context: &Context<'a, '_>,
    place: NodePlace,
    reason: Reason,
    found: &mut SearchState<'a>,
) -> Result<(), AllocError>
    requires sound { IsSound context.now found.old }
    requires may { MayPutKrate context.now found.old place.index reason }
    ensures advanced { OnOk result (Advances context.now found.old found.new) }
    ensures put { OnOk result (Contains found.new.krates.put place.index) }
    ensures same_links { OnOk result (found.new.links ≡ found.old.links) }
{
    laws::one_reading();
    if !found.krates.put(place.index) {
        return Ok(());
    }
    found.krate_steps.push(found.trace.len())?;
    found.trace.push(NumberedStep {
        fact: NumberedFact::Crate { place },
        reason,
    })?;
    Ok(())
}

/// Puts the feature of a number, and its step, unless it was put before.
pub(crate) fn put_feature<'a>(
    context: &Context<'a, '_>,
    number: usize,
    reason: Reason,
    found: &mut SearchState<'a>,
) -> Result<(), AllocError>
    requires sound { IsSound context.now found.old }
    requires may { MayPutFeature context.now found.old number reason }
    ensures advanced { OnOk result (Advances context.now found.old found.new) }
    ensures put { OnOk result (Contains found.new.features.put number) }
    ensures same_links { OnOk result (found.new.links ≡ found.old.links) }
{
    laws::one_reading();
    if !found.features.put(number) {
        return Ok(());
    }
    found.feature_steps.push(found.trace.len())?;
    found.trace.push(NumberedStep {
        fact: NumberedFact::Feature { number },
        reason,
    })?;
    Ok(())
}
