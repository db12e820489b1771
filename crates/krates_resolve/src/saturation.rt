//! All that is kept of a document.

ghost use Rattle.krates_resolve.specs.Saturation.{TakesNext, HasExactly, HasDone, HasCounted, HasCountedAll};
ghost use Rattle.krates_questions.specs.Context.{Refuses};
ghost use Rattle.std.specs.Prelude.{◌≡◌, IfErr, IfOk, OnOk};
ghost use Rattle.krates_selection.specs.Selection.{IsFresh};
ghost use Rattle.krates_search.specs.SearchState.{IsSound};

use crate::references::follow_references;
use crate::roots::put_roots;
use krates_graph::agenda::Agenda;
use krates_ids::Error;
use krates_questions::context::Context;
use krates_search::expansion::expand;
use krates_search::links::links_of;
use krates_search::search_state::SearchState;
use krates_selection::work::Work;
use std::alloc::AllocError;

/// All that is kept of a document: exactly what has a derivation from the roots by the rules. The work is counted.
///
/// The roots and their features are put into the agendas. Each crate that is taken is expanded once, and the references of each
/// feature are followed once, which keeps edges and puts crates and features, until none is left. Crates are numbered by the places of their nodes,
/// features by their places in the list of all.
pub(crate) fn saturate<'a>(
    context: &Context<'a, '_>,
    work: &mut Work,
) -> Result<SearchState<'a>, Error>
    requires fresh { IsFresh work.old }
    ensures exact { IfOk result (HasExactly context.now) }
    ensures sound { IfOk result (IsSound context.now) }
    ensures counted { IfOk result (λ found. HasCountedAll context.now found work.new) }
    ensures refused { IfErr result (Refuses context.now) }
{
    context.document.agrees();
    let mut found = nothing_found(context)?;
    put_roots(context, &mut found)?;
    while take_next(context, &mut found, work)? {}
    Ok(found)
}

/// Nothing is found yet. The agendas have a place for each node and each feature.
fn nothing_found<'a>(context: &Context<'a, '_>) -> Result<SearchState<'a>, AllocError>
    ensures sound { IfOk result (IsSound context.now) }
    ensures krates { IfOk result (λ found. found.krates.taken ≡ 0) }
    ensures features { IfOk result (λ found. found.features.taken ≡ 0) }
{
    let alloc = context.alloc;
    let document = context.document;
    let krates = Agenda::new(alloc, document.nodes().len())?;
    let features = Agenda::new(alloc, document.feature_count())?;
    let links = links_of(alloc, document)?;
    let excluded = context.exclusions()?;
    Ok(SearchState {
        krates,
        features,
        edges: Vec::new(alloc),
        toggled: Vec::new(alloc),
        trace: Vec::new(alloc),
        krate_steps: Vec::new(alloc),
        feature_steps: Vec::new(alloc),
        links,
        excluded,
    })
}

/// Takes the next crate and expands it, or else the next feature and follows its references, and counts that. Answers whether
/// there was one.
fn take_next<'a>(
    context: &Context<'a, '_>,
    found: &mut SearchState<'a>,
    work: &mut Work,
) -> Result<bool, Error>
    requires done { HasDone context.now found.old }
    requires counted { HasCounted context.now found.old work.old }
    ensures taken { IfOk result (λ more. TakesNext context.now found.old found.new more) }
    ensures counted { OnOk result (HasCounted context.now found.new work.new) }
    ensures refused { IfErr result (Refuses context.now) }
{
    if let Some(taken) = found.krates.take() {
        let step = found.krate_steps[found.krates.taken() - 1];
        expand(context, taken, step, found)?;
        work.count_krate();
        return Ok(true);
    }
    let Some(taken) = found.features.take() else {
        return Ok(false);
    };
    let step = found.feature_steps[found.features.taken() - 1];
    let references = follow_references(context, taken, step, found)?;
    work.count_feature(references);
    Ok(true)
}
