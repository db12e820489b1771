//! What a certificate claims, as facts and steps by number.

ghost use Rattle.std.specs.Prelude.{◌≡◌, ◌≤◌, IfErr, IfOk, Some, length, map, slice_get, string_bytes};
ghost use Rattle.krates_cm.specs.Document.{texts_view};
ghost use Rattle.krates_build_certificate.specs.BuildCertificateViews.{step_told};
ghost use Rattle.krates_build_facts.specs.FactModels.{fact_view};
ghost use Rattle.krates_build_facts.specs.Steps.{given_in, step_view};
ghost use Rattle.krates_build_naming.specs.NamedFacts.{fact_of};
ghost use Rattle.krates_build_verdict.specs.ClaimRefusals.{FactsRefusal, IsLater, IsUnnamed, StepRefusal, StepsRefusal};
ghost use Rattle.krates_build_verdict.specs.NamedClaims.{GivesFacts, NamesFacts, NamesStep, NamesSteps};
ghost use Rattle.krates_build_verdict.specs.declared.refusal.BuildRefusal.TheVariants as refusals;

use crate::refusal::BuildRefusal;
use krates_build_certificate::NamedStep;
use krates_build_facts::{BuildFact, BuildStep};
use krates_build_naming::{FactNames, fact_named};
use std::alloc::Global;

/// The facts that words name.
pub(crate) fn facts_of<'a>(
    alloc: Global,
    names: &FactNames<'_, '_>,
    named: &'a [Vec<String>],
) -> Result<Vec<BuildFact<'a>>, BuildRefusal>
    ensures named { IfOk result (λ facts. NamesFacts names.now
        (map texts_view named.now) (map fact_view facts.items)) }
    ensures refused { IfErr result (FactsRefusal names.now (map texts_view named.now)) }
{
    let mut facts = Vec::new(alloc);
    for (number, words) in named.iter().enumerate() {
        facts.push(fact_of("fact", number, names, words)?)?;
    }
    Ok(facts)
}

/// The fact that the words of a step or a fact name.
fn fact_of<'a>(
    part: &'static str,
    number: usize,
    names: &FactNames<'_, '_>,
    words: &'a [String],
) -> Result<BuildFact<'a>, BuildRefusal>
    ensures named { let words = map string_bytes words.now in
        IfOk result (λ fact. (fact_of names.now words).value ≡ Some (fact_view fact)) }
    ensures refused { let words = map string_bytes words.now in
        IfErr result (IsUnnamed names.now part.now number words) }
{
    match fact_named(names, words) {
        Ok(fact) => Ok(fact),
        Err(fault) => Err(BuildRefusal::unnamed(part, number, fault, words)),
    }
}

/// The steps by number.
pub(crate) fn steps_of<'a>(
    alloc: Global,
    names: &FactNames<'_, '_>,
    named: &'a [NamedStep],
) -> Result<Vec<BuildStep<'a>>, BuildRefusal>
    ensures named { IfOk result (λ steps. NamesSteps names.now
        (map step_told named.now) (map step_view steps.items)) }
    ensures refused { IfErr result (StepsRefusal names.now (map step_told named.now)) }
{
    let mut steps = Vec::new(alloc);
    for step in named {
        steps.push(step_of(alloc, names, &steps, step)?)?;
    }
    Ok(steps)
}

/// A step by number, behind these.
fn step_of<'a>(
    alloc: Global,
    names: &FactNames<'_, '_>,
    before: &[BuildStep<'a>],
    step: &'a NamedStep,
) -> Result<BuildStep<'a>, BuildRefusal>
    ensures named { let before = map step_view before.now in
        IfOk result (λ made. NamesStep names.now before (step_told step.now) (step_view made)) }
    ensures refused { let before = map step_view before.now in
        IfErr result (StepRefusal names.now before (step_told step.now)) }
{
    let fact = fact_of("step", before.len(), names, &step.fact)?;
    let premises = given_by(alloc, before, &step.uses)?;
    Ok(BuildStep { premises, fact })
}

/// What the steps of these numbers give.
fn given_by<'a>(
    alloc: Global,
    before: &[BuildStep<'a>],
    uses: &[usize],
) -> Result<Vec<BuildFact<'a>>, BuildRefusal>
    ensures given { IfOk result (λ facts. GivesFacts (map step_view before.now)
        uses.now (map fact_view facts.items)) }
    ensures refused { IfErr result (IsLater (map step_view before.now) uses.now) }
{
    let mut facts = Vec::new(alloc);
    for used in uses {
        facts.push(given(before, *used)?)?;
    }
    Ok(facts)
}

/// What the step of this number gives.
fn given<'a>(before: &[BuildStep<'a>], used: usize) -> Result<BuildFact<'a>, BuildRefusal>
    ensures given { IfOk result (λ fact. slice_get (given_in (map step_view before.now)) used
        ≡ Some (fact_view fact)) }
    ensures refused { IfErr result (λ e. (e ≡ refusals.Later (length before.now) used)
        × (length before.now ≤ used)) }
{
    match before.get(used) {
        Some(step) => Ok(step.fact),
        None => Err(BuildRefusal::Later {
            number: before.len(),
            used,
        }),
    }
}
