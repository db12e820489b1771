//! The crates that a list of facts names, each once.

ghost use Rattle.std.specs.Prelude.{◌∷◌, ◌++◌, [], IfOk, List, OnOk};
ghost use Rattle.krates_rules.specs.Facts.{Fact as FactModel};
ghost use Rattle.krates_rules.specs.StepViews.{fact_view, facts_view};
ghost use Rattle.krates_verdict.specs.CratesOfFacts.{HasCrates};
ghost use Rattle.krates_verdict.specs.Holding.{FactsSay};
ghost use Rattle.krates_verdict.specs.declared.verdict.Verdict.TheVariants as verdicts;

use krates_ids::{Kid, laws};
use krates_rules::Fact;
use std::alloc::{AllocError, Global};
use std::collections::BTreeSet;

/// How many different crates the facts say are kept. Time O(n log n).
pub(crate) fn count_crates(alloc: Global, facts: &[Fact]) -> Result<usize, AllocError>
    ensures { IfOk result (λ krates. FactsSay (facts_view facts.now) (verdicts.Closed krates)) }
{
    laws::comparison();
    let krates = crates_of(alloc, facts)?;
    Ok(krates.len())
}

/// The crates that the facts say are kept.
fn crates_of<'a>(alloc: Global, facts: &'a [Fact]) -> Result<BTreeSet<&'a Kid>, AllocError>
    ensures { IfOk result (λ krates. HasCrates krates (facts_view facts.now)) }
{
    let mut krates = BTreeSet::new(alloc);
    for fact in facts {
        put_crate(fact, &mut krates)?;
    }
    Ok(krates)
}

/// Adds the crate of a fact that says one is kept.
fn put_crate<'a>(fact: &'a Fact, krates: &mut BTreeSet<&'a Kid>) -> Result<(), AllocError>
    ensures { OnOk result ((fs : List FactModel)
        → HasCrates krates.old fs → HasCrates krates.new (fs ++ fact_view fact.now ∷ [])) }
{
    laws::comparison();
    match fact {
        Fact::Crate(krate) => {
            krates.insert(krate)?;
        }
        Fact::Feature { .. } => {}
        Fact::Kept { .. } => {}
        Fact::Toggled { .. } => {}
    }
    Ok(())
}
