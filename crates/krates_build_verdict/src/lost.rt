//! Facts that say the document lacks what a build needs.

ghost use Rattle.std.specs.Prelude.{◌≡◌, ℕ, IfErr, OnOk, map};
ghost use Rattle.krates_build_facts.specs.FactModels.{fact_view};
ghost use Rattle.krates_build_verdict.specs.BuildVerdicts.{IsLostAt, NoneLost, is_lost};
ghost use Rattle.krates_build_verdict.specs.declared.refusal.BuildRefusal.TheVariants as refusals;

use crate::refusal::BuildRefusal;
use krates_build_facts::BuildFact;

/// Refuses facts of which one says that the document lacks what the build needs, and names the first. Time O(n).
pub(crate) fn expect_none_lost(facts: &[BuildFact<'_>]) -> Result<(), BuildRefusal>
    ensures whole { OnOk result (NoneLost (map fact_view facts.now)) }
    ensures refused { IfErr result (λ e. (number : ℕ)
        × (e ≡ refusals.Lost number) × IsLostAt (map fact_view facts.now) number) }
{
    for (number, fact) in facts.iter().enumerate() {
        if is_lost(fact) {
            return Err(BuildRefusal::Lost(number));
        }
    }
    Ok(())
}

/// Whether a fact says so.
fn is_lost(fact: &BuildFact<'_>) -> bool
    ensures { result ≡ is_lost (fact_view fact.now) }
{
    matches!(fact, BuildFact::Lost(..))
}
