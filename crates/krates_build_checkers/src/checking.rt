//! Lists of steps that are accepted.
ghost use Rattle.std.specs.Prelude.{◌↔◌, IfErr, IsTrue, List, OnOk, map};
ghost use Rattle.krates_build_facts.specs.FactModels.{RuleModel};
ghost use Rattle.krates_build_facts.specs.Steps.{MayComeNext, given_in, step_view};
ghost use Rattle.krates_build_checkers.specs.Acceptance.{AreAccepted, IsRefused};
ghost use Rattle.krates_build_checkers.specs.GivenFacts.{HasFacts};

use crate::build_check_error::BuildCheckError;
use crate::given::{add, are_given};
use crate::rows::is_row;
use krates_build_facts::{BuildFact, BuildStep};
use krates_build_tables::Tables;
use std::alloc::Global;
use std::collections::BTreeSet;

/// Checks a list of steps for the tables of a document and a build: there is a step, and each follows by an instance of a rule that the
/// tables have, from facts that the steps before it give, and gives a fact that they don't. So what each step gives follows, and each step
/// is one rule (`laws::accepted_lists`).
///
/// It is refused as `Empty` or `Step`, which names the first step that may not come next. It may instead return `Memory`.
///
/// Time: O(n log n) for n facts of the steps, and for each step the links, targets and features of the crates that it names; for a step
/// that follows from what is asked for, all crates.
///
/// ```text
/// if let Some(steps) = derived.why(alloc, &fact)? {
///     check_built(alloc, derived.tables(), &steps)?;
/// }
/// ```
pub fn check_built<'a>(
    alloc: Global,
    tables: &Tables<'a>,
    steps: &[BuildStep<'a>],
) -> Result<(), BuildCheckError>
    ensures accepted { OnOk result (AreAccepted tables.now (map step_view steps.now)) }
    ensures refused { IfErr result (IsRefused tables.now (map step_view steps.now)) }
{
    if steps.is_empty() {
        return Err(BuildCheckError::Empty);
    }
    let mut given = BTreeSet::new(alloc);
    for (number, step) in steps.iter().enumerate() {
        if !may_come_next(tables, &given, step) {
            return Err(BuildCheckError::Step(number));
        }
        add(step.fact, &mut given)?;
    }
    Ok(())
}

/// Whether a step may come next, where these facts are given.
fn may_come_next<'a>(
    tables: &Tables<'a>,
    given: &BTreeSet<BuildFact<'a>>,
    step: &BuildStep<'a>,
) -> bool
    ensures { (before : List RuleModel) → HasFacts given.now (given_in before)
        → IsTrue result ↔ MayComeNext tables.now before (step_view step.now) }
{
    if given.contains(&step.fact) {
        return false;
    }
    are_given(given, &step.premises) && is_row(tables, step)
}
