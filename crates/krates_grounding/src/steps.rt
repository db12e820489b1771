//! The steps that clauses stand for.
ghost use Rattle.std.specs.Prelude.{◌≡◌, ◌<◌, ℕ, All, Contains, IfOk, length, map};
ghost use Rattle.krates_closure.specs.Clauses.{NamesBelow};
ghost use Rattle.krates_closure.specs.Closing.{clause_at};
ghost use Rattle.krates_build_facts.specs.FactModels.{fact_view};
ghost use Rattle.krates_grounding.specs.Grounding.{fact_at, rule_of};
ghost use Rattle.krates_build_facts.specs.Steps.{step_view};

use krates_build_facts::{BuildFact, BuildStep};
use krates_closure::{Clause, ClauseNumber, FactNumber};
use std::alloc::{AllocError, Global};

/// The steps that these clauses stand for.
pub(crate) fn steps_of<'a>(
    alloc: Global,
    facts: &[BuildFact<'a>],
    clauses: &[Clause],
    numbers: &[ClauseNumber],
) -> Result<Vec<BuildStep<'a>>, AllocError>
    requires below { All (NamesBelow (length facts.now)) clauses.now }
    requires within { (number : ℕ) → Contains numbers.now number → number < length clauses.now }
    ensures { IfOk result (λ steps. map step_view steps.items
        ≡ map (λ number. rule_of (map fact_view facts.now) (clause_at clauses.now number)) numbers.now) }
{
    let mut steps = Vec::new(alloc);
    for number in numbers {
        let step = step_of(alloc, facts, clauses, *number)?;
        steps.push(step)?;
    }
    Ok(steps)
}

/// The step that a clause stands for.
fn step_of<'a>(
    alloc: Global,
    facts: &[BuildFact<'a>],
    clauses: &[Clause],
    number: ClauseNumber,
) -> Result<BuildStep<'a>, AllocError>
    requires below { All (NamesBelow (length facts.now)) clauses.now }
    requires within { number < length clauses.now }
    ensures { IfOk result (λ step. step_view step
        ≡ rule_of (map fact_view facts.now) (clause_at clauses.now number)) }
{
    let clause = &clauses[number.index()];
    Ok(BuildStep {
        premises: facts_at(alloc, facts, clause.premises())?,
        fact: facts[clause.fact().index()],
    })
}

/// The facts with these numbers.
fn facts_at<'a>(
    alloc: Global,
    facts: &[BuildFact<'a>],
    numbers: &[FactNumber],
) -> Result<Vec<BuildFact<'a>>, AllocError>
    requires { All (λ number. number < length facts.now) numbers.now }
    ensures { IfOk result (λ named. map fact_view named.items
        ≡ map (fact_at (map fact_view facts.now)) numbers.now) }
{
    let mut named = Vec::new(alloc);
    for number in numbers {
        named.push(facts[number.index()])?;
    }
    Ok(named)
}
