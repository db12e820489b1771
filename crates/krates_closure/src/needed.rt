//! The steps that the derivation of one fact needs.
ghost use Rattle.std.specs.Prelude.{◌≡◌, ◌⊎◌, ◌↔◌, ◌<◌, ℕ, All, Contains, IfOk, false, filter, length, slice_index_or};
ghost use Rattle.krates_closure.specs.Clauses.{NamesBelow};
ghost use Rattle.krates_closure.specs.Closure.{IsDerivation, IsDerivationOf, given_by};
ghost use Rattle.krates_closure.specs.Marks.{HasMark};
ghost use Rattle.krates_closure.specs.Needed.{AreNeeded, IsNeededAt, is_marked};

use crate::clause_number::ClauseNumber;
use crate::clauses::{Clause, Clauses};
use crate::fact_number::FactNumber;
use std::alloc::{AllocError, Global};

/// Those of the steps that derive a fact, which they give.
pub(crate) fn needed_steps(
    alloc: Global,
    clauses: &Clauses,
    steps: &[ClauseNumber],
    fact: FactNumber,
) -> Result<Vec<ClauseNumber>, AllocError>
    requires derivation { IsDerivation clauses.now.list steps.now }
    requires given { Contains (given_by clauses.now.list steps.now) fact }
    ensures { IfOk result (λ needed. IsDerivationOf clauses.now.list needed.items fact) }
{
    let list = clauses.as_slice();
    let marks = needed_facts(alloc, clauses, steps, fact)?;
    marked_steps(alloc, list, steps, &marks)
}

/// Marks of the fact, and of all that the steps need to give what has a mark. Each fact is given by one step, so a step that is needed
/// needs only what steps before it give.
fn needed_facts(
    alloc: Global,
    clauses: &Clauses,
    steps: &[ClauseNumber],
    fact: FactNumber,
) -> Result<Vec<bool>, AllocError>
    requires derivation { IsDerivation clauses.now.list steps.now }
    requires below { fact < clauses.now.size }
    ensures { IfOk result (λ marks. AreNeeded clauses.now.list steps.now fact 0 marks.items) }
{
    let list = clauses.as_slice();
    let mut marks = vec![in alloc; false; clauses.size()]?;
    marks[fact.index()] = true;
    for place in (0..steps.len()).rev() {
        need(list, steps[place], &mut marks);
    }
    Ok(marks)
}

/// Marks the premises of a step, if what it gives has a mark.
fn need(clauses: &[Clause], step: ClauseNumber, marks: &mut Vec<bool>)
    requires within { step < length clauses.now }
    requires below { All (NamesBelow (length marks.old.items)) clauses.now }
    ensures sized { length marks.new.items ≡ length marks.old.items }
    ensures marks { (fact : ℕ) → HasMark marks.new.items fact
        ↔ (HasMark marks.old.items fact ⊎ IsNeededAt clauses.now step marks.old.items fact) }
{
    let clause = &clauses[step.index()];
    if has_mark(marks, clause.fact()) {
        mark_all(clause.premises(), marks);
    }
}

/// Whether a fact has a mark.
fn has_mark(marks: &[bool], fact: FactNumber) -> bool
    ensures { result ≡ slice_index_or marks.now fact false }
{
    match marks.get(fact.index()) {
        Some(mark) => *mark,
        None => false,
    }
}

/// Marks these facts too.
fn mark_all(facts: &[FactNumber], marks: &mut Vec<bool>)
    requires { All (λ fact. fact < length marks.old.items) facts.now }
    ensures sized { length marks.new.items ≡ length marks.old.items }
    ensures marks { (fact : ℕ) → HasMark marks.new.items fact
        ↔ (HasMark marks.old.items fact ⊎ Contains facts.now fact) }
{
    for fact in facts {
        marks[fact.index()] = true;
    }
}

/// Those of the steps that give a fact with a mark.
fn marked_steps(
    alloc: Global,
    clauses: &[Clause],
    steps: &[ClauseNumber],
    marks: &[bool],
) -> Result<Vec<ClauseNumber>, AllocError>
    requires { (step : ℕ) → Contains steps.now step → step < length clauses.now }
    ensures { IfOk result (λ marked. marked.items ≡ filter (is_marked clauses.now marks.now) steps.now) }
{
    let mut marked = Vec::new(alloc);
    for step in steps {
        if gives_marked(clauses, marks, *step) {
            marked.push(*step)?;
        }
    }
    Ok(marked)
}

/// Whether a step gives a fact with a mark.
fn gives_marked(clauses: &[Clause], marks: &[bool], step: ClauseNumber) -> bool
    requires { step < length clauses.now }
    ensures { result ≡ is_marked clauses.now marks.now step }
{
    has_mark(marks, clauses[step.index()].fact())
}
