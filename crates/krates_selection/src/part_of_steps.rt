//! Parts of a list of steps: those on which one step depends, and the first step of each fact, chosen one by one and renumbered.

ghost use Rattle.std.specs.Prelude.{◌<◌, IfOk, length, ◌≡◌, All, ℕ, ◌↔◌, ◌+◌, ◌⊎◌, Contains, OnOk};
ghost use Rattle.krates_selection.specs.PartOfSteps.{AreBackward, AreUsedBehind, EndsAt, IsPartBy, SameNumber, AreFirst, HaveOwnNumbers, IsChosenFor, SameFact, IsMarked, AreMarkedFrom, AreNeeded, HasNewNumber, IsChoice, IsMade, IsMadeBelow, IsNumbered};
ghost use Rattle.krates_rules.specs.Uses.{number_in, numbers_used};
ghost use Rattle.std.specs.List.{AllZip};

use krates_rules::Uses;
use std::alloc::{AllocError, Global};

/// A part of a list of steps, by number.
#[derive(Debug, Drop)]
pub struct PartOfSteps {
    /// The number in the whole list of each step of the part; they increase.
    pub chosen: Vec<usize>,
    /// What each of them uses, by number in the part.
    pub uses: Vec<Uses>,
}

/// The part of a list of steps on which one of them depends: that step, which comes last, and what it uses, directly or by others, in
/// the order of the list. Each but the last is used by a later one.
///
/// The only error is running out of memory. Time: O(n).
pub(crate) fn part_for(
    alloc: Global,
    steps: &[Uses],
    last: usize,
) -> Result<PartOfSteps, AllocError>
    requires backward { AreBackward steps.now }
    requires within { last < length steps.now }
    ensures part { IfOk result (λ part. IsPartBy SameNumber steps.now part.chosen.items part.uses.items) }
    ensures last { IfOk result (λ part. EndsAt part.chosen.items last) }
    ensures used { IfOk result (λ part. AreUsedBehind part.uses.items) }
{
    let marks = needed_for(alloc, steps, last)?;
    let mut numbers = Vec::with_capacity(alloc, steps.len())?;
    for number in 0..steps.len() {
        numbers.push(number)?;
    }
    let choice = MarkedSteps {
        steps,
        facts: &numbers,
        marks: &marks,
    };
    part_of(alloc, &choice, steps.len())
}

/// The part of a list of steps that has the first step of each fact, for steps whose facts have these numbers, below the count. Each
/// step that it uses there is the first with the same fact.
///
/// The only error is running out of memory. Time: O(n).
pub(crate) fn first_steps(
    alloc: Global,
    steps: &[Uses],
    facts: &[usize],
    count: usize,
) -> Result<PartOfSteps, AllocError>
    requires backward { AreBackward steps.now }
    requires long { length facts.now ≡ length steps.now }
    requires facts { All (λ fact. fact < count) facts.now }
    ensures part { IfOk result (λ part. IsPartBy (SameFact facts.now) steps.now part.chosen.items part.uses.items) }
    ensures own { IfOk result (λ part. HaveOwnNumbers facts.now part.chosen.items) }
    ensures each { IfOk result (λ part. (k : ℕ) → k < length steps.now → IsChosenFor facts.now part.chosen.items k) }
{
    let marks = first_marks(alloc, facts, count)?;
    let choice = MarkedSteps {
        steps,
        facts,
        marks: &marks,
    };
    part_of(alloc, &choice, count)
}

/// Marks the first step of each fact.
fn first_marks(alloc: Global, facts: &[usize], count: usize) -> Result<Vec<bool>, AllocError>
    requires { All (λ fact. fact < count) facts.now }
    ensures { IfOk result (λ marks. AreFirst facts.now marks.items) }
{
    let mut seen: Vec<bool> = vec![in alloc; false; count]?;
    let mut marks = Vec::new(alloc);
    for fact in facts {
        let is_first = !seen[*fact];
        marks.push(is_first)?;
        seen[*fact] = true;
    }
    Ok(marks)
}

/// Marks the steps on which a step depends, itself among them: goes down from it, and marks what each marked one uses.
fn needed_for(alloc: Global, steps: &[Uses], last: usize) -> Result<Vec<bool>, AllocError>
    requires backward { AreBackward steps.now }
    requires within { last < length steps.now }
    ensures { IfOk result (λ marks. AreNeeded steps.now last marks.items) }
{
    let mut marks: Vec<bool> = vec![in alloc; false; steps.len()]?;
    marks[last] = true;
    let mut left = last + 1;
    while left > 0 {
        left -= 1;
        mark_step(steps, last, left, &mut marks);
    }
    Ok(marks)
}

/// Marks what a step uses, if the step is marked.
fn mark_step(steps: &[Uses], last: usize, number: usize, marks: &mut [bool])
    requires backward { AreBackward steps.now }
    requires here { number < length steps.now }
    requires marked { AreMarkedFrom steps.now last (number + 1) marks.old }
    ensures { AreMarkedFrom steps.now last number marks.new }
{
    if marks[number] {
        mark(steps[number].first, marks);
        mark(steps[number].second, marks);
    }
}

/// Marks a step.
fn mark(used: Option<usize>, marks: &mut [bool])
    requires { (k : ℕ) → Contains (number_in used) k → k < length marks.old }
    ensures long { length marks.new ≡ length marks.old }
    ensures marked { (k : ℕ) → IsMarked marks.new k ↔ (IsMarked marks.old k ⊎ Contains (number_in used) k) }
{
    if let Some(number) = used {
        marks[number] = true;
    }
}

/// Which steps of a list are chosen.
#[derive(Clone, Copy)]
pub(crate) struct MarkedSteps<'a> {
    /// What each step uses.
    pub steps: &'a [Uses],
    /// The number of its fact.
    pub facts: &'a [usize],
    /// Whether it is chosen.
    pub marks: &'a [bool],
}

/// A part while it is made.
#[derive(Drop)]
struct Making {
    /// The old numbers of its steps.
    chosen: Vec<usize>,
    /// What each of them uses, by new number.
    uses: Vec<Uses>,
    /// By the number of a fact, the new number of the step that has it.
    numbers: Vec<Option<usize>>,
}

/// The part of a list that has the chosen steps, whose facts have numbers below the count.
///
/// Time: O(n).
fn part_of(alloc: Global, choice: &MarkedSteps<'_>, count: usize) -> Result<PartOfSteps, AllocError>
    requires { IsChoice choice.now count }
    ensures { IfOk result (λ part. IsMade choice.now part.chosen.items part.uses.items) }
{
    let numbers: Vec<Option<usize>> = vec![in alloc; None; count]?;
    let mut making = Making {
        chosen: Vec::with_capacity(alloc, choice.steps.len())?,
        uses: Vec::with_capacity(alloc, choice.steps.len())?,
        numbers,
    };
    for number in 0..choice.steps.len() {
        choose(choice, number, &mut making)?;
    }
    Ok(PartOfSteps {
        chosen: making.chosen,
        uses: making.uses,
    })
}

/// Chooses the next step if it is marked.
fn choose(choice: &MarkedSteps<'_>, number: usize, making: &mut Making) -> Result<(), AllocError>
    requires choice { IsChoice choice.now (length making.old.numbers.items) }
    requires here { number < length choice.now.steps.now }
    requires below { IsMadeBelow choice.now number making.old }
    ensures more { OnOk result (IsMadeBelow choice.now (number + 1) making.new) }
    ensures long { length making.new.numbers.items ≡ length making.old.numbers.items }
{
    if !choice.marks[number] {
        return Ok(());
    }
    let uses = renumbered(&choice.steps[number], choice.facts, &making.numbers);
    let fact = choice.facts[number];
    making.numbers[fact] = Some(making.chosen.len());
    making.chosen.push(number)?;
    making.uses.push(uses)?;
    Ok(())
}

/// What a step uses, by new number.
fn renumbered(uses: &Uses, facts: &[usize], numbers: &[Option<usize>]) -> Uses
    requires { (used : ℕ) → Contains (numbers_used uses.now) used → IsNumbered facts.now numbers.now used }
    ensures { AllZip (HasNewNumber facts.now numbers.now) (numbers_used uses.now) (numbers_used result) }
{
    Uses {
        first: new_number(uses.first, facts, numbers),
        second: new_number(uses.second, facts, numbers),
    }
}

/// The new number of a step.
fn new_number(used: Option<usize>, facts: &[usize], numbers: &[Option<usize>]) -> Option<usize>
    requires { (number : ℕ) → Contains (number_in used) number → IsNumbered facts.now numbers.now number }
    ensures { AllZip (HasNewNumber facts.now numbers.now) (number_in used) (number_in result) }
{
    let Some(used) = used else {
        return None;
    };
    numbers[facts[used]]
}
