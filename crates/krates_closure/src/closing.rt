//! How the closure of clauses is found in linear time: a clause waits for one premise that isn't found yet, and is looked at again, from
//! there on, only once that one is found.
//!
//! So the premises of a clause are gone through once, as in W. F. Dowling and J. H. Gallier, "Linear-time algorithms for testing the
//! satisfiability of propositional Horn formulae" (1984), who count for each clause the premises that aren't found yet. To wait for one of
//! them instead, as solvers watch a literal, keeps a clause in one list at a time.
ghost use Rattle.std.specs.Prelude.{◌≡◌, [], ◌∷◌, ◌++◌, ◌<◌, All, Contains, IfNone, IfOk, IfSome, OnOk, length, replicate, slice_set, true, ℕ};
ghost use Rattle.krates_closure.specs.Clauses.{NamesBelow};
ghost use Rattle.krates_closure.specs.Closing.{IsClosing, turns_left, waiting_for, watchers_of};
ghost use Rattle.krates_closure.specs.Closure.{IsClosure};
ghost use Rattle.krates_closure.specs.Marks.{AreMarks, IsFirstWithout, IsMet, IsMetBefore};

use crate::clause_number::ClauseNumber;
use crate::clauses::{Clause, Clauses};
use crate::fact_number::FactNumber;
use std::alloc::{AllocError, Global};

/// What is found: a mark for each fact, at its number, and the clauses that gave those that are marked, in the order in which they did.
#[derive(Drop)]
pub(crate) struct Found {
    pub(crate) marks: Vec<bool>,
    pub(crate) steps: Vec<ClauseNumber>,
}

/// What is found so far; how many premises of each clause were seen to be marked; the clauses that wait for each fact; and those that are
/// to be looked at.
#[derive(Drop)]
struct Closing {
    found: Found,
    seen: Vec<usize>,
    watchers: Vec<Vec<ClauseNumber>>,
    pending: Vec<ClauseNumber>,
}

/// What follows from the clauses. The only error is running out of memory. Time O(size + clauses + premises): a clause is looked at at
/// most once more than it has premises, each time from the premise on that it waited for.
pub(crate) fn close(alloc: Global, clauses: &Clauses) -> Result<Found, AllocError>
    ensures closure { IfOk result (λ found. IsClosure clauses.now.list found.steps.items) }
    ensures marks { IfOk result (λ found. AreMarks clauses.now.list found.marks.items) }
{
    let list = clauses.as_slice();
    let mut closing = begin(alloc, clauses.size(), list)?;
    while let Some(number) = closing.pending.pop() {
        look_at(list, &mut closing, number)?;
    }
    Ok(closing.found)
}

/// Nothing is found, and each clause is to be looked at.
fn begin(alloc: Global, size: usize, clauses: &[Clause]) -> Result<Closing, AllocError>
    requires { All (NamesBelow size) clauses.now }
    ensures { IfOk result (λ closing. IsClosing clauses.now closing closing.pending.items) }
{
    let marks = vec![in alloc; false; size]?;
    let steps = Vec::new(alloc);
    let seen = vec![in alloc; 0; clauses.len()]?;
    let watchers = no_watchers(alloc, size)?;
    let pending = all_below(alloc, clauses.len())?;
    Ok(Closing {
        found: Found { marks, steps },
        seen,
        watchers,
        pending,
    })
}

/// An empty list for each of so many facts.
fn no_watchers(alloc: Global, size: usize) -> Result<Vec<Vec<ClauseNumber>>, AllocError>
    ensures { IfOk result (λ lists. watchers_of lists.items ≡ replicate size []) }
{
    let mut lists = Vec::new(alloc);
    for _place in 0..size {
        lists.push(Vec::new(alloc))?;
    }
    Ok(lists)
}

/// The numbers of so many clauses.
fn all_below(alloc: Global, count: usize) -> Result<Vec<ClauseNumber>, AllocError>
    ensures length { IfOk result (λ numbers. length numbers.items ≡ count) }
    ensures below { IfOk result (λ numbers. (number : ℕ) → Contains numbers.items number → number < count) }
    ensures all { IfOk result (λ numbers. (number : ℕ) → number < count → Contains numbers.items number) }
{
    let mut numbers = Vec::new(alloc);
    for number in 0..count {
        numbers.push(ClauseNumber::new(number))?;
    }
    Ok(numbers)
}

/// Looks at a clause: if its fact isn't found yet, the clause waits for its first premise that isn't, or gives its fact.
fn look_at(
    clauses: &[Clause],
    closing: &mut Closing,
    number: ClauseNumber,
) -> Result<(), AllocError>
    requires within { number < length clauses.now }
    requires closing { IsClosing clauses.now closing.old (closing.old.pending.items ++ number ∷ []) }
    ensures closing { OnOk result (IsClosing clauses.now closing.new closing.new.pending.items) }
    ensures fewer { OnOk result (turns_left clauses.now closing.new closing.new.pending.items
        < turns_left clauses.now closing.old (closing.old.pending.items ++ number ∷ [])) }
{
    let clause = &clauses[number.index()];
    let fact = clause.fact();
    if closing.found.marks[fact.index()] {
        return Ok(());
    }
    let seen = closing.seen[number.index()];
    let Some(place) = first_unmarked(&closing.found.marks, clause.premises(), seen) else {
        give(closing, number, fact)?;
        return Ok(());
    };
    let premise = clause.premises()[place];
    wait(closing, number, place, premise)?;
    Ok(())
}

/// Lets a clause wait for its premise at a place.
fn wait(
    closing: &mut Closing,
    number: ClauseNumber,
    place: usize,
    premise: FactNumber,
) -> Result<(), AllocError>
    requires number { number < length closing.old.seen.items }
    requires premise { premise < length closing.old.watchers.items }
    ensures found { closing.new.found ≡ closing.old.found }
    ensures pending { closing.new.pending ≡ closing.old.pending }
    ensures seen { closing.new.seen.items ≡ slice_set closing.old.seen.items number place }
    ensures watchers { OnOk result (watchers_of closing.new.watchers.items
        ≡ slice_set (watchers_of closing.old.watchers.items) premise
        (waiting_for (watchers_of closing.old.watchers.items) premise ++ number ∷ [])) }
{
    closing.seen[number.index()] = place;
    closing.watchers[premise.index()].push(number)?;
    Ok(())
}

/// Marks the fact of a clause, and lets those that wait for it be looked at.
fn give(closing: &mut Closing, number: ClauseNumber, fact: FactNumber) -> Result<(), AllocError>
    requires marks { fact < length closing.old.found.marks.items }
    requires watchers { fact < length closing.old.watchers.items }
    ensures marks { OnOk result (closing.new.found.marks.items ≡ slice_set closing.old.found.marks.items fact true) }
    ensures steps { OnOk result (closing.new.found.steps.items ≡ closing.old.found.steps.items ++ number ∷ []) }
    ensures seen { closing.new.seen ≡ closing.old.seen }
    ensures pending { OnOk result (closing.new.pending.items
        ≡ closing.old.pending.items ++ waiting_for (watchers_of closing.old.watchers.items) fact) }
    ensures watchers { OnOk result (watchers_of closing.new.watchers.items
        ≡ slice_set (watchers_of closing.old.watchers.items) fact []) }
{
    closing.found.steps.push(number)?;
    closing.found.marks[fact.index()] = true;
    closing.pending.append(&mut closing.watchers[fact.index()])?;
    Ok(())
}

/// The place of the first premise that isn't marked, where none before `from` is; `None` where all are marked.
fn first_unmarked(marks: &[bool], premises: &[FactNumber], from: usize) -> Option<usize>
    requires below { All (λ premise. premise < length marks.now) premises.now }
    requires before { IsMetBefore marks.now premises.now from }
    ensures first { IfSome result (IsFirstWithout marks.now premises.now) }
    ensures all { IfNone result (IsMet marks.now premises.now) }
{
    for place in from..premises.len() {
        if !marks[premises[place].index()] {
            return Some(place);
        }
    }
    None
}
