//! The closure of clauses.
ghost use Rattle.std.specs.Prelude.{◌≡◌, ◌↔◌, IfNone, IfOk, IfSome, IsTrue};
ghost use Rattle.krates_closure.specs.Closure.{ClosureModel, Derivable, IsClosure, IsDerivationOf};
ghost use Rattle.krates_closure.specs.Marks.{AreMarks};

use crate::clause_number::ClauseNumber;
use crate::clauses::Clauses;
use crate::closing;
use crate::fact_number::FactNumber;
use crate::needed::needed_steps;
use std::alloc::{AllocError, Global};
use std::marker::Model;

/// What follows from clauses, which it keeps: which facts are derivable, and steps that derive them.
#[derive(Debug, Drop)]
pub struct Closure {
    clauses: Clauses,
    marks: Vec<bool>,
    steps: Vec<ClauseNumber>,
}

impl Model for Closure {
    ghost Value = { ClosureModel };

    ghost view = { λ closure. record { clauses = closure.clauses; steps = closure.steps.items } };

    ghost invariant = { λ closure. IsClosure closure.clauses.list closure.steps.items × AreMarks closure.clauses.list closure.marks.items };
}

impl Closure {
    /// What follows from these clauses. The only error is running out of memory; the clauses are let go then.
    /// Time O(size + clauses + premises).
    ///
    /// ```text
    /// let closure = Closure::of(alloc, clauses)?;
    /// println!(rt; "{} facts hold", closure.steps().len())?;
    /// ```
    pub fn of(alloc: Global, clauses: Clauses) -> Result<Closure, AllocError>
        ensures { IfOk result (λ closure. closure.clauses ≡ clauses) }
    {
        let found = closing::close(alloc, &clauses)?;
        Ok(Closure {
            clauses,
            marks: found.marks,
            steps: found.steps,
        })
    }

    /// Whether a fact is derivable; one that the clauses may not name isn't. Time O(1).
    ///
    /// ```text
    /// assert!(rt; closure.holds(b)); // a holds, and where a holds, so does b
    /// ```
    pub fn holds(&self, fact: FactNumber) -> bool
        ensures { IsTrue result ↔ Derivable self.now.clauses.list fact }
    {
        match self.marks.get(fact.index()) {
            Some(mark) => *mark,
            None => false,
        }
    }

    /// A derivation of all derivable facts: for each, the number of one clause that gives it. Each comes after those that give its
    /// premises; no other order is promised. Time O(1).
    ///
    /// ```text
    /// for &step in closure.steps() {
    ///     if let Some(clause) = closure.clauses().clause(step) {
    ///         println!(rt; "{} follows", clause.fact().index())?;
    ///     }
    /// }
    /// ```
    pub fn steps(&self) -> &[ClauseNumber]
        ensures steps { result.now ≡ self.now.steps }
        ensures closure { IsClosure self.now.clauses.list result.now }
    {
        &self.steps
    }

    /// A derivation of one fact: what its steps give is the fact itself, or what another of them needs. `None` where the fact isn't
    /// derivable. The only error is running out of memory. Time O(size + steps + premises).
    ///
    /// ```text
    /// if let Some(steps) = closure.derivation(alloc, b)? {
    ///     println!(rt; "b follows in {} steps", steps.len())?;
    /// }
    /// ```
    pub fn derivation(
        &self,
        alloc: Global,
        fact: FactNumber,
    ) -> Result<Option<Vec<ClauseNumber>>, AllocError>
        ensures found { IfOk result (λ found. IfSome found (λ steps.
            IsDerivationOf self.now.clauses.list steps.items fact)) }
        ensures none { IfOk result (λ found. IfNone found (¬ Derivable self.now.clauses.list fact)) }
    {
        if !self.holds(fact) {
            return Ok(None);
        }
        let steps = needed_steps(alloc, &self.clauses, &self.steps, fact)?;
        Ok(Some(steps))
    }

    /// The clauses, as they were given. Time O(1).
    pub fn clauses(&self) -> &Clauses
        ensures { result.now ≡ self.now.clauses }
    {
        &self.clauses
    }
}
