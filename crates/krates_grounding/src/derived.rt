//! What follows from the tables of a document and a build.
ghost use Rattle.std.specs.Prelude.{◌≡◌, All, Contains, IfNone, IfOk, IfSome, IsTrue, length, map};
ghost use Rattle.std.specs.List.Sorted.{IsStrictlySortedBy};
ghost use Rattle.krates_build_facts.specs.FactModels.{FactModel, fact_view};
ghost use Rattle.krates_grounding.specs.Grounding.{AreToldUpTo};
ghost use Rattle.krates_build_facts.specs.Mattering.{MayMatter};
ghost use Rattle.krates_build_facts.specs.Meanings.{Follows};
ghost use Rattle.krates_build_facts.specs.FactOrder.{fact_cmp};
ghost use Rattle.krates_build_facts.specs.Steps.{AreStepsTo, step_view};

use crate::ground::Ground;
use crate::grounding::grounded;
use crate::steps::steps_of;
use krates_build_facts::{BuildFact, BuildStep};
use krates_build_tables::Tables;
use krates_closure::{Closure, FactNumber};
use krates_document::sorted::in_order;
use std::alloc::{AllocError, Global};
use std::collections::BTreeMap;
use std::marker::Model;

/// What follows from tables, which it keeps: each fact that has a derivation by the instances of the rules that they have.
#[derive(Drop)]
pub struct Derived<'a> {
    tables: Tables<'a>,
    facts: Vec<BuildFact<'a>>,
    numbers: BTreeMap<BuildFact<'a>, usize>,
    closure: Closure,
}

impl<'a> Model for Derived<'a> {
    ghost use Rattle.std.specs.Prelude.{map};
    ghost use Rattle.krates_build_tables.specs.declared.tables.Tables.{Tables};
    ghost use Rattle.krates_build_facts.specs.FactModels.{fact_view};
    ghost use Rattle.krates_grounding.specs.Numbers.{AreDerived};
    ghost use Rattle.std.specs.Coded.{codes};
    ghost use Rattle.krates_build_tables.specs.contracts.tables.Tables as told;
    ghost use Rattle.krates_grounding.specs.Numbers.{at_any};

    ghost Value = { Tables };

    ghost coded = { Prim.hlevel (codes, (told.the_row at_any).coded) };

    ghost view = { λ d. d.tables };

    ghost invariant = { λ d. AreDerived d.tables (map fact_view d.facts.items) d.numbers d.closure.clauses };
}

impl<'a> Derived<'a> {
    /// What follows from these tables. The only error is running out of memory; the tables are let go then.
    ///
    /// Time O(n log n) for n instances of rules that begin with facts that may follow.
    ///
    /// ```text
    /// let derived = Derived::of(alloc, tables)?;
    /// ```
    pub fn of(alloc: Global, tables: Tables<'a>) -> Result<Derived<'a>, AllocError>
        ensures { IfOk result (λ derived. derived ≡ tables.entry) }
    {
        let ground = grounded(alloc, &tables)?;
        let Ground {
            alloc: _,
            facts,
            numbers,
            clauses,
        } = ground;
        let closure = Closure::of(alloc, clauses)?;
        Ok(Derived {
            tables,
            facts,
            numbers,
            closure,
        })
    }

    /// The tables. Time O(1).
    pub fn tables(&self) -> &Tables<'a>
        ensures { result.now ≡ self.now }
    {
        &self.tables
    }

    /// Whether a fact follows. That a text is available is told only of texts that a target requires, since any may be asked for; of others
    /// the answer may be no. Time O(log n) in the facts that may follow.
    ///
    /// ```text
    /// let is_met = derived.holds(&BuildFact::Met(0, Meeting::Root));
    /// ```
    pub fn holds(&self, fact: &BuildFact<'a>) -> bool
        ensures sound { IsTrue result → Follows self.now (fact_view fact.now) }
        ensures complete { MayMatter self.now (fact_view fact.now)
            → Follows self.now (fact_view fact.now) → IsTrue result }
    {
        match self.numbers.get(fact) {
            Some(number) => self.closure.holds(FactNumber::new(*number)),
            None => false,
        }
    }

    /// All facts that follow, in ascending order, each once. That a text is available is told as `holds` tells it. `check_built_closed` of
    /// `krates_build_checkers` accepts this list. The only error is running out of memory. Time O(n log n) in the facts that may follow.
    ///
    /// ```text
    /// for fact in derived.facts(alloc)? {
    ///     println!(rt; "{fact:?}")?;
    /// }
    /// ```
    pub fn facts(&self, alloc: Global) -> Result<Vec<BuildFact<'a>>, AllocError>
        ensures sound { IfOk result (λ facts. All (Follows self.now) (map fact_view facts.items)) }
        ensures complete { IfOk result (λ facts. (f : FactModel) → MayMatter self.now f → Follows self.now f
            → Contains (map fact_view facts.items) f) }
        ensures ordered { IfOk result (λ facts. IsStrictlySortedBy fact_cmp facts.items) }
    {
        let told = holding(alloc, &self.facts, &self.closure)?;
        let sorted = in_order(told)?;
        Ok(sorted)
    }

    /// Why a fact follows: steps, each after those that give what it follows from. What they give is the fact itself, or what another of
    /// them needs. Each step is one rule of what cargo builds (`krates_build_facts::laws::steps`). `None` where the fact doesn't follow;
    /// that a text is available is told as `holds` tells it. The only error is running out of memory. Time O(n) in the facts that may
    /// follow, their instances and premises.
    ///
    /// ```text
    /// if let Some(steps) = derived.why(alloc, &BuildFact::Met(0, Meeting::Root))? {
    ///     println!(rt; "met in {} steps", steps.len())?;
    /// }
    /// ```
    pub fn why(
        &self,
        alloc: Global,
        fact: &BuildFact<'a>,
    ) -> Result<Option<Vec<BuildStep<'a>>>, AllocError>
        ensures steps { IfOk result (λ found. IfSome found (λ steps.
            AreStepsTo self.now (map step_view steps.items) (fact_view fact.now))) }
        ensures none { IfOk result (λ found. IfNone found
            (MayMatter self.now (fact_view fact.now) → ¬ Follows self.now (fact_view fact.now))) }
    {
        let Some(number) = self.numbers.get(fact) else {
            return Ok(None);
        };
        let Some(numbers) = self.closure.derivation(alloc, FactNumber::new(*number))? else {
            return Ok(None);
        };
        let clauses = self.closure.clauses().as_slice();
        let steps = steps_of(alloc, &self.facts, clauses, &numbers)?;
        Ok(Some(steps))
    }
}

/// Those of these facts that hold by their numbers, which are their places.
fn holding<'a>(
    alloc: Global,
    facts: &[BuildFact<'a>],
    closure: &Closure,
) -> Result<Vec<BuildFact<'a>>, AllocError>
    ensures { IfOk result (λ told. AreToldUpTo closure.now.clauses.list (map fact_view facts.now)
        (map fact_view told.items) (length facts.now)) }
{
    let mut told = Vec::new(alloc);
    for (number, fact) in facts.iter().enumerate() {
        if closure.holds(FactNumber::new(number)) {
            told.push(*fact)?;
        }
    }
    Ok(told)
}
