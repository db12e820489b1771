//! Instances of rules, as clauses over the facts that they name.
ghost use Rattle.std.specs.Prelude.{◌≡◌, ◌+◌, ◌^◌, ◌<◌, ◌∷◌, [], IfOk, IfSome, OnOk, map, option_map, slice_get};
ghost use Rattle.krates_build_facts.specs.FactModels.{fact_view};
ghost use Rattle.krates_grounding.specs.Grounding.{AreDistinct, AreNamed, HasNumbered, HasWritten, HaveNumbered, HaveNumbers};
ghost use Rattle.krates_build_facts.specs.Rows.{rule, rule_if};

use krates_build_facts::BuildFact;
use krates_closure::{Clauses, FactNumber};
use std::alloc::{AllocError, Global};
use std::collections::BTreeMap;
use std::marker::Model;

/// Instances of rules, each a clause, and the facts that they name, each at its number.
#[derive(Drop)]
pub(crate) struct Ground<'a> {
    pub(crate) alloc: Global,
    pub(crate) facts: Vec<BuildFact<'a>>,
    pub(crate) numbers: BTreeMap<BuildFact<'a>, usize>,
    pub(crate) clauses: Clauses,
}

impl<'a> Model for Ground<'a> {
    ghost use Rattle.std.specs.Prelude.{map};
    ghost use Rattle.krates_build_facts.specs.FactModels.{fact_view};
    ghost use Rattle.krates_grounding.specs.Grounding.{GroundModel, rule_of};
    ghost use Rattle.krates_grounding.specs.Numbers.{IsGround};

    ghost Value = { GroundModel };

    ghost view = { λ g. record {
      facts = map fact_view g.facts.items;
      rules = map (rule_of (map fact_view g.facts.items)) g.clauses.list;
    } };

    ghost invariant = { λ g. IsGround (map fact_view g.facts.items) g.numbers g.clauses };
}

impl<'a> Ground<'a> {
    /// Nothing yet.
    pub(crate) fn new(alloc: Global) -> Ground<'a>
        ensures { result ≡ record { facts = []; rules = [] } }
    {
        Ground {
            alloc,
            facts: Vec::new(alloc),
            numbers: BTreeMap::new(alloc),
            clauses: Clauses::new(alloc, 0),
        }
    }

    /// What always holds: each fact of each instance has a number, and none has two.
    pub(crate) fn agrees(&self)
        ensures named { AreNamed self.now }
        ensures distinct { AreDistinct self.now.facts }
    {
        let _ = &self.facts;
    }

    /// The fact with a number; `None` where there is none.
    pub(crate) fn fact(&self, number: usize) -> Option<BuildFact<'a>>
        ensures fact { option_map fact_view result ≡ slice_get self.now.facts number }
        ensures below { IfSome result (λ _. number + 1 < 2 ^ 64) }
    {
        self.facts.get(number).copied()
    }

    /// What memory comes from.
    pub(crate) fn alloc(&self) -> Global {
        self.alloc
    }

    /// The number of a fact: the next one, if it has none yet.
    fn number_of(&mut self, fact: BuildFact<'a>) -> Result<FactNumber, AllocError>
        ensures { IfOk result (HasNumbered self.old self.new (fact_view fact.entry)) }
    {
        match self.numbers.get(&fact) {
            Some(number) => return Ok(FactNumber::new(*number)),
            None => {}
        }
        let number = self.facts.len();
        self.facts.push(fact)?;
        match self.numbers.insert(fact, number) {
            Ok(_) => {
                self.clauses.grow(number + 1);
                Ok(FactNumber::new(number))
            }
            Err(_) => {
                drop(self.facts.pop());
                Err(AllocError)
            }
        }
    }

    /// The numbers of facts.
    fn numbers_of(&mut self, facts: &[BuildFact<'a>]) -> Result<Vec<FactNumber>, AllocError>
        ensures { IfOk result (λ numbers. HaveNumbered self.old self.new
            (map fact_view facts.now) numbers.items) }
    {
        let mut numbers = Vec::with_capacity(self.alloc, facts.len())?;
        for fact in facts {
            numbers.push(self.number_of(*fact)?)?;
        }
        Ok(numbers)
    }

    /// Gives numbers to facts that have none yet.
    pub(crate) fn number(&mut self, facts: &[BuildFact<'a>]) -> Result<(), AllocError>
        ensures { OnOk result (HaveNumbers self.old self.new (map fact_view facts.now)) }
    {
        drop(self.numbers_of(facts)?);
        Ok(())
    }

    /// Writes an instance.
    pub(crate) fn write(
        &mut self,
        premises: &[BuildFact<'a>],
        fact: BuildFact<'a>,
    ) -> Result<(), AllocError>
        ensures { OnOk result (HasWritten self.old self.new
            (rule (map fact_view premises.now) (fact_view fact.entry) ∷ [])) }
    {
        let numbers = self.numbers_of(premises)?;
        let number = self.number_of(fact)?;
        drop(self.clauses.push(numbers, number)?);
        Ok(())
    }

    /// Writes an instance if the condition holds.
    pub(crate) fn write_if(
        &mut self,
        condition: bool,
        premises: &[BuildFact<'a>],
        fact: BuildFact<'a>,
    ) -> Result<(), AllocError>
        ensures { OnOk result (HasWritten self.old self.new
            (rule_if condition (map fact_view premises.now) (fact_view fact.entry))) }
    {
        if condition {
            self.write(premises, fact)?;
        }
        Ok(())
    }
}
