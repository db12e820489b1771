//! Steps by the numbers of the kept crates, and the derivation of one fact from them, with ids.

ghost use Rattle.std.specs.Prelude.{◌≡◌, ◌↔◌, IsTrue, ◌<◌, All, IfOk, length, Contains};
ghost use Rattle.krates_selection.specs.KeptFacts.{TellsStep, kept_view, subject_view, AreBelow, HasTheseIds, IsDerivationOf, IsExplanation, explained_steps, kids_of, uses_in, facts_in, IsBelow, fact_in};
ghost use Rattle.krates_rules.specs.StepViews.{facts_view, steps_view, fact_view};
ghost use Rattle.krates_selection.specs.PartOfSteps.{ArePicked};
ghost use Rattle.krates_document.specs.CrateTable.{lent_to};
ghost use Rattle.krates_selection.specs.Selection.{id_at};
ghost use Rattle.krates_rules.specs.Resolved.{id_of};
ghost use Rattle.krates_rules.specs.Uses.{numbers_used};

use crate::part_of_steps::{PartOfSteps, part_for};
use krates_ids::Kid;
use krates_rules::{DepKind, Derivation, Fact, Step, Uses};
use std::alloc::{AllocError, Global};

/// A fact. Crates are given by their numbers: the places of their ids among those of all kept crates, in order.
#[derive(Debug, Drop)]
pub enum KeptFact {
    /// The crate is kept.
    Crate {
        /// The crate.
        krate: usize,
    },
    /// The feature of the crate is enabled.
    Feature {
        /// The crate.
        krate: usize,
        /// The name of the feature.
        name: String,
    },
    /// The edge is kept.
    Kept {
        /// The crate that has the dependency.
        parent: usize,
        /// The crate that it depends on.
        child: usize,
        /// For what it is needed.
        kind: DepKind,
        /// The target that it is needed for, as the document writes it.
        cfg: Option<String>,
    },
    /// A feature of a crate enables a feature of another.
    Toggled {
        /// The crate whose feature enables it.
        by: usize,
        /// The crate whose feature it is.
        krate: usize,
        /// The name of the feature.
        name: String,
    },
}

/// A step: a fact, and why it follows.
#[derive(Debug, Drop)]
pub struct KeptStep {
    /// The fact.
    pub fact: KeptFact,
    /// The number of the rule.
    pub rule: u8,
    /// The steps whose facts are the premises of the rule.
    pub uses: Uses,
}

/// The kept crates, and the steps by which they and all else is kept, lent by whoever has them.
#[derive(Clone, Copy, Debug)]
pub struct Explanation<'a, 's> {
    /// The ids of the kept crates, by number.
    pub kids: &'s [&'a Kid],
    /// The steps, each behind those that it uses.
    pub steps: &'s [KeptStep],
}

/// What a step is looked for of.
#[derive(Clone, Copy, Debug)]
pub enum CrateOrFeature<'a> {
    /// The crate of the number.
    Crate(usize),
    /// The feature of this name of the crate of the number.
    Feature(usize, &'a str),
}

/// The number of the step that says that the crate is kept, or the feature enabled; none where no step does.
///
/// Time: O(n).
pub fn step_of(steps: &[KeptStep], subject: &CrateOrFeature<'_>) -> Option<usize>
    ensures { TellsStep steps.now (subject_view subject.now) result }
{
    for (number, step) in steps.iter().enumerate() {
        if says(&step.fact, subject) {
            return Some(number);
        }
    }
    None
}

/// Whether the fact is that the crate is kept, or the feature enabled.
fn says(fact: &KeptFact, subject: &CrateOrFeature<'_>) -> bool
    ensures { IsTrue result ↔ (kept_view fact.now ≡ subject_view subject.now) }
{
    match (fact, subject) {
        (KeptFact::Crate { krate }, CrateOrFeature::Crate(number)) => *krate == *number,
        (KeptFact::Feature { krate, name }, CrateOrFeature::Feature(number, text)) => {
            *krate == *number && name.as_str() == *text
        }
        _ => false,
    }
}

impl<'a, 's> Explanation<'a, 's> {
    /// The derivation of the fact of the step with this number: of all steps those on which it depends, and itself at the end.
    ///
    /// The only error is running out of memory. Time: O(n) for n steps.
    pub fn derivation_of(&self, alloc: Global, number: usize) -> Result<Derivation, AllocError>
        requires explanation { IsExplanation self.now }
        requires within { number < length self.now.steps.now }
        ensures { IfOk result (λ d. IsDerivationOf self.now number d.steps.items) }
    {
        krates_rules::laws::parts_follow();
        let uses = self.uses(alloc)?;
        let part = part_for(alloc, &uses, number)?;
        let steps = self.picked(alloc, &part)?;
        Ok(Derivation { steps })
    }

    /// What each step uses.
    fn uses(&self, alloc: Global) -> Result<Vec<Uses>, AllocError>
        ensures { IfOk result (λ uses. uses.items ≡ uses_in self.now.steps.now) }
    {
        self.steps.iter().map(|step| step.uses).collect(alloc)
    }

    /// The steps of a part, with ids.
    fn picked(&self, alloc: Global, part: &PartOfSteps) -> Result<Vec<Step>, AllocError>
        requires below { AreBelow (length (kids_of self.now)) self.now.steps.now }
        requires matched { length part.now.uses.items ≡ length part.now.chosen.items }
        requires within { All (λ n. n < length self.now.steps.now) part.now.chosen.items }
        ensures picked { IfOk result (λ steps. ArePicked (explained_steps self.now)
            part.now.chosen.items part.now.uses.items (steps_view steps.items)) }
        ensures ids { IfOk result
            (λ steps. All (λ x. HasTheseIds (kids_of self.now) x.fact) steps.items) }
    {
        let mut steps = Vec::new(alloc);
        for (place, number) in part.chosen.iter().enumerate() {
            let step = &self.steps[*number];
            steps.push(Step {
                rule: step.rule,
                fact: told(self.kids, &step.fact)?,
                uses: used(alloc, part.uses[place])?,
            })?;
        }
        Ok(steps)
    }

    /// The facts of the steps, with ids.
    ///
    /// The only error is running out of memory. Time: O(n).
    pub fn facts(&self, alloc: Global) -> Result<Vec<Fact>, AllocError>
        requires { AreBelow (length (kids_of self.now)) self.now.steps.now }
        ensures facts { IfOk result (λ facts. facts_view facts.items ≡ facts_in (explained_steps self.now)) }
        ensures ids { IfOk result (λ facts. All (HasTheseIds (kids_of self.now)) facts.items) }
    {
        let mut facts = Vec::new(alloc);
        for step in self.steps {
            facts.push(told(self.kids, &step.fact)?)?;
        }
        Ok(facts)
    }
}

/// The fact, with the ids of its crates.
pub(crate) fn told(kids: &[&Kid], fact: &KeptFact) -> Result<Fact, AllocError>
    requires { IsBelow (length (lent_to kids.now)) (kept_view fact.now) }
    ensures fact { IfOk result (λ told. fact_view told ≡ fact_in (lent_to kids.now) (kept_view fact.now)) }
    ensures ids { IfOk result (HasTheseIds (lent_to kids.now)) }
{
    match fact {
        KeptFact::Crate { krate } => Ok(Fact::Crate(kid_at(kids, *krate)?)),
        KeptFact::Feature { krate, name } => {
            Ok(Fact::Feature {
                krate: kid_at(kids, *krate)?,
                name: name.clone()?,
            })
        }
        KeptFact::Kept {
            parent,
            child,
            kind,
            cfg,
        } => {
            Ok(Fact::Kept {
                parent: kid_at(kids, *parent)?,
                child: kid_at(kids, *child)?,
                kind: *kind,
                cfg: cfg.clone()?,
            })
        }
        KeptFact::Toggled { by, krate, name } => {
            Ok(Fact::Toggled {
                parent: kid_at(kids, *by)?,
                child: kid_at(kids, *krate)?,
                name: name.clone()?,
            })
        }
    }
}

/// A copy of the id of a crate.
fn kid_at(kids: &[&Kid], number: usize) -> Result<Kid, AllocError>
    requires { number < length (lent_to kids.now) }
    ensures id { IfOk result (λ kid. id_of kid ≡ id_at (lent_to kids.now) number) }
    ensures among { IfOk result (Contains (lent_to kids.now)) }
{
    kids[number].clone()
}

/// The numbers of the steps that a step uses, in the order of the rule.
pub(crate) fn used(alloc: Global, uses: Uses) -> Result<Vec<usize>, AllocError>
    ensures { IfOk result (λ numbers. numbers.items ≡ numbers_used uses) }
{
    let mut numbers = Vec::new(alloc);
    if let Some(first) = uses.first {
        numbers.push(first)?;
    }
    if let Some(second) = uses.second {
        numbers.push(second)?;
    }
    Ok(numbers)
}
