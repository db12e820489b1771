//! What is looked for among the instances of rules.
ghost use Rattle.std.specs.Prelude.{◌≡◌, ◌↔◌, ◌++◌, ◌∷◌, [], IsTrue, false, map, true};
ghost use Rattle.krates_build_facts.specs.FactModels.{fact_view};
ghost use Rattle.krates_build_facts.specs.Rows.{requires, rule, rule_if};
ghost use Rattle.krates_build_facts.specs.Steps.{step_view};
ghost use Rattle.krates_build_checkers.specs.Finding.{Finds};
ghost use Rattle.krates_build_checkers.specs.GivenFacts.{IsKept, IsOpen, facts_of_set};

use crate::given::{are_available, are_given};
use crate::same::{are_same, are_same_requiring, is_same};
use krates_build_facts::{BuildFact, BuildStep};
use krates_build_tables::TargetEntry;
use std::collections::BTreeSet;

/// What is looked for among the instances of rules.
#[derive(Clone, Copy)]
pub(crate) enum Sought<'s, 'a> {
    /// The instance that a step is.
    Step(&'s BuildStep<'a>),
    /// One whose premises are among these facts, and whose fact isn't.
    Open(&'s BTreeSet<BuildFact<'a>>),
}

impl<'a> Sought<'_, 'a> {
    /// Whether an instance is sought.
    pub(crate) fn is(&self, premises: &[BuildFact<'a>], fact: BuildFact<'a>) -> bool
        ensures { Finds result self.now (rule (map fact_view premises.now) (fact_view fact.entry) ∷ []) }
    {
        match *self {
            Sought::Step(step) => is_step(step, premises, &fact),
            Sought::Open(given) => is_open(given, premises, &fact),
        }
    }

    /// Whether an instance is sought, and the condition holds.
    pub(crate) fn is_if(
        &self,
        condition: bool,
        premises: &[BuildFact<'a>],
        fact: BuildFact<'a>,
    ) -> bool
        ensures { Finds result self.now (rule_if condition (map fact_view premises.now)
            (fact_view fact.entry)) }
    {
        condition && self.is(premises, fact)
    }

    /// Whether an instance is sought whose last premises are what a target needs that requires features.
    pub(crate) fn is_requiring(
        &self,
        premises: &[BuildFact<'a>],
        target: &TargetEntry<'a>,
        fact: BuildFact<'a>,
    ) -> bool
        ensures { Finds result self.now (rule (map fact_view premises.now ++ requires target.now)
            (fact_view fact.entry) ∷ []) }
    {
        match *self {
            Sought::Step(step) => is_step_requiring(step, premises, target, &fact),
            Sought::Open(given) => is_open_requiring(given, premises, target, &fact),
        }
    }
}

/// Whether a step is this instance.
fn is_step<'a>(step: &BuildStep<'a>, premises: &[BuildFact<'a>], fact: &BuildFact<'a>) -> bool
    ensures { IsTrue result ↔ (rule (map fact_view premises.now) (fact_view fact.now) ≡ step_view step.now) }
{
    is_same(fact, &step.fact) && are_same(premises, &step.premises)
}

/// Whether a step is this instance, whose last premises are what a target needs that requires features.
fn is_step_requiring<'a>(
    step: &BuildStep<'a>,
    premises: &[BuildFact<'a>],
    target: &TargetEntry<'a>,
    fact: &BuildFact<'a>,
) -> bool
    ensures { IsTrue result ↔ (rule (map fact_view premises.now ++ requires target.now)
        (fact_view fact.now) ≡ step_view step.now) }
{
    is_same(fact, &step.fact) && are_same_requiring(&step.premises, premises, target)
}

/// Whether the premises of this instance are among these facts, and its fact isn't.
fn is_open<'a>(
    given: &BTreeSet<BuildFact<'a>>,
    premises: &[BuildFact<'a>],
    fact: &BuildFact<'a>,
) -> bool
    ensures open { result ≡ true → IsOpen (facts_of_set given.now)
        (rule (map fact_view premises.now) (fact_view fact.now)) }
    ensures kept { result ≡ false → IsKept (facts_of_set given.now)
        (rule (map fact_view premises.now) (fact_view fact.now)) }
{
    if given.contains(fact) {
        return false;
    }
    are_given(given, premises)
}

/// Whether the premises of this instance, the last of which are what a target needs that requires features, are among these facts, and its
/// fact isn't.
fn is_open_requiring<'a>(
    given: &BTreeSet<BuildFact<'a>>,
    premises: &[BuildFact<'a>],
    target: &TargetEntry<'a>,
    fact: &BuildFact<'a>,
) -> bool
    ensures open { result ≡ true → IsOpen (facts_of_set given.now)
        (rule (map fact_view premises.now ++ requires target.now) (fact_view fact.now)) }
    ensures kept { result ≡ false → IsKept (facts_of_set given.now)
        (rule (map fact_view premises.now ++ requires target.now) (fact_view fact.now)) }
{
    if given.contains(fact) {
        return false;
    }
    are_given(given, premises) && are_available(given, target.place.krate, &target.required)
}
