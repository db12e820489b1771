//! Facts that are given, as a set.
ghost use Rattle.std.specs.Prelude.{◌↔◌, ◌++◌, ◌∷◌, [], All, Contains, IfOk, IsTrue, List, OnOk, map};
ghost use Rattle.krates_build_facts.specs.FactModels.{Available, FactModel, fact_view};
ghost use Rattle.krates_build_checkers.specs.GivenFacts.{HasFacts, facts_of_set};

use krates_build_facts::BuildFact;
use std::alloc::{AllocError, Global};
use std::collections::BTreeSet;

/// Whether all these facts are given.
pub(crate) fn are_given<'a>(given: &BTreeSet<BuildFact<'a>>, facts: &[BuildFact<'a>]) -> bool
    ensures { IsTrue result ↔ All (Contains (facts_of_set given.now)) (map fact_view facts.now) }
{
    for fact in facts {
        if !given.contains(fact) {
            return false;
        }
    }
    true
}

/// Whether all these texts are given as available to a crate.
pub(crate) fn are_available<'a>(
    given: &BTreeSet<BuildFact<'a>>,
    krate: usize,
    texts: &[&'a str],
) -> bool
    ensures { IsTrue result ↔ All (Contains (facts_of_set given.now))
        (map (λ text. Available krate text.now) texts.now) }
{
    for text in texts {
        if !given.contains(&BuildFact::Available(krate, text)) {
            return false;
        }
    }
    true
}

/// Adds a fact to those that are given.
pub(crate) fn add<'a>(
    fact: BuildFact<'a>,
    given: &mut BTreeSet<BuildFact<'a>>,
) -> Result<(), AllocError>
    ensures { OnOk result ((facts : List FactModel) → HasFacts given.old facts
        → HasFacts given.new (facts ++ fact_view fact.entry ∷ [])) }
{
    given.insert(fact)?;
    Ok(())
}

/// The facts of a list.
pub(crate) fn set_of<'a>(
    alloc: Global,
    facts: &[BuildFact<'a>],
) -> Result<BTreeSet<BuildFact<'a>>, AllocError>
    ensures { IfOk result (λ given. HasFacts given (map fact_view facts.now)) }
{
    let mut given = BTreeSet::new(alloc);
    for fact in facts {
        add(*fact, &mut given)?;
    }
    Ok(given)
}
