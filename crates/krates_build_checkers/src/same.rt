//! Facts and lists of facts that are the same.
ghost use Rattle.std.specs.Prelude.{◌≡◌, ◌↔◌, ◌++◌, IsTrue, map};
ghost use Rattle.krates_build_facts.specs.FactModels.{Available, fact_view};
ghost use Rattle.krates_build_facts.specs.Rows.{requires};

use krates_build_facts::BuildFact;
use krates_build_tables::TargetEntry;

/// Whether two facts are the same.
pub(crate) fn is_same<'a>(fact: &BuildFact<'a>, other: &BuildFact<'a>) -> bool
    ensures { IsTrue result ↔ (fact_view fact.now ≡ fact_view other.now) }
{
    fact.cmp(other).is_eq()
}

/// Whether two lists of facts are the same.
pub(crate) fn are_same<'a>(facts: &[BuildFact<'a>], others: &[BuildFact<'a>]) -> bool
    ensures { IsTrue result ↔ (map fact_view facts.now ≡ map fact_view others.now) }
{
    if facts.len() != others.len() {
        return false;
    }
    for (number, fact) in facts.iter().enumerate() {
        if !is_same(fact, &others[number]) {
            return false;
        }
    }
    true
}

/// Whether these facts say that these texts are available to a crate.
fn are_required<'a>(facts: &[BuildFact<'a>], krate: usize, texts: &[&'a str]) -> bool
    ensures { IsTrue result ↔ (map (λ text. Available krate text.now) texts.now ≡ map fact_view facts.now) }
{
    if facts.len() != texts.len() {
        return false;
    }
    for (number, text) in texts.iter().enumerate() {
        if !is_same(&BuildFact::Available(krate, text), &facts[number]) {
            return false;
        }
    }
    true
}

/// Whether these facts are the first ones, and then what a target needs that requires features.
pub(crate) fn are_same_requiring<'a>(
    facts: &[BuildFact<'a>],
    first: &[BuildFact<'a>],
    target: &TargetEntry<'a>,
) -> bool
    ensures { IsTrue result ↔ (map fact_view first.now ++ requires target.now ≡ map fact_view facts.now) }
{
    let count = first.len();
    if facts.len() < count {
        return false;
    }
    are_same(first, &facts[..count])
        && are_required(&facts[count..], target.place.krate, &target.required)
}
