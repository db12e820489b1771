//! The crates that facts say are built.

ghost use Rattle.std.specs.Prelude.{◌≡◌, ◌++◌, ◌∷◌, [], IfOk, List, OnOk, map};
ghost use Rattle.krates_build_facts.specs.FactModels.{FactModel, fact_view};
ghost use Rattle.krates_build_verdict.specs.BuildVerdicts.{HasBuilt, built_by};

use krates_build_facts::BuildFact;
use std::alloc::{AllocError, Global};
use std::collections::BTreeSet;

/// The numbers of the crates that a list of facts says are built. The only error is running out of memory. Time O(n log n).
pub(crate) fn built_crates(
    alloc: Global,
    facts: &[BuildFact<'_>],
) -> Result<BTreeSet<usize>, AllocError>
    ensures { IfOk result (λ krates. HasBuilt krates (map fact_view facts.now)) }
{
    let mut krates = BTreeSet::new(alloc);
    for fact in facts {
        put_built(fact, &mut krates)?;
    }
    Ok(krates)
}

/// Adds the crate of a fact that says one is built.
fn put_built(fact: &BuildFact<'_>, krates: &mut BTreeSet<usize>) -> Result<(), AllocError>
    ensures { OnOk result ((facts : List FactModel)
        → HasBuilt krates.old facts → HasBuilt krates.new (facts ++ fact_view fact.now ∷ [])) }
{
    match built_by(fact) {
        Some(number) => {
            krates.insert(number)?;
        }
        None => {}
    }
    Ok(())
}

/// The number of the crate that a fact says is built: one of its targets is compiled, or its build script is.
fn built_by(fact: &BuildFact<'_>) -> Option<usize>
    ensures { result ≡ built_by (fact_view fact.now) }
{
    match fact {
        BuildFact::Compiled(unit) => Some(unit.target.krate),
        BuildFact::ScriptCompiled(krate, _) => Some(*krate),
        _ => None,
    }
}
