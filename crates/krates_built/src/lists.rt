//! Facts that follow, in a list for each kind.
ghost use Rattle.std.specs.Prelude.{◌≡◌, ◌++◌, ◌∷◌, [], IfOk, OnOk, map};
ghost use Rattle.krates_built.specs.FactLists.{AreListsOf, HasAdded};
ghost use Rattle.krates_build_facts.specs.FactModels.{fact_view};

use crate::places::{FeaturePlace, LostPlace, NeedPlace, RunNeedPlace, RunPlace, ScriptPlace};
use krates_build_facts::{BuildFact, UnitPlace};
use std::alloc::{AllocError, Global};

/// What facts say of units, build scripts and their runs, needs, features and what is lost.
#[derive(Drop)]
pub struct Lists<'a> {
    /// The units that are compiled.
    pub units: Vec<UnitPlace>,
    /// The build scripts that are compiled.
    pub scripts: Vec<ScriptPlace>,
    /// The runs of build scripts.
    pub runs: Vec<RunPlace>,
    /// The libraries that are needed.
    pub needs: Vec<NeedPlace>,
    /// The runs of build scripts that others need.
    pub run_needs: Vec<RunNeedPlace>,
    /// The features that are enabled.
    pub features: Vec<FeaturePlace<'a>>,
    /// The dependencies that are lost.
    pub lost: Vec<LostPlace>,
}

/// What these facts say, each list in their order.
pub(crate) fn lists_of<'a>(alloc: Global, facts: &[BuildFact<'a>]) -> Result<Lists<'a>, AllocError>
    ensures { IfOk result (AreListsOf (map fact_view facts.now)) }
{
    let mut lists = Lists {
        units: Vec::new(alloc),
        scripts: Vec::new(alloc),
        runs: Vec::new(alloc),
        needs: Vec::new(alloc),
        run_needs: Vec::new(alloc),
        features: Vec::new(alloc),
        lost: Vec::new(alloc),
    };
    for fact in facts {
        add(&mut lists, fact)?;
    }
    Ok(lists)
}

/// Adds what a fact says.
fn add<'a>(lists: &mut Lists<'a>, fact: &BuildFact<'a>) -> Result<(), AllocError>
    ensures { OnOk result (HasAdded lists.old lists.new (fact_view fact.now)) }
{
    match *fact {
        BuildFact::Compiled(unit) => push(&mut lists.units, unit),
        BuildFact::ScriptCompiled(krate, side) => {
            push(&mut lists.scripts, ScriptPlace { krate, side })
        }
        BuildFact::ScriptRun(krate, placement) => {
            push(&mut lists.runs, RunPlace { krate, placement })
        }
        BuildFact::Needed(link, from, library) => {
            let need = NeedPlace {
                link,
                from,
                library,
            };
            push(&mut lists.needs, need)
        }
        BuildFact::RunNeeded(link, from, run) => {
            push(&mut lists.run_needs, RunNeedPlace { link, from, run })
        }
        BuildFact::ActivatedFeature(krate, side, name) => {
            push(&mut lists.features, FeaturePlace { krate, side, name })
        }
        BuildFact::Lost(krate, index) => push(&mut lists.lost, LostPlace { krate, index }),
        _ => Ok(()),
    }
}

/// Adds a place at the end.
fn push<T: Drop>(places: &mut Vec<T>, place: T) -> Result<(), AllocError>
    ensures { OnOk result (places.new.items ≡ places.old.items ++ place ∷ []) }
{
    places.push(place)?;
    Ok(())
}
