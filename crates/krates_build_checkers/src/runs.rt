//! Whether what is sought is among the instances of the rule of runs of build scripts that need each other.
#![tactic(auto, using(crate::proofs::FoundRows::nothing_found, crate::proofs::FoundRows::none_more, crate::proofs::FoundRows::found_at, crate::proofs::FoundRows::none_at_all))]

ghost use Rattle.std.specs.Prelude.{map};
ghost use Rattle.krates_build_facts.specs.FactModels.{fact_view};
ghost use Rattle.krates_build_facts.specs.Rows.{runs_in, runs_of_unit};
ghost use Rattle.krates_build_checkers.specs.Finding.{Finds};

use crate::sought::Sought;
use crate::units::{features_side, goes_to, passes};
use krates_build_facts::{BuildFact, PlacementNumber, UnitPlace};
use krates_build_tables::{CrateEntry, Link, Tables};
use krates_cm::DependencyKind;

/// Whether it is the run of the other crate's build script, from these premises over a link.
fn finds_run<'a>(
    premises: &[BuildFact<'a>],
    link: &Link<'a>,
    placement: PlacementNumber,
    child: &CrateEntry<'a>,
    sought: &Sought<'_, 'a>,
) -> bool
    ensures { Finds result sought.now (runs_in (map fact_view premises.now) link.now placement child.now) }
{
    if !child.links_natively || !child.has_script {
        return false;
    }
    for target in &child.targets {
        let run = BuildFact::RunNeeded(link.place, placement, goes_to(target, placement));
        if sought.is_if(target.is_linkable, premises, run) {
            return true;
        }
    }
    false
}

/// Whether it is a run that the one for a unit needs over a link.
pub(crate) fn finds_of_unit<'a>(
    tables: &Tables<'a>,
    entry: &CrateEntry<'a>,
    unit: UnitPlace,
    link: &Link<'a>,
    sought: &Sought<'_, 'a>,
) -> bool
    ensures { Finds result sought.now (runs_of_unit tables.now entry.now unit link.now) }
{
    if !entry.has_script
        || link.kind != DependencyKind::Normal
        || !passes(link, unit.placement.platform)
    {
        return false;
    }
    let Some(child) = tables.entry(link.child) else {
        return false;
    };
    let compiled = BuildFact::Compiled(unit);
    let linked = BuildFact::Linked(link.place);
    if link.is_optional {
        let side = features_side(tables, unit.placement.side);
        let named = BuildFact::ActivatedName(unit.target.krate, side, link.name);
        finds_run(
            &[compiled, linked, named],
            link,
            unit.placement,
            child,
            sought,
        )
    } else {
        finds_run(&[compiled, linked], link, unit.placement, child, sought)
    }
}
