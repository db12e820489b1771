//! Instances of the rule of the runs of build scripts that others need.
#![tactic(auto, using(crate::proofs::WrittenRules::nothing_written, crate::proofs::WrittenRules::written_behind, crate::proofs::WrittenRules::written_each, crate::proofs::WrittenRules::written_all))]

ghost use Rattle.std.specs.Prelude.{◌≡◌, OnOk, map};
ghost use Rattle.krates_build_facts.specs.FactModels.{fact_view};
ghost use Rattle.krates_build_facts.specs.Rows.{runs_in, runs_of_unit};
ghost use Rattle.krates_grounding.specs.Grounding.{HasWritten};

use crate::ground::Ground;
use crate::unit_rows::{features_side, goes_to, passes};
use krates_build_facts::{BuildFact, PlacementNumber, UnitPlace};
use krates_build_tables::{CrateEntry, Link, Tables};
use krates_cm::DependencyKind;
use std::alloc::AllocError;

/// Writes the runs that the run for a unit needs over a link.
pub(crate) fn write_of_unit<'a>(
    tables: &Tables<'a>,
    entry: &CrateEntry<'a>,
    unit: UnitPlace,
    link: &Link<'a>,
    ground: &mut Ground<'a>,
) -> Result<(), AllocError>
    ensures { OnOk result (HasWritten ground.old ground.new
        (runs_of_unit tables.now entry.now unit link.now)) }
{
    let placement = unit.placement;
    if !entry.has_script
        || link.kind != DependencyKind::Normal
        || !passes(link, placement.platform)
    {
        return Ok(());
    }
    let Some(child) = tables.entry(link.child) else {
        return Ok(());
    };
    let compiled = BuildFact::Compiled(unit);
    let linked = BuildFact::Linked(link.place);
    if link.is_optional {
        let side = features_side(tables, placement.side);
        let named = BuildFact::ActivatedName(unit.target.krate, side, link.name);
        write_runs(&[compiled, linked, named], link, placement, child, ground)
    } else {
        write_runs(&[compiled, linked], link, placement, child, ground)
    }
}

/// Writes those for the libraries of the other crate, if its build script is for a native library.
fn write_runs<'a>(
    premises: &[BuildFact<'a>],
    link: &Link<'a>,
    placement: PlacementNumber,
    child: &CrateEntry<'a>,
    ground: &mut Ground<'a>,
) -> Result<(), AllocError>
    ensures { OnOk result (HasWritten ground.old ground.new
        (runs_in (map fact_view premises.now) link.now placement child.now)) }
{
    if !child.links_natively || !child.has_script {
        return Ok(());
    }
    for target in &child.targets {
        ground.write_if(
            target.is_linkable,
            premises,
            BuildFact::RunNeeded(link.place, placement, goes_to(target, placement)),
        )?;
    }
    Ok(())
}
