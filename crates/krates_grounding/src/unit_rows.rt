//! Instances of the rules of units.
#![tactic(auto, using(crate::proofs::WrittenRules::nothing_written, crate::proofs::WrittenRules::written_behind, crate::proofs::WrittenRules::written_each, crate::proofs::WrittenRules::written_all))]

ghost use Rattle.std.specs.Prelude.{◌≡◌, [], ◌∷◌, ◌++◌, OnOk, map};
ghost use Rattle.std.specs.List.{flat_map};
ghost use Rattle.krates_build_facts.specs.FactModels.{fact_view};
ghost use Rattle.krates_grounding.specs.Grounding.{HasWritten};
ghost use Rattle.krates_build_facts.specs.Rows.{features_side, goes_to, has_kind, host_place, libraries, libraries_of_script, libraries_of_target, libraries_of_unit, library, needed_beside, needed_in_crate, passes, program_beside, requires, unit_of};

use crate::ground::Ground;
use krates_build_facts::{BuildFact, PlacementNumber, PlatformNumber, UnitPlace};
use krates_build_tables::{CrateEntry, Link, Tables, TargetEntry};
use krates_cm::DependencyKind;
use krates_units::{Mode, Side};
use std::alloc::AllocError;

/// The side whose features what is compiled for a side has.
pub(crate) fn features_side(tables: &Tables<'_>, side: Side) -> Side
    ensures { result ≡ features_side tables.now side }
{
    if tables.is_first { Side::Targets } else { side }
}

/// Whether the target text of a link holds on a platform.
pub(crate) fn passes(link: &Link<'_>, platform: PlatformNumber) -> bool
    ensures { result ≡ passes link.now platform }
{
    match platform {
        PlatformNumber::Host => link.passes_on_host,
        PlatformNumber::Machine(number) => match link.passes_on.get(number) {
            Some(answer) => *answer,
            None => false,
        },
    }
}

/// Whether a target has dependencies of a kind, in a mode.
fn has_kind(target: &TargetEntry<'_>, mode: Mode, kind: DependencyKind) -> bool
    ensures { result ≡ has_kind target.now mode kind }
{
    match kind {
        DependencyKind::Normal => true,
        DependencyKind::Development => match mode {
            Mode::Build => target.always_uses_dev,
            Mode::Test => true,
        },
        DependencyKind::Build => false,
    }
}

/// What the build itself runs.
fn host_place() -> PlacementNumber
    ensures { result ≡ host_place }
{
    PlacementNumber {
        platform: PlatformNumber::Host,
        side: Side::Host,
    }
}

/// What a target is compiled for, for what needs it: a procedural macro for the host.
pub(crate) fn goes_to(target: &TargetEntry<'_>, needed: PlacementNumber) -> PlacementNumber
    ensures { result ≡ goes_to target.now needed }
{
    if target.is_macro {
        host_place()
    } else {
        needed
    }
}

/// A target, as itself, for what needs it.
fn unit_of(target: &TargetEntry<'_>, needed: PlacementNumber) -> UnitPlace
    ensures { result ≡ unit_of target.now needed }
{
    UnitPlace {
        target: target.place,
        mode: Mode::Build,
        placement: goes_to(target, needed),
    }
}

/// Writes the libraries of the other crate that something needs over a link.
fn write_libraries<'a>(
    tables: &Tables<'a>,
    premises: &[BuildFact<'a>],
    link: &Link<'a>,
    placement: PlacementNumber,
    ground: &mut Ground<'a>,
) -> Result<(), AllocError>
    ensures { OnOk result (HasWritten ground.old ground.new
        (libraries tables.now (map fact_view premises.now) link.now placement)) }
{
    let Some(child) = tables.entry(link.child) else {
        return Ok(());
    };
    for target in &child.targets {
        ground.write_if(
            target.is_library,
            premises,
            BuildFact::Needed(link.place, placement.platform, unit_of(target, placement)),
        )?;
    }
    Ok(())
}

/// Writes the libraries that a build script needs over a link.
pub(crate) fn write_of_script<'a>(
    tables: &Tables<'a>,
    krate: usize,
    side: Side,
    link: &Link<'a>,
    ground: &mut Ground<'a>,
) -> Result<(), AllocError>
    ensures { OnOk result (HasWritten ground.old ground.new
        (libraries_of_script tables.now krate side link.now)) }
{
    if link.kind != DependencyKind::Build || !link.passes_on_host {
        return Ok(());
    }
    let compiled = BuildFact::ScriptCompiled(krate, side);
    let linked = BuildFact::Linked(link.place);
    if link.is_optional {
        let named = BuildFact::ActivatedName(krate, features_side(tables, side), link.name);
        write_libraries(
            tables,
            &[compiled, linked, named],
            link,
            host_place(),
            ground,
        )
    } else {
        write_libraries(tables, &[compiled, linked], link, host_place(), ground)
    }
}

/// Writes the libraries that a unit needs over a link.
pub(crate) fn write_of_unit<'a>(
    tables: &Tables<'a>,
    entry: &CrateEntry<'a>,
    unit: UnitPlace,
    link: &Link<'a>,
    ground: &mut Ground<'a>,
) -> Result<(), AllocError>
    ensures { OnOk result (HasWritten ground.old ground.new
        (libraries_of_unit tables.now entry.now unit link.now)) }
{
    match entry.target(unit.target.index) {
        Some(target) => write_of_target(tables, unit, link, target, ground),
        None => Ok(()),
    }
}

fn write_of_target<'a>(
    tables: &Tables<'a>,
    unit: UnitPlace,
    link: &Link<'a>,
    target: &TargetEntry<'a>,
    ground: &mut Ground<'a>,
) -> Result<(), AllocError>
    ensures { OnOk result (HasWritten ground.old ground.new
        (libraries_of_target tables.now unit link.now target.now)) }
{
    let placement = unit.placement;
    if !has_kind(target, unit.mode, link.kind) || !passes(link, placement.platform) {
        return Ok(());
    }
    let compiled = BuildFact::Compiled(unit);
    let linked = BuildFact::Linked(link.place);
    if link.is_optional {
        let side = features_side(tables, placement.side);
        let named = BuildFact::ActivatedName(unit.target.krate, side, link.name);
        write_libraries(tables, &[compiled, linked, named], link, placement, ground)
    } else {
        write_libraries(tables, &[compiled, linked], link, placement, ground)
    }
}

/// Writes what a unit needs of the other targets of its crate.
pub(crate) fn write_beside<'a>(
    entry: &CrateEntry<'a>,
    unit: UnitPlace,
    ground: &mut Ground<'a>,
) -> Result<(), AllocError>
    ensures { OnOk result (HasWritten ground.old ground.new (needed_in_crate entry.now unit)) }
{
    let Some(target) = entry.target(unit.target.index) else {
        return Ok(());
    };
    for other in &entry.targets {
        write_one_beside(unit, target, other, ground)?;
    }
    Ok(())
}

/// Adds what a target needs that requires features.
pub(crate) fn require<'a>(
    target: &TargetEntry<'a>,
    premises: &mut Vec<BuildFact<'a>>,
) -> Result<(), AllocError>
    ensures { OnOk result (map fact_view premises.new.items
        ≡ map fact_view premises.old.items ++ requires target.now) }
{
    for text in &target.required {
        premises.push(BuildFact::Available(target.place.krate, text))?;
    }
    Ok(())
}

/// Writes a program of the crate that a unit may run.
fn write_program<'a>(
    unit: UnitPlace,
    program: &TargetEntry<'a>,
    ground: &mut Ground<'a>,
) -> Result<(), AllocError>
    ensures { OnOk result (HasWritten ground.old ground.new (program_beside unit program.now ∷ [])) }
{
    let mut premises = vec![in ground.alloc(); BuildFact::Compiled(unit)]?;
    require(program, &mut premises)?;
    let fact = UnitPlace {
        target: program.place,
        mode: Mode::Build,
        placement: PlacementNumber {
            platform: unit.placement.platform,
            side: Side::Targets,
        },
    };
    ground.write(premises.as_slice(), BuildFact::Compiled(fact))
}

fn write_one_beside<'a>(
    unit: UnitPlace,
    target: &TargetEntry<'a>,
    other: &TargetEntry<'a>,
    ground: &mut Ground<'a>,
) -> Result<(), AllocError>
    ensures { OnOk result (HasWritten ground.old ground.new (needed_beside unit target.now other.now)) }
{
    let compiled = BuildFact::Compiled(unit);
    ground.write_if(
        !target.is_library && other.is_linkable,
        &[compiled],
        BuildFact::Compiled(unit_of(other, unit.placement)),
    )?;
    if unit.mode == Mode::Test && target.may_run_programs && other.is_program {
        write_program(unit, other, ground)?;
    }
    ground.write_if(
        other.is_script,
        &[compiled],
        BuildFact::ScriptRun(unit.target.krate, unit.placement),
    )
}
