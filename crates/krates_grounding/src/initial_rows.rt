//! The instances of the rules that use no fact, and those of what is asked for, which a build begins with.
#![tactic(auto, using(crate::proofs::WrittenRules::nothing_written, crate::proofs::WrittenRules::written_behind, crate::proofs::WrittenRules::written_each, crate::proofs::WrittenRules::written_all))]

ghost use Rattle.std.specs.Prelude.{◌≡◌, OnOk, true};
ghost use Rattle.std.specs.List.{flat_map, range_with_len};
ghost use Rattle.krates_build_tables.specs.References.{reference_view};
ghost use Rattle.krates_grounding.specs.Grounding.{HasWritten};
ghost use Rattle.krates_build_facts.specs.InitialRows.{asked_for_machine, asked_in, asked_rows, initial_in, initial_rows, machine_place, requested, root_alone};

use crate::ground::Ground;
use crate::unit_rows::{goes_to, require};
use krates_build_facts::{BuildFact, PlacementNumber, PlatformNumber, UnitPlace};
use krates_build_tables::{CrateEntry, FeatureReference, Tables, TargetEntry};
use krates_units::{Meeting, Mode, Side};
use std::alloc::AllocError;

/// Writes what a build begins with. The only error is running out of memory.
pub(crate) fn write_initial<'a>(
    tables: &Tables<'a>,
    ground: &mut Ground<'a>,
) -> Result<(), AllocError>
    ensures { OnOk result (HasWritten ground.old ground.new (initial_rows tables.now)) }
{
    for entry in &tables.crates {
        write_of_crate(tables.machines.len(), entry, ground)?;
    }
    Ok(())
}

/// Writes what a build begins with of a crate.
fn write_of_crate<'a>(
    machines: usize,
    entry: &CrateEntry<'a>,
    ground: &mut Ground<'a>,
) -> Result<(), AllocError>
    ensures { OnOk result (HasWritten ground.old ground.new (initial_in machines entry.now)) }
{
    if entry.is_root {
        write_root(entry, ground)?;
        write_all_requested(entry, ground)?;
    }
    if entry.is_selected {
        write_asked(machines, entry, ground)?;
    }
    Ok(())
}

/// Writes a root, by itself.
fn write_root<'a>(entry: &CrateEntry<'a>, ground: &mut Ground<'a>) -> Result<(), AllocError>
    ensures { OnOk result (HasWritten ground.old ground.new (root_alone entry.now)) }
{
    let number = entry.number;
    ground.write(&[], BuildFact::Met(number, Meeting::Root))?;
    ground.write(&[], BuildFact::Activated(number, Side::Targets))?;
    ground.write_if(
        entry.starts_on_host,
        &[],
        BuildFact::Activated(number, Side::Host),
    )
}

/// Writes all that is requested of a root.
fn write_all_requested<'a>(
    entry: &CrateEntry<'a>,
    ground: &mut Ground<'a>,
) -> Result<(), AllocError>
    ensures { OnOk result (HasWritten ground.old ground.new
        (flat_map (λ v. requested entry.now (reference_view v)) entry.now.requested.items)) }
{
    for reference in &entry.requested {
        write_requested(entry, *reference, ground)?;
    }
    Ok(())
}

/// Writes what is requested of a root.
fn write_requested<'a>(
    entry: &CrateEntry<'a>,
    reference: FeatureReference<'a>,
    ground: &mut Ground<'a>,
) -> Result<(), AllocError>
    ensures { OnOk result (HasWritten ground.old ground.new
        (requested entry.now (reference_view reference.entry))) }
{
    let number = entry.number;
    ground.write(
        &[],
        BuildFact::LinkedReference(number, Meeting::Root, reference),
    )?;
    ground.write(
        &[],
        BuildFact::ActivatedReference(number, Side::Targets, reference),
    )?;
    ground.write_if(
        entry.starts_on_host,
        &[],
        BuildFact::ActivatedReference(number, Side::Host, reference),
    )
}

/// Writes the targets of a crate that are asked for.
fn write_asked<'a>(
    machines: usize,
    entry: &CrateEntry<'a>,
    ground: &mut Ground<'a>,
) -> Result<(), AllocError>
    ensures { OnOk result (HasWritten ground.old ground.new
        (flat_map (asked_rows machines) entry.now.targets.items)) }
{
    for target in &entry.targets {
        if !target.is_script {
            write_target(machines, target, ground)?;
        }
    }
    Ok(())
}

/// Writes a target that is asked for, for each machine.
fn write_target<'a>(
    machines: usize,
    target: &TargetEntry<'a>,
    ground: &mut Ground<'a>,
) -> Result<(), AllocError>
    ensures { OnOk result (HasWritten ground.old ground.new
        (flat_map (asked_for_machine target.now) (range_with_len 0 machines))) }
{
    for number in 0..machines {
        write_for_machine(target, number, ground)?;
    }
    Ok(())
}

/// Writes a target that is asked for, for a machine.
fn write_for_machine<'a>(
    target: &TargetEntry<'a>,
    number: usize,
    ground: &mut Ground<'a>,
) -> Result<(), AllocError>
    ensures { OnOk result (HasWritten ground.old ground.new (asked_for_machine target.now number)) }
{
    if target.is_asked {
        write_in_mode(Mode::Build, target, number, ground)?;
    }
    if target.is_asked_with_tests {
        write_in_mode(Mode::Test, target, number, ground)?;
    }
    Ok(())
}

/// Writes a target that is asked for in a mode, for a machine. A library requires no features.
fn write_in_mode<'a>(
    mode: Mode,
    target: &TargetEntry<'a>,
    number: usize,
    ground: &mut Ground<'a>,
) -> Result<(), AllocError>
    ensures { OnOk result (HasWritten ground.old ground.new (asked_in true mode target.now number)) }
{
    let needed = PlacementNumber {
        platform: PlatformNumber::Machine(number),
        side: Side::Targets,
    };
    let unit = UnitPlace {
        target: target.place,
        mode,
        placement: goes_to(target, needed),
    };
    let mut premises = Vec::new(ground.alloc());
    if !target.is_library {
        require(target, &mut premises)?;
    }
    ground.write(premises.as_slice(), BuildFact::Compiled(unit))
}
