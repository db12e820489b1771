//! Whether what is sought is among the instances that a build begins with.
#![tactic(auto, using(crate::proofs::FoundRows::nothing_found, crate::proofs::FoundRows::none_more, crate::proofs::FoundRows::found_at, crate::proofs::FoundRows::none_at_all))]

ghost use Rattle.std.specs.Prelude.{[], ◌∷◌, if◌then◌else◌};
ghost use Rattle.std.specs.List.{flat_map};
ghost use Rattle.krates_build_tables.specs.References.{reference_view};
ghost use Rattle.krates_build_facts.specs.FactModels.{Compiled};
ghost use Rattle.krates_build_facts.specs.InitialRows.{asked_for_machine, asked_in, asked_requires, asked_rows, initial_in, initial_rows, requested, root_alone, root_rows};
ghost use Rattle.krates_build_facts.specs.Rows.{rule};
ghost use Rattle.krates_build_checkers.specs.Finding.{Finds};

use crate::sought::Sought;
use crate::units::goes_to;
use krates_build_facts::{BuildFact, PlacementNumber, PlatformNumber, UnitPlace};
use krates_build_tables::{CrateEntry, FeatureReference, Tables, TargetEntry};
use krates_units::{Meeting, Mode, Side};

/// Whether it is among those that a build begins with.
pub(crate) fn finds_initial<'a>(tables: &Tables<'a>, sought: &Sought<'_, 'a>) -> bool
    ensures { Finds result sought.now (initial_rows tables.now) }
{
    for entry in &tables.crates {
        if finds_of_crate(tables.machines.len(), entry, sought) {
            return true;
        }
    }
    false
}

/// Whether it is one of a crate.
fn finds_of_crate<'a>(machines: usize, entry: &CrateEntry<'a>, sought: &Sought<'_, 'a>) -> bool
    ensures { Finds result sought.now (initial_in machines entry.now) }
{
    finds_of_root(entry, sought) || finds_of_selected(machines, entry, sought)
}

/// Whether it is one of a root.
fn finds_of_root<'a>(entry: &CrateEntry<'a>, sought: &Sought<'_, 'a>) -> bool
    ensures { Finds result sought.now (root_rows entry.now) }
{
    entry.is_root
        && (finds_root(entry, sought) || finds_some_requested(entry, &entry.requested, sought))
}

/// Whether it is a root by itself.
fn finds_root<'a>(entry: &CrateEntry<'a>, sought: &Sought<'_, 'a>) -> bool
    ensures { Finds result sought.now (root_alone entry.now) }
{
    let number = entry.number;
    let on_host = BuildFact::Activated(number, Side::Host);
    if sought.is(&[], BuildFact::Met(number, Meeting::Root)) {
        return true;
    }
    sought.is(&[], BuildFact::Activated(number, Side::Targets))
        || sought.is_if(entry.starts_on_host, &[], on_host)
}

/// Whether it is something that is requested of a root.
fn finds_some_requested<'a>(
    entry: &CrateEntry<'a>,
    references: &[FeatureReference<'a>],
    sought: &Sought<'_, 'a>,
) -> bool
    ensures { Finds result sought.now (flat_map
        (λ v. requested entry.now (reference_view v)) references.now) }
{
    for reference in references {
        if finds_requested(entry, *reference, sought) {
            return true;
        }
    }
    false
}

fn finds_requested<'a>(
    entry: &CrateEntry<'a>,
    reference: FeatureReference<'a>,
    sought: &Sought<'_, 'a>,
) -> bool
    ensures { Finds result sought.now (requested entry.now (reference_view reference.entry)) }
{
    let number = entry.number;
    let linked = BuildFact::LinkedReference(number, Meeting::Root, reference);
    let activated = BuildFact::ActivatedReference(number, Side::Targets, reference);
    let on_host = BuildFact::ActivatedReference(number, Side::Host, reference);
    if sought.is(&[], linked) {
        return true;
    }
    sought.is(&[], activated) || sought.is_if(entry.starts_on_host, &[], on_host)
}

/// Whether it is a target that is asked for of a crate, if the crate is selected.
fn finds_of_selected<'a>(machines: usize, entry: &CrateEntry<'a>, sought: &Sought<'_, 'a>) -> bool
    ensures { Finds result sought.now (if entry.now.is_selected then flat_map
        (asked_rows machines) entry.now.targets.items else []) }
{
    entry.is_selected && finds_some_asked(machines, entry, sought)
}

fn finds_some_asked<'a>(machines: usize, entry: &CrateEntry<'a>, sought: &Sought<'_, 'a>) -> bool
    ensures { Finds result sought.now (flat_map (asked_rows machines) entry.now.targets.items) }
{
    for target in &entry.targets {
        if finds_asked(machines, target, sought) {
            return true;
        }
    }
    false
}

/// Whether it is a target that is asked for, for a machine.
fn finds_asked<'a>(machines: usize, target: &TargetEntry<'a>, sought: &Sought<'_, 'a>) -> bool
    ensures { Finds result sought.now (asked_rows machines target.now) }
{
    if target.is_script {
        return false;
    }
    for number in 0..machines {
        if finds_for_machine(target, number, sought) {
            return true;
        }
    }
    false
}

fn finds_for_machine<'a>(target: &TargetEntry<'a>, number: usize, sought: &Sought<'_, 'a>) -> bool
    ensures { Finds result sought.now (asked_for_machine target.now number) }
{
    finds_in_mode(target.is_asked, Mode::Build, target, number, sought)
        || finds_in_mode(
            target.is_asked_with_tests,
            Mode::Test,
            target,
            number,
            sought,
        )
}

/// Whether it is a target that is asked for in a mode, for a machine, and the condition holds.
fn finds_in_mode<'a>(
    condition: bool,
    mode: Mode,
    target: &TargetEntry<'a>,
    number: usize,
    sought: &Sought<'_, 'a>,
) -> bool
    ensures { Finds result sought.now (asked_in condition mode target.now number) }
{
    let needed = PlacementNumber {
        platform: PlatformNumber::Machine(number),
        side: Side::Targets,
    };
    let unit = UnitPlace {
        target: target.place,
        mode,
        placement: goes_to(target, needed),
    };
    condition && finds_unit(target, unit, sought)
}

/// Whether it is a unit of a target that is asked for: a library requires no features.
fn finds_unit<'a>(target: &TargetEntry<'a>, unit: UnitPlace, sought: &Sought<'_, 'a>) -> bool
    ensures { Finds result sought.now (rule (asked_requires target.now) (Compiled unit) ∷ []) }
{
    if target.is_library {
        sought.is(&[], BuildFact::Compiled(unit))
    } else {
        sought.is_requiring(&[], target, BuildFact::Compiled(unit))
    }
}
