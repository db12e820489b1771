//! Whether what is sought is among the instances of the rules of units.
#![tactic(auto, using(crate::proofs::FoundRows::nothing_found, crate::proofs::FoundRows::none_more, crate::proofs::FoundRows::found_at, crate::proofs::FoundRows::none_at_all))]

ghost use Rattle.std.specs.Prelude.{◌≡◌, ◌&&◌, [], ◌∷◌, if◌then◌else◌, map, not};
ghost use Rattle.krates_build_facts.specs.FactModels.{fact_view};
ghost use Rattle.krates_build_facts.specs.Rows.{features_side, goes_to, has_kind, host_place, is_test, libraries, libraries_of_script, libraries_of_target, libraries_of_unit, library, needed_beside, needed_in_crate, passes, program_beside, unit_of};
ghost use Rattle.krates_build_checkers.specs.Finding.{Finds};

use crate::sought::Sought;
use krates_build_facts::{BuildFact, PlacementNumber, PlatformNumber, UnitPlace};
use krates_build_tables::{CrateEntry, Link, Tables, TargetEntry};
use krates_cm::DependencyKind;
use krates_units::{Mode, Side};

/// The side whose features what is compiled for a side has.
pub(crate) fn features_side(tables: &Tables<'_>, side: Side) -> Side
    ensures { result ≡ features_side tables.now side }
{
    if tables.is_first { Side::Targets } else { side }
}

/// Whether the target text of a link holds on a platform.
pub(crate) fn passes(link: &Link<'_>, platform: PlatformNumber) -> bool
    ensures { result ≡ passes link.now platform }
{
    match platform {
        PlatformNumber::Host => link.passes_on_host,
        PlatformNumber::Machine(number) => match link.passes_on.get(number) {
            Some(answer) => *answer,
            None => false,
        },
    }
}

/// Whether a target has dependencies of a kind, in a mode.
fn has_kind(target: &TargetEntry<'_>, mode: Mode, kind: DependencyKind) -> bool
    ensures { result ≡ has_kind target.now mode kind }
{
    match kind {
        DependencyKind::Normal => true,
        DependencyKind::Development => match mode {
            Mode::Build => target.always_uses_dev,
            Mode::Test => true,
        },
        DependencyKind::Build => false,
    }
}

/// What the build itself runs.
fn host_place() -> PlacementNumber
    ensures { result ≡ host_place }
{
    PlacementNumber {
        platform: PlatformNumber::Host,
        side: Side::Host,
    }
}

/// What a target is compiled for, for what needs it: a procedural macro for the host.
pub(crate) fn goes_to(target: &TargetEntry<'_>, needed: PlacementNumber) -> PlacementNumber
    ensures { result ≡ goes_to target.now needed }
{
    if target.is_macro {
        host_place()
    } else {
        needed
    }
}

/// A target, as itself, for what needs it.
fn unit_of(target: &TargetEntry<'_>, needed: PlacementNumber) -> UnitPlace
    ensures { result ≡ unit_of target.now needed }
{
    UnitPlace {
        target: target.place,
        mode: Mode::Build,
        placement: goes_to(target, needed),
    }
}

/// Whether it is a library of the other crate, from these premises over a link.
fn finds_library<'a>(
    tables: &Tables<'a>,
    premises: &[BuildFact<'a>],
    link: &Link<'a>,
    placement: PlacementNumber,
    sought: &Sought<'_, 'a>,
) -> bool
    ensures { Finds result sought.now (libraries tables.now (map fact_view premises.now) link.now placement) }
{
    let Some(child) = tables.entry(link.child) else {
        return false;
    };
    for target in &child.targets {
        let unit = unit_of(target, placement);
        let needed = BuildFact::Needed(link.place, placement.platform, unit);
        if sought.is_if(target.is_library, premises, needed) {
            return true;
        }
    }
    false
}

/// Whether it is a library that a build script needs over a link.
pub(crate) fn finds_of_script<'a>(
    tables: &Tables<'a>,
    krate: usize,
    side: Side,
    link: &Link<'a>,
    sought: &Sought<'_, 'a>,
) -> bool
    ensures { Finds result sought.now (libraries_of_script tables.now krate side link.now) }
{
    if link.kind != DependencyKind::Build || !link.passes_on_host {
        return false;
    }
    let compiled = BuildFact::ScriptCompiled(krate, side);
    let linked = BuildFact::Linked(link.place);
    if link.is_optional {
        let named = BuildFact::ActivatedName(krate, features_side(tables, side), link.name);
        finds_library(
            tables,
            &[compiled, linked, named],
            link,
            host_place(),
            sought,
        )
    } else {
        finds_library(tables, &[compiled, linked], link, host_place(), sought)
    }
}

/// Whether it is a library that a unit needs over a link.
pub(crate) fn finds_of_unit<'a>(
    tables: &Tables<'a>,
    entry: &CrateEntry<'a>,
    unit: UnitPlace,
    link: &Link<'a>,
    sought: &Sought<'_, 'a>,
) -> bool
    ensures { Finds result sought.now (libraries_of_unit tables.now entry.now unit link.now) }
{
    match entry.target(unit.target.index) {
        Some(target) => finds_of_target(tables, unit, link, target, sought),
        None => false,
    }
}

fn finds_of_target<'a>(
    tables: &Tables<'a>,
    unit: UnitPlace,
    link: &Link<'a>,
    target: &TargetEntry<'a>,
    sought: &Sought<'_, 'a>,
) -> bool
    ensures { Finds result sought.now (libraries_of_target tables.now unit link.now target.now) }
{
    let placement = unit.placement;
    if !has_kind(target, unit.mode, link.kind) || !passes(link, placement.platform) {
        return false;
    }
    let compiled = BuildFact::Compiled(unit);
    let linked = BuildFact::Linked(link.place);
    if link.is_optional {
        let side = features_side(tables, placement.side);
        let named = BuildFact::ActivatedName(unit.target.krate, side, link.name);
        finds_library(tables, &[compiled, linked, named], link, placement, sought)
    } else {
        finds_library(tables, &[compiled, linked], link, placement, sought)
    }
}

/// Whether it is what a unit needs of the other targets of its crate.
pub(crate) fn finds_beside<'a>(
    entry: &CrateEntry<'a>,
    unit: UnitPlace,
    sought: &Sought<'_, 'a>,
) -> bool
    ensures { Finds result sought.now (needed_in_crate entry.now unit) }
{
    let Some(target) = entry.target(unit.target.index) else {
        return false;
    };
    for other in &entry.targets {
        if finds_one_beside(unit, target, other, sought) {
            return true;
        }
    }
    false
}

/// Whether it is a program of the crate that a unit may run.
fn finds_program<'a>(unit: UnitPlace, program: &TargetEntry<'a>, sought: &Sought<'_, 'a>) -> bool
    ensures { Finds result sought.now (program_beside unit program.now ∷ []) }
{
    let fact = UnitPlace {
        target: program.place,
        mode: Mode::Build,
        placement: PlacementNumber {
            platform: unit.placement.platform,
            side: Side::Targets,
        },
    };
    sought.is_requiring(
        &[BuildFact::Compiled(unit)],
        program,
        BuildFact::Compiled(fact),
    )
}

fn finds_one_beside<'a>(
    unit: UnitPlace,
    target: &TargetEntry<'a>,
    other: &TargetEntry<'a>,
    sought: &Sought<'_, 'a>,
) -> bool
    ensures { Finds result sought.now (needed_beside unit target.now other.now) }
{
    let premises = [BuildFact::Compiled(unit)];
    let own = BuildFact::Compiled(unit_of(other, unit.placement));
    let run = BuildFact::ScriptRun(unit.target.krate, unit.placement);
    if sought.is_if(is_own(target, other), &premises, own) {
        return true;
    }
    if finds_program_run(unit, target, other, sought) {
        return true;
    }
    sought.is_if(other.is_script, &premises, run)
}

/// Whether a target is linked with another of its crate.
fn is_own(target: &TargetEntry<'_>, other: &TargetEntry<'_>) -> bool
    ensures { result ≡ (not target.now.is_library && other.now.is_linkable) }
{
    !target.is_library && other.is_linkable
}

/// Whether it is a program of the crate that a unit may run, if it may run programs.
fn finds_program_run<'a>(
    unit: UnitPlace,
    target: &TargetEntry<'a>,
    program: &TargetEntry<'a>,
    sought: &Sought<'_, 'a>,
) -> bool
    ensures { Finds result sought.now
        (if is_test unit.mode && target.now.may_run_programs && program.now.is_program
        then program_beside unit program.now ∷ [] else []) }
{
    let may_run = unit.mode == Mode::Test && target.may_run_programs && program.is_program;
    may_run && finds_program(unit, program, sought)
}
