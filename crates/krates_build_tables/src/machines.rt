//! The machines that a build is for, and on which of them a dependency passes.

ghost use Rattle.std.specs.Prelude.{◌≡◌, ◌↔◌, ◌||◌, [], ◌∷◌, Contains, IfOk, IsTrue, map, option_map, true};
ghost use Rattle.krates_units.specs.BuildSetting.{build_setting_view, machines};
ghost use Rattle.krates_units.specs.Machines.{MachineModel, PassesOn, machine_view};
ghost use Rattle.krates_build_tables.specs.Judgements.{AreJudged, IsPassing, lent_machines};
ghost use Rattle.krates_build_tables.specs.TablesOf.{ComeInOrder, HasEachOnce};

use krates_units::{BuildSetting, Machine};
use std::alloc::{AllocError, Global};

/// The machines that a build is for, each once, in the order in which they are asked for first.
pub(crate) fn distinct_machines<'a>(
    alloc: Global,
    setting: &'a BuildSetting,
) -> Result<Vec<&'a Machine>, AllocError>
    ensures same { let s = build_setting_view setting.now in
        IfOk result (λ all. (m : MachineModel) → Contains (machines s.host s.targets) m
        ↔ Contains (lent_machines all.items) m) }
    ensures once { IfOk result (λ all. HasEachOnce (lent_machines all.items)) }
    ensures in_order { let s = build_setting_view setting.now in
        IfOk result (λ all. ComeInOrder (machines s.host s.targets) (lent_machines all.items)) }
{
    if setting.targets.is_empty() {
        alone(alloc, &setting.host)
    } else {
        each_once(alloc, &setting.targets)
    }
}

/// The list of one machine.
fn alone<'a>(alloc: Global, machine: &'a Machine) -> Result<Vec<&'a Machine>, AllocError>
    ensures { IfOk result (λ all. lent_machines all.items ≡ machine_view machine.now ∷ []) }
{
    let mut all = Vec::new(alloc);
    all.push(machine)?;
    Ok(all)
}

/// These machines, each once, where it first stands.
fn each_once<'a>(alloc: Global, machines: &'a [Machine]) -> Result<Vec<&'a Machine>, AllocError>
    ensures same { IfOk result (λ all. (m : MachineModel)
        → Contains (map machine_view machines.now) m ↔ Contains (lent_machines all.items) m) }
    ensures once { IfOk result (λ all. HasEachOnce (lent_machines all.items)) }
    ensures in_order { IfOk result (λ all.
        ComeInOrder (map machine_view machines.now) (lent_machines all.items)) }
{
    let mut all = Vec::new(alloc);
    for machine in machines {
        if !is_among(&all, machine) {
            all.push(machine)?;
        }
    }
    Ok(all)
}

/// Whether a machine is among these.
fn is_among(machines: &[&Machine], machine: &Machine) -> bool
    ensures { IsTrue result ↔ Contains (lent_machines machines.now) (machine_view machine.now) }
{
    for other in machines {
        if other.is_same(machine) {
            return true;
        }
    }
    false
}

/// On which machines a dependency passes.
#[derive(Drop)]
pub(crate) struct Passing {
    /// Whether it passes on the host.
    pub on_host: bool,
    /// Whether it passes on some machine that the build is for.
    pub on_targets: bool,
    /// Whether it passes on each of these.
    pub on_each: Vec<bool>,
}

/// On which machines a dependency with this target text passes, where these are the machines that the build is for.
pub(crate) fn passing_of(
    alloc: Global,
    setting: &BuildSetting,
    distinct: &[&Machine],
    text: Option<&str>,
) -> Result<Passing, AllocError>
    requires { let s = build_setting_view setting.now in
        (m : MachineModel) → Contains (machines s.host s.targets) m
        ↔ Contains (lent_machines distinct.now) m }
    ensures { let s = build_setting_view setting.now in
        IfOk result (IsPassing s (lent_machines distinct.now) (option_map (λ t. t.now) text.entry)) }
{
    let on_host = passes_here(alloc, &setting.host, text)?;
    let on_each = passes_on_each(alloc, distinct, text)?;
    let on_targets = either(text.is_none(), has_yes(&on_each));
    Ok(Passing {
        on_host,
        on_targets,
        on_each,
    })
}

/// Whether one of two tests holds.
fn either(one: bool, other: bool) -> bool
    ensures { result ≡ (one || other) }
{
    one || other
}

/// Whether one of these tests holds.
fn has_yes(tests: &[bool]) -> bool
    ensures { IsTrue result ↔ Contains tests.now true }
{
    tests.contains(&true)
}

/// Whether a dependency with this target text passes on each of the machines.
fn passes_on_each(
    alloc: Global,
    machines: &[&Machine],
    text: Option<&str>,
) -> Result<Vec<bool>, AllocError>
    ensures { IfOk result (λ passes.
        AreJudged (lent_machines machines.now) (option_map (λ t. t.now) text.entry) passes.items) }
{
    let mut passes = Vec::with_capacity(alloc, machines.len())?;
    for machine in machines {
        passes.push(passes_here(alloc, machine, text)?)?;
    }
    Ok(passes)
}

/// Whether a dependency with this target text passes on the machine.
fn passes_here(alloc: Global, machine: &Machine, text: Option<&str>) -> Result<bool, AllocError>
    ensures { IfOk result (λ yes. IsTrue yes
        ↔ PassesOn (machine_view machine.now ∷ []) (option_map (λ t. t.now) text.entry)) }
{
    match text {
        Some(text) => machine.holds(alloc, text),
        None => Ok(true),
    }
}
