//! The targets of a crate, by their kinds and by what a build asks for.

ghost use Rattle.std.specs.Prelude.{◌≡◌, ◌↔◌, IfOk, IsTrue, map};
ghost use Rattle.krates_cm.specs.Document.{target_view};
ghost use Rattle.krates_questions.specs.Lookup.{resolved_view};
ghost use Rattle.krates_rules.specs.Resolved.{id_of};
ghost use Rattle.krates_units.specs.BuildSetting.{IsLater, build_setting_view};
ghost use Rattle.krates_units.specs.BuildTargets.{HasMacro, HasTargetThat, IsMacro, IsMacroCrate, IsScript};
ghost use Rattle.krates_units.specs.Sides.{StartsOn};
ghost use Rattle.krates_units.specs.declared.sides.Side.TheVariants as sides;
ghost use Rattle.krates_build_tables.specs.TablesOf.{AreTargetsOf, TargetSays};
ghost use Rattle.krates_build_tables.specs.Entries.{AreTargetEntries, HasOneThat, IsMacroLibrary};

use crate::contents::targets_of;
use crate::pushing::push;
use crate::tables::{TargetEntry, TargetPlace};
use crate::texts::borrowed;
use krates_cm::Target;
use krates_ids::Kid;
use krates_questions::Document;
use krates_units::kinds::{
    asks_for, is_library, is_linkable, is_macro, is_script, runs_programs, uses_dev,
};
use krates_units::{BuildSetting, Mode, Resolver};
use std::alloc::{AllocError, Global};

/// The targets of the crate with this number and this id.
pub(crate) fn target_entries<'a>(
    alloc: Global,
    document: &Document<'a>,
    setting: &BuildSetting,
    number: usize,
    krate: &Kid,
) -> Result<Vec<TargetEntry<'a>>, AllocError>
    ensures { let s = build_setting_view setting.now in
        IfOk result (λ entries.
        AreTargetsOf (resolved_view document.now) s number (id_of krate.now) entries.items) }
{
    entries_of(alloc, setting, number, targets_of(document, krate))
}

/// The entries of these targets, of the crate with this number.
fn entries_of<'a>(
    alloc: Global,
    setting: &BuildSetting,
    number: usize,
    targets: &'a [Target],
) -> Result<Vec<TargetEntry<'a>>, AllocError>
    ensures { let s = build_setting_view setting.now in
        IfOk result (λ entries. AreTargetEntries s number (map target_view targets.now) entries.items) }
{
    let mut entries = Vec::new(alloc);
    for target in targets {
        let place = TargetPlace {
            krate: number,
            index: entries.len(),
        };
        let entry = entry_of(alloc, setting, place, target)?;
        push(&mut entries, entry)?;
    }
    Ok(entries)
}

/// The entry of a target at a place.
fn entry_of<'a>(
    alloc: Global,
    setting: &BuildSetting,
    place: TargetPlace,
    target: &'a Target,
) -> Result<TargetEntry<'a>, AllocError>
    ensures says { IfOk result (λ entry.
        TargetSays (build_setting_view setting.now) entry (target_view target.now)) }
    ensures place { IfOk result (λ entry. entry.place ≡ place) }
{
    let required = borrowed(alloc, &target.required_features)?;
    Ok(TargetEntry {
        place,
        target,
        is_library: is_library(target),
        is_linkable: is_linkable(target),
        is_script: is_script(target),
        is_macro: is_macro(target),
        is_program: target.is_bin(),
        always_uses_dev: uses_dev(target, Mode::Build),
        may_run_programs: runs_programs(target, Mode::Test),
        is_asked: asks_for(setting.kinds, target, Mode::Build),
        is_asked_with_tests: asks_for(setting.kinds, target, Mode::Test),
        required,
    })
}

/// Whether some target of a crate is a procedural macro.
pub(crate) fn has_macro(document: &Document<'_>, krate: &Kid) -> bool
    ensures { IsTrue result ↔ HasMacro (resolved_view document.now) (id_of krate.now) }
{
    some_macro(targets_of(document, krate))
}

/// Whether the library of a crate is a procedural macro.
pub(crate) fn is_macro_crate(document: &Document<'_>, krate: &Kid) -> bool
    ensures { IsTrue result ↔ IsMacroCrate (resolved_view document.now) (id_of krate.now) }
{
    some_macro_library(targets_of(document, krate))
}

/// Whether a crate has a build script.
pub(crate) fn has_script(document: &Document<'_>, krate: &Kid) -> bool
    ensures { IsTrue result ↔ HasTargetThat (resolved_view document.now) (id_of krate.now) IsScript }
{
    some_script(targets_of(document, krate))
}

/// Whether one of the targets is a build script.
fn some_script(targets: &[Target]) -> bool
    ensures { IsTrue result ↔ HasOneThat IsScript (map target_view targets.now) }
{
    for target in targets {
        if is_script(target) {
            return true;
        }
    }
    false
}

/// Whether one of the targets is a procedural macro.
fn some_macro(targets: &[Target]) -> bool
    ensures { IsTrue result ↔ HasOneThat IsMacro (map target_view targets.now) }
{
    for target in targets {
        if is_macro(target) {
            return true;
        }
    }
    false
}

/// Whether one of the targets is a library of procedural macros.
fn some_macro_library(targets: &[Target]) -> bool
    ensures { IsTrue result ↔ HasOneThat IsMacroLibrary (map target_view targets.now) }
{
    for target in targets {
        if target.is_proc_macro() {
            return true;
        }
    }
    false
}

/// Whether a later resolver is asked for.
pub(crate) fn is_later(setting: &BuildSetting) -> bool
    ensures { IsTrue result ↔ IsLater (build_setting_view setting.now).resolver }
{
    match setting.resolver {
        Resolver::V1 => false,
        Resolver::V2 | Resolver::V3 => true,
    }
}

/// Whether the features of a crate count for the host too, if it is a root.
pub(crate) fn starts_on_host(document: &Document<'_>, setting: &BuildSetting, krate: &Kid) -> bool
    ensures { let s = build_setting_view setting.now in
        IsTrue result ↔ StartsOn (resolved_view document.now) s (id_of krate.now) sides.Host }
{
    is_later(setting) && has_macro(document, krate)
}
