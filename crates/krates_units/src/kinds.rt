//! What kind of target a target is, and whether a build asks for it.
//!
//! Source: the Cargo Book, "Cargo Targets", and "cargo build", "Target Selection".
ghost use Rattle.std.specs.Prelude.{◌≡◌, ◌↔◌, true, Any, IsTrue};
ghost use Rattle.krates_cm.specs.Document.{target_view};
ghost use Rattle.krates_units.specs.BuildTargets.{AsksFor, IsLibrary, IsLinkable, IsMacro, IsScript, RunsPrograms, UsesDev, is_library_kind, is_linkable_kind};
ghost use Rattle.krates_units.specs.declared.kinds.Mode.TheVariants as modes;

use crate::form::has_macro_form;
use crate::setting::TargetFlags;
use krates_cm::{Target, TargetKind};

/// How a target is compiled.
#[derive(Clone, Copy, Debug, PartialEq, Eq, PartialOrd, Ord)]
pub enum Mode {
    /// As itself.
    Build,
    /// With its tests, or as a benchmark.
    Test,
}

/// Whether a target is a library, in any of its forms. Time O(kinds).
pub fn is_library(target: &Target) -> bool
    ensures { IsTrue result ↔ IsLibrary (target_view target.now) }
{
    has_library_kind(target.kind.as_slice())
}

/// Whether a target is a library that Rust code is linked with. Time O(kinds).
pub fn is_linkable(target: &Target) -> bool
    ensures { IsTrue result ↔ IsLinkable (target_view target.now) }
{
    has_linkable_kind(target.kind.as_slice())
}

/// Whether a target is a build script. Time O(kinds).
pub fn is_script(target: &Target) -> bool
    ensures { IsTrue result ↔ IsScript (target_view target.now) }
{
    target.is_custom_build()
}

/// Whether a target is a procedural macro: a library, or an example in that form. Time O(kinds + forms).
pub fn is_macro(target: &Target) -> bool
    ensures { IsTrue result ↔ IsMacro (target_view target.now) }
{
    target.is_proc_macro() || (target.is_example() && has_macro_form(target.crate_types.as_slice()))
}

/// Whether a target of a selected package is asked for, in this mode. Time O(kinds).
///
/// The document doesn't say of which libraries and programs the manifest has `bench = false`, so each is asked for as a
/// benchmark.
pub fn asks_for(flags: TargetFlags, target: &Target, mode: Mode) -> bool
    ensures { IsTrue result ↔ AsksFor flags (target_view target.now) mode }
{
    match mode {
        Mode::Build => asks_to_build(flags, target),
        Mode::Test => asks_to_test(flags, target),
    }
}

fn asks_to_build(flags: TargetFlags, target: &Target) -> bool
    ensures { IsTrue result ↔ AsksFor flags (target_view target.now) modes.Build }
{
    let library = is_library(target);
    let program = target.is_bin();
    let example = target.is_example();
    flags.ask_to_build(library, program, example)
}

fn asks_to_test(flags: TargetFlags, target: &Target) -> bool
    ensures { IsTrue result ↔ AsksFor flags (target_view target.now) modes.Test }
{
    let library = is_library(target);
    let program = target.is_bin();
    let benchmark = target.is_bench();
    flags.ask_to_test(target.test, library, program, benchmark)
}

/// Whether a target has dev dependencies, in this mode. Time O(kinds).
pub fn uses_dev(target: &Target, mode: Mode) -> bool
    ensures { IsTrue result ↔ UsesDev (target_view target.now) mode }
{
    match mode {
        Mode::Build => target.is_test() || target.is_example(),
        Mode::Test => true,
    }
}

/// Whether a target is compiled with its tests, and may run the programs of its package. Time O(kinds).
pub fn runs_programs(target: &Target, mode: Mode) -> bool
    ensures { IsTrue result ↔ RunsPrograms (target_view target.now) mode }
{
    match mode {
        Mode::Build => false,
        Mode::Test => target.is_test() || target.is_bench(),
    }
}

fn has_library_kind(kinds: &[TargetKind]) -> bool
    ensures { IsTrue result ↔ Any (λ kind. is_library_kind kind ≡ true) kinds.now }
{
    kinds.iter().any(|kind| is_library_kind(*kind))
}

fn has_linkable_kind(kinds: &[TargetKind]) -> bool
    ensures { IsTrue result ↔ Any (λ kind. is_linkable_kind kind ≡ true) kinds.now }
{
    kinds.iter().any(|kind| is_linkable_kind(*kind))
}

fn is_library_kind(kind: TargetKind) -> bool
    ensures { result ≡ is_library_kind kind }
{
    match kind {
        TargetKind::CDyLib
        | TargetKind::DyLib
        | TargetKind::Lib
        | TargetKind::ProcMacro
        | TargetKind::RLib
        | TargetKind::StaticLib => true,
        _ => false,
    }
}

fn is_linkable_kind(kind: TargetKind) -> bool
    ensures { result ≡ is_linkable_kind kind }
{
    match kind {
        TargetKind::DyLib | TargetKind::Lib | TargetKind::ProcMacro | TargetKind::RLib => true,
        _ => false,
    }
}
