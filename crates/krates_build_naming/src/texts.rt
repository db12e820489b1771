//! The words for meetings, sides, modes, kinds of dependencies and of targets, and for target texts.

ghost use Rattle.std.specs.Prelude.{◌≡◌, option_map};
ghost use Rattle.krates_build_naming.specs.PartTexts.{kind_text, meeting_text, mode_text, side_text, target_kind_text, target_kinds_text, target_text};

use krates_cm::{DependencyKind, TargetKind};
use krates_units::{Meeting, Mode, Side};

/// The word for how a crate is met.
pub(crate) fn meeting_text<'a>(meeting: Meeting) -> &'a str
    ensures { result.now ≡ meeting_text meeting }
{
    match meeting {
        Meeting::Root => "root",
        Meeting::Dependency => "dependency",
    }
}

/// The word for a side.
pub(crate) fn side_text<'a>(side: Side) -> &'a str
    ensures { result.now ≡ side_text side }
{
    match side {
        Side::Targets => "targets",
        Side::Host => "host",
    }
}

/// The word for how a target is compiled.
pub(crate) fn mode_text<'a>(mode: Mode) -> &'a str
    ensures { result.now ≡ mode_text mode }
{
    match mode {
        Mode::Build => "build",
        Mode::Test => "test",
    }
}

/// The word for a kind of dependencies.
pub(crate) fn kind_text(kind: DependencyKind) -> &'static str
    ensures { result.now ≡ kind_text kind }
{
    match kind {
        DependencyKind::Normal => "normal",
        DependencyKind::Development => "dev",
        DependencyKind::Build => "build",
    }
}

/// The word for a target text.
pub(crate) fn target_text<'a>(text: Option<&'a str>) -> &'a str
    ensures { result.now ≡ target_text (option_map (λ t. t.now) text.entry) }
{
    match text {
        Some(text) => text,
        None => "*",
    }
}

/// The word for the kinds of a target: that for the first.
pub(crate) fn target_kinds_text(kinds: &[TargetKind]) -> &'static str
    ensures { result.now ≡ target_kinds_text kinds.now }
{
    match kinds {
        [kind, ..] => target_kind_text(*kind),
        [] => "",
    }
}

/// The word for a kind of targets.
fn target_kind_text(kind: TargetKind) -> &'static str
    ensures { result.now ≡ target_kind_text kind }
{
    match kind {
        TargetKind::Bench => "bench",
        TargetKind::Bin => "bin",
        TargetKind::CustomBuild => "custom-build",
        TargetKind::CDyLib => "cdylib",
        TargetKind::DyLib => "dylib",
        TargetKind::Example => "example",
        TargetKind::Lib => "lib",
        TargetKind::ProcMacro => "proc-macro",
        TargetKind::RLib => "rlib",
        TargetKind::StaticLib => "staticlib",
        TargetKind::Test => "test",
    }
}
