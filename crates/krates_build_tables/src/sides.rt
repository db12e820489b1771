//! For which sides the features of a dependency count, and where they lead.

ghost use Rattle.std.specs.Prelude.{◌≡◌, ◌⊎◌, ◌↔◌, IsTrue, List, not, true, ◌&&◌, ◌||◌};
ghost use Rattle.krates_cm.specs.declared.dependency.DependencyKind.TheVariants.{Build, Development};
ghost use Rattle.krates_questions.specs.Lookup.{resolved_view};
ghost use Rattle.krates_rules.specs.Facts.{Edge};
ghost use Rattle.krates_rules.specs.Resolved.{Resolved, id_of};
ghost use Rattle.krates_units.specs.BuildSetting.{IsFirst, asks_dev, build_setting_view};
ghost use Rattle.krates_units.specs.Machines.{MachineModel};
ghost use Rattle.krates_units.specs.Requests.{IsBuildRoot};
ghost use Rattle.krates_units.specs.Sides.{Counts, Leads, LooksOn};
ghost use Rattle.krates_units.specs.declared.sides.Side.{Side};
ghost use Rattle.krates_units.specs.declared.sides.Side.TheVariants as sides;
ghost use Rattle.krates_build_tables.specs.Judgements.{IsPassing, passes_for, side_for};

use crate::machines::Passing;
use crate::targets::{has_macro, is_later, is_macro_crate};
use krates_cm::DependencyKind;
use krates_ids::Kid;
use krates_questions::Document;
use krates_units::{BuildSetting, Side};

/// Whether a dependency of this kind counts for the features of a side, where it passes so, and its crate is a root or isn't.
pub(crate) fn counts(
    setting: &BuildSetting,
    side: Side,
    kind: DependencyKind,
    is_root: bool,
    passing: &Passing,
) -> bool
    ensures { let s = build_setting_view setting.now in
        (r : Resolved) (ms : List MachineModel) (e : Edge) → e.kind ≡ kind
        → (IsTrue is_root ↔ IsBuildRoot r s e.parent)
        → IsPassing s ms e.cfg passing.now → IsTrue result ↔ Counts r s side e }
{
    let takes_part = takes_part(setting, kind, is_root);
    let passes = passes_for(side, kind, passing);
    both_count(takes_part, is_later(setting), passes)
}

/// Whether what takes part counts, where a later resolver asks whether it passes.
fn both_count(takes_part: bool, later: bool, passes: bool) -> bool
    ensures { result ≡ (takes_part && (not later || passes)) }
{
    takes_part && (!later || passes)
}

/// Whether a dependency of this kind may count at all.
fn takes_part(setting: &BuildSetting, kind: DependencyKind, is_root: bool) -> bool
    ensures { let s = build_setting_view setting.now in
        IsTrue result ↔ (kind ≡ Development → IsTrue is_root
        × (IsFirst s.resolver ⊎ (asks_dev s.kinds ≡ true))) }
{
    match kind {
        DependencyKind::Development => is_root && (!is_later(setting) || setting.kinds.asks_dev()),
        DependencyKind::Normal | DependencyKind::Build => true,
    }
}

/// Whether a dependency of this kind passes on the machines of a side.
fn passes_for(side: Side, kind: DependencyKind, passing: &Passing) -> bool
    ensures { result ≡ passes_for side kind passing.now }
{
    match side {
        Side::Host => passing.on_host,
        Side::Targets => match kind {
            DependencyKind::Build => passing.on_host,
            DependencyKind::Normal | DependencyKind::Development => passing.on_targets,
        },
    }
}

/// The side to which a dependency of this kind on a crate leads from the targets' side.
pub(crate) fn leads_to(
    document: &Document<'_>,
    setting: &BuildSetting,
    kind: DependencyKind,
    child: &Kid,
) -> Side
    ensures { let s = build_setting_view setting.now in
        (e : Edge) (m : Side) → e.kind ≡ kind → e.child ≡ id_of child.now
        → Leads (resolved_view document.now) s sides.Targets e m ↔ (m ≡ result) }
{
    side_for(
        is_later(setting),
        is_build(kind),
        is_macro_crate(document, child),
    )
}

/// The side on which a target that requires features looks for those of a crate that a dependency of this kind leads to.
pub(crate) fn looks_on(
    document: &Document<'_>,
    setting: &BuildSetting,
    kind: DependencyKind,
    child: &Kid,
) -> Side
    ensures { let s = build_setting_view setting.now in
        (e : Edge) (m : Side) → e.kind ≡ kind → e.child ≡ id_of child.now
        → LooksOn (resolved_view document.now) s e m ↔ (m ≡ result) }
{
    side_for(
        is_later(setting),
        is_build(kind),
        has_macro(document, child),
    )
}

/// The side of what is for a build script or not, and a procedural macro or not, by a later resolver or the first.
fn side_for(later: bool, build: bool, is_macro: bool) -> Side
    ensures { result ≡ side_for later build is_macro }
{
    if later && (build || is_macro) {
        Side::Host
    } else {
        Side::Targets
    }
}

/// Whether a dependency is for a build script.
fn is_build(kind: DependencyKind) -> bool
    ensures { IsTrue result ↔ (kind ≡ Build) }
{
    match kind {
        DependencyKind::Build => true,
        DependencyKind::Normal | DependencyKind::Development => false,
    }
}
