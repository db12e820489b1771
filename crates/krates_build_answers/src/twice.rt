//! The crates that a build compiles twice, with different features.
ghost use Rattle.std.specs.Prelude.{◌↔◌, [], Any, IfOk, IsTrue, OnOk, map};
ghost use Rattle.std.specs.List.Sorted.{IsStrictlySortedBy};
ghost use Rattle.std.specs.Ordering.{nat_cmp};
ghost use Rattle.krates_built.specs.BuildLists.{IsListOf, feature_cmp, feature_fact, feature_view};
ghost use Rattle.krates_build_answers.specs.Adding.{Adds, IsOfSome};
ghost use Rattle.krates_build_answers.specs.BuiltTwice.{AreBuiltTwice, HasOneSided, IsBuiltOn, IsBuiltTwice, IsOnBoth, IsOneSided, IsOneSidedOf, IsScriptOn, IsThisTwice, IsUnitOn};

use crate::built_crates::BuiltCrates;
use crate::each_once::each_once;
use crate::links::features_side;
use krates_build_facts::UnitPlace;
use krates_built::{FeaturePlace, ScriptPlace, Units};
use krates_units::Side;
use std::alloc::{AllocError, Global};

/// The numbers of the crates that are compiled with the features of each side, where some feature is enabled on one side alone: ascending,
/// each once. By the first resolver there is none. The only error is running out of memory. Time O(n (u + f log n)) for n crates that are
/// built, u units and f features that are enabled.
///
/// ```text
/// for number in built_twice(alloc, &units)? {
///     println!(rt; "{number}")?;
/// }
/// ```
pub fn built_twice<'a>(alloc: Global, units: &Units<'a>) -> Result<Vec<usize>, AllocError>
    ensures exact { IfOk result (λ twice. AreBuiltTwice units.now.derived twice.items) }
    ensures ascending { IfOk result (λ twice. IsStrictlySortedBy nat_cmp twice.items) }
{
    let built = BuiltCrates::of(alloc, units)?;
    let krates = built.krates(alloc)?;
    let all = twice_among(alloc, units, &krates)?;
    let twice = each_once(all)?;
    Ok(twice)
}

/// Those among these crates.
fn twice_among<'a>(
    alloc: Global,
    units: &Units<'a>,
    krates: &[usize],
) -> Result<Vec<usize>, AllocError>
    ensures { IfOk result (λ twice. Adds (IsOfSome (IsThisTwice units.now.derived) krates.now) []
        twice.items) }
{
    let mut twice = Vec::new(alloc);
    for krate in krates {
        add_if_twice(units, *krate, &mut twice)?;
    }
    Ok(twice)
}

/// Adds the crate if it is one.
fn add_if_twice<'a>(
    units: &Units<'a>,
    krate: usize,
    twice: &mut Vec<usize>,
) -> Result<(), AllocError>
    ensures { OnOk result (Adds (IsThisTwice units.now.derived krate) twice.old.items twice.new.items) }
{
    if is_built_twice(units, krate) {
        twice.push(krate)?;
    }
    Ok(())
}

/// Whether the crate is one.
fn is_built_twice<'a>(units: &Units<'a>, krate: usize) -> bool
    ensures { IsTrue result ↔ IsBuiltTwice units.now.derived krate }
{
    is_on_both(units, krate) && has_one_sided(units, krate)
}

/// Whether a unit or the build script of the crate is compiled with the features of each side.
fn is_on_both<'a>(units: &Units<'a>, krate: usize) -> bool
    ensures { IsTrue result ↔ IsOnBoth units.now.derived krate }
{
    is_on(units, krate, Side::Targets) && is_on(units, krate, Side::Host)
}

/// Whether a unit or the build script of the crate is compiled with the features of the side.
fn is_on<'a>(units: &Units<'a>, krate: usize, side: Side) -> bool
    ensures { IsTrue result ↔ IsBuiltOn units.now.derived krate side }
{
    units.agrees();
    has_unit(units.units(), krate, side) || has_script(units.scripts(), krate, side)
}

/// Whether one of these units is of the crate, with the features of the side.
fn has_unit(units: &[UnitPlace], krate: usize, side: Side) -> bool
    ensures { IsTrue result ↔ Any (IsUnitOn krate side) units.now }
{
    for unit in units {
        if is_unit_on(unit, krate, side) {
            return true;
        }
    }
    false
}

/// Whether the unit is.
fn is_unit_on(unit: &UnitPlace, krate: usize, side: Side) -> bool
    ensures { IsTrue result ↔ IsUnitOn krate side unit.now }
{
    unit.target.krate == krate && unit.placement.side == side
}

/// Whether one of these build scripts is of the crate, with the features of the side.
fn has_script(scripts: &[ScriptPlace], krate: usize, side: Side) -> bool
    ensures { IsTrue result ↔ Any (IsScriptOn krate side) scripts.now }
{
    for script in scripts {
        if is_script_on(script, krate, side) {
            return true;
        }
    }
    false
}

/// Whether the build script is.
fn is_script_on(script: &ScriptPlace, krate: usize, side: Side) -> bool
    ensures { IsTrue result ↔ IsScriptOn krate side script.now }
{
    script.krate == krate && script.side == side
}

/// Whether some feature of the crate is enabled on one side alone.
fn has_one_sided<'a>(units: &Units<'a>, krate: usize) -> bool
    ensures { IsTrue result ↔ HasOneSided units.now.derived krate }
{
    units.agrees();
    has_one_sided_among(units, krate, units.features())
}

/// Whether one of these features is, where these are all.
fn has_one_sided_among<'a>(units: &Units<'a>, krate: usize, features: &[FeaturePlace<'a>]) -> bool
    requires { IsListOf units.now.derived feature_fact feature_cmp (map feature_view features.now) }
    ensures { IsTrue result ↔ HasOneSided units.now.derived krate }
{
    for feature in features {
        if is_one_sided_of(units, krate, feature) {
            return true;
        }
    }
    false
}

/// Whether this one is.
fn is_one_sided_of<'a>(units: &Units<'a>, krate: usize, feature: &FeaturePlace<'a>) -> bool
    ensures { IsTrue result ↔ IsOneSidedOf units.now.derived krate feature.now }
{
    feature.krate == krate && is_one_sided(units, krate, feature.name)
}

/// Whether the feature of the crate is enabled on one side alone.
fn is_one_sided<'a>(units: &Units<'a>, krate: usize, name: &'a str) -> bool
    ensures { IsTrue result ↔ IsOneSided units.now.derived krate name.now }
{
    let targets = features_side(units.tables(), Side::Targets);
    let host = features_side(units.tables(), Side::Host);
    units.is_feature(krate, targets, name) != units.is_feature(krate, host, name)
}
