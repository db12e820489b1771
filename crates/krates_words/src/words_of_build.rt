//! The words that mean what a build is asked for.

ghost use Rattle.std.specs.Prelude.{◌≡◌, IfOk, map, string_bytes};
ghost use Rattle.krates_cm.specs.Document.{text_view, texts_view};
ghost use Rattle.krates_ids.specs.PackageSpecification.{spec_view};
ghost use Rattle.krates_units.specs.BuildSetting.{build_setting_view, selection_view};
ghost use Rattle.krates_units.specs.Machines.{machine_view};
ghost use Rattle.krates_words.specs.BuildSettingWords.{feature_word, kinds_words, named_word, resolver_name, rules_words, selection_words, target_word, words_of_build};

use crate::setting_words::flag;
use krates_ids::PkgSpec;
use krates_units::{BuildSetting, Machine, PackageSelection, Resolver, TargetFlags};
use std::alloc::{AllocError, Global};

/// The words that mean what a build is asked for, one for each option and value, always in the same order: the rules, the resolver and the
/// machine that builds are always said, and a machine is given by its triple, however it was described. So the words of one setting never
/// stand beside another. The only error is running out of memory. Time O(length of what is asked for).
///
/// ```text
/// // --by=build --resolver=2 --host=x86_64-unknown-linux-gnu --features=std
/// let words = build_setting_words(alloc, &setting)?;
/// ```
pub fn build_setting_words(alloc: Global, setting: &BuildSetting) -> Result<Vec<String>, AllocError>
    ensures { IfOk result (λ words. texts_view words ≡ words_of_build (build_setting_view setting.now)) }
{
    let mut words = rules(alloc, setting)?;
    words.append(&mut selected(alloc, &setting.selection)?)?;
    words.append(&mut kinds(alloc, setting.kinds)?)?;
    words.append(&mut features(alloc, &setting.features)?)?;
    words.append(&mut flag(alloc, "--all-features", setting.all_features)?)?;
    words.append(&mut flag(alloc, "--no-default-features", setting.no_default_features)?)?;
    words.append(&mut targets(alloc, &setting.targets)?)?;
    Ok(words)
}

/// The rules, the resolver and the machine that builds.
fn rules(alloc: Global, setting: &BuildSetting) -> Result<Vec<String>, AllocError>
    ensures { IfOk result (λ words. texts_view words ≡ rules_words (build_setting_view setting.now)) }
{
    let resolver = resolver_name(setting.resolver);
    let host = setting.host.triple();
    let mut words = Vec::new(alloc);
    words.push(String::from_str(alloc, "--by=build")?)?;
    words.push(format!(in alloc; "--resolver={resolver}")?)?;
    words.push(format!(in alloc; "--host={host}")?)?;
    Ok(words)
}

/// The version of a resolver, as it is written. Time O(1).
pub fn resolver_name(resolver: Resolver) -> &'static str
    ensures { result.now ≡ resolver_name resolver }
{
    match resolver {
        Resolver::V1 => "1",
        Resolver::V2 => "2",
        Resolver::V3 => "3",
    }
}

/// The packages that are asked for.
fn selected(alloc: Global, selection: &PackageSelection) -> Result<Vec<String>, AllocError>
    ensures { IfOk result (λ words. texts_view words ≡ selection_words (selection_view selection.now)) }
{
    match selection {
        PackageSelection::DefaultMembers => Ok(Vec::new(alloc)),
        PackageSelection::Workspace => flag(alloc, "--workspace", true),
        PackageSelection::Packages(specs) => packages(alloc, specs),
    }
}

/// The packages that are named.
fn packages(alloc: Global, specs: &[PkgSpec]) -> Result<Vec<String>, AllocError>
    ensures { IfOk result (λ words. texts_view words ≡ map named_word (map spec_view specs.now)) }
{
    let mut words = Vec::new(alloc);
    for spec in specs {
        words.push(named(alloc, spec)?)?;
    }
    Ok(words)
}

/// A package that is named.
fn named(alloc: Global, spec: &PkgSpec) -> Result<String, AllocError>
    ensures { IfOk result (λ word. text_view word ≡ named_word (spec_view spec.now)) }
{
    format!(in alloc; "--package={spec}")
}

/// The kinds of targets.
fn kinds(alloc: Global, kinds: TargetFlags) -> Result<Vec<String>, AllocError>
    ensures { IfOk result (λ words. texts_view words ≡ kinds_words kinds) }
{
    let mut words = flag(alloc, "--lib", kinds.lib)?;
    words.append(&mut flag(alloc, "--bins", kinds.bins)?)?;
    words.append(&mut flag(alloc, "--examples", kinds.examples)?)?;
    words.append(&mut flag(alloc, "--tests", kinds.tests)?)?;
    words.append(&mut flag(alloc, "--benches", kinds.benches)?)?;
    words.append(&mut flag(alloc, "--all-targets", kinds.all)?)?;
    Ok(words)
}

/// The features.
fn features(alloc: Global, names: &[String]) -> Result<Vec<String>, AllocError>
    ensures { IfOk result (λ words. texts_view words ≡ map feature_word (map string_bytes names.now)) }
{
    let mut words = Vec::new(alloc);
    for name in names {
        words.push(feature(alloc, name.as_str())?)?;
    }
    Ok(words)
}

/// A feature.
fn feature(alloc: Global, name: &str) -> Result<String, AllocError>
    ensures { IfOk result (λ word. text_view word ≡ feature_word name.now) }
{
    format!(in alloc; "--features={name}")
}

/// The machines that the build is for.
fn targets(alloc: Global, machines: &[Machine]) -> Result<Vec<String>, AllocError>
    ensures { IfOk result (λ words. texts_view words ≡ map target_word (map machine_view machines.now)) }
{
    let mut words = Vec::new(alloc);
    for machine in machines {
        words.push(target(alloc, machine)?)?;
    }
    Ok(words)
}

/// A machine that the build is for.
fn target(alloc: Global, machine: &Machine) -> Result<String, AllocError>
    ensures { IfOk result (λ word. text_view word ≡ target_word (machine_view machine.now)) }
{
    let triple = machine.triple();
    format!(in alloc; "--target={triple}")
}
