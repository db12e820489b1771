//! Whether each request of a build names something (Cargo Book, "cargo build", "Package Selection", and "Features", "Command-line
//! feature options").
ghost use Rattle.std.specs.Prelude.{◌≡◌, ◌↔◌, IfOk, IsTrue, map, option_map, string_bytes};
ghost use Rattle.krates_ids.specs.PackageSpecification.{spec_view};
ghost use Rattle.krates_questions.specs.Lookup.{resolved_view};
ghost use Rattle.krates_units.specs.Answered as definitions;
ghost use Rattle.krates_units.specs.Answered.{HasFeatureFlag, HasIdleFlag, NamesFeature, NamesPackage, NamesPackages, SelectsSome};
ghost use Rattle.krates_units.specs.BuildSetting.{build_setting_view};
ghost use Rattle.krates_build_tables.specs.Unanswered.{IsTaking, TellsFirstWithout, TellsUnanswered, model_taking, setting_taking};

use crate::named::{Taking, names_feature};
use crate::roots::{asks_alike, selects_no_member};
use crate::selection::flags_of;
use krates_ids::{PkgSpec, laws};
use krates_questions::Document;
use krates_units::{BuildSetting, PackageSelection};
use std::alloc::{AllocError, Global};

/// A request of a build that names nothing, so that cargo refuses the build.
#[derive(Clone, Copy, Debug)]
pub enum Unanswered<'a> {
    /// `--package`: no package of the document fits the specification.
    Package(&'a PkgSpec),
    /// No package is asked for: the workspace has no members, or no default ones.
    Selection,
    /// `--features`: no package takes the feature, or one that has to have it doesn't.
    Feature(&'a str),
    /// `--all-features` or `--no-default-features`: no member is selected that could take it.
    FeatureFlag,
}

/// The first request of a build that names nothing, in the order of the variants, and of the setting's lists; none if each names
/// something.
///
/// Where the resolver is a later one, or the folder of the build has no package, a feature has to be one of a selected member.
/// Otherwise the package of the folder has to have it, even if that isn't selected, unless `NAME/FEATURE` names another member that
/// is. A dependency that a feature is named of has to be declared. Each package that it leads to has to have the feature, even if it
/// is optional, for tests or for another target; if the document has no edge for it, it leads to none. A second slash is refused.
///
/// The only error is running out of memory. Time O(s p + n (log n + m + s) + f n (k² log n + k d)) for s specifications, p packages, n
/// crates with d dependencies each, k of them under one name, m default members and f features.
///
/// ```text
/// match first_unanswered(alloc, &document, &setting)? {
///     Some(Unanswered::Package(spec)) => println!(rt; "no package fits {spec}")?,
///     Some(Unanswered::Feature(text)) => println!(rt; "no package has the feature {text}")?,
///     Some(Unanswered::Selection | Unanswered::FeatureFlag) => println!(rt; "no member is selected")?,
///     None => {}
/// }
/// ```
pub fn first_unanswered<'a>(
    alloc: Global,
    document: &Document<'a>,
    setting: &'a BuildSetting,
) -> Result<Option<Unanswered<'a>>, AllocError>
    ensures { IfOk result (TellsUnanswered (resolved_view document.now) (build_setting_view setting.now)) }
{
    document.agrees();
    laws::one_reading();
    if let Some(spec) = first_unfitting(document, specifications(setting)) {
        return Ok(Some(Unanswered::Package(spec)));
    }
    let flags = flags_of(alloc, document, setting)?;
    let taking = Taking {
        document,
        setting,
        flags: &flags,
        alike: asks_alike(document, setting),
        none_selected: selects_no_member(&flags),
    };
    Ok(unanswered_by(&taking))
}

/// The first request that names nothing, where each specification names a package.
fn unanswered_by<'a>(taking: &Taking<'_, 'a>) -> Option<Unanswered<'a>>
    requires taking { IsTaking taking.now }
    requires packages { NamesPackages (model_taking taking.now) (setting_taking taking.now) }
    ensures { TellsUnanswered (model_taking taking.now) (setting_taking taking.now) result }
{
    if !selects_some(taking) {
        return Some(Unanswered::Selection);
    }
    if let Some(text) = first_nameless(taking, &taking.setting.features) {
        return Some(Unanswered::Feature(text));
    }
    if has_idle_flag(taking) {
        return Some(Unanswered::FeatureFlag);
    }
    None
}

/// The specifications of the packages that are asked for.
fn specifications<'a>(setting: &'a BuildSetting) -> &'a [PkgSpec]
    ensures { map spec_view result.now
        ≡ definitions.specifications (build_setting_view setting.now).selection }
{
    match &setting.selection {
        PackageSelection::Packages(specs) => specs,
        PackageSelection::DefaultMembers | PackageSelection::Workspace => &[],
    }
}

/// The first of the specifications that fits no package of the document; none if each fits one.
fn first_unfitting<'a>(document: &Document<'_>, specs: &'a [PkgSpec]) -> Option<&'a PkgSpec>
    ensures { TellsFirstWithout (NamesPackage (resolved_view document.now)) (map spec_view specs.now)
        (option_map (λ spec. spec_view spec.now) result) }
{
    for spec in specs {
        if !names_package(document, spec) {
            return Some(spec);
        }
    }
    None
}

/// Whether a package of the document fits the specification.
fn names_package(document: &Document<'_>, spec: &PkgSpec) -> bool
    ensures { IsTrue result ↔ NamesPackage (resolved_view document.now) (spec_view spec.now) }
{
    for pkg in &document.metadata().packages {
        if spec.matches(pkg) {
            return true;
        }
    }
    false
}

/// Whether some crate is asked for.
fn selects_some(taking: &Taking<'_, '_>) -> bool
    requires { IsTaking taking.now }
    ensures { IsTrue result ↔ SelectsSome (model_taking taking.now) (setting_taking taking.now) }
{
    taking.document.agrees();
    laws::one_reading();
    for krate in taking.flags {
        if krate.is_selected {
            return true;
        }
    }
    false
}

/// The first of the texts that names no feature; none if each names one.
fn first_nameless<'a>(taking: &Taking<'_, '_>, texts: &'a [String]) -> Option<&'a str>
    requires { IsTaking taking.now }
    ensures { TellsFirstWithout (NamesFeature (model_taking taking.now) (setting_taking taking.now))
        (map string_bytes texts.now) (option_map (λ text. text.now) result) }
{
    for text in texts {
        let name = text.as_str();
        if !names_feature(taking, name) {
            return Some(name);
        }
    }
    None
}

/// Whether a flag asks for features where no crate takes any.
fn has_idle_flag(taking: &Taking<'_, '_>) -> bool
    requires { IsTaking taking.now }
    ensures { IsTrue result ↔ HasIdleFlag (model_taking taking.now) (setting_taking taking.now) }
{
    if !has_feature_flag(taking.setting) {
        return false;
    }
    taking.alike && taking.none_selected
}

/// Whether all features or no default ones are asked for.
fn has_feature_flag(setting: &BuildSetting) -> bool
    ensures { IsTrue result ↔ HasFeatureFlag (build_setting_view setting.now) }
{
    setting.all_features || setting.no_default_features
}
