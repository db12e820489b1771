//! Whether a text of the command line names a feature (Cargo Book, "Features", "Command-line feature options").
ghost use Rattle.std.specs.Prelude.{◌≡◌, ◌↔◌, IsTrue, Some, option_map};
ghost use Rattle.krates_questions.specs.Lookup.{resolved_view};
ghost use Rattle.krates_rules.specs.Facts.{Id};
ghost use Rattle.krates_rules.specs.Resolved.{id_of};
ghost use Rattle.krates_text.specs.FeatureReference.{Reference};
ghost use Rattle.krates_units.specs.Answered.{HasNamed, NamesFeature, TakesAsRoot, TakesLacking, TakesSome};
ghost use Rattle.krates_build_tables.specs.References.{reference_view};
ghost use Rattle.krates_build_tables.specs.RequestsFlags.{FlagsSay, flagged};
ghost use Rattle.krates_build_tables.specs.Unanswered.{IsTaking, model_taking, setting_taking};

use crate::features::reference_of;
use crate::leading::has_feature_of;
use crate::package_names::has_feature;
use crate::reference::FeatureReference;
use crate::roots::root_as;
use crate::selection::CrateFlags;
use crate::taken::taken;
use krates_ids::{Kid, laws as ids};
use krates_questions::Document;
use krates_text::laws as references;
use krates_units::BuildSetting;

/// What decides which crates take a reference.
#[derive(Clone, Copy)]
pub(crate) struct Taking<'d, 'a> {
    /// The document.
    pub document: &'d Document<'a>,
    /// What the build is asked for.
    pub setting: &'a BuildSetting,
    /// The crates.
    pub flags: &'d [CrateFlags<'d>],
    /// Whether members are asked alike.
    pub alike: bool,
    /// Whether no member is selected.
    pub none_selected: bool,
}

/// Whether the text names a feature: some crate takes something of it, and none takes what it doesn't have.
pub(crate) fn names_feature(taking: &Taking<'_, '_>, text: &str) -> bool
    requires { IsTaking taking.now }
    ensures { IsTrue result ↔ NamesFeature (model_taking taking.now) (setting_taking taking.now) text.now }
{
    references::one_reference();
    let given = reference_of(text);
    is_taken(taking, &given) && !is_lacking(taking, &given)
}

/// Whether some crate takes something of the reference.
fn is_taken(taking: &Taking<'_, '_>, given: &FeatureReference<'_>) -> bool
    requires { IsTaking taking.now }
    ensures { IsTrue result
        ↔ ((i : Id) × TakesSome (model_taking taking.now) (setting_taking taking.now)
        (reference_view given.now) i) }
{
    taking.document.agrees();
    ids::one_reading();
    for krate in taking.flags {
        if takes_some(taking, krate, given) {
            return true;
        }
    }
    false
}

/// Whether some crate takes of the reference what it doesn't have.
fn is_lacking(taking: &Taking<'_, '_>, given: &FeatureReference<'_>) -> bool
    requires { IsTaking taking.now }
    ensures { IsTrue result
        ↔ ((i : Id) × TakesLacking (model_taking taking.now) (setting_taking taking.now)
        (reference_view given.now) i) }
{
    taking.document.agrees();
    ids::one_reading();
    for krate in taking.flags {
        if takes_lacking(taking, krate, given) {
            return true;
        }
    }
    false
}

/// Whether the crate takes something of the reference.
fn takes_some(taking: &Taking<'_, '_>, krate: &CrateFlags<'_>, given: &FeatureReference<'_>) -> bool
    requires taking { IsTaking taking.now }
    requires krate { FlagsSay (model_taking taking.now) (setting_taking taking.now) krate.now }
    ensures { IsTrue result ↔ TakesSome (model_taking taking.now) (setting_taking taking.now)
        (reference_view given.now) (flagged krate.now) }
{
    taken_by(taking, krate, given).is_some()
}

/// Whether the crate takes of the reference what it doesn't have.
fn takes_lacking(
    taking: &Taking<'_, '_>,
    krate: &CrateFlags<'_>,
    given: &FeatureReference<'_>,
) -> bool
    requires taking { IsTaking taking.now }
    requires krate { FlagsSay (model_taking taking.now) (setting_taking taking.now) krate.now }
    ensures { IsTrue result ↔ TakesLacking (model_taking taking.now) (setting_taking taking.now)
        (reference_view given.now) (flagged krate.now) }
{
    match taken_by(taking, krate, given) {
        Some(reference) => !has_named(taking.document, krate.id, &reference),
        None => false,
    }
}

/// What the crate takes of the reference, as a root; none if it isn't one or takes nothing.
fn taken_by<'a>(
    taking: &Taking<'_, '_>,
    krate: &CrateFlags<'_>,
    given: &FeatureReference<'a>,
) -> Option<FeatureReference<'a>>
    requires taking { IsTaking taking.now }
    requires krate { FlagsSay (model_taking taking.now) (setting_taking taking.now) krate.now }
    ensures { (w : Reference)
        → TakesAsRoot (model_taking taking.now) (setting_taking taking.now) (flagged krate.now)
        (reference_view given.now) w
        ↔ (option_map reference_view result ≡ Some w) }
{
    match root_as(taking.alike, taking.none_selected, krate) {
        Some(kind) => taken(taking.document, taking.flags, kind, krate.id, *given),
        None => None,
    }
}

/// Whether the crate has what the reference names.
fn has_named(document: &Document<'_>, krate: &Kid, reference: &FeatureReference<'_>) -> bool
    ensures { IsTrue result
        ↔ HasNamed (resolved_view document.now) (id_of krate.now) (reference_view reference.now) }
{
    match *reference {
        FeatureReference::Krate(_) => false,
        FeatureReference::Weak(name, feature) | FeatureReference::Strong(name, feature) => {
            has_feature_of(document, krate, name, feature)
        }
        FeatureReference::Simple(feature) => has_feature(document, krate, feature),
    }
}
