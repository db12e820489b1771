//! What a root takes of the references of the command line (Cargo Book, "Features", "Command-line feature options").
ghost use Rattle.std.specs.Prelude.{◌≡◌, ◌↔◌, IfOk, IsTrue, None, Some, map, option_map, string_bytes};
ghost use Rattle.krates_questions.specs.Lookup.{resolved_view};
ghost use Rattle.krates_rules.specs.Resolved.{id_of};
ghost use Rattle.krates_text.specs.FeatureReference.{Reference};
ghost use Rattle.krates_units.specs.BuildSetting.{BuildSettingModel};
ghost use Rattle.krates_units.specs.Requests.{TakesAlike, TakesOther};
ghost use Rattle.krates_build_tables.specs.References.{reference_view};
ghost use Rattle.krates_build_tables.specs.RequestsFlags.{AreFlags, root_kind};
ghost use Rattle.krates_build_tables.specs.RequestsTaken as definitions;
ghost use Rattle.krates_build_tables.specs.RequestsTaken.{AreReferencesOf, IsForOtherBy, NamesOther, NamesSelected, TellsTaken, parts_view};

use crate::package_names::{knows_name, may_ask};
use crate::reference::FeatureReference;
use crate::roots::RootAs;
use crate::selection::CrateFlags;
use krates_ids::{Kid, laws};
use krates_questions::Document;
use krates_text::features::ParsedFeature;
use std::alloc::{AllocError, Global};

/// The references that these texts are.
pub(crate) fn references_of<'a>(
    alloc: Global,
    texts: &'a [String],
) -> Result<Vec<FeatureReference<'a>>, AllocError>
    ensures { IfOk result (λ list. AreReferencesOf
        (map string_bytes texts.now) (map reference_view list.items)) }
{
    let mut references = Vec::with_capacity(alloc, texts.len())?;
    for text in texts {
        references.push(FeatureReference::from(ParsedFeature::from(text.as_str()).feat()))?;
    }
    Ok(references)
}

/// What a root of this kind takes of a reference that the command line names; none if it takes nothing.
pub(crate) fn taken<'a>(
    document: &Document<'_>,
    flags: &[CrateFlags<'_>],
    kind: RootAs,
    id: &Kid,
    given: FeatureReference<'a>,
) -> Option<FeatureReference<'a>>
    ensures { (s : BuildSettingModel)
        → AreFlags (resolved_view document.now) s (map id_of document.now.ids.now.table.ids.items) flags.now
        → TellsTaken (resolved_view document.now) s (id_of id.now) (root_kind kind)
        (reference_view given.entry) result }
{
    document.agrees();
    laws::one_reading();
    match kind {
        RootAs::Alike => taken_alike(document, id, given),
        RootAs::Unselected => None,
        RootAs::Current if is_for_other(flags, given) => None,
        RootAs::Current => Some(given),
        RootAs::Other => taken_by_other(id, given),
    }
}

/// What a member takes where members are asked alike: what it has.
fn taken_alike<'a>(
    document: &Document<'_>,
    id: &Kid,
    given: FeatureReference<'a>,
) -> Option<FeatureReference<'a>>
    ensures { (w : Reference)
        → TakesAlike (resolved_view document.now) (id_of id.now) (reference_view given.entry) w
        ↔ (option_map reference_view result ≡ Some w) }
{
    let Some((name, feature)) = feature_parts(given) else {
        return taken_as_own(document, id, given);
    };
    if knows_name(document, id, name) {
        return Some(given);
    }
    if id.name() == name && may_ask(document, id, feature) {
        return Some(FeatureReference::Simple(feature));
    }
    None
}

/// What a member takes of a reference that names no feature of a dependency, where members are asked alike.
fn taken_as_own<'a>(
    document: &Document<'_>,
    id: &Kid,
    given: FeatureReference<'a>,
) -> Option<FeatureReference<'a>>
    requires { definitions.feature_parts (reference_view given) ≡ None }
    ensures { (w : Reference)
        → TakesAlike (resolved_view document.now) (id_of id.now) (reference_view given.entry) w
        ↔ (option_map reference_view result ≡ Some w) }
{
    match given {
        FeatureReference::Simple(name) => {
            if may_ask(document, id, name) {
                return Some(given);
            }
            None
        }
        FeatureReference::Krate(_) => None,
        FeatureReference::Weak(_, _) => None,
        FeatureReference::Strong(_, _) => None,
    }
}

/// What another member than the package of the folder takes: a feature under its own name.
fn taken_by_other<'a>(id: &Kid, given: FeatureReference<'a>) -> Option<FeatureReference<'a>>
    ensures { (w : Reference) → TakesOther (id_of id.now) (reference_view given.entry) w
        ↔ (option_map reference_view result ≡ Some w) }
{
    match feature_parts(given) {
        Some((name, feature)) if id.name() == name => Some(FeatureReference::Simple(feature)),
        Some(_) | None => None,
    }
}

/// Whether the reference is for another member than the package of the folder.
fn is_for_other(flags: &[CrateFlags<'_>], given: FeatureReference<'_>) -> bool
    ensures { IsTrue result ↔ IsForOtherBy flags.now (reference_view given.entry) }
{
    match feature_parts(given) {
        Some((name, _)) => names_other(flags, name) && names_selected(flags, name),
        None => false,
    }
}

/// The dependency and its feature that the reference names.
fn feature_parts<'a>(given: FeatureReference<'a>) -> Option<(&'a str, &'a str)>
    ensures { option_map parts_view result ≡ definitions.feature_parts (reference_view given.entry) }
{
    match given {
        FeatureReference::Weak(name, feature) | FeatureReference::Strong(name, feature) => {
            Some((name, feature))
        }
        FeatureReference::Simple(_) | FeatureReference::Krate(_) => None,
    }
}

/// Whether another member than the package of the folder has this name.
fn names_other(flags: &[CrateFlags<'_>], name: &str) -> bool
    ensures { IsTrue result ↔ NamesOther flags.now name.now }
{
    for krate in flags {
        if krate.is_member && !krate.is_current && krate.id.name() == name {
            return true;
        }
    }
    false
}

/// Whether a crate that is asked for has this name.
fn names_selected(flags: &[CrateFlags<'_>], name: &str) -> bool
    ensures { IsTrue result ↔ NamesSelected flags.now name.now }
{
    for krate in flags {
        if krate.is_selected && krate.id.name() == name {
            return true;
        }
    }
    false
}
