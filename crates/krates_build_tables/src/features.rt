//! The features of a crate.

ghost use Rattle.std.specs.Prelude.{◌↔◌, Contains, IfOk, IsTrue, OnOk, map};
ghost use Rattle.krates_cm.specs.Document.{Text, dependency_view, features_view, text_view};
ghost use Rattle.krates_ids.specs.Correction.{named};
ghost use Rattle.krates_questions.specs.Lookup.{resolved_view};
ghost use Rattle.krates_rules.specs.DeclaredDependency.{declared_name};
ghost use Rattle.krates_rules.specs.Resolved.{id_of};
ghost use Rattle.krates_text.specs.FeatureReference.{IsReference};
ghost use Rattle.krates_units.specs.Requests.{HasFeature, KnowsOptional};
ghost use Rattle.krates_build_tables.specs.FeatureLists.{AddsFeature, AreFeaturesOf, AreRead, ReadsFeature, under};
ghost use Rattle.krates_build_tables.specs.References.{reference_view};

use crate::contents::declared_by;
use crate::package_names::{declared_name, has_feature};
use crate::pushing::{push, put};
use crate::reference::FeatureReference;
use krates_cm::Dependency;
use krates_ids::Kid;
use krates_questions::Document;
use krates_text::features::ParsedFeature;
use std::alloc::{AllocError, Global};
use std::collections::BTreeMap;

/// The features of a crate, each with the references that it lists.
pub(crate) fn features_of<'a>(
    alloc: Global,
    document: &Document<'a>,
    krate: &Kid,
) -> Result<BTreeMap<&'a str, Vec<FeatureReference<'a>>>, AllocError>
    ensures { IfOk result (AreFeaturesOf (resolved_view document.now) (id_of krate.now)) }
{
    document.agrees();
    match document.package_of(krate) {
        Some(pkg) => read_features(alloc, &pkg.features),
        None => Ok(BTreeMap::new(alloc)),
    }
}

/// These features, with their values read.
fn read_features<'a>(
    alloc: Global,
    features: &'a BTreeMap<String, Vec<String>>,
) -> Result<BTreeMap<&'a str, Vec<FeatureReference<'a>>>, AllocError>
    ensures { IfOk result (λ read. (f : Text) →
        ReadsFeature (named (features_view features.now) f) (under f read)) }
{
    let mut read = BTreeMap::new(alloc);
    for (name, values) in features {
        add_feature(alloc, &mut read, name.as_str(), values)?;
    }
    Ok(read)
}

/// Reads the values of one feature more.
fn add_feature<'a>(
    alloc: Global,
    read: &mut BTreeMap<&'a str, Vec<FeatureReference<'a>>>,
    name: &'a str,
    values: &'a [String],
) -> Result<(), AllocError>
    ensures { OnOk result (AddsFeature name.now (map text_view values.now) read.old read.new) }
{
    if read.contains_key(&name) {
        return Ok(());
    }
    let references = references_of(alloc, values)?;
    put(read, name, references)?;
    Ok(())
}

/// The values of a feature, read.
fn references_of<'a>(
    alloc: Global,
    values: &'a [String],
) -> Result<Vec<FeatureReference<'a>>, AllocError>
    ensures { IfOk result (AreRead (map text_view values.now)) }
{
    let mut references = Vec::new(alloc);
    for value in values {
        push(&mut references, reference_of(value.as_str()))?;
    }
    Ok(references)
}

/// The reference that a text is.
pub(crate) fn reference_of(text: &str) -> FeatureReference<'_>
    ensures { IsReference text.now (reference_view result) }
{
    FeatureReference::from(ParsedFeature::from(text).feat())
}

/// The names of the optional dependencies of a crate that are features too.
pub(crate) fn implied_by<'a>(
    alloc: Global,
    document: &Document<'a>,
    krate: &Kid,
) -> Result<Vec<&'a str>, AllocError>
    ensures { let r = resolved_view document.now in
        IfOk result (λ names. (c : Text) →
        (KnowsOptional r (id_of krate.now) c × HasFeature r (id_of krate.now) c)
        ↔ Contains (map (λ t. t.now) names.items) c) }
{
    let mut names = Vec::new(alloc);
    for declared in declared_by(document, krate) {
        if is_implied(document, krate, declared) {
            names.push(declared_name(declared))?;
        }
    }
    Ok(names)
}

/// Whether a dependency is optional, and its name is a feature of a crate.
fn is_implied(document: &Document<'_>, krate: &Kid, declared: &Dependency) -> bool
    ensures { let d = dependency_view declared.now in
        IsTrue result ↔ (IsTrue d.optional
        × HasFeature (resolved_view document.now) (id_of krate.now) (declared_name d)) }
{
    declared.optional && has_feature(document, krate, declared_name(declared))
}
