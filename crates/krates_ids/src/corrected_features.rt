//! The corrected features of a package, made separately from it.

ghost use Rattle.std.specs.Prelude.{◌≡◌, ◌↔◌, ◌⊎◌, [], ◌∷◌, IsTrue, IfOk, OnOk, Some, None, map};
ghost use Rattle.std.specs.Option.{option_or};
ghost use Rattle.std.specs.List.{Contains};
ghost use Rattle.krates_cm.specs.Document.{Text, text_view, texts_view, features_view};
ghost use Rattle.krates_text.specs.FeatureReference.{IsReference, simple};
ghost use Rattle.krates_ids.specs.Correction.{named, Refers, dependency_reference, IsCorrection};

use crate::index::FeaturesMap;
use krates_text::features::{Feature, ParsedFeature};
use std::alloc::{AllocError, Global};
use std::collections::BTreeMap;

/// The features of a manifest, corrected by those of the index.
pub(crate) fn corrected_features(
    alloc: Global,
    manifest: &FeaturesMap,
    index: &FeaturesMap,
) -> Result<FeaturesMap, AllocError>
    ensures { IfOk result (λ corrected.
        IsCorrection (features_view manifest.now) (features_view index.now) (features_view corrected)) }
{
    let mut corrected = BTreeMap::new(alloc);
    add_absent(alloc, &mut corrected, manifest)?;
    add_absent(alloc, &mut corrected, index)?;
    let names = referred_names(alloc, &corrected)?;
    add_references(alloc, &mut corrected, &names)?;
    Ok(corrected)
}

/// Adds text_copies of the features whose names are absent.
fn add_absent(
    alloc: Global,
    features: &mut FeaturesMap,
    others: &FeaturesMap,
) -> Result<(), AllocError>
    ensures { OnOk result ((name : Text) → named (features_view features.new) name
        ≡ option_or (named (features_view features.old) name) (named (features_view others.now) name)) }
{
    for (name, values) in others {
        if !features.contains_key(name.as_str()) {
            let copy = text_copies(alloc, values)?;
            drop(features.insert(name.clone()?, copy)?);
        }
    }
    Ok(())
}

/// Copies of texts.
fn text_copies(alloc: Global, texts: &[String]) -> Result<Vec<String>, AllocError>
    ensures { IfOk result (λ copied. texts_view copied ≡ map text_view texts.now) }
{
    let mut copied = Vec::with_capacity(alloc, texts.len())?;
    for text in texts {
        copied.push(text.clone()?)?;
    }
    Ok(copied)
}

/// The names that aren't features and to which some value is a simple reference, in the order of the values.
fn referred_names(alloc: Global, features: &FeaturesMap) -> Result<Vec<String>, AllocError>
    ensures { IfOk result (λ names. (name : Text) → Contains (texts_view names) name
        ↔ ((named (features_view features.now) name ≡ None) × Refers (named (features_view features.now)) name)) }
{
    let mut names = Vec::new(alloc);
    for (_name, values) in features.iter() {
        add_referred(features, values, &mut names)?;
    }
    Ok(names)
}

/// Adds the simple references among these values whose names aren't features.
fn add_referred(
    features: &FeaturesMap,
    values: &[String],
    names: &mut Vec<String>,
) -> Result<(), AllocError>
    ensures { OnOk result ((name : Text)
        → Contains (texts_view names.new) name ↔ (Contains (texts_view names.old) name
        ⊎ (Contains (map text_view values.now) name × IsReference name (simple name) × (named (features_view features.now) name ≡ None)))) }
{
    for value in values {
        if is_absent_reference(features, value) {
            names.push(value.clone()?)?;
        }
    }
    Ok(())
}

/// Whether the text is a simple reference to a name that isn't a feature.
fn is_absent_reference(features: &FeaturesMap, value: &str) -> bool
    ensures { IsTrue result ↔ (IsReference value.now (simple value.now)
        × (named (features_view features.now) value.now ≡ None)) }
{
    krates_text::laws::one_reference();
    match ParsedFeature::from(value).feat() {
        Feature::Simple(_) => !features.contains_key(value),
        Feature::Krate(_) => false,
        Feature::Weak { .. } => false,
        Feature::Strong { .. } => false,
    }
}

/// Makes each name a feature that enables the dependency of that name.
fn add_references(
    alloc: Global,
    features: &mut FeaturesMap,
    names: &[String],
) -> Result<(), AllocError>
    ensures added { OnOk result ((name : Text) → Contains (map text_view names.now) name
        → named (features_view features.new) name ≡ Some (dependency_reference name ∷ [])) }
    ensures kept { OnOk result ((name : Text) → (Contains (map text_view names.now) name → ⊥)
        → named (features_view features.new) name ≡ named (features_view features.old) name) }
{
    for name in names {
        let reference = format!(in alloc; "dep:{name}")?;
        let values = vec![in alloc; reference]?;
        drop(features.insert(name.clone()?, values)?);
    }
    Ok(())
}
