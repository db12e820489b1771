//! The features of one crate on one side.
ghost use Rattle.std.specs.Prelude.{◌≡◌, IfOk, map, option_map};
ghost use Rattle.std.specs.Cmp.Lexicographic.{slice_cmp};
ghost use Rattle.std.specs.Ordering.{nat_cmp};
ghost use Rattle.krates_built.specs.BuildLists.{IsListOf, feature_cmp, feature_fact, feature_view};
ghost use Rattle.krates_built.specs.FeaturesOf.{name_at};
ghost use Rattle.krates_build_tables.specs.declared.tables.Tables.{Tables};
ghost use Rattle.krates_build_facts.specs.FactModels.{ActivatedFeature};

use crate::places::FeaturePlace;
use krates_units::Side;
use std::alloc::{AllocError, Global};

/// The names of the features of the crate on the side, where these are all that are enabled.
pub(crate) fn names_of<'a>(
    alloc: Global,
    features: &[FeaturePlace<'a>],
    krate: usize,
    side: Side,
) -> Result<Vec<&'a str>, AllocError>
    ensures { IfOk result (λ names. (t : Tables)
        → IsListOf t feature_fact feature_cmp (map feature_view features.now)
        → IsListOf t (ActivatedFeature krate side) (slice_cmp nat_cmp) (map (λ n. n.now) names.items)) }
{
    let mut names = Vec::new(alloc);
    for feature in features {
        if let Some(name) = name_at(feature, krate, side) {
            names.push(name)?;
        }
    }
    Ok(names)
}

/// The name of the feature, if it is one of the crate on the side.
fn name_at<'a>(feature: &FeaturePlace<'a>, krate: usize, side: Side) -> Option<&'a str>
    ensures { option_map (λ n. n.now) result ≡ name_at krate side (feature_view feature.now) }
{
    if feature.krate == krate && feature.side == side {
        Some(feature.name)
    } else {
        None
    }
}
