//! Facts as keys of a map, and numbers of facts. Their texts are lent, and two keys compare as equal where they are the same fact.

ghost use Rattle.std.specs.Prelude.{◌≡◌, IfOk, ◌<◌, All, IfSome, MatchOption, Some, length, map, slice_get};
ghost use Rattle.krates_selection.specs.KeptFacts.{kept_view, edge_view, home, key_view, AreFactNumbers, AreNoPlaces};

use crate::kept::KeptFact;
use krates_rules::DepKind;
use std::alloc::{AllocError, Global};
use std::collections::BTreeMap;

/// A feature.
#[derive(Clone, Copy, PartialEq, Eq, PartialOrd, Ord)]
pub(crate) struct FeatureKey<'a> {
    /// The number of its crate.
    pub krate: usize,
    /// Its name.
    pub name: &'a str,
}

/// An edge.
#[derive(Clone, Copy, PartialEq, Eq, PartialOrd, Ord)]
pub(crate) struct KeptEdgeKey<'a> {
    /// The number of the crate that has the dependency.
    pub parent: usize,
    /// The number of the crate that it depends on.
    pub child: usize,
    /// For what it is needed.
    pub kind: DepKind,
    /// The target that it is needed for.
    pub cfg: &'a Option<String>,
}

/// A toggled feature.
#[derive(Clone, Copy, PartialEq, Eq, PartialOrd, Ord)]
pub(crate) struct ToggleKey<'a> {
    /// The number of the crate whose feature enables it.
    pub by: usize,
    /// The feature.
    pub feature: FeatureKey<'a>,
}

/// A fact.
#[derive(Clone, Copy, PartialEq, Eq, PartialOrd, Ord)]
pub(crate) enum KeptFactKey<'a> {
    /// The crate is kept.
    Crate(usize),
    /// The feature is enabled.
    Feature(FeatureKey<'a>),
    /// The edge is kept.
    Kept(KeptEdgeKey<'a>),
    /// The feature is toggled.
    Toggled(ToggleKey<'a>),
}

/// The number of the crate among whose facts a fact is looked for: the one that is kept or has the feature, or from which the edge or
/// the reference goes.
pub(crate) fn home_of(key: &KeptFactKey<'_>) -> usize
    ensures { result ≡ home (key_view key.now) }
{
    match key {
        KeptFactKey::Crate(krate) => *krate,
        KeptFactKey::Feature(feature) => feature.krate,
        KeptFactKey::Kept(edge) => edge.parent,
        KeptFactKey::Toggled(toggle) => toggle.by,
    }
}

/// The fact of a key, with copies of its texts.
pub(crate) fn fact_of(alloc: Global, key: &KeptFactKey<'_>) -> Result<KeptFact, AllocError>
    ensures { IfOk result (λ fact. kept_view fact ≡ key_view key.now) }
{
    match key {
        KeptFactKey::Crate(krate) => Ok(KeptFact::Crate { krate: *krate }),
        KeptFactKey::Feature(feature) => {
            Ok(KeptFact::Feature {
                krate: feature.krate,
                name: String::from_str(alloc, feature.name)?,
            })
        }
        KeptFactKey::Kept(edge) => edge_of(edge),
        KeptFactKey::Toggled(toggle) => {
            Ok(KeptFact::Toggled {
                by: toggle.by,
                krate: toggle.feature.krate,
                name: String::from_str(alloc, toggle.feature.name)?,
            })
        }
    }
}

/// The edge of a key.
fn edge_of(edge: &KeptEdgeKey<'_>) -> Result<KeptFact, AllocError>
    ensures { IfOk result (λ fact. kept_view fact ≡ edge_view edge.now) }
{
    Ok(KeptFact::Kept {
        parent: edge.parent,
        child: edge.child,
        kind: edge.kind,
        cfg: edge.cfg.clone()?,
    })
}

/// A number for each of these facts: the same for the same fact, and another for each other. It is the first place of the
/// fact. Their crates have numbers below the count.
///
/// A fact is looked for among those of its own crate, which are few beside all.
///
/// Time: O(n log n), with one look-up for each.
pub(crate) fn fact_numbers(
    alloc: Global,
    count: usize,
    keys: &[KeptFactKey<'_>],
) -> Result<Vec<usize>, AllocError>
    requires { All (λ f. home f < count) (map key_view keys.now) }
    ensures { IfOk result (λ numbers. AreFactNumbers (map key_view keys.now) numbers.items) }
{
    let mut homes = no_places(alloc, count)?;
    let mut numbers = Vec::with_capacity(alloc, keys.len())?;
    for (place, key) in keys.iter().enumerate() {
        let earlier = homes[home_of(key)].insert(*key, place)?;
        numbers.push(number_for(&numbers, earlier, place))?;
    }
    Ok(numbers)
}

/// For each of so many crates the places of its facts: none yet.
fn no_places<'a>(
    alloc: Global,
    count: usize,
) -> Result<Vec<BTreeMap<KeptFactKey<'a>, usize>>, AllocError>
    ensures { IfOk result (λ homes. AreNoPlaces count homes.items) }
{
    let mut homes = Vec::with_capacity(alloc, count)?;
    for _ in 0..count {
        homes.push(BTreeMap::new(alloc))?;
    }
    Ok(homes)
}

/// The number of the fact at an earlier place, where the fact at this place was there before, or else this place.
fn number_for(numbers: &[usize], earlier: Option<usize>, place: usize) -> usize
    requires { IfSome earlier (λ at. at < length numbers.now) }
    ensures { MatchOption earlier (result ≡ place) (λ at. slice_get numbers.now at ≡ Some result) }
{
    match earlier {
        Some(earlier) => numbers[earlier],
        None => place,
    }
}
