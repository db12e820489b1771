//! Build scripts for which cargo's answer depends on the order of its visits.
ghost use Rattle.std.specs.Prelude.{◌↔◌, ℕ, IsTrue, MatchOption, map};
ghost use Rattle.krates_built.specs.BuildLists.{IsListOf, IsListed, feature_cmp, feature_fact, feature_view};
ghost use Rattle.krates_built.specs.OrderAt.{Depends, DependsAt, Differs, HasDiffering, HasSameFeatures, IsFeatureOfBoth, IsFirstDependent, IsOnBothSides, IsOnOneSide, MayDiffer};

use crate::listed::Listed;
use crate::places::FeaturePlace;
use krates_build_facts::BuildFact;
use krates_build_tables::{CrateEntry, Link};
use krates_cm::DependencyKind;
use krates_grounding::Derived;
use krates_units::Side;

/// The first crate, by number, for which cargo's answer depends on the order of its visits; none where there is no such crate.
pub(crate) fn first_dependent(listed: &Listed<'_>) -> Option<usize>
    requires { IsListed listed.now }
    ensures { MatchOption result ((krate : ℕ) → ¬ DependsAt listed.now.derived krate)
        (IsFirstDependent listed.now.derived) }
{
    let tables = listed.derived.tables();
    if tables.is_first {
        return None;
    }
    for (krate, entry) in tables.crates.iter().enumerate() {
        if depends(listed, krate, entry) {
            return Some(krate);
        }
    }
    None
}

/// Whether it does for a crate, by a later resolver.
fn depends<'a>(listed: &Listed<'a>, krate: usize, entry: &CrateEntry<'a>) -> bool
    requires { IsListed listed.now }
    ensures { IsTrue result ↔ Depends listed.now.derived krate entry.now }
{
    is_on_both_sides(&listed.derived, krate)
        && has_differing(&listed.derived, krate, &entry.links)
        && has_same_features(&listed.derived, krate, &listed.lists.features)
}

/// Whether the crate's build script is compiled with the features of each side.
fn is_on_both_sides(derived: &Derived<'_>, krate: usize) -> bool
    ensures { IsTrue result ↔ IsOnBothSides derived.now krate }
{
    derived.holds(&BuildFact::ScriptCompiled(krate, Side::Targets))
        && derived.holds(&BuildFact::ScriptCompiled(krate, Side::Host))
}

/// Whether one of these links of the crate exists and differs by the side of its build script.
fn has_differing<'a>(derived: &Derived<'a>, krate: usize, links: &[Link<'a>]) -> bool
    ensures { IsTrue result ↔ HasDiffering derived.now krate links.now }
{
    for link in links {
        if differs(derived, krate, link) {
            return true;
        }
    }
    false
}

/// Whether this link of the crate does.
fn differs<'a>(derived: &Derived<'a>, krate: usize, link: &Link<'a>) -> bool
    ensures { IsTrue result ↔ Differs derived.now krate link.now }
{
    may_differ(link)
        && derived.holds(&BuildFact::Linked(link.place))
        && is_on_one_side(derived, krate, link.name)
}

/// Whether the link is of an optional dependency of a build script, and passes on the host.
fn may_differ(link: &Link<'_>) -> bool
    ensures { IsTrue result ↔ MayDiffer link.now }
{
    match link.kind {
        DependencyKind::Build => link.is_optional && link.passes_on_host,
        DependencyKind::Normal | DependencyKind::Development => false,
    }
}

/// Whether the crate's dependencies of this name are turned on from one side alone.
fn is_on_one_side<'a>(derived: &Derived<'a>, krate: usize, name: &'a str) -> bool
    ensures { IsTrue result ↔ IsOnOneSide derived.now krate name.now }
{
    let for_targets = derived.holds(&BuildFact::ActivatedName(krate, Side::Targets, name));
    let for_host = derived.holds(&BuildFact::ActivatedName(krate, Side::Host, name));
    for_targets != for_host
}

/// Whether the crate has the same features on both sides, where these are all that are enabled.
fn has_same_features<'a>(derived: &Derived<'a>, krate: usize, features: &[FeaturePlace<'a>]) -> bool
    requires { IsListOf derived.now feature_fact feature_cmp (map feature_view features.now) }
    ensures { IsTrue result ↔ HasSameFeatures derived.now krate }
{
    for feature in features {
        if feature.krate == krate && !is_feature_of_both(derived, krate, feature.name) {
            return false;
        }
    }
    true
}

/// Whether the feature of the crate is enabled on both sides.
fn is_feature_of_both<'a>(derived: &Derived<'a>, krate: usize, name: &'a str) -> bool
    ensures { IsTrue result ↔ IsFeatureOfBoth derived.now krate name.now }
{
    derived.holds(&BuildFact::ActivatedFeature(krate, Side::Targets, name))
        && derived.holds(&BuildFact::ActivatedFeature(krate, Side::Host, name))
}
