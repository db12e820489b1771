//! Whether what is sought is among the instances of the rules that say which dependencies exist.
#![tactic(auto, using(crate::proofs::FoundRows::nothing_found, crate::proofs::FoundRows::none_more, crate::proofs::FoundRows::found_at, crate::proofs::FoundRows::none_at_all))]

ghost use Rattle.std.specs.Prelude.{◌≡◌, ◌∷◌, [], map};
ghost use Rattle.std.specs.List.{flat_map};
ghost use Rattle.krates_build_tables.specs.References.{reference_view};
ghost use Rattle.krates_build_facts.specs.FactModels.{Linked, LinkedFeature, LinkedReference};
ghost use Rattle.krates_build_facts.specs.Rows.{given_by_link, linked, linked_by_reference, linked_implied, linked_references, linked_toggled, lost, rule, takes_kind};
ghost use Rattle.krates_units.specs.declared.sides.Meeting.TheVariants as meetings;
ghost use Rattle.krates_build_checkers.specs.Finding.{Finds};

use crate::sought::Sought;
use krates_build_facts::BuildFact;
use krates_build_tables::{CrateEntry, FeatureReference, Lacking, Link, LinkPlace};
use krates_cm::DependencyKind;
use krates_units::Meeting;

/// Whether a crate that is met so has dependencies of this kind.
fn takes_kind(meeting: Meeting, kind: DependencyKind) -> bool
    ensures { result ≡ takes_kind meeting kind }
{
    match meeting {
        Meeting::Root => true,
        Meeting::Dependency => match kind {
            DependencyKind::Development => false,
            DependencyKind::Normal | DependencyKind::Build => true,
        },
    }
}

/// Whether it is what a reference gives by itself.
pub(crate) fn finds_by_reference<'a>(
    krate: usize,
    meeting: Meeting,
    reference: FeatureReference<'a>,
    sought: &Sought<'_, 'a>,
) -> bool
    ensures { Finds result sought.now (linked_by_reference krate meeting (reference_view reference.entry)) }
{
    let premises = [BuildFact::LinkedReference(krate, meeting, reference)];
    let fact = match reference {
        FeatureReference::Krate(name)
        | FeatureReference::Weak(name, _)
        | FeatureReference::Strong(name, _) => BuildFact::LinkedName(krate, meeting, name),
        FeatureReference::Simple(name) => BuildFact::LinkedFeature(krate, meeting, name),
    };
    sought.is(&premises, fact)
}

/// Whether it is a feature that the name of an optional dependency of a crate implies.
pub(crate) fn finds_implied_in<'a>(
    krate: usize,
    meeting: Meeting,
    reference: FeatureReference<'a>,
    entry: &CrateEntry<'a>,
    sought: &Sought<'_, 'a>,
) -> bool
    ensures { Finds result sought.now (flat_map
        (λ name. linked_implied krate meeting
        (reference_view reference.entry) name.now) entry.now.implied.items) }
{
    finds_implied(krate, meeting, reference, &entry.implied, sought)
}

/// Whether it is a feature that one of these names implies.
fn finds_implied<'a>(
    krate: usize,
    meeting: Meeting,
    reference: FeatureReference<'a>,
    names: &[&'a str],
    sought: &Sought<'_, 'a>,
) -> bool
    ensures { Finds result sought.now (flat_map
        (λ name. linked_implied krate meeting (reference_view reference.entry) name.now) names.now) }
{
    let premises = [BuildFact::LinkedReference(krate, meeting, reference)];
    for name in names {
        let feature = BuildFact::LinkedFeature(krate, meeting, name);
        if sought.is_if(reference.turns_on(name), &premises, feature) {
            return true;
        }
    }
    false
}

/// Whether it is the feature of the other crate that a reference names.
pub(crate) fn finds_toggled<'a>(
    krate: usize,
    meeting: Meeting,
    reference: FeatureReference<'a>,
    link: &Link<'a>,
    sought: &Sought<'_, 'a>,
) -> bool
    ensures { Finds result sought.now (linked_toggled krate meeting
        (reference_view reference.entry) link.now) }
{
    match reference.feature_named(link.name) {
        Some(feature) => sought.is_if(
            takes_kind(meeting, link.kind),
            &[BuildFact::LinkedReference(krate, meeting, reference)],
            BuildFact::LinkedFeature(link.child, Meeting::Dependency, feature),
        ),
        None => false,
    }
}

/// Whether it is a reference of a feature.
pub(crate) fn finds_reference<'a>(
    krate: usize,
    meeting: Meeting,
    feature: &'a str,
    entry: &CrateEntry<'a>,
    sought: &Sought<'_, 'a>,
) -> bool
    ensures { Finds result sought.now (linked_references krate meeting feature.now entry.now) }
{
    match entry.features.get(&feature) {
        Some(references) => finds_listed(krate, meeting, feature, references, sought),
        None => false,
    }
}

fn finds_listed<'a>(
    krate: usize,
    meeting: Meeting,
    feature: &'a str,
    references: &[FeatureReference<'a>],
    sought: &Sought<'_, 'a>,
) -> bool
    ensures { Finds result sought.now (map (λ v. rule (LinkedFeature krate meeting feature.now ∷ [])
        (LinkedReference krate meeting (reference_view v))) references.now) }
{
    let premises = [BuildFact::LinkedFeature(krate, meeting, feature)];
    for reference in references {
        let fact = BuildFact::LinkedReference(krate, meeting, *reference);
        if sought.is(&premises, fact) {
            return true;
        }
    }
    false
}

/// Whether it is a dependency of a crate that is met.
pub(crate) fn finds_linked<'a>(
    krate: usize,
    meeting: Meeting,
    link: &Link<'a>,
    sought: &Sought<'_, 'a>,
) -> bool
    ensures { Finds result sought.now (linked krate meeting link.now) }
{
    let takes = takes_kind(meeting, link.kind);
    let met = BuildFact::Met(krate, meeting);
    let fact = BuildFact::Linked(link.place);
    if link.is_optional {
        let named = BuildFact::LinkedName(krate, meeting, link.name);
        sought.is_if(takes, &[met, named], fact)
    } else {
        sought.is_if(takes, &[met], fact)
    }
}

/// Whether it is a dependency of a crate that is met that is lost.
pub(crate) fn finds_lost<'a>(
    krate: usize,
    meeting: Meeting,
    lacking: &[Lacking<'a>],
    sought: &Sought<'_, 'a>,
) -> bool
    ensures { Finds result sought.now (flat_map (lost krate meeting) lacking.now) }
{
    for dep in lacking {
        if finds_one_lost(krate, meeting, dep, sought) {
            return true;
        }
    }
    false
}

fn finds_one_lost<'a>(
    krate: usize,
    meeting: Meeting,
    dep: &Lacking<'a>,
    sought: &Sought<'_, 'a>,
) -> bool
    ensures { Finds result sought.now (lost krate meeting dep.now) }
{
    let takes = takes_kind(meeting, dep.kind);
    let met = BuildFact::Met(krate, meeting);
    let fact = BuildFact::Lost(dep.krate, dep.index);
    if dep.is_optional {
        let named = BuildFact::LinkedName(krate, meeting, dep.name);
        sought.is_if(takes, &[met, named], fact)
    } else {
        sought.is_if(takes, &[met], fact)
    }
}

/// Whether it is what a dependency gives that exists.
pub(crate) fn finds_given<'a>(place: LinkPlace, link: &Link<'a>, sought: &Sought<'_, 'a>) -> bool
    ensures { Finds result sought.now (given_by_link place link.now) }
{
    let premises = [BuildFact::Linked(place)];
    let met = BuildFact::Met(link.child, Meeting::Dependency);
    sought.is(&premises, met) || finds_feature_given(place, link.child, &link.given, sought)
}

/// Whether it is a feature that a dependency gives that exists.
fn finds_feature_given<'a>(
    place: LinkPlace,
    child: usize,
    features: &[&'a str],
    sought: &Sought<'_, 'a>,
) -> bool
    ensures { Finds result sought.now (map (λ g. rule (Linked place ∷ [])
        (LinkedFeature child meetings.Dependency g.now)) features.now) }
{
    let premises = [BuildFact::Linked(place)];
    for feature in features {
        let fact = BuildFact::LinkedFeature(child, Meeting::Dependency, feature);
        if sought.is(&premises, fact) {
            return true;
        }
    }
    false
}
