//! Whether what is sought is among the instances of the rules of features on each side.
#![tactic(auto, using(crate::proofs::FoundRows::nothing_found, crate::proofs::FoundRows::found_first, crate::proofs::FoundRows::found_second))]

ghost use Rattle.std.specs.Prelude.{◌≡◌, ◌&&◌, ◌++◌, ◌∷◌, [], map, option_map};
ghost use Rattle.krates_build_tables.specs.References.{reference_view, turns_on};
ghost use Rattle.krates_build_facts.specs.FactModels.{ActivatedFeature, ActivatedReference, Used};
ghost use Rattle.krates_build_facts.specs.Rows.{activated_by_reference, activated_references, activated_strongly, available_below, counts, feature_behind, given_by_use, leads_from, rule, toggled, used, used_by_name};
ghost use Rattle.krates_build_checkers.specs.Finding.{Finds};

use crate::sought::Sought;
use krates_build_facts::BuildFact;
use krates_build_tables::{CrateEntry, FeatureReference, Link, LinkPlace, Tables};
use krates_units::Side;

/// Whether a link counts for the features of a side.
fn counts(link: &Link<'_>, side: Side) -> bool
    ensures { result ≡ counts link.now side }
{
    match side {
        Side::Targets => link.counts_for_targets,
        Side::Host => link.counts_for_host,
    }
}

/// The side to which a link leads from a side.
fn leads_from(tables: &Tables<'_>, link: &Link<'_>, side: Side) -> Side
    ensures { result ≡ leads_from tables.now link.now side }
{
    match side {
        Side::Targets => link.leads_to,
        Side::Host => {
            if tables.is_first {
                Side::Targets
            } else {
                Side::Host
            }
        }
    }
}

/// Whether it is what a reference gives by itself.
pub(crate) fn finds_by_reference<'a>(
    krate: usize,
    side: Side,
    reference: FeatureReference<'a>,
    sought: &Sought<'_, 'a>,
) -> bool
    ensures { Finds result sought.now (activated_by_reference krate side (reference_view reference.entry)) }
{
    let premises = [BuildFact::ActivatedReference(krate, side, reference)];
    match reference {
        FeatureReference::Krate(name) => {
            sought.is(&premises, BuildFact::ActivatedName(krate, side, name))
        }
        FeatureReference::Simple(name) => {
            sought.is(&premises, BuildFact::ActivatedFeature(krate, side, name))
        }
        FeatureReference::Weak(_, _) | FeatureReference::Strong(_, _) => false,
    }
}

/// Whether it is what a reference gives over a link.
pub(crate) fn finds_over_link<'a>(
    tables: &Tables<'a>,
    activated: (usize, Side),
    reference: FeatureReference<'a>,
    link: &Link<'a>,
    sought: &Sought<'_, 'a>,
) -> bool
    ensures { let v = reference_view reference.entry in
        Finds result sought.now (activated_strongly activated.0 activated.1 v link.now
        ++ toggled tables.now activated.0 activated.1 v link.now) }
{
    let (krate, side) = activated;
    finds_turned_on(krate, side, reference, link, sought)
        || finds_toggled(tables, activated, reference, link, sought)
}

/// Whether a reference turns on the optional dependency of a link that counts for a side.
fn turns_on(reference: FeatureReference<'_>, link: &Link<'_>, side: Side) -> bool
    ensures { result ≡ (turns_on
        (reference_view reference.entry) link.now.name.now && counts link.now side && link.now.is_optional) }
{
    reference.turns_on(link.name) && counts(link, side) && link.is_optional
}

/// Whether it then turns on the feature of the same name too.
fn turns_on_feature(reference: FeatureReference<'_>, link: &Link<'_>, side: Side) -> bool
    ensures { result ≡ (turns_on
        (reference_view reference.entry) link.now.name.now && counts link.now side && link.now.is_optional
        && link.now.is_feature) }
{
    turns_on(reference, link, side) && link.is_feature
}

/// Whether it is the dependency that a reference turns on, or the feature of the same name.
fn finds_turned_on<'a>(
    krate: usize,
    side: Side,
    reference: FeatureReference<'a>,
    link: &Link<'a>,
    sought: &Sought<'_, 'a>,
) -> bool
    ensures { Finds result sought.now (activated_strongly krate side
        (reference_view reference.entry) link.now) }
{
    let premises = [
        BuildFact::ActivatedReference(krate, side, reference),
        BuildFact::Linked(link.place),
    ];
    let name = BuildFact::ActivatedName(krate, side, link.name);
    if sought.is_if(turns_on(reference, link, side), &premises, name) {
        return true;
    }
    let feature = BuildFact::ActivatedFeature(krate, side, link.name);
    sought.is_if(turns_on_feature(reference, link, side), &premises, feature)
}

/// Whether it is the feature of the other crate that a reference names.
fn finds_toggled<'a>(
    tables: &Tables<'a>,
    activated: (usize, Side),
    reference: FeatureReference<'a>,
    link: &Link<'a>,
    sought: &Sought<'_, 'a>,
) -> bool
    ensures { Finds result sought.now (toggled tables.now activated.0 activated.1
        (reference_view reference.entry) link.now) }
{
    let (krate, side) = activated;
    match reference.feature_named(link.name) {
        Some(feature) => {
            let to = leads_from(tables, link, side);
            sought.is(
                &[
                    BuildFact::ActivatedReference(krate, side, reference),
                    BuildFact::Used(link.place, side),
                ],
                BuildFact::ActivatedFeature(link.child, to, feature),
            )
        }
        None => false,
    }
}

/// Whether it is a reference of a feature.
pub(crate) fn finds_reference<'a>(
    krate: usize,
    side: Side,
    feature: &'a str,
    entry: &CrateEntry<'a>,
    sought: &Sought<'_, 'a>,
) -> bool
    ensures { Finds result sought.now (activated_references krate side feature.now entry.now) }
{
    match entry.features.get(&feature) {
        Some(references) => finds_listed(krate, side, feature, references, sought),
        None => false,
    }
}

fn finds_listed<'a>(
    krate: usize,
    side: Side,
    feature: &'a str,
    references: &[FeatureReference<'a>],
    sought: &Sought<'_, 'a>,
) -> bool
    ensures { Finds result sought.now (map (λ v. rule (ActivatedFeature krate side feature.now ∷ [])
        (ActivatedReference krate side (reference_view v))) references.now) }
{
    let premises = [BuildFact::ActivatedFeature(krate, side, feature)];
    for reference in references {
        let fact = BuildFact::ActivatedReference(krate, side, *reference);
        if sought.is(&premises, fact) {
            return true;
        }
    }
    false
}

/// Whether it is a dependency of a crate that takes part.
pub(crate) fn finds_used<'a>(
    krate: usize,
    side: Side,
    link: &Link<'a>,
    sought: &Sought<'_, 'a>,
) -> bool
    ensures { Finds result sought.now (used krate side link.now) }
{
    sought.is_if(
        counts(link, side) && !link.is_optional,
        &[
            BuildFact::Activated(krate, side),
            BuildFact::Linked(link.place),
        ],
        BuildFact::Used(link.place, side),
    )
}

/// Whether it is a dependency that is turned on by its name.
pub(crate) fn finds_used_by_name<'a>(
    krate: usize,
    side: Side,
    name: &'a str,
    link: &Link<'a>,
    sought: &Sought<'_, 'a>,
) -> bool
    ensures { Finds result sought.now (used_by_name krate side name.now link.now) }
{
    sought.is_if(
        name == link.name && counts(link, side),
        &[
            BuildFact::ActivatedName(krate, side, name),
            BuildFact::Linked(link.place),
        ],
        BuildFact::Used(link.place, side),
    )
}

/// Whether it is what a dependency gives that counts.
pub(crate) fn finds_given<'a>(
    tables: &Tables<'a>,
    place: LinkPlace,
    side: Side,
    link: &Link<'a>,
    sought: &Sought<'_, 'a>,
) -> bool
    ensures { Finds result sought.now (given_by_use tables.now place side link.now) }
{
    let to = leads_from(tables, link, side);
    let premises = [BuildFact::Used(place, side)];
    let activated = BuildFact::Activated(link.child, to);
    sought.is(&premises, activated)
        || finds_feature_given((place, side), (link.child, to), &link.given, sought)
}

/// Whether it is a feature that a dependency gives that counts from a side.
fn finds_feature_given<'a>(
    used: (LinkPlace, Side),
    to: (usize, Side),
    features: &[&'a str],
    sought: &Sought<'_, 'a>,
) -> bool
    ensures { Finds result sought.now (map (λ g. rule (Used used.0 used.1 ∷ [])
        (ActivatedFeature to.0 to.1 g.now)) features.now) }
{
    let (place, side) = used;
    let (child, on) = to;
    let premises = [BuildFact::Used(place, side)];
    for feature in features {
        let fact = BuildFact::ActivatedFeature(child, on, feature);
        if sought.is(&premises, fact) {
            return true;
        }
    }
    false
}

/// What follows the name and `/` in a text.
fn feature_behind<'a>(name: &str, text: &'a str) -> Option<&'a str>
    ensures { option_map (λ feature. feature.now) result ≡ feature_behind name.now text.now }
{
    match text.strip_prefix(name) {
        Some(rest) => rest.strip_prefix('/'),
        None => None,
    }
}

/// Whether it is a feature of the other crate, as a target may require it.
pub(crate) fn finds_available<'a>(
    krate: usize,
    text: &'a str,
    link: &Link<'a>,
    sought: &Sought<'_, 'a>,
) -> bool
    ensures { Finds result sought.now (available_below krate text.now link.now) }
{
    match feature_behind(link.name, text) {
        Some(feature) => sought.is(
            &[
                BuildFact::Linked(link.place),
                BuildFact::ActivatedFeature(link.child, link.looks_on, feature),
            ],
            BuildFact::Available(krate, text),
        ),
        None => false,
    }
}
