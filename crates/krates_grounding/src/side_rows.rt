//! Instances of the rules of features on each side.
#![tactic(auto, using(crate::proofs::WrittenRules::nothing_written, crate::proofs::WrittenRules::written_behind, crate::proofs::WrittenRules::written_each, crate::proofs::WrittenRules::written_all))]

ghost use Rattle.std.specs.Prelude.{◌≡◌, ◌++◌, OnOk, option_map};
ghost use Rattle.krates_build_tables.specs.References.{reference_view};
ghost use Rattle.krates_grounding.specs.Grounding.{HasWritten};
ghost use Rattle.krates_build_facts.specs.Rows.{activated_by_reference, activated_references, activated_strongly, available_below, counts, feature_behind, given_by_use, leads_from, toggled, used, used_by_name};

use crate::ground::Ground;
use krates_build_facts::BuildFact;
use krates_build_tables::{CrateEntry, FeatureReference, Link, LinkPlace, Tables};
use krates_units::Side;
use std::alloc::AllocError;

/// Whether a link counts for the features of a side.
fn counts(link: &Link<'_>, side: Side) -> bool
    ensures { result ≡ counts link.now side }
{
    match side {
        Side::Targets => link.counts_for_targets,
        Side::Host => link.counts_for_host,
    }
}

/// The side to which a link leads from a side.
fn leads_from(tables: &Tables<'_>, link: &Link<'_>, side: Side) -> Side
    ensures { result ≡ leads_from tables.now link.now side }
{
    match side {
        Side::Targets => link.leads_to,
        Side::Host => {
            if tables.is_first {
                Side::Targets
            } else {
                Side::Host
            }
        }
    }
}

/// Writes what a reference gives by itself.
pub(crate) fn write_by_reference<'a>(
    krate: usize,
    side: Side,
    reference: FeatureReference<'a>,
    ground: &mut Ground<'a>,
) -> Result<(), AllocError>
    ensures { OnOk result (HasWritten ground.old ground.new
        (activated_by_reference krate side (reference_view reference.entry))) }
{
    let premises = [BuildFact::ActivatedReference(krate, side, reference)];
    match reference {
        FeatureReference::Krate(name) => {
            ground.write(&premises, BuildFact::ActivatedName(krate, side, name))
        }
        FeatureReference::Simple(name) => {
            ground.write(&premises, BuildFact::ActivatedFeature(krate, side, name))
        }
        FeatureReference::Weak(_, _) | FeatureReference::Strong(_, _) => Ok(()),
    }
}

/// Writes the dependency that a reference turns on, and the feature of the same name.
pub(crate) fn write_strongly<'a>(
    krate: usize,
    side: Side,
    reference: FeatureReference<'a>,
    link: &Link<'a>,
    ground: &mut Ground<'a>,
) -> Result<(), AllocError>
    ensures { OnOk result (HasWritten ground.old ground.new
        (activated_strongly krate side (reference_view reference.entry) link.now)) }
{
    let premises = [
        BuildFact::ActivatedReference(krate, side, reference),
        BuildFact::Linked(link.place),
    ];
    let turns_on = reference.turns_on(link.name) && counts(link, side) && link.is_optional;
    let is_feature = turns_on && link.is_feature;
    ground.write_if(
        turns_on,
        &premises,
        BuildFact::ActivatedName(krate, side, link.name),
    )?;
    ground.write_if(
        is_feature,
        &premises,
        BuildFact::ActivatedFeature(krate, side, link.name),
    )
}

/// Writes the feature of the other crate that a reference names.
pub(crate) fn write_toggled<'a>(
    tables: &Tables<'a>,
    activated: (usize, Side),
    reference: FeatureReference<'a>,
    link: &Link<'a>,
    ground: &mut Ground<'a>,
) -> Result<(), AllocError>
    ensures { OnOk result (HasWritten ground.old ground.new
        (toggled tables.now activated.0 activated.1 (reference_view reference.entry) link.now)) }
{
    let (krate, side) = activated;
    match reference.feature_named(link.name) {
        Some(feature) => {
            let to = leads_from(tables, link, side);
            ground.write(
                &[
                    BuildFact::ActivatedReference(krate, side, reference),
                    BuildFact::Used(link.place, side),
                ],
                BuildFact::ActivatedFeature(link.child, to, feature),
            )
        }
        None => Ok(()),
    }
}

/// Writes the references of a feature.
pub(crate) fn write_references<'a>(
    krate: usize,
    side: Side,
    feature: &'a str,
    entry: &CrateEntry<'a>,
    ground: &mut Ground<'a>,
) -> Result<(), AllocError>
    ensures { OnOk result (HasWritten ground.old ground.new
        (activated_references krate side feature.now entry.now)) }
{
    let Some(references) = entry.features.get(&feature) else {
        return Ok(());
    };
    for reference in references {
        ground.write(
            &[BuildFact::ActivatedFeature(krate, side, feature)],
            BuildFact::ActivatedReference(krate, side, *reference),
        )?;
    }
    Ok(())
}

/// Writes a dependency of a crate that takes part.
pub(crate) fn write_used<'a>(
    krate: usize,
    side: Side,
    link: &Link<'a>,
    ground: &mut Ground<'a>,
) -> Result<(), AllocError>
    ensures { OnOk result (HasWritten ground.old ground.new (used krate side link.now)) }
{
    ground.write_if(
        counts(link, side) && !link.is_optional,
        &[
            BuildFact::Activated(krate, side),
            BuildFact::Linked(link.place),
        ],
        BuildFact::Used(link.place, side),
    )
}

/// Writes a dependency that is turned on by its name.
pub(crate) fn write_used_by_name<'a>(
    krate: usize,
    side: Side,
    name: &'a str,
    link: &Link<'a>,
    ground: &mut Ground<'a>,
) -> Result<(), AllocError>
    ensures { OnOk result (HasWritten ground.old ground.new (used_by_name krate side name.now link.now)) }
{
    ground.write_if(
        name == link.name && counts(link, side),
        &[
            BuildFact::ActivatedName(krate, side, name),
            BuildFact::Linked(link.place),
        ],
        BuildFact::Used(link.place, side),
    )
}

/// Writes what a dependency gives that counts.
pub(crate) fn write_given<'a>(
    tables: &Tables<'a>,
    place: LinkPlace,
    side: Side,
    link: &Link<'a>,
    ground: &mut Ground<'a>,
) -> Result<(), AllocError>
    ensures { OnOk result (HasWritten ground.old ground.new (given_by_use tables.now place side link.now)) }
{
    let used = BuildFact::Used(place, side);
    let to = leads_from(tables, link, side);
    ground.write(&[used], BuildFact::Activated(link.child, to))?;
    for feature in &link.given {
        ground.write(
            &[used],
            BuildFact::ActivatedFeature(link.child, to, feature),
        )?;
    }
    Ok(())
}

/// What follows the name and `/` in a text.
fn feature_behind<'a>(name: &str, text: &'a str) -> Option<&'a str>
    ensures { option_map (λ feature. feature.now) result ≡ feature_behind name.now text.now }
{
    match text.strip_prefix(name) {
        Some(rest) => rest.strip_prefix('/'),
        None => None,
    }
}

/// Writes a feature of the other crate, as a target may require it.
pub(crate) fn write_available<'a>(
    krate: usize,
    text: &'a str,
    link: &Link<'a>,
    ground: &mut Ground<'a>,
) -> Result<(), AllocError>
    ensures { OnOk result (HasWritten ground.old ground.new (available_below krate text.now link.now)) }
{
    match feature_behind(link.name, text) {
        Some(feature) => ground.write(
            &[
                BuildFact::Linked(link.place),
                BuildFact::ActivatedFeature(link.child, link.looks_on, feature),
            ],
            BuildFact::Available(krate, text),
        ),
        None => Ok(()),
    }
}
