//! Instances of the rules that say which dependencies exist.
#![tactic(auto, using(crate::proofs::WrittenRules::nothing_written, crate::proofs::WrittenRules::written_behind, crate::proofs::WrittenRules::written_each, crate::proofs::WrittenRules::written_all))]

ghost use Rattle.std.specs.Prelude.{◌≡◌, OnOk, map};
ghost use Rattle.std.specs.List.{flat_map};
ghost use Rattle.krates_build_tables.specs.References.{reference_view};
ghost use Rattle.krates_grounding.specs.Grounding.{HasWritten};
ghost use Rattle.krates_build_facts.specs.Rows.{given_by_link, linked, linked_by_reference, linked_implied, linked_references, linked_toggled, lost, takes_kind};

use crate::ground::Ground;
use krates_build_facts::BuildFact;
use krates_build_tables::{CrateEntry, FeatureReference, Lacking, Link, LinkPlace};
use krates_cm::DependencyKind;
use krates_units::Meeting;
use std::alloc::AllocError;

/// Whether a crate that is met so has dependencies of this kind.
fn takes_kind(meeting: Meeting, kind: DependencyKind) -> bool
    ensures { result ≡ takes_kind meeting kind }
{
    match (meeting, kind) {
        (Meeting::Dependency, DependencyKind::Development) => false,
        _ => true,
    }
}

/// Writes what a reference gives by itself.
pub(crate) fn write_by_reference<'a>(
    krate: usize,
    meeting: Meeting,
    reference: FeatureReference<'a>,
    ground: &mut Ground<'a>,
) -> Result<(), AllocError>
    ensures { OnOk result (HasWritten ground.old ground.new
        (linked_by_reference krate meeting (reference_view reference.entry))) }
{
    let premises = [BuildFact::LinkedReference(krate, meeting, reference)];
    let fact = match reference {
        FeatureReference::Krate(name)
        | FeatureReference::Weak(name, _)
        | FeatureReference::Strong(name, _) => BuildFact::LinkedName(krate, meeting, name),
        FeatureReference::Simple(name) => BuildFact::LinkedFeature(krate, meeting, name),
    };
    ground.write(&premises, fact)
}

/// Writes the features that names of optional dependencies imply.
pub(crate) fn write_implied<'a>(
    krate: usize,
    meeting: Meeting,
    reference: FeatureReference<'a>,
    names: &[&'a str],
    ground: &mut Ground<'a>,
) -> Result<(), AllocError>
    ensures { OnOk result (HasWritten ground.old ground.new
        (flat_map (λ name. linked_implied krate meeting (reference_view reference.entry) name.now) names.now)) }
{
    for name in names {
        ground.write_if(
            reference.turns_on(name),
            &[BuildFact::LinkedReference(krate, meeting, reference)],
            BuildFact::LinkedFeature(krate, meeting, name),
        )?;
    }
    Ok(())
}

/// Writes the feature of the other crate that a reference names.
pub(crate) fn write_toggled<'a>(
    krate: usize,
    meeting: Meeting,
    reference: FeatureReference<'a>,
    link: &Link<'a>,
    ground: &mut Ground<'a>,
) -> Result<(), AllocError>
    ensures { OnOk result (HasWritten ground.old ground.new
        (linked_toggled krate meeting (reference_view reference.entry) link.now)) }
{
    match reference.feature_named(link.name) {
        Some(feature) => ground.write_if(
            takes_kind(meeting, link.kind),
            &[BuildFact::LinkedReference(krate, meeting, reference)],
            BuildFact::LinkedFeature(link.child, Meeting::Dependency, feature),
        ),
        None => Ok(()),
    }
}

/// Writes the references of a feature.
pub(crate) fn write_references<'a>(
    krate: usize,
    meeting: Meeting,
    feature: &'a str,
    entry: &CrateEntry<'a>,
    ground: &mut Ground<'a>,
) -> Result<(), AllocError>
    ensures { OnOk result (HasWritten ground.old ground.new
        (linked_references krate meeting feature.now entry.now)) }
{
    let Some(references) = entry.features.get(&feature) else {
        return Ok(());
    };
    for reference in references {
        ground.write(
            &[BuildFact::LinkedFeature(krate, meeting, feature)],
            BuildFact::LinkedReference(krate, meeting, *reference),
        )?;
    }
    Ok(())
}

/// Writes a dependency of a crate that is met.
pub(crate) fn write_linked<'a>(
    krate: usize,
    meeting: Meeting,
    link: &Link<'a>,
    ground: &mut Ground<'a>,
) -> Result<(), AllocError>
    ensures { OnOk result (HasWritten ground.old ground.new (linked krate meeting link.now)) }
{
    let takes = takes_kind(meeting, link.kind);
    let met = BuildFact::Met(krate, meeting);
    let fact = BuildFact::Linked(link.place);
    if link.is_optional {
        let named = BuildFact::LinkedName(krate, meeting, link.name);
        ground.write_if(takes, &[met, named], fact)
    } else {
        ground.write_if(takes, &[met], fact)
    }
}

/// Writes the dependencies of a crate that is met that are lost.
pub(crate) fn write_lost<'a>(
    krate: usize,
    meeting: Meeting,
    lacking: &[Lacking<'a>],
    ground: &mut Ground<'a>,
) -> Result<(), AllocError>
    ensures { OnOk result (HasWritten ground.old ground.new (flat_map (lost krate meeting) lacking.now)) }
{
    for dep in lacking {
        write_one_lost(krate, meeting, dep, ground)?;
    }
    Ok(())
}

fn write_one_lost<'a>(
    krate: usize,
    meeting: Meeting,
    dep: &Lacking<'a>,
    ground: &mut Ground<'a>,
) -> Result<(), AllocError>
    ensures { OnOk result (HasWritten ground.old ground.new (lost krate meeting dep.now)) }
{
    let takes = takes_kind(meeting, dep.kind);
    let met = BuildFact::Met(krate, meeting);
    let fact = BuildFact::Lost(dep.krate, dep.index);
    if dep.is_optional {
        let named = BuildFact::LinkedName(krate, meeting, dep.name);
        ground.write_if(takes, &[met, named], fact)
    } else {
        ground.write_if(takes, &[met], fact)
    }
}

/// Writes what a dependency gives that exists.
pub(crate) fn write_given<'a>(
    place: LinkPlace,
    link: &Link<'a>,
    ground: &mut Ground<'a>,
) -> Result<(), AllocError>
    ensures { OnOk result (HasWritten ground.old ground.new (given_by_link place link.now)) }
{
    let linked = BuildFact::Linked(place);
    ground.write(&[linked], BuildFact::Met(link.child, Meeting::Dependency))?;
    for feature in &link.given {
        ground.write(
            &[linked],
            BuildFact::LinkedFeature(link.child, Meeting::Dependency, feature),
        )?;
    }
    Ok(())
}
