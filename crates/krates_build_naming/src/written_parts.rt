//! The words for the parts of facts: what the tables call what has a number or a place, and nothing where they lack it.

ghost use Rattle.std.specs.Prelude.{◌≡◌, option_copied};
ghost use Rattle.krates_build_tables.specs.References.{reference_view};
ghost use Rattle.krates_build_naming.specs.WrittenParts.{AreDependencyTexts, AreReferenceTexts, AreTargetTexts, crate_text, lacking_in, lacking_texts, link_in, link_texts, machine_text, no_dependency, no_target, platform_text, reference_texts, target_in, target_texts, texts_of_lacking, texts_of_link, texts_of_target};

use crate::names::FactNames;
use crate::texts::{kind_text, target_kinds_text, target_text};
use krates_build_facts::PlatformNumber;
use krates_build_tables::{FeatureReference, Lacking, Link, LinkPlace, TargetEntry, TargetPlace};

/// The word for a crate, which is empty where there is none with the number.
pub(crate) fn crate_text<'s>(names: &FactNames<'s, '_>, krate: usize) -> &'s str
    ensures { result.now ≡ crate_text names.now krate }
{
    match names.ids.get(krate) {
        Some(id) => id.repr(),
        None => "",
    }
}

/// The word for a platform, which is empty where there is no machine with the number.
pub(crate) fn platform_text<'s>(names: &FactNames<'s, '_>, platform: PlatformNumber) -> &'s str
    ensures { result.now ≡ platform_text names.now platform }
{
    match platform {
        PlatformNumber::Host => "host",
        PlatformNumber::Machine(number) => machine_text(names, number),
    }
}

fn machine_text<'s>(names: &FactNames<'s, '_>, number: usize) -> &'s str
    ensures { result.now ≡ machine_text names.now number }
{
    match names.tables.machine(number) {
        Some(machine) => machine.triple(),
        None => "",
    }
}

/// The words for a reference.
#[derive(Clone, Copy)]
pub(crate) struct WrittenReference<'a> {
    /// The word for its form.
    pub form: &'a str,
    /// The name of a dependency or a feature.
    pub name: &'a str,
    /// A feature of the dependency, or nothing.
    pub feature: &'a str,
}

pub(crate) fn reference_texts<'a>(reference: FeatureReference<'a>) -> WrittenReference<'a>
    ensures { AreReferenceTexts result (reference_texts (reference_view reference.entry)) }
{
    match reference {
        FeatureReference::Krate(name) => written("dep", name, ""),
        FeatureReference::Weak(name, feature) => written("weak", name, feature),
        FeatureReference::Strong(name, feature) => written("strong", name, feature),
        FeatureReference::Simple(name) => written("feature", name, ""),
    }
}

fn written<'a>(form: &'a str, name: &'a str, feature: &'a str) -> WrittenReference<'a>
    ensures form { result.form.now ≡ form.now }
    ensures name { result.name.now ≡ name.now }
    ensures feature { result.feature.now ≡ feature.now }
{
    WrittenReference {
        form,
        name,
        feature,
    }
}

/// The words for a dependency, but that for the crate that has it.
#[derive(Clone, Copy)]
pub(crate) struct WrittenDependency<'a> {
    /// The word for the other crate.
    pub child: &'a str,
    /// The word for its kind.
    pub kind: &'a str,
    /// The word for its target text.
    pub target: &'a str,
    /// Its name.
    pub name: &'a str,
}

/// The words for a dependency that has an edge, which are empty where there is none at the place.
pub(crate) fn link_texts<'s>(names: &FactNames<'s, '_>, place: LinkPlace) -> WrittenDependency<'s>
    ensures { AreDependencyTexts result (link_texts names.now place) }
{
    match link_in(names, place) {
        Some(link) => texts_of_link(names, link),
        None => no_dependency(),
    }
}

fn link_in<'s, 't>(names: &FactNames<'s, 't>, place: LinkPlace) -> Option<&'s Link<'t>>
    ensures { option_copied result ≡ link_in names.now place }
{
    let entry = names.tables.entry(place.krate)?;
    entry.link(place.index)
}

fn texts_of_link<'s>(names: &FactNames<'s, '_>, link: &'s Link<'_>) -> WrittenDependency<'s>
    ensures { AreDependencyTexts result (texts_of_link names.now link.now) }
{
    WrittenDependency {
        child: crate_text(names, link.child),
        kind: kind_text(link.kind),
        target: target_text(link.cfg),
        name: link.name,
    }
}

fn no_dependency() -> WrittenDependency<'static>
    ensures { AreDependencyTexts result no_dependency }
{
    WrittenDependency {
        child: "",
        kind: "",
        target: "",
        name: "",
    }
}

/// The words for a dependency that is lacking, which has no other crate. They are empty where there is none at the place.
pub(crate) fn lacking_texts<'s>(
    names: &FactNames<'s, '_>,
    krate: usize,
    index: usize,
) -> WrittenDependency<'s>
    ensures { AreDependencyTexts result (lacking_texts names.now krate index) }
{
    match lacking_in(names, krate, index) {
        Some(lacking) => texts_of_lacking(lacking),
        None => no_dependency(),
    }
}

fn lacking_in<'s, 't>(
    names: &FactNames<'s, 't>,
    krate: usize,
    index: usize,
) -> Option<&'s Lacking<'t>>
    ensures { option_copied result ≡ lacking_in names.now krate index }
{
    let entry = names.tables.entry(krate)?;
    entry.lacking.get(index)
}

fn texts_of_lacking<'s>(lacking: &'s Lacking<'_>) -> WrittenDependency<'s>
    ensures { AreDependencyTexts result (texts_of_lacking lacking.now) }
{
    WrittenDependency {
        child: "",
        kind: kind_text(lacking.kind),
        target: target_text(lacking.declared.target.as_deref()),
        name: lacking.name,
    }
}

/// The words for a target, but that for its crate.
#[derive(Clone, Copy)]
pub(crate) struct WrittenTarget<'a> {
    /// The word for its kinds.
    pub kind: &'a str,
    /// Its name.
    pub name: &'a str,
}

/// The words for a target, which are empty where there is none at the place.
pub(crate) fn target_texts<'s>(names: &FactNames<'s, '_>, place: TargetPlace) -> WrittenTarget<'s>
    ensures { AreTargetTexts result (target_texts names.now place) }
{
    match target_in(names, place) {
        Some(target) => texts_of_target(target),
        None => no_target(),
    }
}

fn target_in<'s, 't>(names: &FactNames<'s, 't>, place: TargetPlace) -> Option<&'s TargetEntry<'t>>
    ensures { option_copied result ≡ target_in names.now place }
{
    let entry = names.tables.entry(place.krate)?;
    entry.target(place.index)
}

fn texts_of_target<'s>(target: &'s TargetEntry<'_>) -> WrittenTarget<'s>
    ensures { AreTargetTexts result (texts_of_target target.now) }
{
    WrittenTarget {
        kind: target_kinds_text(&target.target.kind),
        name: target.target.name.as_str(),
    }
}

fn no_target() -> WrittenTarget<'static>
    ensures { AreTargetTexts result no_target }
{
    WrittenTarget { kind: "", name: "" }
}
