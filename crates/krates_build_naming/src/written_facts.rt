//! The words of facts: their forms, and the words for their parts.

ghost use Rattle.std.specs.Prelude.{◌≡◌, [], ◌∷◌, ◌++◌, IfOk, codes, map, string_bytes};
ghost use Rattle.krates_build_facts.specs.FactModels.{fact_view};
ghost use Rattle.krates_build_tables.specs.References.{reference_view};
ghost use Rattle.krates_build_naming.specs.FactWords.{activating_words, building_words, fact_words, lacking_listed, link_listed, reference_listed, unit_listed};
ghost use Rattle.krates_build_naming.specs.WrittenParts.{crate_text};

use crate::names::FactNames;
use crate::texts::{meeting_text, mode_text, side_text};
use crate::written_parts::{
    crate_text, lacking_texts, link_texts, platform_text, reference_texts, target_texts,
};
use krates_build_facts::{BuildFact, UnitPlace};
use krates_build_tables::{FeatureReference, LinkPlace};
use std::alloc::{AllocError, Global};

/// The words of a fact.
pub(crate) fn fact_words(
    alloc: Global,
    names: &FactNames<'_, '_>,
    fact: &BuildFact<'_>,
) -> Result<Vec<String>, AllocError>
    ensures { IfOk result (λ words.
        map string_bytes words.items ≡ fact_words names.now (fact_view fact.now)) }
{
    match *fact {
        BuildFact::Met(krate, meeting) => {
            of_word(alloc, names, "met", krate, meeting_text(meeting))
        }
        BuildFact::LinkedReference(krate, meeting, reference) => {
            let word = crate_text(names, krate);
            let meeting = meeting_text(meeting);
            with_reference(alloc, "linked reference", word, meeting, reference)
        }
        BuildFact::LinkedFeature(krate, meeting, name) => {
            let word = crate_text(names, krate);
            of_words(alloc, "linked feature", word, meeting_text(meeting), name)
        }
        BuildFact::LinkedName(krate, meeting, name) => {
            let word = crate_text(names, krate);
            of_words(alloc, "linked name", word, meeting_text(meeting), name)
        }
        BuildFact::Linked(place) => linked(alloc, names, place),
        BuildFact::Lost(krate, index) => lost(alloc, names, krate, index),
        _ => activating_words(alloc, names, fact),
    }
}

/// The words of a fact about the features of each side, or of another.
fn activating_words(
    alloc: Global,
    names: &FactNames<'_, '_>,
    fact: &BuildFact<'_>,
) -> Result<Vec<String>, AllocError>
    ensures { IfOk result (λ words.
        map string_bytes words.items ≡ activating_words names.now (fact_view fact.now)) }
{
    match *fact {
        BuildFact::Activated(krate, side) => {
            of_word(alloc, names, "activated", krate, side_text(side))
        }
        BuildFact::ActivatedReference(krate, side, reference) => {
            let word = crate_text(names, krate);
            with_reference(
                alloc,
                "activated reference",
                word,
                side_text(side),
                reference,
            )
        }
        BuildFact::ActivatedFeature(krate, side, name) => {
            let word = crate_text(names, krate);
            of_words(alloc, "activated feature", word, side_text(side), name)
        }
        BuildFact::ActivatedName(krate, side, name) => {
            let word = crate_text(names, krate);
            of_words(alloc, "activated name", word, side_text(side), name)
        }
        BuildFact::Used(place, side) => used(alloc, names, place, side_text(side)),
        BuildFact::Available(krate, text) => of_word(alloc, names, "available", krate, text),
        _ => building_words(alloc, names, fact),
    }
}

/// The words of a fact about what is compiled and run.
fn building_words(
    alloc: Global,
    names: &FactNames<'_, '_>,
    fact: &BuildFact<'_>,
) -> Result<Vec<String>, AllocError>
    ensures { IfOk result (λ words.
        map string_bytes words.items ≡ building_words names.now (fact_view fact.now)) }
{
    match *fact {
        BuildFact::Compiled(unit) => with_unit(alloc, names, &["compiled"], unit),
        BuildFact::Needed(place, from, library) => {
            let link = link_texts(names, place);
            let front = [
                "needed",
                crate_text(names, place.krate),
                link.child,
                link.kind,
                link.target,
                link.name,
                platform_text(names, from),
            ];
            with_unit(alloc, names, &front, library)
        }
        BuildFact::ScriptRun(krate, at) => {
            let rest = [platform_text(names, at.platform), side_text(at.side)];
            of_crate(alloc, names, "script run", krate, &rest)
        }
        BuildFact::ScriptCompiled(krate, side) => {
            of_word(alloc, names, "script compiled", krate, side_text(side))
        }
        BuildFact::RunNeeded(place, from, run) => {
            let side = side_text(from.side);
            let machine = platform_text(names, run.platform);
            let rest = [
                platform_text(names, from.platform),
                side,
                machine,
                side_text(run.side),
            ];
            of_link(alloc, names, "run needed", place, &rest)
        }
        _ => Ok(Vec::new(alloc)),
    }
}

/// A form, the word for a crate, and another word.
fn of_word(
    alloc: Global,
    names: &FactNames<'_, '_>,
    form: &str,
    krate: usize,
    word: &str,
) -> Result<Vec<String>, AllocError>
    ensures { IfOk result (λ words. map string_bytes words.items
        ≡ form.now ∷ crate_text names.now krate ∷ word.now ∷ []) }
{
    let words = [form, crate_text(names, krate), word];
    extended(alloc, Vec::new(alloc), &words)
}

/// Four words.
fn of_words(
    alloc: Global,
    form: &str,
    krate: &str,
    word: &str,
    last: &str,
) -> Result<Vec<String>, AllocError>
    ensures { IfOk result (λ words. map string_bytes words.items
        ≡ form.now ∷ krate.now ∷ word.now ∷ last.now ∷ []) }
{
    let words = [form, krate, word, last];
    extended(alloc, Vec::new(alloc), &words)
}

/// The words of a dependency that exists.
fn linked(
    alloc: Global,
    names: &FactNames<'_, '_>,
    place: LinkPlace,
) -> Result<Vec<String>, AllocError>
    ensures { IfOk result (λ words. map string_bytes words.items
        ≡ codes "linked" ∷ link_listed names.now place) }
{
    let link = link_texts(names, place);
    let parent = crate_text(names, place.krate);
    let words = [
        "linked",
        parent,
        link.child,
        link.kind,
        link.target,
        link.name,
    ];
    extended(alloc, Vec::new(alloc), &words)
}

/// The words of a dependency that counts from a side.
fn used(
    alloc: Global,
    names: &FactNames<'_, '_>,
    place: LinkPlace,
    side: &str,
) -> Result<Vec<String>, AllocError>
    ensures { IfOk result (λ words. map string_bytes words.items
        ≡ codes "used" ∷ link_listed names.now place ++ side.now ∷ []) }
{
    of_link(alloc, names, "used", place, &[side])
}

/// A form, the word for a crate, and the rest.
fn of_crate(
    alloc: Global,
    names: &FactNames<'_, '_>,
    form: &str,
    krate: usize,
    rest: &[&str],
) -> Result<Vec<String>, AllocError>
    ensures { IfOk result (λ words. map string_bytes words.items
        ≡ form.now ∷ crate_text names.now krate ∷ map (λ word. word.now) rest.now) }
{
    listed(alloc, &[form, crate_text(names, krate)], rest)
}

/// A form, the words of a link, and the rest.
fn of_link(
    alloc: Global,
    names: &FactNames<'_, '_>,
    form: &str,
    place: LinkPlace,
    rest: &[&str],
) -> Result<Vec<String>, AllocError>
    ensures { IfOk result (λ words. map string_bytes words.items
        ≡ form.now ∷ link_listed names.now place ++ map (λ word. word.now) rest.now) }
{
    let link = link_texts(names, place);
    let parent = crate_text(names, place.krate);
    let front = [form, parent, link.child, link.kind, link.target, link.name];
    listed(alloc, &front, rest)
}

/// The words of a dependency that is lacking.
fn lost(
    alloc: Global,
    names: &FactNames<'_, '_>,
    krate: usize,
    index: usize,
) -> Result<Vec<String>, AllocError>
    ensures { IfOk result (λ words. map string_bytes words.items
        ≡ codes "lost" ∷ lacking_listed names.now krate index) }
{
    let lacking = lacking_texts(names, krate, index);
    let rest = [lacking.kind, lacking.target, lacking.name];
    of_crate(alloc, names, "lost", krate, &rest)
}

/// Three words, and those for a reference.
fn with_reference(
    alloc: Global,
    form: &str,
    krate: &str,
    word: &str,
    reference: FeatureReference<'_>,
) -> Result<Vec<String>, AllocError>
    ensures { IfOk result (λ words. map string_bytes words.items
        ≡ form.now ∷ krate.now ∷ word.now ∷ reference_listed (reference_view reference.entry)) }
{
    let written = reference_texts(reference);
    let front = [form, krate, word];
    listed(
        alloc,
        &front,
        &[written.form, written.name, written.feature],
    )
}

/// Words, and those for a unit.
fn with_unit(
    alloc: Global,
    names: &FactNames<'_, '_>,
    front: &[&str],
    unit: UnitPlace,
) -> Result<Vec<String>, AllocError>
    ensures { IfOk result (λ words. map string_bytes words.items
        ≡ map (λ word. word.now) front.now ++ unit_listed names.now unit) }
{
    let target = target_texts(names, unit.target);
    let placement = unit.placement;
    let rest = [
        crate_text(names, unit.target.krate),
        target.kind,
        target.name,
        mode_text(unit.mode),
        platform_text(names, placement.platform),
        side_text(placement.side),
    ];
    listed(alloc, front, &rest)
}

/// Copies of words, in two parts.
fn listed(alloc: Global, front: &[&str], rest: &[&str]) -> Result<Vec<String>, AllocError>
    ensures { IfOk result (λ words. map string_bytes words.items
        ≡ map (λ word. word.now) front.now ++ map (λ word. word.now) rest.now) }
{
    let words = extended(alloc, Vec::new(alloc), front)?;
    extended(alloc, words, rest)
}

/// Words, and copies of others behind them.
fn extended(alloc: Global, words: Vec<String>, more: &[&str]) -> Result<Vec<String>, AllocError>
    ensures { IfOk result (λ all. map string_bytes all.items
        ≡ map string_bytes words.items ++ map (λ word. word.now) more.now) }
{
    let mut all = words;
    for word in more {
        all.push(String::from_str(alloc, *word)?)?;
    }
    Ok(all)
}
