//! Whether what is sought is among the instances of rules in the tables of a document and a build.
#![tactic(auto, using(crate::proofs::FoundRows::nothing_found, crate::proofs::FoundRows::found_first, crate::proofs::FoundRows::found_second))]

ghost use Rattle.std.specs.Prelude.{◌≡◌, ◌↔◌, ◌++◌, IsTrue, slice_get};
ghost use Rattle.std.specs.List.{flat_map};
ghost use Rattle.krates_build_facts.specs.FactModels.{fact_view};
ghost use Rattle.krates_build_facts.specs.Meanings.{IsRow};
ghost use Rattle.krates_build_facts.specs.Rows.{entry_rows, given_by_link, given_by_use, home, libraries_of_unit, link_rows, of_some, rows_alone, rows_in, rows_of, runs_of_unit};
ghost use Rattle.krates_build_facts.specs.Steps.{step_view};
ghost use Rattle.krates_build_checkers.specs.Finding.{Finds};

use crate::initial::finds_initial;
use crate::sought::Sought;
use crate::{linking, runs, sides, units};
use krates_build_facts::{BuildFact, BuildStep, UnitPlace};
use krates_build_tables::{CrateEntry, Link, LinkPlace, Tables};
use krates_units::Side;

/// Whether a step is an instance of a rule. Each instance that isn't one that a build begins with begins with one of its premises, or with
/// its fact. Time O(n) for all links, targets and features of the crates of its facts; of all crates, if it begins with none of these.
pub(crate) fn is_row<'a>(tables: &Tables<'a>, step: &BuildStep<'a>) -> bool
    ensures { IsTrue result ↔ IsRow tables.now (step_view step.now).premises (step_view step.now).fact }
{
    let sought = Sought::Step(step);
    if finds_begun_by_some(tables, &step.premises, &sought) {
        return true;
    }
    finds_begun(tables, &step.fact, &sought) || finds_initial(tables, &sought)
}

/// Whether what is sought begins with one of these facts.
pub(crate) fn finds_begun_by_some<'a>(
    tables: &Tables<'a>,
    facts: &[BuildFact<'a>],
    sought: &Sought<'_, 'a>,
) -> bool
    ensures { Finds result sought.now (flat_map (λ fact. rows_of tables.now (fact_view fact)) facts.now) }
{
    for fact in facts {
        if finds_begun(tables, fact, sought) {
            return true;
        }
    }
    false
}

/// The number of the crate in whose tables a fact is looked up.
fn home_of(fact: &BuildFact<'_>) -> usize
    ensures { result ≡ home (fact_view fact.now) }
{
    match *fact {
        BuildFact::Met(krate, _)
        | BuildFact::LinkedReference(krate, _, _)
        | BuildFact::LinkedFeature(krate, _, _)
        | BuildFact::LinkedName(krate, _, _)
        | BuildFact::Lost(krate, _)
        | BuildFact::Activated(krate, _)
        | BuildFact::ActivatedReference(krate, _, _)
        | BuildFact::ActivatedFeature(krate, _, _)
        | BuildFact::ActivatedName(krate, _, _)
        | BuildFact::Available(krate, _)
        | BuildFact::ScriptRun(krate, _)
        | BuildFact::ScriptCompiled(krate, _) => krate,
        BuildFact::Linked(place)
        | BuildFact::Used(place, _)
        | BuildFact::Needed(place, _, _)
        | BuildFact::RunNeeded(place, _, _) => place.krate,
        BuildFact::Compiled(unit) => unit.target.krate,
    }
}

/// Whether it begins with a fact.
pub(crate) fn finds_begun<'a>(
    tables: &Tables<'a>,
    fact: &BuildFact<'a>,
    sought: &Sought<'_, 'a>,
) -> bool
    ensures { Finds result sought.now (rows_of tables.now (fact_view fact.now)) }
{
    finds_alone(fact, sought) || finds_at_home(tables, fact, sought)
}

/// Whether it is one of a fact by itself.
fn finds_alone<'a>(fact: &BuildFact<'a>, sought: &Sought<'_, 'a>) -> bool
    ensures { Finds result sought.now (rows_alone (fact_view fact.now)) }
{
    match *fact {
        BuildFact::LinkedReference(krate, meeting, reference) => {
            linking::finds_by_reference(krate, meeting, reference, sought)
        }
        BuildFact::ActivatedReference(krate, side, reference) => {
            sides::finds_by_reference(krate, side, reference, sought)
        }
        BuildFact::Available(krate, text) => sought.is(
            &[BuildFact::ActivatedFeature(krate, Side::Targets, text)],
            *fact,
        ),
        BuildFact::Needed(_, _, library) => sought.is(&[*fact], BuildFact::Compiled(library)),
        BuildFact::ScriptRun(krate, placement) => {
            sought.is(&[*fact], BuildFact::ScriptCompiled(krate, placement.side))
        }
        _ => false,
    }
}

/// Whether it is one of a fact of a crate.
fn finds_at_home<'a>(tables: &Tables<'a>, fact: &BuildFact<'a>, sought: &Sought<'_, 'a>) -> bool
    ensures { Finds result sought.now (of_some
        (slice_get tables.now.crates.items (home (fact_view fact.now)))
        (rows_in tables.now (fact_view fact.now))) }
{
    match tables.entry(home_of(fact)) {
        Some(entry) => finds_of_crate(tables, fact, entry, sought),
        None => false,
    }
}

fn finds_of_crate<'a>(
    tables: &Tables<'a>,
    fact: &BuildFact<'a>,
    entry: &CrateEntry<'a>,
    sought: &Sought<'_, 'a>,
) -> bool
    ensures { Finds result sought.now (rows_in tables.now (fact_view fact.now) entry.now) }
{
    finds_of_links(tables, fact, entry, sought) || finds_of_entry(tables, fact, entry, sought)
}

/// Whether it is one of a fact of a crate and one of its links.
#[tactic(auto, using(crate::proofs::FoundRows::nothing_found, crate::proofs::FoundRows::none_more, crate::proofs::FoundRows::found_at, crate::proofs::FoundRows::none_at_all))]
fn finds_of_links<'a>(
    tables: &Tables<'a>,
    fact: &BuildFact<'a>,
    entry: &CrateEntry<'a>,
    sought: &Sought<'_, 'a>,
) -> bool
    ensures { Finds result sought.now (flat_map
        (link_rows tables.now entry.now (fact_view fact.now)) entry.now.links.items) }
{
    for link in &entry.links {
        if finds_of_link(tables, fact, entry, link, sought) {
            return true;
        }
    }
    false
}

fn finds_of_link<'a>(
    tables: &Tables<'a>,
    fact: &BuildFact<'a>,
    entry: &CrateEntry<'a>,
    link: &Link<'a>,
    sought: &Sought<'_, 'a>,
) -> bool
    ensures { Finds result sought.now (link_rows tables.now entry.now (fact_view fact.now) link.now) }
{
    match *fact {
        BuildFact::Met(krate, meeting) => linking::finds_linked(krate, meeting, link, sought),
        BuildFact::LinkedReference(krate, meeting, reference) => {
            linking::finds_toggled(krate, meeting, reference, link, sought)
        }
        BuildFact::Activated(krate, side) => sides::finds_used(krate, side, link, sought),
        BuildFact::ActivatedReference(krate, side, reference) => {
            sides::finds_over_link(tables, (krate, side), reference, link, sought)
        }
        BuildFact::ActivatedName(krate, side, name) => {
            sides::finds_used_by_name(krate, side, name, link, sought)
        }
        BuildFact::Available(krate, text) => sides::finds_available(krate, text, link, sought),
        BuildFact::Compiled(unit) => finds_of_compiled(tables, entry, unit, link, sought),
        BuildFact::ScriptCompiled(krate, side) => {
            units::finds_of_script(tables, krate, side, link, sought)
        }
        _ => false,
    }
}

/// Whether it is one of a unit and a link of its crate.
fn finds_of_compiled<'a>(
    tables: &Tables<'a>,
    entry: &CrateEntry<'a>,
    unit: UnitPlace,
    link: &Link<'a>,
    sought: &Sought<'_, 'a>,
) -> bool
    ensures { Finds result sought.now (libraries_of_unit tables.now entry.now unit link.now
        ++ runs_of_unit tables.now entry.now unit link.now) }
{
    units::finds_of_unit(tables, entry, unit, link, sought)
        || runs::finds_of_unit(tables, entry, unit, link, sought)
}

/// Whether it is one of a fact of a crate and what else its entry has.
fn finds_of_entry<'a>(
    tables: &Tables<'a>,
    fact: &BuildFact<'a>,
    entry: &CrateEntry<'a>,
    sought: &Sought<'_, 'a>,
) -> bool
    ensures { Finds result sought.now (entry_rows tables.now entry.now (fact_view fact.now)) }
{
    match *fact {
        BuildFact::Met(krate, meeting) => linking::finds_lost(
            krate,
            meeting,
            &entry.lacking,
            sought,
        ),
        BuildFact::LinkedReference(krate, meeting, reference) => {
            linking::finds_implied_in(krate, meeting, reference, entry, sought)
        }
        BuildFact::LinkedFeature(krate, meeting, feature) => {
            linking::finds_reference(krate, meeting, feature, entry, sought)
        }
        BuildFact::ActivatedFeature(krate, side, feature) => {
            sides::finds_reference(krate, side, feature, entry, sought)
        }
        BuildFact::Compiled(unit) => units::finds_beside(entry, unit, sought),
        BuildFact::Linked(place) => finds_given_by_link(entry, place, sought),
        BuildFact::Used(place, side) => finds_given_by_use(tables, entry, (place, side), sought),
        _ => false,
    }
}

/// Whether it is what a link of a crate gives, if it exists.
fn finds_given_by_link<'a>(
    entry: &CrateEntry<'a>,
    place: LinkPlace,
    sought: &Sought<'_, 'a>,
) -> bool
    ensures { Finds result sought.now (of_some (slice_get entry.now.links.items place.index)
        (given_by_link place)) }
{
    match entry.link(place.index) {
        Some(link) => linking::finds_given(place, link, sought),
        None => false,
    }
}

/// Whether it is what a link of a crate gives, if it counts for a side.
fn finds_given_by_use<'a>(
    tables: &Tables<'a>,
    entry: &CrateEntry<'a>,
    used: (LinkPlace, Side),
    sought: &Sought<'_, 'a>,
) -> bool
    ensures { Finds result sought.now (of_some (slice_get entry.now.links.items used.0.index)
        (given_by_use tables.now used.0 used.1)) }
{
    let (place, side) = used;
    match entry.link(place.index) {
        Some(link) => sides::finds_given(tables, place, side, link, sought),
        None => false,
    }
}
