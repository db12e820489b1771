//! The instances of rules that begin with a fact, in the tables of a document and a build.
#![tactic(auto, using(crate::proofs::WrittenRules::nothing_written, crate::proofs::WrittenRules::written_behind, crate::proofs::WrittenRules::written_each, crate::proofs::WrittenRules::written_all))]

ghost use Rattle.std.specs.Prelude.{◌≡◌, OnOk};
ghost use Rattle.std.specs.List.{flat_map};
ghost use Rattle.krates_build_facts.specs.FactModels.{fact_view};
ghost use Rattle.krates_grounding.specs.Grounding.{HasWritten};
ghost use Rattle.krates_build_facts.specs.Rows.{entry_rows, home, link_rows, rows_alone, rows_in, rows_of};

use crate::ground::Ground;
use crate::{linking_rows, run_rows, side_rows, unit_rows};
use krates_build_facts::BuildFact;
use krates_build_tables::{CrateEntry, Link, Tables};
use krates_units::Side;
use std::alloc::AllocError;

/// The number of the crate in whose tables a fact is looked up.
fn home_of(fact: &BuildFact<'_>) -> usize
    ensures { result ≡ home (fact_view fact.now) }
{
    match *fact {
        BuildFact::Met(krate, _)
        | BuildFact::LinkedReference(krate, _, _)
        | BuildFact::LinkedFeature(krate, _, _)
        | BuildFact::LinkedName(krate, _, _)
        | BuildFact::Lost(krate, _)
        | BuildFact::Activated(krate, _)
        | BuildFact::ActivatedReference(krate, _, _)
        | BuildFact::ActivatedFeature(krate, _, _)
        | BuildFact::ActivatedName(krate, _, _)
        | BuildFact::Available(krate, _)
        | BuildFact::ScriptRun(krate, _)
        | BuildFact::ScriptCompiled(krate, _) => krate,
        BuildFact::Linked(place)
        | BuildFact::Used(place, _)
        | BuildFact::Needed(place, _, _)
        | BuildFact::RunNeeded(place, _, _) => place.krate,
        BuildFact::Compiled(unit) => unit.target.krate,
    }
}

/// Writes the instances that begin with a fact. The only error is running out of memory.
pub(crate) fn write_rows<'a>(
    tables: &Tables<'a>,
    fact: &BuildFact<'a>,
    ground: &mut Ground<'a>,
) -> Result<(), AllocError>
    ensures { OnOk result (HasWritten ground.old ground.new (rows_of tables.now (fact_view fact.now))) }
{
    write_alone(fact, ground)?;
    match tables.entry(home_of(fact)) {
        Some(entry) => write_in(tables, fact, entry, ground),
        None => Ok(()),
    }
}

/// Writes those of a fact by itself.
fn write_alone<'a>(fact: &BuildFact<'a>, ground: &mut Ground<'a>) -> Result<(), AllocError>
    ensures { OnOk result (HasWritten ground.old ground.new (rows_alone (fact_view fact.now))) }
{
    match *fact {
        BuildFact::LinkedReference(krate, meeting, reference) => {
            linking_rows::write_by_reference(krate, meeting, reference, ground)
        }
        BuildFact::ActivatedReference(krate, side, reference) => {
            side_rows::write_by_reference(krate, side, reference, ground)
        }
        BuildFact::Available(krate, text) => ground.write(
            &[BuildFact::ActivatedFeature(krate, Side::Targets, text)],
            *fact,
        ),
        BuildFact::Needed(_, _, library) => ground.write(&[*fact], BuildFact::Compiled(library)),
        BuildFact::ScriptRun(krate, placement) => {
            ground.write(&[*fact], BuildFact::ScriptCompiled(krate, placement.side))
        }
        _ => Ok(()),
    }
}

/// Writes those of a fact of a crate.
fn write_in<'a>(
    tables: &Tables<'a>,
    fact: &BuildFact<'a>,
    entry: &CrateEntry<'a>,
    ground: &mut Ground<'a>,
) -> Result<(), AllocError>
    ensures { OnOk result (HasWritten ground.old ground.new
        (rows_in tables.now (fact_view fact.now) entry.now)) }
{
    write_links(tables, fact, entry, ground)?;
    write_entry(tables, fact, entry, ground)
}

/// Writes those of a fact of a crate and its links.
fn write_links<'a>(
    tables: &Tables<'a>,
    fact: &BuildFact<'a>,
    entry: &CrateEntry<'a>,
    ground: &mut Ground<'a>,
) -> Result<(), AllocError>
    ensures { OnOk result (HasWritten ground.old ground.new
        (flat_map (link_rows tables.now entry.now (fact_view fact.now)) entry.now.links.items)) }
{
    for link in &entry.links {
        write_link(tables, fact, entry, link, ground)?;
    }
    Ok(())
}

/// Writes those of a fact of a crate and one of its links.
fn write_link<'a>(
    tables: &Tables<'a>,
    fact: &BuildFact<'a>,
    entry: &CrateEntry<'a>,
    link: &Link<'a>,
    ground: &mut Ground<'a>,
) -> Result<(), AllocError>
    ensures { OnOk result (HasWritten ground.old ground.new
        (link_rows tables.now entry.now (fact_view fact.now) link.now)) }
{
    match *fact {
        BuildFact::Met(krate, meeting) => linking_rows::write_linked(krate, meeting, link, ground),
        BuildFact::LinkedReference(krate, meeting, reference) => {
            linking_rows::write_toggled(krate, meeting, reference, link, ground)
        }
        BuildFact::Activated(krate, side) => side_rows::write_used(krate, side, link, ground),
        BuildFact::ActivatedReference(krate, side, reference) => {
            side_rows::write_strongly(krate, side, reference, link, ground)?;
            side_rows::write_toggled(tables, (krate, side), reference, link, ground)
        }
        BuildFact::ActivatedName(krate, side, name) => {
            side_rows::write_used_by_name(krate, side, name, link, ground)
        }
        BuildFact::Available(krate, text) => side_rows::write_available(krate, text, link, ground),
        BuildFact::Compiled(unit) => {
            unit_rows::write_of_unit(tables, entry, unit, link, ground)?;
            run_rows::write_of_unit(tables, entry, unit, link, ground)
        }
        BuildFact::ScriptCompiled(krate, side) => {
            unit_rows::write_of_script(tables, krate, side, link, ground)
        }
        _ => Ok(()),
    }
}

/// Writes those of a fact of a crate and what else its entry has.
fn write_entry<'a>(
    tables: &Tables<'a>,
    fact: &BuildFact<'a>,
    entry: &CrateEntry<'a>,
    ground: &mut Ground<'a>,
) -> Result<(), AllocError>
    ensures { OnOk result (HasWritten ground.old ground.new
        (entry_rows tables.now entry.now (fact_view fact.now))) }
{
    match *fact {
        BuildFact::Met(krate, meeting) => {
            linking_rows::write_lost(krate, meeting, &entry.lacking, ground)
        }
        BuildFact::LinkedReference(krate, meeting, reference) => {
            linking_rows::write_implied(krate, meeting, reference, &entry.implied, ground)
        }
        BuildFact::LinkedFeature(krate, meeting, feature) => {
            linking_rows::write_references(krate, meeting, feature, entry, ground)
        }
        BuildFact::ActivatedFeature(krate, side, feature) => {
            side_rows::write_references(krate, side, feature, entry, ground)
        }
        BuildFact::Compiled(unit) => unit_rows::write_beside(entry, unit, ground),
        BuildFact::Linked(place) => match entry.link(place.index) {
            Some(link) => linking_rows::write_given(place, link, ground),
            None => Ok(()),
        },
        BuildFact::Used(place, side) => match entry.link(place.index) {
            Some(link) => side_rows::write_given(tables, place, side, link, ground),
            None => Ok(()),
        },
        _ => Ok(()),
    }
}
