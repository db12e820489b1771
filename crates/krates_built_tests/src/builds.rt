//! What a build of a small document derives, and the language in which a line asks for it.
//!
//! The first sections of a line are a document with the targets of its packages, as `krates_samples::targets` reads it. The section `build` says
//! what is built of it: the version of the resolver, and what is asked for, which is options of `cargo build` without `--`, each with `=` and
//! its value. The host is `linux`, of which rustc says `unix` here, and `target` may be `windows` too.
//!
//! The answer has features, units, and build scripts. A feature is `a/f`. A unit is a crate, the kind of its target, `!` if that is compiled
//! with its tests, and what it is compiled for. A feature of the host's side is followed by `^`, and so is a build script that has features of
//! that side.

use crate::of_build::{OfBuild, OfDerived, ToldOfDerived};
use krates_build_facts::{BuildFact, PlatformNumber, UnitPlace};
use krates_build_tables::{LinkPlace, Tables};
use krates_grounding::Derived;
use krates_ids::{Kid, PkgSpec};
use krates_questions::Document;
use krates_samples::documents;
use krates_text::text::Text;
use krates_units::{BuildSetting, Machine, Mode, PackageSelection, Resolver, Side, TargetFlags};
use std::alloc::{AllocError, Global};
use std::test::Fail;

/// The machine of this name: linux, of which rustc says `unix` here, or windows.
pub(crate) fn machine_of(alloc: Global, name: &str) -> Result<Machine, Fail> {
    let printed = if name == "windows" { "windows" } else { "unix" };
    Ok(Machine::from_rustc(alloc, name, printed)?)
}

/// Asks for the kind of targets that a word names, if it names one.
fn ask_for(kinds: &mut TargetFlags, word: &str) {
    match word {
        "lib" => kinds.lib = true,
        "bins" => kinds.bins = true,
        "examples" => kinds.examples = true,
        "tests" => kinds.tests = true,
        "benches" => kinds.benches = true,
        "all-targets" => kinds.all = true,
        _ => {}
    }
}

/// Adds the features between commas.
fn add_features(alloc: Global, features: &mut Vec<String>, names: &str) -> Result<(), AllocError> {
    for name in names.split(',') {
        features.push(String::from_str(alloc, name)?)?;
    }
    Ok(())
}

/// The packages that the texts between commas specify.
fn specs_of(alloc: Global, texts: &str) -> Result<Vec<PkgSpec>, Fail> {
    let mut specs = Vec::new(alloc);
    for text in texts.split(',') {
        specs.push(PkgSpec::from_str(alloc, text)?)?;
    }
    Ok(specs)
}

/// Reads a word of a build into its setting.
fn read_word(alloc: Global, setting: &mut BuildSetting, word: &str) -> Result<(), Fail> {
    let (key, value) = word.split_once('=').unwrap_or((word, ""));
    match key {
        "1" => setting.resolver = Resolver::V1,
        "target" => setting.targets.push(machine_of(alloc, value)?)?,
        "all-features" => setting.all_features = true,
        "no-default-features" => setting.no_default_features = true,
        "features" => add_features(alloc, &mut setting.features, value)?,
        "workspace" => setting.selection = PackageSelection::Workspace,
        "package" => setting.selection = PackageSelection::Packages(specs_of(alloc, value)?),
        _ => ask_for(&mut setting.kinds, key),
    }
    Ok(())
}

/// Reads the section `build` of a line into its setting.
fn read_build(alloc: Global, setting: &mut BuildSetting, line: &str) -> Result<(), Fail> {
    let words = documents::section(line, "build ").unwrap_or("2");
    for word in words.split_whitespace() {
        read_word(alloc, setting, word)?;
    }
    Ok(())
}

/// What a build is asked for if no word is read.
fn plain_setting(alloc: Global, host: Machine) -> BuildSetting {
    BuildSetting {
        resolver: Resolver::V2,
        host,
        targets: Vec::new(alloc),
        selection: PackageSelection::DefaultMembers,
        features: Vec::new(alloc),
        all_features: false,
        no_default_features: false,
        kinds: TargetFlags {
            lib: false,
            bins: false,
            examples: false,
            tests: false,
            benches: false,
            all: false,
        },
    }
}

/// What the section `build` of a line asks for.
pub(crate) fn setting_of(alloc: Global, line: &str) -> Result<BuildSetting, Fail> {
    let mut setting = plain_setting(alloc, machine_of(alloc, "linux")?);
    match read_build(alloc, &mut setting, line) {
        Ok(()) => Ok(setting),
        Err(fail) => {
            drop(setting);
            Err(fail)
        }
    }
}

/// What facts are told of.
#[derive(Clone, Copy)]
pub(crate) struct Told<'a, 's> {
    pub(crate) document: &'s Document<'a>,
    pub(crate) tables: &'s Tables<'a>,
}

/// The name of the crate with this number.
pub(crate) fn name_of<'s>(document: &'s Document<'_>, number: usize) -> &'s str {
    match document.crate_ids().get(number) {
        Some(kid) => kid.name(),
        None => "",
    }
}

/// Writes what something is compiled for.
pub(crate) fn push_platform(told: &mut Text, of: Told<'_, '_>, platform: PlatformNumber) {
    match platform {
        PlatformNumber::Host => told.push_str("@host"),
        PlatformNumber::Machine(number) => {
            let triple = of.tables.machine(number).map_or("", |it| it.triple());
            write!(told, "@{triple}");
        }
    }
}

/// Writes `^` for the host's side.
pub(crate) fn push_side(told: &mut Text, side: Side) {
    if side == Side::Host {
        told.push_str("^");
    }
    told.push_str(", ");
}

/// Writes a unit.
pub(crate) fn push_unit(told: &mut Text, of: Told<'_, '_>, unit: UnitPlace) {
    told.push_str(name_of(of.document, unit.target.krate));
    if let Some(entry) = of.tables.entry(unit.target.krate) {
        if let Some(target) = entry.target(unit.target.index) {
            for kind in target.target.kind.as_slice() {
                write!(told, " {kind:?}");
            }
        }
    }
    if unit.mode == Mode::Test {
        told.push_str("!");
    }
    push_platform(told, of, unit.placement.platform);
    told.push_str(", ");
}

/// Writes what is lost.
fn push_lost(told: &mut Text, of: Told<'_, '_>, krate: usize, index: usize) {
    if let Some(entry) = of.tables.entry(krate) {
        if let Some(lacking) = entry.lacking.get(index) {
            write!(
                told,
                "lost {} of {}, ",
                lacking.name,
                name_of(of.document, krate)
            );
        }
    }
}

/// Writes a fact, if rows show facts of its kind.
fn push_fact(told: &mut Text, of: Told<'_, '_>, fact: &BuildFact<'_>) {
    match *fact {
        BuildFact::Lost(krate, index) => push_lost(told, of, krate, index),
        BuildFact::ActivatedFeature(krate, side, feature) => {
            write!(told, "{}/{feature}", name_of(of.document, krate));
            push_side(told, side);
        }
        BuildFact::Compiled(unit) => push_unit(told, of, unit),
        BuildFact::ScriptCompiled(krate, side) => {
            write!(told, "{} script", name_of(of.document, krate));
            push_side(told, side);
        }
        _ => {}
    }
}

/// Writes the name of what a link leads to.
fn push_child(told: &mut Text, of: Told<'_, '_>, place: LinkPlace) {
    if let Some(entry) = of.tables.entry(place.krate) {
        if let Some(link) = entry.link(place.index) {
            told.push_str(name_of(of.document, link.child));
        }
    }
}

/// Writes a link by the crates at its ends, each with what it is compiled or run for.
pub(crate) fn push_edge(
    told: &mut Text,
    of: Told<'_, '_>,
    link: LinkPlace,
    from: PlatformNumber,
    to: PlatformNumber,
) {
    told.push_str(name_of(of.document, link.krate));
    push_platform(told, of, from);
    told.push_str(">");
    push_child(told, of, link);
    push_platform(told, of, to);
    told.push_str(", ");
}

/// Writes a need.
fn push_need(told: &mut Text, of: Told<'_, '_>, fact: &BuildFact<'_>) {
    if let BuildFact::Needed(link, from, library) = *fact {
        push_edge(told, of, link, from, library.placement.platform);
    }
}

/// Writes a run of a build script that another one needs.
fn push_run_need(told: &mut Text, of: Told<'_, '_>, fact: &BuildFact<'_>) {
    if let BuildFact::RunNeeded(link, from, run) = *fact {
        push_edge(told, of, link, from.platform, run.platform);
    }
}

/// What rows show of the facts of a build.
#[derive(Clone, Copy)]
enum Shown {
    /// Units, features, scripts and what is lost.
    Units,
    /// What units need over dependencies.
    Needs,
    /// The runs that runs of build scripts need.
    RunNeeds,
}

/// Writes a fact, if rows show facts of its kind.
fn push_shown(told: &mut Text, of: Told<'_, '_>, fact: &BuildFact<'_>, shown: Shown) {
    match shown {
        Shown::Units => push_fact(told, of, fact),
        Shown::Needs => push_need(told, of, fact),
        Shown::RunNeeds => push_run_need(told, of, fact),
    }
}

/// Writes facts, in order.
fn push_facts(told: &mut Text, of: Told<'_, '_>, facts: &[BuildFact<'_>], shown: Shown) {
    for fact in facts {
        push_shown(told, of, fact, shown);
    }
}

/// Writes each of these facts that doesn't hold when it is asked by itself.
fn push_unheld<'a>(told: &mut Text, derived: &Derived<'a>, facts: &[BuildFact<'a>]) {
    for fact in facts {
        if !derived.holds(fact) {
            write!(told, "not {fact:?}");
        }
    }
}

/// Writes what a build derives, and which of it doesn't hold when it is asked by itself.
fn push_derived<'a>(
    told: &mut Text,
    of: Told<'a, '_>,
    derived: &Derived<'a>,
    facts: &[BuildFact<'a>],
    shown: Shown,
) {
    push_facts(told, of, facts, shown);
    push_unheld(told, derived, facts);
}

/// The units of a build, with the features of each side.
pub(crate) struct ShownUnits;

impl ToldOfDerived for ShownUnits {
    fn push<'a>(
        told: &mut Text,
        of: Told<'a, '_>,
        derived: &Derived<'a>,
        facts: &[BuildFact<'a>],
    ) -> Result<(), Fail> {
        push_derived(told, of, derived, facts, Shown::Units);
        Ok(())
    }
}

/// What the units of a build need over the dependencies of their crates, and for what.
pub(crate) struct ShownNeeds;

impl ToldOfDerived for ShownNeeds {
    fn push<'a>(
        told: &mut Text,
        of: Told<'a, '_>,
        derived: &Derived<'a>,
        facts: &[BuildFact<'a>],
    ) -> Result<(), Fail> {
        push_derived(told, of, derived, facts, Shown::Needs);
        Ok(())
    }
}

/// The runs that runs of build scripts of a build need, each for what.
pub(crate) struct ShownRunNeeds;

impl ToldOfDerived for ShownRunNeeds {
    fn push<'a>(
        told: &mut Text,
        of: Told<'a, '_>,
        derived: &Derived<'a>,
        facts: &[BuildFact<'a>],
    ) -> Result<(), Fail> {
        push_derived(told, of, derived, facts, Shown::RunNeeds);
        Ok(())
    }
}

/// The units of a line's build, with the features of each side.
pub(crate) type Units = OfBuild<OfDerived<ShownUnits>>;

/// What the units of a line's build need over the dependencies of their crates, and for what.
pub(crate) type Needs = OfBuild<OfDerived<ShownNeeds>>;

/// The runs that runs of build scripts of a line's build need, each for what.
pub(crate) type RunNeeds = OfBuild<OfDerived<ShownRunNeeds>>;
