//! Which built crates need which.
ghost use Rattle.std.specs.Prelude.{◌≡◌, ◌↔◌, [], IfOk, IsTrue, OnOk, option_copied};
ghost use Rattle.std.specs.List.Sorted.{IsStrictlySortedBy};
ghost use Rattle.krates_cm.specs.declared.dependency.DependencyKind.TheVariants.{Build};
ghost use Rattle.krates_build_facts.specs.Rows.{features_side};
ghost use Rattle.krates_build_answers.specs.Adding.{Adds, IsOfSome};
ghost use Rattle.krates_build_answers.specs.Links.{AreLinksIn, IsLinkOver, IsOfRun, IsOfScript, IsOver, IsRunFor, IsTurnedOn, link_at, over};
ghost use Rattle.krates_build_answers.specs.Orders.{link_cmp};

use crate::built_crates::BuiltCrate;
use crate::each_once::each_once;
use krates_build_facts::PlatformNumber;
use krates_build_tables::{Link, LinkPlace, Tables};
use krates_built::{NeedPlace, RunPlace, Units};
use krates_cm::DependencyKind;
use krates_rules::DepKind;
use krates_units::Side;
use std::alloc::{AllocError, Global};

/// A crate that is built needs another. They compare field by field.
#[derive(Clone, Copy, Debug, PartialEq, Eq, PartialOrd, Ord)]
pub struct BuildLink {
    /// What needs the other.
    pub from: BuiltCrate,
    /// What is needed.
    pub to: BuiltCrate,
    /// The kind of the dependency by which it is.
    pub kind: DepKind,
}

/// Which crates that are built need which, by dependencies of which kind, in ascending order, each once. What a build script needs is
/// needed by what its crate is built for, if the script is run for that. A crate that needs its own library or its own build script has no
/// link for that. The only error is running out of memory.
///
/// Time O(n log n) for n links, and for each build dependency that is needed all runs of build scripts.
///
/// ```text
/// for link in build_links(alloc, &units)? {
///     println!(rt; "{link:?}")?;
/// }
/// ```
pub fn build_links<'a>(alloc: Global, units: &Units<'a>) -> Result<Vec<BuildLink>, AllocError>
    ensures exact { IfOk result (λ links. AreLinksIn units.now.derived links.items) }
    ensures ascending { IfOk result (λ links. IsStrictlySortedBy link_cmp links.items) }
{
    units.agrees();
    let all = links_over(alloc, units, units.needs())?;
    let links = each_once(all)?;
    Ok(links)
}

/// The links over these needs.
fn links_over<'a>(
    alloc: Global,
    units: &Units<'a>,
    needs: &[NeedPlace],
) -> Result<Vec<BuildLink>, AllocError>
    ensures { IfOk result (λ links. Adds (IsOfSome (IsLinkOver units.now.derived) needs.now) []
        links.items) }
{
    let mut links = Vec::new(alloc);
    for need in needs {
        add_over(units, need, &mut links)?;
    }
    Ok(links)
}

/// Adds the links over a need.
fn add_over<'a>(
    units: &Units<'a>,
    need: &NeedPlace,
    links: &mut Vec<BuildLink>,
) -> Result<(), AllocError>
    ensures { OnOk result (Adds (IsLinkOver units.now.derived need.now) links.old.items links.new.items) }
{
    match link_at(units.tables(), need.link) {
        Some(link) => add_over_link(units, need, link, links),
        None => Ok(()),
    }
}

/// Adds those over this link.
fn add_over_link<'a>(
    units: &Units<'a>,
    need: &NeedPlace,
    link: &Link<'a>,
    links: &mut Vec<BuildLink>,
) -> Result<(), AllocError>
    ensures { OnOk result (Adds (IsOver units.now.derived need.now link.now)
        links.old.items links.new.items) }
{
    if is_build(link.kind) {
        return add_of_script(units, need, link, links);
    }
    add(links, over(need, need.from, link.kind))
}

/// Whether it is the kind of what build scripts need.
fn is_build(kind: DependencyKind) -> bool
    ensures { IsTrue result ↔ (kind ≡ Build) }
{
    match kind {
        DependencyKind::Build => true,
        DependencyKind::Normal | DependencyKind::Development => false,
    }
}

/// Adds the links of what a build script needs over this link.
fn add_of_script<'a>(
    units: &Units<'a>,
    need: &NeedPlace,
    link: &Link<'a>,
    links: &mut Vec<BuildLink>,
) -> Result<(), AllocError>
    ensures { OnOk result (Adds (IsOfScript units.now.derived need.now link.now)
        links.old.items links.new.items) }
{
    units.agrees();
    add_of_runs(units, need, link, units.runs(), links)
}

/// Adds those of these runs.
fn add_of_runs<'a>(
    units: &Units<'a>,
    need: &NeedPlace,
    link: &Link<'a>,
    runs: &[RunPlace],
    links: &mut Vec<BuildLink>,
) -> Result<(), AllocError>
    ensures { OnOk result (Adds (IsOfSome (IsOfRun units.now.derived need.now link.now) runs.now)
        links.old.items links.new.items) }
{
    for run in runs {
        add_of_run(units, need, link, run, links)?;
    }
    Ok(())
}

/// Adds that of a run, if the script that is run needs the library.
fn add_of_run<'a>(
    units: &Units<'a>,
    need: &NeedPlace,
    link: &Link<'a>,
    run: &RunPlace,
    links: &mut Vec<BuildLink>,
) -> Result<(), AllocError>
    ensures { OnOk result (Adds (IsOfRun units.now.derived need.now link.now run.now)
        links.old.items links.new.items) }
{
    if !is_for(units, need, link, run) {
        return Ok(());
    }
    add(links, over(need, run.placement.platform, link.kind))
}

/// Whether the script that is run needs the library.
fn is_for<'a>(units: &Units<'a>, need: &NeedPlace, link: &Link<'a>, run: &RunPlace) -> bool
    ensures { IsTrue result ↔ IsRunFor units.now.derived need.now link.now run.now }
{
    run.krate == need.link.krate && is_turned_on(units, link, run)
}

/// Whether the dependency counts for the script that is run.
fn is_turned_on<'a>(units: &Units<'a>, link: &Link<'a>, run: &RunPlace) -> bool
    ensures { IsTrue result ↔ IsTurnedOn units.now.derived link.now run.now }
{
    if !link.is_optional {
        return true;
    }
    let side = features_side(units.tables(), run.placement.side);
    units.is_turned_on(run.krate, side, link.name)
}

/// The side whose features what is compiled for this side has.
pub(crate) fn features_side(tables: &Tables<'_>, side: Side) -> Side
    ensures { result ≡ features_side tables.now side }
{
    if tables.is_first { Side::Targets } else { side }
}

/// The link at the place; `None` where there is none.
fn link_at<'t, 'a>(tables: &'t Tables<'a>, place: LinkPlace) -> Option<&'t Link<'a>>
    ensures { option_copied result ≡ link_at tables.now place }
{
    match tables.entry(place.krate) {
        Some(entry) => entry.link(place.index),
        None => None,
    }
}

/// What is built for the platform, of the crate that has the dependency, needs the library.
fn over(need: &NeedPlace, from: PlatformNumber, kind: DependencyKind) -> BuildLink
    ensures { result ≡ over need.now from kind }
{
    BuildLink {
        from: BuiltCrate {
            krate: need.link.krate,
            platform: from,
        },
        to: BuiltCrate {
            krate: need.library.target.krate,
            platform: need.library.placement.platform,
        },
        kind: DepKind::from(kind),
    }
}

/// Adds a link at the end.
fn add(links: &mut Vec<BuildLink>, link: BuildLink) -> Result<(), AllocError>
    ensures { OnOk result (Adds (λ x. link ≡ x) links.old.items links.new.items) }
{
    links.push(link)?;
    Ok(())
}
