//! Documents and lists that are larger than any number in the sources: no answer depends on a size.

ghost use Rattle.std.specs.Prelude.{◌≡◌, None};

use crate::builds_by_cargo::Count;
use krates::cm::MetadataCommand;
use krates::derive::{check, check_closed};
use krates::{Builder, DepKind, Krates, Metadata, NodeId, OnFilter, Package};
use krates_samples::facts::{facts_of, steps_of};
use krates_samples::large::{FEATURES, large_document, long_name, push_names};
use krates_samples::table::compare;
use krates_text::text::Text;
use std::alloc::Global;
use std::test::Fail;

/// The graph that a builder without an index makes of the document with this text.
pub(crate) fn built<F: OnFilter>(
    alloc: Global,
    builder: Builder,
    json: &str,
    filter: &mut F,
) -> Result<Box<Krates>, Fail>
    requires plain { builder.index ≡ None }
    requires callable { F.can_filter filter.old }
{
    let metadata = MetadataCommand::parse(alloc, json)?;
    let krates = builder.build_with_metadata(metadata, filter)?;
    Ok(Box::new(alloc, krates)?)
}

/// Adds how many crates, nodes and edges a graph has, how many crates the first of them depends on, how many depend on the second, how
/// many are reached without dependencies for tests, and how long the last name is.
fn push_sizes(told: &mut Text, krates: &Krates) -> Result<(), Fail> {
    let nodes = krates.graph().node_count();
    if nodes == 0 {
        return Err(Fail::new("no node"));
    }
    let needed = krates.direct_dependencies(NodeId::new(0))?.len();
    let needing = krates.direct_dependents(NodeId::new(1))?.len();
    let reached = krates.krates_filtered(DepKind::Dev)?.len();
    let last = krates.krates().last();
    write!(
        told,
        "{} crates, {nodes} nodes, {} edges, {needed} needed, {needing} needing, {reached} reached, {} bytes",
        krates.len(),
        krates.graph().edge_count(),
        last.map_or(0, |pkg: &Package| pkg.name.len())
    );
    Ok(())
}

/// Adds how many crates all in all depend on the second, and whether the first feature of the first crate, of which each names
/// the next, leads to the last, and that to the first.
fn push_paths(told: &mut Text, krates: &Krates) -> Result<(), Fail> {
    let (first, last) = (NodeId::new(2_002), NodeId::new(7_002));
    let needing = krates.all_dependents(NodeId::new(1))?.len();
    let forth = krates.reaches(first, last)?;
    let back = krates.reaches(last, first)?;
    write!(told, "; {needing} needing, {forth}, {back}");
    Ok(())
}

#[test]
fn a_large_build(rt: HostRuntime) -> Result<(), Fail> {
    let alloc = rt.alloc();
    let json = large_document(alloc)?;
    let mut count = Count { packages: 0 };
    let krates = built(alloc, Builder::new(alloc), json.as_str(), &mut count)?;
    let mut told = Text::new(alloc);
    push_sizes(&mut told, &krates)?;
    push_paths(&mut told, &krates)?;
    compare(
        "the large document",
        told.as_str(),
        "2002 crates, 7003 nodes, 12002 edges, 2001 needed, 1 needing, 2002 reached, 70000 bytes; 2 needing, true, false",
    )
}

/// Adds a step for each feature, each by the one before it.
fn push_steps(text: &mut Text) {
    text.push_str("1 a/f1000;");
    for (place, number) in FEATURES.enumerate() {
        write!(text, "3 a/f{} {place};", number.saturating_add(1));
    }
}

/// Adds all facts of the document: the member and its features, and the crates that it needs with the edges to them.
fn push_facts(text: &mut Text, long: &str) {
    text.push_str("+a a/f6000");
    for number in FEATURES {
        write!(text, " a/f{number}");
    }
    write!(text, " +{long} a>{long}");
    push_names(text, " +", "");
    push_names(text, " a>", "")
}

/// Checks the steps.
fn hold_steps(alloc: Global, metadata: &Metadata, builder: &Builder) -> Result<(), Fail> {
    let mut text = Text::new(alloc);
    push_steps(&mut text);
    let steps = steps_of(alloc, text.whole()?.as_str())?;
    Ok(check(metadata, builder, None, &steps)?)
}

/// Checks the facts.
fn hold_facts(alloc: Global, metadata: &Metadata, builder: &Builder) -> Result<(), Fail> {
    let mut text = Text::new(alloc);
    push_facts(&mut text, long_name(alloc)?.as_str());
    let facts = facts_of(alloc, text.whole()?.as_str())?;
    Ok(check_closed(metadata, builder, None, &facts)?)
}

#[test]
fn large_lists(rt: HostRuntime) -> Result<(), Fail> {
    let alloc = rt.alloc();
    let json = large_document(alloc)?;
    let metadata = Box::new(alloc, MetadataCommand::parse(alloc, json.as_str())?)?;
    let builder = Builder::new(alloc);
    hold_steps(alloc, &metadata, &builder)?;
    hold_facts(alloc, &metadata, &builder)
}
