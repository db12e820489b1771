//! What is enabled and kept: features, toggled features and edges.

ghost use Rattle.krates_questions.specs.Context.{Derives, HasEntry, IsNodeAt, IsWantedAt, Lists, Refuses};
ghost use Rattle.krates_search.specs.SearchContext.{Finds, FindsListed, FindsToggled, IsNumberOf, crate_of, FindsUsed, IsNodeOf};
ghost use Rattle.krates_search.specs.SearchState.{HasFound, IsEdgeStep, HasEnabled, MayEnable, MayToggle, IsSound, Advances, HasEnabledFor, HasToggled, MayEnableFor};
ghost use Rattle.krates_questions.specs.NodeEntry.{child_of, edge_of, parent_of};
ghost use Rattle.std.specs.Prelude.{◌≡◌, IfErr, IfOk, OnOk};
ghost use Rattle.krates_cm.specs.Document.{dependency_view};
ghost use Rattle.krates_rules.specs.Facts.{Crate, Feature, Kept};
ghost use Rattle.krates_search.specs.Found.{IsFirstOf};
ghost use Rattle.krates_search.specs.Links.{IsMarked};

use crate::found::{FoundToggle, found_edge};
use crate::search_state::{SearchState, put_feature, put_krate, put_step};
use krates_cm::Dependency;
use krates_ids::{Error, Kid, Lost, laws};
use krates_questions::NodePlace;
use krates_questions::context::Context;
use krates_questions::node_entry::{EntryEdge, NodeEntry};
use krates_selection::trace::{NumberedFact, NumberedStep, Reason};

/// The node of a kept crate.
#[derive(Clone, Copy)]
pub struct KeptNode<'a> {
    /// The crate.
    pub id: &'a Kid,
    /// The place of its node.
    pub place: NodePlace,
}

/// A feature that is named, and why it is found.
#[derive(Clone, Copy)]
pub struct NamedFeature<'a> {
    /// Its name.
    pub name: &'a str,
    /// Why it is found.
    pub reason: Reason,
}

/// How an edge is kept.
#[derive(Clone, Copy)]
pub(crate) struct Keeping {
    /// The first place of its kind and target in the `dep_kinds` of the dependency.
    pub kind: usize,
    /// The place of its declared dependency.
    pub declared: usize,
    /// The place of the node of the crate that it leads to.
    pub node: NodePlace,
    /// Why it is found.
    pub reason: Reason,
}

/// Enables a feature of a kept crate, which has to list it.
pub fn enable<'a>(
    context: &Context<'a, '_>,
    node: KeptNode<'a>,
    feature: NamedFeature<'a>,
    found: &mut SearchState<'a>,
) -> Result<(), Error>
    requires node { IsNodeOf context.now node }
    requires sound { IsSound context.now found.old }
    requires kept { HasFound context.now found.old (Crate (crate_of node)) }
    requires may { MayEnable context.now (crate_of node) feature.name.now }
    requires step { FindsListed context.now found.old feature.reason (crate_of node) feature.name.now }
    ensures advanced { OnOk result (Advances context.now found.old found.new) }
    ensures listed { OnOk result (Lists context.now (crate_of node.entry) feature.entry.name.now) }
    ensures named { OnOk result (HasEnabled context.now found.new (crate_of node.entry) feature.entry.name.now) }
    ensures same_links { OnOk result (found.new.links ≡ found.old.links) }
    ensures refused { IfErr result (Refuses context.now) }
{
    let number = listed_number(context, node, feature.name)?;
    put_feature(context, number, feature.reason, found)?;
    Ok(())
}

/// The number of a feature of a kept crate, which has to list it.
fn listed_number<'a>(
    context: &Context<'a, '_>,
    node: KeptNode<'a>,
    name: &'a str,
) -> Result<usize, Error>
    requires node { IsNodeOf context.now node }
    requires may { MayEnable context.now (crate_of node) name.now }
    ensures number { IfOk result (IsNumberOf context.now (crate_of node.entry) name.now) }
    ensures refused { IfErr result (Refuses context.now) }
{
    laws::one_reading();
    match context.document.feature_number(node.place, name) {
        Some(number) => Ok(number),
        None => Err(Error::Lost(Lost::Feature {
            krate: node.id.clone()?,
            name: String::from_str(context.alloc, name)?,
        })),
    }
}

/// Toggles a feature of a kept crate by another crate: notes by whom, and enables it.
pub fn toggle<'a>(
    context: &Context<'a, '_>,
    by: KeptNode<'a>,
    node: KeptNode<'a>,
    feature: NamedFeature<'a>,
    found: &mut SearchState<'a>,
) -> Result<(), Error>
    requires by { IsNodeOf context.now by }
    requires node { IsNodeOf context.now node }
    requires sound { IsSound context.now found.old }
    requires kept { HasFound context.now found.old (Crate (crate_of node)) }
    requires may { MayToggle context.now (crate_of by) (crate_of node) feature.name.now }
    requires step { FindsToggled context.now found.old feature.reason (crate_of by) (crate_of node)
        feature.name.now }
    ensures advanced { OnOk result (Advances context.now found.old found.new) }
    ensures toggled { OnOk result (HasToggled context.now found.new (crate_of by.entry) (crate_of node.entry)
        feature.entry.name.now) }
    ensures same_links { OnOk result (found.new.links ≡ found.old.links) }
    ensures refused { IfErr result (Refuses context.now) }
{
    laws::one_reading();
    let number = listed_number(context, node, feature.name)?;
    let step = NumberedStep {
        fact: NumberedFact::Toggled {
            place: by.place,
            number,
        },
        reason: feature.reason,
    };
    let toggled = put_step(context, step, found)?;
    put_feature(context, number, Reason::by_one(7, toggled), found)?;
    found.toggled.push(FoundToggle {
        by: by.id,
        krate: node.id,
        name: feature.name,
        by_node: by.place,
        krate_node: node.place,
    })?;
    Ok(())
}

/// Enables what a declared dependency asks of its crate: the features that it lists, and the default one where it uses defaults and the crate
/// lists that.
fn enable_declared<'a>(
    context: &Context<'a, '_>,
    dependency: &'a Dependency,
    node: KeptNode<'a>,
    reason: Reason,
    found: &mut SearchState<'a>,
) -> Result<(), Error>
    requires node { IsNodeOf context.now node }
    requires sound { IsSound context.now found.old }
    requires kept { HasFound context.now found.old (Crate (crate_of node)) }
    requires may { MayEnableFor context.now (dependency_view dependency.now) (crate_of node) }
    requires step { FindsUsed context.now found.old reason (dependency_view dependency.now) (crate_of node) }
    ensures advanced { OnOk result (Advances context.now found.old found.new) }
    ensures used { OnOk result (HasEnabledFor context.now found.new (dependency_view dependency.now)
        (crate_of node.entry)) }
    ensures same_links { OnOk result (found.new.links ≡ found.old.links) }
    ensures refused { IfErr result (Refuses context.now) }
{
    laws::one_reading();
    for name in &dependency.features {
        let feature = NamedFeature {
            name: name.as_str(),
            reason,
        };
        enable(context, node, feature, found)?;
    }
    if !dependency.uses_default_features {
        return Ok(());
    }
    let Some(number) = context.document.feature_number(node.place, "default") else {
        return Ok(());
    };
    put_feature(context, number, reason, found)?;
    Ok(())
}

/// Marks this dependency with the step that keeps an edge by it, and toggles its features that waited for that.
fn wake<'a>(
    context: &Context<'a, '_>,
    entry: &NodeEntry<'a>,
    node: KeptNode<'a>,
    step: usize,
    found: &mut SearchState<'a>,
) -> Result<(), Error>
    requires entry { HasEntry context.now entry.now }
    requires node { IsNodeOf context.now node }
    requires of_child { crate_of node ≡ child_of entry.now }
    requires sound { IsSound context.now found.old }
    requires kept { HasFound context.now found.old (Crate (child_of entry.now)) }
    requires step { IsEdgeStep context.now found.old.trace.items (parent_of entry.now) (child_of entry.now) step }
    ensures advanced { OnOk result (Advances context.now found.old found.new) }
    ensures marked { OnOk result (IsMarked found.new.links entry.now.place.index entry.now.index) }
    ensures refused { IfErr result (Refuses context.now) }
{
    laws::one_reading();
    if found.links.kept(entry.place, entry.index).is_some() {
        return Ok(());
    }
    let waiters = found
        .links
        .mark(context.alloc, entry.place, entry.index, step);
    let by = KeptNode {
        id: entry.parent,
        place: entry.place,
    };
    for waiter in waiters.as_slice() {
        let feature = NamedFeature {
            name: waiter.name,
            reason: Reason::by_two(7, waiter.step, step),
        };
        toggle(context, by, node, feature, found)?;
    }
    Ok(())
}

/// Keeps an edge of an entry, and with it the crate that it leads to, and what it asks of that crate.
///
/// What follows from the edge is put before the edge itself, so that no edge is ever there without what it gives.
pub(crate) fn keep<'a>(
    context: &Context<'a, '_>,
    edge: &EntryEdge<'a, '_>,
    keeping: Keeping,
    found: &mut SearchState<'a>,
) -> Result<(), Error>
    requires entry { HasEntry context.now edge.now.entry.now }
    requires first { IsFirstOf edge.now keeping.kind }
    requires node { IsNodeAt context.now (child_of edge.now.entry.now) keeping.node.index }
    requires sound { IsSound context.now found.old }
    requires wanted { IsWantedAt context.now edge.now keeping.declared }
    requires may { Derives context.now (Kept (edge_of edge.now)) }
    requires step { Finds context.now found.old keeping.reason (Kept (edge_of edge.now)) }
    ensures advanced { OnOk result (Advances context.now found.old found.new) }
    ensures kept { OnOk result (HasFound context.now found.new (Kept (edge_of edge.now))) }
    ensures refused { IfErr result (Refuses context.now) }
{
    context.document.agrees();
    laws::one_reading();
    let entry = edge.entry;
    let kept = found_edge(edge, keeping.kind, keeping.declared, keeping.node);
    let step = NumberedStep {
        fact: NumberedFact::Kept {
            place: entry.place,
            index: entry.index,
            kind: keeping.kind,
        },
        reason: keeping.reason,
    };
    let number = put_step(context, step, found)?;
    put_krate(context, keeping.node, Reason::by_one(5, number), found)?;
    let node = KeptNode {
        id: entry.child,
        place: keeping.node,
    };
    let dependency = entry.declared_at(keeping.declared);
    enable_declared(context, dependency, node, Reason::by_one(6, number), found)?;
    wake(context, entry, node, number, found)?;
    found.edges.push(kept)?;
    Ok(())
}
