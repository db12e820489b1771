//! The roots: the crates that are kept for themselves.

ghost use Rattle.krates_questions.specs.Context.{AsksForRoots, Refuses};
ghost use Rattle.krates_search.specs.SearchState.{HasFound, HasRoots, IsSound, Advances, HasRooted};
ghost use Rattle.krates_search.specs.SearchContext.{HasListed, MayEnableListed, crate_of, IsNodeOf};
ghost use Rattle.krates_resolve.specs.Saturation.{HasRootedRoot, IsMemberOf, IsRootOf, IsStandingRoot, HasRootedEach};
ghost use Rattle.std.specs.Prelude.{All, IfErr, OnOk};
ghost use Rattle.krates_cm.specs.Document.{Text};
ghost use Rattle.krates_rules.specs.Facts.{Crate};
ghost use Rattle.krates_rules.specs.Resolved.{id_of};

use krates_graph::agenda::Agenda;
use krates_ids::{Error, Kid, Lost, laws};
use krates_questions::Availability;
use krates_questions::context::Context;
use krates_questions::feature_table::features_at;
use krates_questions::root_choice::{RootChoice, is_root_member};
use krates_search::enabling::{KeptNode, NamedFeature, enable};
use krates_search::search_state::{SearchState, put_krate};
use krates_selection::trace::Reason;

/// Puts the roots: the graph's root, every member, or the members with one of the manifests that are asked for.
///
/// A root that was put already is passed over.
pub(crate) fn put_roots<'a>(
    context: &Context<'a, '_>,
    found: &mut SearchState<'a>,
) -> Result<(), Error>
    requires sound { IsSound context.now found.old }
    ensures advanced { OnOk result (Advances context.now found.old found.new) }
    ensures roots { OnOk result (HasRoots context.now found.new) }
    ensures refused { IfErr result (Refuses context.now) }
{
    context.document.agrees();
    laws::one_reading();
    let mut places = Agenda::new(context.alloc, context.document.nodes().len())?;
    match context.document.root_choice(context.setting) {
        RootChoice::Root(root) => put_root(context, root, &mut places, found),
        RootChoice::Members { all } => {
            put_members(context, all, context.document.members(), &mut places, found)
        }
    }
}

/// Puts each of these members that is a root: all of them, or those with one of the manifests.
fn put_members<'a>(
    context: &Context<'a, '_>,
    all: bool,
    members: &'a [Kid],
    places: &mut Agenda,
    found: &mut SearchState<'a>,
) -> Result<(), Error>
    requires sound { IsSound context.now found.old }
    requires each { HasRootedEach context.now found.old places.old }
    requires asks { AsksForRoots context.now all }
    requires members { All (IsMemberOf context.now) members.now }
    ensures advanced { OnOk result (Advances context.now found.old found.new) }
    ensures rooted { OnOk result (All (λ m. HasRootedRoot context.now found.new (id_of m)) members.now) }
    ensures refused { IfErr result (Refuses context.now) }
{
    for member in members {
        put_member(context, all, member, places, found)?;
    }
    Ok(())
}

/// Puts a member that is a root.
fn put_member<'a>(
    context: &Context<'a, '_>,
    all: bool,
    member: &'a Kid,
    places: &mut Agenda,
    found: &mut SearchState<'a>,
) -> Result<(), Error>
    requires sound { IsSound context.now found.old }
    requires each { HasRootedEach context.now found.old places.old }
    requires asks { AsksForRoots context.now all }
    requires member { IsMemberOf context.now member.now }
    ensures advanced { OnOk result (Advances context.now found.old found.new) }
    ensures rooted { OnOk result (HasRootedRoot context.now found.new (id_of member.now)) }
    ensures each { OnOk result (HasRootedEach context.now found.new places.new) }
    ensures refused { IfErr result (Refuses context.now) }
{
    if is_root_member(context.document, context.setting, all, member) {
        return put_root(context, member, places, found);
    }
    Ok(())
}

/// Puts a root, unless it is excluded or was put before.
fn put_root<'a>(
    context: &Context<'a, '_>,
    root: &'a Kid,
    places: &mut Agenda,
    found: &mut SearchState<'a>,
) -> Result<(), Error>
    requires sound { IsSound context.now found.old }
    requires each { HasRootedEach context.now found.old places.old }
    requires root { IsRootOf context.now root.now }
    ensures advanced { OnOk result (Advances context.now found.old found.new) }
    ensures rooted { OnOk result (HasRooted context.now found.new (id_of root.now)) }
    ensures each { OnOk result (HasRootedEach context.now found.new places.new) }
    ensures refused { IfErr result (Refuses context.now) }
{
    laws::one_reading();
    let number = context.document.crate_number(root);
    match context.availability_at(&found.excluded, number) {
        Availability::NoPackage => Err(Error::Lost(Lost::Package(root.clone()?))),
        Availability::NoNode => Err(Error::Lost(Lost::Node(root.clone()?))),
        Availability::Excluded => Ok(()),
        Availability::Available(place) => {
            put_once(context, KeptNode { id: root, place }, places, found)
        }
    }
}

/// Puts a root that stands, and the features that its node lists, unless it was put before.
fn put_once<'a>(
    context: &Context<'a, '_>,
    node: KeptNode<'a>,
    places: &mut Agenda,
    found: &mut SearchState<'a>,
) -> Result<(), Error>
    requires node { IsNodeOf context.now node }
    requires sound { IsSound context.now found.old }
    requires each { HasRootedEach context.now found.old places.old }
    requires root { IsStandingRoot context.now (crate_of node) }
    ensures advanced { OnOk result (Advances context.now found.old found.new) }
    ensures rooted { OnOk result (HasRooted context.now found.new (crate_of node.entry)) }
    ensures each { OnOk result (HasRootedEach context.now found.new places.new) }
    ensures refused { IfErr result (Refuses context.now) }
{
    laws::one_reading();
    if !places.put(node.place.index) {
        return Ok(());
    }
    put_krate(context, node.place, Reason::by_nothing(1), found)?;
    enable_listed(context, node, found)
}

/// Enables each feature that the node of a root lists.
fn enable_listed<'a>(
    context: &Context<'a, '_>,
    node: KeptNode<'a>,
    found: &mut SearchState<'a>,
) -> Result<(), Error>
    requires node { IsNodeOf context.now node }
    requires sound { IsSound context.now found.old }
    requires kept { HasFound context.now found.old (Crate (crate_of node)) }
    requires root { IsStandingRoot context.now (crate_of node) }
    requires may { (f : Text) → MayEnableListed context.now (crate_of node) f }
    ensures advanced { OnOk result (Advances context.now found.old found.new) }
    ensures enabled { OnOk result ((f : Text) → HasListed context.now found.new (crate_of node.entry) f) }
    ensures refused { IfErr result (Refuses context.now) }
{
    context.document.agrees();
    for name in features_at(context.document, node.place) {
        let feature = NamedFeature {
            name: name.as_str(),
            reason: Reason::by_nothing(1),
        };
        enable(context, node, feature, found)?;
    }
    Ok(())
}
