//! What the rules give from each kept crate.

ghost use Rattle.krates_rules.specs.Facts.{Id};
ghost use Rattle.krates_questions.specs.Context.{HasEntry, Refuses, IsNodeAt};
ghost use Rattle.krates_search.specs.SearchContext.{FindsEdge, HasAvailability, HasTriedEntry};
ghost use Rattle.krates_questions.specs.NodeEntry.{HasItsPlaces, IsListedEdge, edge_for, edge_of};
ghost use Rattle.std.specs.Prelude.{◌≡◌, ◌<◌, IfErr, IfOk, OnOk, Some, Contains, true};
ghost use Rattle.krates_cm.specs.Document.{DepKindInfoModel};
ghost use Rattle.krates_search.specs.SearchState.{IsAny, TakenWhen, HasExpanded, IsKrateStep, IsSound, Advances, MayTry, HasTried};
ghost use Rattle.krates_search.specs.Found.{IsFirstOf};
ghost use Rattle.krates_search.specs.Links.{WasAsked};

use crate::enabling::{Keeping, keep};
use crate::found::{first_kinds, info_at};
use crate::search_state::SearchState;
use krates_graph::agenda::Taken;
use krates_ids::{Error, Lost, laws};
use krates_questions::context::Context;
use krates_questions::node_entry::{EntryEdge, NodeEntry, child_number_at, parts_of, places_for};
use krates_questions::{Availability, NodePlace};
use krates_selection::trace::Reason;

/// Keeps what a kept crate needs: tries each edge of its node.
///
/// It is handed the crate as it was taken, so that each is expanded once, and the step by which the crate was found.
pub fn expand<'a>(
    context: &Context<'a, '_>,
    taken: Taken,
    step: usize,
    found: &mut SearchState<'a>,
) -> Result<(), Error>
    requires sound { IsSound context.now found.old }
    requires put { Contains found.old.krates.put taken }
    requires within { taken < found.old.krates.size }
    requires step { IsKrateStep context.now found.old.trace.items taken step }
    ensures advanced { OnOk result (Advances context.now found.old found.new) }
    ensures expanded { OnOk result ((krate : Id) → IsNodeAt context.now krate taken
        → HasExpanded context.now found.new krate) }
    ensures refused { IfErr result (Refuses context.now) }
{
    context.document.agrees();
    laws::one_reading();
    let place = NodePlace {
        index: taken.number(),
    };
    let parts = parts_of(context.document, place);
    for index in 0..parts.children.len() {
        let entry = parts.entry_at(index);
        expand_entry(context, &entry, false, Reason::by_one(5, step), found)?;
    }
    Ok(())
}

/// How an edge is tried.
#[derive(Clone, Copy)]
struct Trial {
    /// The first place of its kind and target in the `dep_kinds` of the dependency.
    kind: usize,
    /// Why it is found, if it is kept.
    reason: Reason,
    /// What there is for the crate that it leads to.
    availability: Availability,
    /// Whether it is tried also where it is optional.
    asked: bool,
}

/// Tries each edge of an entry; an optional one only where it is asked for.
///
/// A kind and target that occurs several times is tried once, and what there is for the crate is asked once. Where no edge was passed over,
/// it is noted that all of them have been asked for.
pub fn expand_entry<'a>(
    context: &Context<'a, '_>,
    entry: &NodeEntry<'a>,
    asked: bool,
    reason: Reason,
    found: &mut SearchState<'a>,
) -> Result<(), Error>
    requires entry { HasEntry context.now entry.now }
    requires sound { IsSound context.now found.old }
    requires may { (k : DepKindInfoModel) → MayTry context.now (edge_for entry.now k) (TakenWhen asked) }
    requires step { (k : DepKindInfoModel)
        → FindsEdge context.now found.old reason (edge_for entry.now k) (TakenWhen asked) }
    ensures advanced { OnOk result (Advances context.now found.old found.new) }
    ensures tried { OnOk result (HasTriedEntry context.now found.new entry.now (TakenWhen asked)) }
    ensures noted { asked ≡ true → OnOk result (WasAsked found.new.links entry.now.place.index
        entry.now.index) }
    ensures refused { IfErr result (Refuses context.now) }
{
    context.document.agrees();
    laws::one_reading();
    let places = places_for(context.document, entry);
    let number = child_number_at(context.document, entry.place, entry.index);
    let availability = context.availability_at(&found.excluded, number);
    let infos = entry.dep.dep_kinds.as_slice();
    let kinds = first_kinds(context.alloc, infos)?;
    let mut whole = true;
    for kind in kinds.as_slice() {
        let edge = EntryEdge {
            entry,
            info: info_at(infos, *kind),
            places,
        };
        let trial = Trial {
            kind: *kind,
            reason,
            availability,
            asked,
        };
        let tried = expand_edge(context, &edge, &trial, found)?;
        whole &= tried;
    }
    if !whole {
        return Ok(());
    }
    found.links.note_asked(entry.place, entry.index);
    Ok(())
}

/// Keeps an edge of an entry, unless it is ignored, or optional and not asked for, or its target doesn't pass.
///
/// It answers whether the same was done as where the edge is asked for: not if it was passed over as optional.
fn expand_edge<'a>(
    context: &Context<'a, '_>,
    edge: &EntryEdge<'a, '_>,
    trial: &Trial,
    found: &mut SearchState<'a>,
) -> Result<bool, Error>
    requires entry { HasEntry context.now edge.now.entry.now }
    requires places { HasItsPlaces edge.now }
    requires listed { IsListedEdge edge.now }
    requires first { IsFirstOf edge.now trial.now.kind }
    requires availability { HasAvailability context.now edge.now.entry.now trial.now.availability }
    requires sound { IsSound context.now found.old }
    requires may { MayTry context.now (edge_of edge.now) (TakenWhen trial.now.asked) }
    requires step { FindsEdge context.now found.old trial.now.reason (edge_of edge.now)
        (TakenWhen trial.now.asked) }
    ensures advanced { OnOk result (Advances context.now found.old found.new) }
    ensures tried { OnOk result (HasTried context.now found.new (edge_of edge.now) (TakenWhen trial.now.asked)) }
    ensures whole { IfOk result (λ whole. whole ≡ true → HasTried context.now found.new (edge_of edge.now) IsAny) }
    ensures all_tried { trial.now.asked ≡ true → IfOk result (λ whole. whole ≡ true) }
    ensures refused { IfErr result (Refuses context.now) }
{
    context.document.agrees();
    let entry = edge.entry;
    let info = edge.info;
    if context.setting.ignores(info.kind, entry.is_member) {
        return Ok(true);
    }
    let Some(declared) = edge.declared() else {
        return Err(Error::Lost(Lost::Undeclared {
            krate: entry.parent.clone()?,
            dep: entry.child.clone()?,
        }));
    };
    if !trial.asked && entry.declared_at(declared).optional {
        return Ok(false);
    }
    let passes = context.setting.passes(context.alloc, &info.target)?;
    if !passes {
        return Ok(true);
    }
    match trial.availability {
        Availability::NoPackage => Err(Error::Lost(Lost::Package(entry.child.clone()?))),
        Availability::NoNode => Err(Error::Lost(Lost::Node(entry.child.clone()?))),
        Availability::Excluded => Ok(true),
        Availability::Available(node) => {
            let keeping = Keeping {
                kind: trial.kind,
                declared,
                node,
                reason: trial.reason,
            };
            keep(context, edge, keeping, found)?;
            Ok(true)
        }
    }
}
