//! The declared dependencies of a crate, each with the edges of the document by which it is resolved.

ghost use Rattle.std.specs.Prelude.{◌≡◌, ◌↔◌, Contains, IfOk, IsTrue, map};
ghost use Rattle.krates_cm.specs.Document.{DependencyModel, DepKindInfoModel, dependency_view, node_dep_view};
ghost use Rattle.krates_questions.specs.Lookup.{resolved_view};
ghost use Rattle.krates_questions.specs.NodeEntry.{AreParts, IsEntry, child_of, krate_of, parent_of};
ghost use Rattle.krates_rules.specs.Facts.{Edge};
ghost use Rattle.krates_rules.specs.Resolved.{id_of};
ghost use Rattle.krates_units.specs.Resolves.{LacksEdge, Resolves};
ghost use Rattle.krates_build_tables.specs.Pairs.{GivesBy, GivesOf, IsUnresolved, PairsFor, pair_view};

use crate::contents::declared_by;
use crate::fitting::{fits_child, fits_info};
use crate::pushing::append;
use krates_cm::{DepKindInfo, Dependency};
use krates_ids::{Kid, laws};
use krates_questions::Document;
use krates_questions::node_entry::{NodeEntry, NodeParts, parts_of};
use std::alloc::{AllocError, Global};

/// A declared dependency, with an edge by which it is resolved.
#[derive(Clone, Copy)]
pub(crate) struct Pair<'a> {
    /// The crate that declares it.
    pub parent: &'a Kid,
    /// The crate that the edge leads to.
    pub child: &'a Kid,
    /// The kind and the target of the edge.
    pub info: &'a DepKindInfo,
    /// The dependency, as it is declared.
    pub declared: &'a Dependency,
}

/// The declared dependencies of a crate, each with every edge by which it is resolved.
pub(crate) fn pairs_of<'a>(
    alloc: Global,
    document: &Document<'a>,
    krate: &Kid,
) -> Result<Vec<Pair<'a>>, AllocError>
    ensures { let r = resolved_view document.now in
        IfOk result (λ pairs. (b : Edge × DependencyModel) →
        (Resolves r b.0 b.1 × (b.0.parent ≡ id_of krate.now))
        ↔ Contains (map pair_view pairs.items) b) }
{
    let mut pairs = Vec::new(alloc);
    for declared in declared_by(document, krate) {
        let mut more = pairs_for(alloc, document, krate, declared)?;
        append(&mut pairs, &mut more)?;
    }
    Ok(pairs)
}

/// The dependencies that a crate declares and that no edge of the document resolves.
pub(crate) fn unresolved_of<'a>(
    alloc: Global,
    document: &Document<'a>,
    krate: &Kid,
) -> Result<Vec<&'a Dependency>, AllocError>
    ensures { IfOk result (λ all. (d : DependencyModel) →
        LacksEdge (resolved_view document.now) (id_of krate.now) d
        ↔ Contains (map (λ dep. dependency_view dep.now) all.items) d) }
{
    let mut all = Vec::new(alloc);
    for declared in declared_by(document, krate) {
        let left = is_unresolved(alloc, document, krate, declared)?;
        if left {
            all.push(declared)?;
        }
    }
    Ok(all)
}

/// Whether no edge of a crate's node resolves a declared dependency.
fn is_unresolved<'a>(
    alloc: Global,
    document: &Document<'a>,
    krate: &Kid,
    declared: &'a Dependency,
) -> Result<bool, AllocError>
    ensures { let d = dependency_view declared.now in
        IfOk result (λ yes. IsTrue yes ↔ IsUnresolved (resolved_view document.now) (id_of krate.now) d) }
{
    let pairs = pairs_for(alloc, document, krate, declared)?;
    Ok(pairs.is_empty())
}

/// A declared dependency with every edge of a crate's node by which it is resolved.
fn pairs_for<'a>(
    alloc: Global,
    document: &Document<'a>,
    krate: &Kid,
    declared: &'a Dependency,
) -> Result<Vec<Pair<'a>>, AllocError>
    ensures { let r = resolved_view document.now in let d = dependency_view declared.now in
        IfOk result (λ pairs. (b : Edge × DependencyModel) → PairsFor r (id_of krate.now) d b
        ↔ Contains (map pair_view pairs.items) b) }
{
    laws::one_reading();
    match document.node_place(krate) {
        Some(place) => pairs_among(alloc, document, &parts_of(document, place), declared),
        None => Ok(Vec::new(alloc)),
    }
}

/// A declared dependency with every edge of these by which it is resolved.
fn pairs_among<'a>(
    alloc: Global,
    document: &Document<'a>,
    parts: &NodeParts<'a>,
    declared: &'a Dependency,
) -> Result<Vec<Pair<'a>>, AllocError>
    requires { AreParts (resolved_view document.now) parts.now.place.index parts.now }
    ensures { let r = resolved_view document.now in let d = dependency_view declared.now in
        IfOk result (λ pairs. (b : Edge × DependencyModel) → PairsFor r (krate_of parts.now) d b
        ↔ Contains (map pair_view pairs.items) b) }
{
    document.agrees();
    laws::one_reading();
    let mut pairs = Vec::new(alloc);
    for index in 0..parts.children.len() {
        let mut more = pairs_at(alloc, document, &parts.entry_at(index), declared)?;
        append(&mut pairs, &mut more)?;
    }
    Ok(pairs)
}

/// A declared dependency with every edge of a dependency of a node by which it is resolved.
fn pairs_at<'a>(
    alloc: Global,
    document: &Document<'a>,
    entry: &NodeEntry<'a>,
    declared: &'a Dependency,
) -> Result<Vec<Pair<'a>>, AllocError>
    requires { IsEntry (resolved_view document.now) entry.now }
    ensures { let r = resolved_view document.now in let d = dependency_view declared.now in
        IfOk result (λ pairs. (b : Edge × DependencyModel)
        → GivesOf r (parent_of entry.now) (child_of entry.now) (node_dep_view entry.now.dep.now) d b
        ↔ Contains (map pair_view pairs.items) b) }
{
    if fits_child(document, entry, declared) {
        pairs_by(alloc, entry, declared)
    } else {
        Ok(Vec::new(alloc))
    }
}

/// A declared dependency with every edge of a dependency of a node that is of its kind and for its target.
fn pairs_by<'a>(
    alloc: Global,
    entry: &NodeEntry<'a>,
    declared: &'a Dependency,
) -> Result<Vec<Pair<'a>>, AllocError>
    ensures { let p = parent_of entry.now in let c = child_of entry.now in
        let d = dependency_view declared.now in
        IfOk result (λ pairs. (b : Edge × DependencyModel)
        → ((k : DepKindInfoModel) × Contains (node_dep_view entry.now.dep.now).dep_kinds k
        × GivesBy p c d k b)
        ↔ Contains (map pair_view pairs.items) b) }
{
    let mut pairs = Vec::new(alloc);
    for info in &entry.dep.dep_kinds {
        if fits_info(info, declared) {
            pairs.push(Pair {
                parent: entry.parent,
                child: entry.child,
                info,
                declared,
            })?;
        }
    }
    Ok(pairs)
}
