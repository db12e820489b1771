//! Whether a crate has a feature of a dependency: each package that the dependency leads to has it (Cargo Book, "Features",
//! "Dependency features").
ghost use Rattle.std.specs.Prelude.{◌↔◌, IsTrue, map};
ghost use Rattle.krates_cm.specs.Document.{dep_kind_info_view, dependency_view, node_dep_view};
ghost use Rattle.krates_questions.specs.Lookup.{resolved_view};
ghost use Rattle.krates_questions.specs.NodeEntry.{AreParts, IsEntry, child_of, krate_of, parent_of};
ghost use Rattle.krates_rules.specs.Resolved.{id_of};
ghost use Rattle.krates_units.specs.Answered.{HasFeatureOf};
ghost use Rattle.krates_build_tables.specs.Entries.{HasOneThat};
ghost use Rattle.krates_build_tables.specs.Leading.{EachHas, ResolvesNamed};
ghost use Rattle.krates_build_tables.specs.Pairs.{FitsInfo, GivesOf, PairsFor};

use crate::contents::declared_by;
use crate::fitting::{fits_child, fits_info};
use crate::package_names::{declared_name, has_feature, knows_name};
use krates_cm::{DepKindInfo, Dependency};
use krates_ids::{Kid, laws};
use krates_questions::Document;
use krates_questions::node_entry::{NodeEntry, NodeParts, parts_of};

/// Whether the crate declares a dependency of this name, and each package that the name leads to has the feature, in which there is
/// no slash.
pub(crate) fn has_feature_of(
    document: &Document<'_>,
    krate: &Kid,
    name: &str,
    feature: &str,
) -> bool
    ensures { IsTrue result
        ↔ HasFeatureOf (resolved_view document.now) (id_of krate.now) name.now feature.now }
{
    if feature.contains("/") {
        return false;
    }
    knows_name(document, krate, name) && each_named_has(document, krate, name, feature)
}

/// Whether each package that a dependency of this name leads to has the feature.
fn each_named_has(document: &Document<'_>, krate: &Kid, name: &str, feature: &str) -> bool
    ensures { let r = resolved_view document.now in
        IsTrue result ↔ EachHas r feature.now (ResolvesNamed r (id_of krate.now) name.now) }
{
    for declared in declared_by(document, krate) {
        if declared_name(declared) == name && !each_child_has(document, krate, declared, feature) {
            return false;
        }
    }
    true
}

/// Whether each package that a declared dependency leads to has the feature.
fn each_child_has(
    document: &Document<'_>,
    krate: &Kid,
    declared: &Dependency,
    feature: &str,
) -> bool
    ensures { let r = resolved_view document.now in let d = dependency_view declared.now in
        IsTrue result ↔ EachHas r feature.now (PairsFor r (id_of krate.now) d) }
{
    laws::one_reading();
    match document.node_place(krate) {
        Some(place) => each_of_node_has(document, &parts_of(document, place), declared, feature),
        None => true,
    }
}

/// Whether each package to which a dependency of the node leads, as it is declared, has the feature.
fn each_of_node_has(
    document: &Document<'_>,
    parts: &NodeParts<'_>,
    declared: &Dependency,
    feature: &str,
) -> bool
    requires { AreParts (resolved_view document.now) parts.now.place.index parts.now }
    ensures { let r = resolved_view document.now in let d = dependency_view declared.now in
        IsTrue result ↔ EachHas r feature.now (PairsFor r (krate_of parts.now) d) }
{
    document.agrees();
    laws::one_reading();
    for index in 0..parts.children.len() {
        if !child_has(document, &parts.entry_at(index), declared, feature) {
            return false;
        }
    }
    true
}

/// Whether the package to which the dependency of a node leads has the feature, if the dependency is the declared one.
fn child_has(
    document: &Document<'_>,
    entry: &NodeEntry<'_>,
    declared: &Dependency,
    feature: &str,
) -> bool
    requires { IsEntry (resolved_view document.now) entry.now }
    ensures { let r = resolved_view document.now in
        let d = dependency_view declared.now in let dep = node_dep_view entry.now.dep.now in
        IsTrue result
        ↔ EachHas r feature.now (GivesOf r (parent_of entry.now) (child_of entry.now) dep d) }
{
    if fits_child(document, entry, declared) && fits_some_info(&entry.dep.dep_kinds, declared) {
        return has_feature(document, entry.child, feature);
    }
    true
}

/// Whether a declared dependency is of one of these kinds, and for the target beside it.
fn fits_some_info(infos: &[DepKindInfo], declared: &Dependency) -> bool
    ensures { let d = dependency_view declared.now in
        IsTrue result ↔ HasOneThat (λ k. FitsInfo k d) (map dep_kind_info_view infos.now) }
{
    for info in infos {
        if fits_info(info, declared) {
            return true;
        }
    }
    false
}
