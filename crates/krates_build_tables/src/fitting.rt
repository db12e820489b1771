//! When a declared dependency is resolved by a dependency of a node.

ghost use Rattle.std.specs.Prelude.{◌↔◌, IsTrue, map};
ghost use Rattle.semver.specs.Identifiers.{parts_of};
ghost use Rattle.krates_cm.specs.Document.{PackageModel, dep_kind_info_view, dependency_view, node_dep_view, requirement_view, target_view};
ghost use Rattle.krates_questions.specs.Lookup.{resolved_view};
ghost use Rattle.krates_questions.specs.NodeEntry.{HasItsVersion, child_of};
ghost use Rattle.krates_rules.specs.DeclaredDependency.{VersionMatches};
ghost use Rattle.krates_rules.specs.Resolved.{HasPackage, id_of};
ghost use Rattle.krates_units.specs.Resolves.{IsCalled};
ghost use Rattle.krates_build_tables.specs.Entries.{HasOneThat};
ghost use Rattle.krates_build_tables.specs.Pairs.{FitsChild, FitsInfo, IsLibraryCalled};

use crate::contents::targets_of;
use krates_cm::{DepKindInfo, Dependency, Target};
use krates_document::dependency_name::is_name_of;
use krates_ids::Kid;
use krates_questions::Document;
use krates_questions::node_entry::NodeEntry;
use krates_units::kinds::is_library;
use semver::{Version, VersionReq};

/// Whether a declared dependency fits a dependency of a node, whatever its kind and target.
pub(crate) fn fits_child(
    document: &Document<'_>,
    entry: &NodeEntry<'_>,
    declared: &Dependency,
) -> bool
    requires { HasItsVersion entry.now }
    ensures { let dep = node_dep_view entry.now.dep.now in
        IsTrue result ↔ FitsChild (resolved_view document.now)
        (child_of entry.now) dep (dependency_view declared.now) }
{
    declared.name.as_str() == entry.child.name()
        && version_matches(entry.version, &declared.req)
        && is_called(document, entry.child, declared, entry.dep.name.as_str())
        && has_package(document, entry.child)
}

/// Whether a declared dependency is of a kind and for a target.
pub(crate) fn fits_info(info: &DepKindInfo, declared: &Dependency) -> bool
    ensures { IsTrue result ↔ FitsInfo (dep_kind_info_view info.now) (dependency_view declared.now) }
{
    declared.kind == info.kind && declared.target == info.target
}

/// Whether the document has a package of the crate.
pub(crate) fn has_package(document: &Document<'_>, krate: &Kid) -> bool
    ensures { IsTrue result
        ↔ ((p : PackageModel) × HasPackage (resolved_view document.now) (id_of krate.now) p) }
{
    document.package_of(krate).is_some()
}

/// Whether code that has a declared dependency, on this crate, calls it by this name.
fn is_called(document: &Document<'_>, child: &Kid, declared: &Dependency, name: &str) -> bool
    ensures { let d = dependency_view declared.now in
        IsTrue result ↔ IsCalled (resolved_view document.now) (id_of child.now) d name.now }
{
    match &declared.rename {
        Some(rename) => is_name_of(name, rename.as_str()),
        None => has_library_called(targets_of(document, child), name),
    }
}

/// Whether one of the targets is a library that code calls by this name.
fn has_library_called(targets: &[Target], name: &str) -> bool
    ensures { IsTrue result ↔ HasOneThat (IsLibraryCalled name.now) (map target_view targets.now) }
{
    for target in targets {
        if is_library_called(target, name) {
            return true;
        }
    }
    false
}

/// Whether a target is a library that code calls by this name.
fn is_library_called(target: &Target, name: &str) -> bool
    ensures { IsTrue result ↔ IsLibraryCalled name.now (target_view target.now) }
{
    is_library(target) && is_name_of(name, target.name.as_str())
}

/// Whether the requirement allows the version: it matches, or it has no comparator and the version is a pre-release,
/// which the requirement `*` doesn't match.
fn version_matches(version: &Version, req: &VersionReq) -> bool
    ensures { IsTrue result ↔ VersionMatches (parts_of version.now) (requirement_view req.now) }
{
    req.matches(version) || !version.pre.is_empty() && req.comparators.is_empty()
}
