//! What the package of a crate has.

ghost use Rattle.std.specs.Prelude.{◌≡◌, ◌↔◌, Contains, IsTrue, map};
ghost use Rattle.krates_cm.specs.Document.{DependencyModel, PackageModel, TargetModel, dependency_view, target_view};
ghost use Rattle.krates_questions.specs.Lookup.{resolved_view};
ghost use Rattle.krates_rules.specs.Resolved.{HasPackage, id_of};
ghost use Rattle.krates_units.specs.BuildTargets.{HasTarget, LinksNatively};
ghost use Rattle.krates_units.specs.Resolves.{HasDeclared};

use krates_cm::{Dependency, Target};
use krates_ids::Kid;
use krates_questions::Document;

/// The targets of a crate's package, in the order of the document; none where it has no package. Time O(log n) in the crates.
pub(crate) fn targets_of<'a>(document: &Document<'a>, krate: &Kid) -> &'a [Target]
    ensures has { (t : TargetModel) → HasTarget (resolved_view document.now) (id_of krate.now) t
        ↔ Contains (map target_view result.now) t }
    ensures whole { (p : PackageModel) → HasPackage (resolved_view document.now) (id_of krate.now) p
        → map target_view result.now ≡ p.targets }
{
    document.agrees();
    match document.package_of(krate) {
        Some(pkg) => &pkg.targets,
        None => &[],
    }
}

/// The dependencies that a crate's package declares, in the order of the document; none where it has no package. Time O(log n) in the
/// crates.
pub(crate) fn declared_by<'a>(document: &Document<'a>, krate: &Kid) -> &'a [Dependency]
    ensures { (d : DependencyModel) → HasDeclared (resolved_view document.now) (id_of krate.now) d
        ↔ Contains (map dependency_view result.now) d }
{
    document.agrees();
    match document.package_of(krate) {
        Some(pkg) => &pkg.dependencies,
        None => &[],
    }
}

/// Whether the package of a crate says that it links to a native library; false where it has no package. Time O(log n) in the crates.
pub(crate) fn links_natively(document: &Document<'_>, krate: &Kid) -> bool
    ensures { IsTrue result ↔ LinksNatively (resolved_view document.now) (id_of krate.now) }
{
    document.agrees();
    match document.package_of(krate) {
        Some(pkg) => pkg.links.is_some(),
        None => false,
    }
}
