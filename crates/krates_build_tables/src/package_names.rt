//! What the package of a crate has, by name.
ghost use Rattle.std.specs.Prelude.{◌≡◌, ◌↔◌, IsTrue, map};
ghost use Rattle.krates_cm.specs.Document.{dependency_view};
ghost use Rattle.krates_questions.specs.Lookup.{resolved_view};
ghost use Rattle.krates_rules.specs.DeclaredDependency as definitions;
ghost use Rattle.krates_rules.specs.Resolved.{id_of};
ghost use Rattle.krates_units.specs.Requests.{HasFeature, KnowsName, KnowsOptional, MayAsk};
ghost use Rattle.krates_build_tables.specs.RequestsTaken.{DeclaresNamed};

use krates_cm::Dependency;
use krates_ids::Kid;
use krates_questions::Document;

/// Whether the command line may ask the crate for this name: a feature, or an optional dependency.
pub(crate) fn may_ask(document: &Document<'_>, id: &Kid, name: &str) -> bool
    ensures { IsTrue result ↔ MayAsk (resolved_view document.now) (id_of id.now) name.now }
{
    has_feature(document, id, name) || knows_optional(document, id, name)
}

/// Whether the package of the crate has the feature.
pub(crate) fn has_feature(document: &Document<'_>, id: &Kid, name: &str) -> bool
    ensures { IsTrue result ↔ HasFeature (resolved_view document.now) (id_of id.now) name.now }
{
    document.agrees();
    match document.package_of(id) {
        Some(pkg) => pkg.features.contains_key(name),
        None => false,
    }
}

/// Whether the package of the crate declares a dependency of this name.
pub(crate) fn knows_name(document: &Document<'_>, id: &Kid, name: &str) -> bool
    ensures { IsTrue result ↔ KnowsName (resolved_view document.now) (id_of id.now) name.now }
{
    document.agrees();
    match document.package_of(id) {
        Some(pkg) => declares(&pkg.dependencies, name, false),
        None => false,
    }
}

/// Whether the package of the crate declares an optional dependency of this name.
pub(crate) fn knows_optional(document: &Document<'_>, id: &Kid, name: &str) -> bool
    ensures { IsTrue result ↔ KnowsOptional (resolved_view document.now) (id_of id.now) name.now }
{
    document.agrees();
    match document.package_of(id) {
        Some(pkg) => declares(&pkg.dependencies, name, true),
        None => false,
    }
}

/// Whether one of the dependencies has this name, and is optional if only those are looked for.
fn declares(deps: &[Dependency], name: &str, only_optional: bool) -> bool
    ensures { IsTrue result ↔ DeclaresNamed (map dependency_view deps.now) name.now only_optional }
{
    for dep in deps {
        if (dep.optional || !only_optional) && declared_name(dep) == name {
            return true;
        }
    }
    false
}

/// The name under which the manifest knows the dependency.
pub(crate) fn declared_name<'a>(dep: &'a Dependency) -> &'a str
    ensures { result.now ≡ definitions.declared_name (dependency_view dep.now) }
{
    match &dep.rename {
        Some(rename) => rename.as_str(),
        None => dep.name.as_str(),
    }
}
