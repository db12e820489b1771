//! The features that a dependency gives to the crate that it leads to.

ghost use Rattle.std.specs.Prelude.{◌↔◌, Contains, IfOk, IsTrue, map};
ghost use Rattle.krates_cm.specs.Document.{Text, dependency_view};
ghost use Rattle.krates_questions.specs.Lookup.{resolved_view};
ghost use Rattle.krates_rules.specs.Resolved.{id_of};
ghost use Rattle.krates_rules.specs.Rules.{default_name};
ghost use Rattle.krates_units.specs.Requests.{GivesFeature, HasFeature};

use crate::package_names::has_feature;
use crate::texts::borrowed;
use krates_cm::Dependency;
use krates_ids::Kid;
use krates_questions::Document;
use std::alloc::{AllocError, Global};

/// The features that a declared dependency gives to a crate.
pub(crate) fn given_by<'a>(
    alloc: Global,
    document: &Document<'a>,
    declared: &'a Dependency,
    child: &Kid,
) -> Result<Vec<&'a str>, AllocError>
    ensures { let d = dependency_view declared.now in
        IfOk result (λ given. (g : Text) → GivesFeature (resolved_view document.now) d (id_of child.now) g
        ↔ Contains (map (λ t. t.now) given.items) g) }
{
    let mut given = borrowed(alloc, &declared.features)?;
    if gives_default(document, declared, child) {
        given.push("default")?;
    }
    Ok(given)
}

/// Whether a declared dependency gives the feature `default` to a crate that has it.
fn gives_default(document: &Document<'_>, declared: &Dependency, child: &Kid) -> bool
    ensures { let d = dependency_view declared.now in
        IsTrue result ↔ (IsTrue d.uses_default_features
        × HasFeature (resolved_view document.now) (id_of child.now) default_name) }
{
    declared.uses_default_features && has_feature(document, child, "default")
}
