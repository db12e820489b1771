//! The resolver that a workspace uses.
ghost use Rattle.std.specs.Prelude.{◌≡◌, IfErr, IfOk, MatchOption, MatchResult};
ghost use Rattle.toml.specs.Data.{string};
ghost use Rattle.toml.specs.View.{table_view, view};
ghost use Rattle.krates_manifest.specs.ManifestFaults.{IsFault, IsFaultOf, LacksPackage, RefusesName};
ghost use Rattle.krates_manifest.specs.ManifestFields.{resolver_text};
ghost use Rattle.krates_manifest.specs.ResolverOf.{IsDefaultOf, IsResolver, IsResolverOf};

use crate::fields::{package_resolver, package_value, resolver_named, workspace_resolver};
use crate::manifest_error::ManifestError;
use crate::root_package::{edition_resolver, package_of_root};
use krates_cm::Metadata;
use krates_units::Resolver;
use std::alloc::Global;
use toml::{Table, Value};

/// The resolver that a workspace uses, by the text of the manifest of its root, `Cargo.toml` in the document's `workspace_root`: the one that
/// `workspace.resolver` or `package.resolver` names; where neither is there, that of the edition of the manifest's package, which the
/// document says, and the first for a manifest without a package. What else the manifest says isn't looked at.
///
/// It is refused as `NotToml` where the text isn't TOML; otherwise as `TwoResolvers` where both fields are there, which cargo refuses too; as
/// `BadResolver` where what is named is none of the texts `1`, `2` and `3`; and as `NoPackage` where the edition is asked of the document, which
/// has no package with this manifest. It may instead return `Memory`. Time: that of reading the text as TOML, and O(length of the packages'
/// paths).
///
/// ```text
/// let resolver = resolver_of(alloc, &metadata, "[workspace]\nresolver = \"2\"\n")?;
/// assert!(rt; resolver == Resolver::V2);
/// ```
pub fn resolver_of(
    alloc: Global,
    metadata: &Metadata,
    manifest: &str,
) -> Result<Resolver, ManifestError>
    ensures read { IfOk result (IsResolver manifest.now metadata.now) }
    ensures refused { IfErr result (IsFault manifest.now metadata.now) }
{
    let manifest = toml::table_from_str(alloc, manifest)?;
    resolver_in(metadata, &manifest)
}

/// The resolver that is used with a manifest.
fn resolver_in(metadata: &Metadata, manifest: &Table) -> Result<Resolver, ManifestError>
    ensures { MatchResult result (IsResolverOf (table_view manifest.now) metadata.now)
        (IsFaultOf (table_view manifest.now) metadata.now) }
{
    match (workspace_resolver(manifest), package_resolver(manifest)) {
        (Some(_), Some(_)) => Err(ManifestError::TwoResolvers),
        (Some(value), None) => named_resolver(value),
        (None, Some(value)) => named_resolver(value),
        (None, None) => match default_resolver(metadata, manifest) {
            Some(resolver) => Ok(resolver),
            None => Err(ManifestError::NoPackage),
        },
    }
}

/// The resolver that a value names.
fn named_resolver(value: &Value) -> Result<Resolver, ManifestError>
    ensures { MatchResult result (λ resolver. view value.now ≡ string (resolver_text resolver))
        (RefusesName (view value.now)) }
{
    match resolver_named(value) {
        Some(resolver) => Ok(resolver),
        None => Err(ManifestError::BadResolver(value.clone()?)),
    }
}

/// The resolver that is used with a manifest that names none; none if the document lacks the manifest's package.
fn default_resolver(metadata: &Metadata, manifest: &Table) -> Option<Resolver>
    ensures { MatchOption result (LacksPackage (table_view manifest.now) metadata.now)
        (IsDefaultOf (table_view manifest.now) metadata.now) }
{
    match package_value(manifest) {
        Some(_) => {
            let pkg = package_of_root(metadata)?;
            Some(edition_resolver(pkg.edition))
        }
        None => Some(Resolver::V1),
    }
}
