//! What a manifest says of the resolver.
ghost use Rattle.std.specs.Prelude.{◌≡◌, MatchOption, option_map};
ghost use Rattle.toml.specs.Data.{get_member, string};
ghost use Rattle.toml.specs.View.{table_view, view};
ghost use Rattle.krates_manifest.specs.ManifestFields.{IsNoResolver, package_resolver, package_value, resolver_text, workspace_resolver};

use krates_units::Resolver;
use toml::{Table, Value};

/// What a manifest has at a key.
fn value_at<'a>(manifest: &'a Table, key: &str) -> Option<&'a Value>
    ensures { option_map (λ value. view value.now) result ≡ get_member key.now (table_view manifest.now) }
{
    manifest.get(key)
}

/// What a manifest says of its package; none if it is virtual.
pub(crate) fn package_value(manifest: &Table) -> Option<&Value>
    ensures { option_map (λ value. view value.now) result ≡ package_value (table_view manifest.now) }
{
    match value_at(manifest, "package") {
        Some(pkg) => Some(pkg),
        None => value_at(manifest, "project"),
    }
}

/// What a manifest names as the resolver of its package.
pub(crate) fn package_resolver(manifest: &Table) -> Option<&Value>
    ensures { option_map (λ value. view value.now) result ≡ package_resolver (table_view manifest.now) }
{
    match package_value(manifest) {
        Some(pkg) => pkg.get("resolver"),
        None => None,
    }
}

/// What a manifest names as the resolver of its workspace.
pub(crate) fn workspace_resolver(manifest: &Table) -> Option<&Value>
    ensures { option_map (λ value. view value.now) result ≡ workspace_resolver (table_view manifest.now) }
{
    match value_at(manifest, "workspace") {
        Some(workspace) => workspace.get("resolver"),
        None => None,
    }
}

/// The resolver that a value names; none if it names none.
pub(crate) fn resolver_named(value: &Value) -> Option<Resolver>
    ensures { MatchOption result (IsNoResolver (view value.now))
        (λ resolver. view value.now ≡ string (resolver_text resolver)) }
{
    match value.as_str() {
        Some("1") => Some(Resolver::V1),
        Some("2") => Some(Resolver::V2),
        Some("3") => Some(Resolver::V3),
        _ => None,
    }
}
