//! The package with the manifest of a workspace's root, and the resolver of its edition.
ghost use Rattle.std.specs.Prelude.{◌≡◌, ◌↔◌, IsTrue, option_copied};
ghost use Rattle.krates_cm.specs.Queries.{IsManifestIn};
ghost use Rattle.krates_manifest.specs.ResolverOf.{IsOfRootManifest, edition_resolver};

use krates_cm::{Edition, Metadata, Package};
use krates_text::path;
use krates_units::Resolver;

/// The first package with the manifest of the workspace's root.
pub(crate) fn package_of_root(metadata: &Metadata) -> Option<&Package>
    ensures { IsOfRootManifest metadata.now (option_copied result) }
{
    metadata.packages.iter().find(|pkg| is_manifest_in(
        metadata.workspace_root.as_str(),
        pkg.manifest_path.as_str(),
    ))
}

/// Whether a path is that of the manifest in a directory, by components.
fn is_manifest_in(directory: &str, path: &str) -> bool
    ensures { IsTrue result ↔ IsManifestIn directory.now path.now }
{
    match path::parent(path) {
        Some(parent) => path::same(parent, directory) && path::ends_with(path, "Cargo.toml"),
        None => false,
    }
}

/// The resolver of an edition.
pub(crate) fn edition_resolver(edition: Edition) -> Resolver
    ensures { result ≡ edition_resolver edition }
{
    match edition {
        Edition::E2015 | Edition::E2018 => Resolver::V1,
        Edition::E2021 => Resolver::V2,
        Edition::E2024 => Resolver::V3,
    }
}
