//! The resolver of a build: what the words say, or else the manifest of the workspace's root.

ghost use Rattle.std.specs.Prelude.{IfOk};
ghost use Rattle.krates_host.specs.AskedBuild.{IsFoundFor};
ghost use Rattle.krates_manifest.specs.ResolverOf.{IsResolver};

use crate::failure::{Failure, NoManifest};
use crate::inputs::Inputs;
use krates_cm::Metadata;
use krates_manifest::ManifestError;
use krates_text::path;
use krates_units::Resolver;
use krates_words::BuildWords;
use std::alloc::Global;

/// What says which resolver a build has.
#[derive(Clone, Copy, Debug, PartialEq, Eq)]
pub enum ResolverSource {
    /// The words, by `--resolver`.
    Words,
    /// The manifest of the workspace's root.
    Manifest,
}

/// The resolver of a build, and what says so: the words, or where they don't, the manifest `Cargo.toml` in the document's `workspace_root`,
/// with the edition of its package in the document (Cargo Book, "Dependency Resolution", "Resolver versions"). It is refused as `NoResolver`
/// where that manifest can't be read, or doesn't say; it may instead return `Memory`. Time O(length of the manifest and of the document).
pub fn resolver_of(
    inputs: &Inputs<'_>,
    words: &BuildWords,
    metadata: &Metadata,
) -> Result<(Resolver, ResolverSource), Failure>
    ensures { IfOk result (λ found. IsFoundFor words.now.resolver found.0 found.1) }
{
    match words.resolver {
        Some(resolver) => Ok((resolver, ResolverSource::Words)),
        None => Ok((in_manifest(inputs, metadata)?, ResolverSource::Manifest)),
    }
}

/// The resolver that the manifest of the workspace's root says.
fn in_manifest(inputs: &Inputs<'_>, metadata: &Metadata) -> Result<Resolver, Failure> {
    let alloc = inputs.alloc();
    let file = path::join(alloc, metadata.workspace_root.as_str(), "Cargo.toml")?;
    match inputs.text_in(file.as_str()) {
        Ok(text) => said_in(alloc, metadata, file, text.as_str()),
        Err(failure) => Err(unread(failure)),
    }
}

/// The resolver that a manifest with this text says.
fn said_in(
    alloc: Global,
    metadata: &Metadata,
    file: String,
    text: &str,
) -> Result<Resolver, Failure>
    ensures { IfOk result (λ resolver. IsResolver text.now metadata.now resolver) }
{
    match krates_manifest::resolver_of(alloc, metadata, text) {
        Ok(resolver) => Ok(resolver),
        Err(ManifestError::Memory) => Err(Failure::Memory),
        Err(cause) => Err(Failure::NoResolver {
            file,
            cause: NoManifest::Refused(cause),
        }),
    }
}

/// The refusal of a manifest that isn't read, which asks for the resolver.
fn unread(failure: Failure) -> Failure {
    let (file, cause) = match failure {
        Failure::Unread { file, cause } => (file, NoManifest::Unread(cause)),
        Failure::TooLong { file, max_bytes } => (file, NoManifest::TooLong(max_bytes)),
        Failure::NoText { file } => (file, NoManifest::NoText),
        Failure::Marked { file } => (file, NoManifest::Marked),
        other => return other,
    };
    Failure::NoResolver { file, cause }
}
