//! Packages.

use crate::dependency::Dependency;
use crate::package_id::PackageId;
use crate::target::{Edition, Target};
use semver::Version;
use serde_json::Value;
use std::collections::BTreeMap;

/// A package of the document (Cargo Book, "cargo metadata", `packages`).
///
/// Paths are texts, as cargo wrote them. The descriptive fields are those of the manifest
/// (Cargo Book, "The Manifest Format").
#[derive(Debug, Drop)]
pub struct Package {
    /// The name of the package.
    pub name: String,
    /// Its version.
    pub version: Version,
    /// Who wrote it.
    pub authors: Vec<String>,
    /// Its id.
    pub id: PackageId,
    /// Where it comes from; `None` for a path.
    pub source: Option<Source>,
    /// What it says about itself.
    pub description: Option<String>,
    /// The dependencies that it declares, in the order of the document.
    pub dependencies: Vec<Dependency>,
    /// Its licence, as an SPDX expression.
    pub license: Option<String>,
    /// The path of its licence file, from its manifest's directory.
    pub license_file: Option<String>,
    /// What it builds.
    pub targets: Vec<Target>,
    /// The features that it declares, each with what it enables.
    pub features: BTreeMap<String, Vec<String>>,
    /// The path of its manifest.
    pub manifest_path: String,
    /// Its categories on crates.io.
    pub categories: Vec<String>,
    /// Its keywords on crates.io.
    pub keywords: Vec<String>,
    /// The path of its readme, from its manifest's directory.
    pub readme: Option<String>,
    /// The URL of its repository.
    pub repository: Option<String>,
    /// The URL of its home page.
    pub homepage: Option<String>,
    /// The URL of its documentation.
    pub documentation: Option<String>,
    /// The edition of Rust that it is written in.
    pub edition: Edition,
    /// The free-form table `package.metadata`; null if there is none.
    pub metadata: Value,
    /// The native library that it links to.
    pub links: Option<String>,
    /// The registries that it may be published to; `None` if it may go to any.
    pub publish: Option<Vec<String>>,
    /// The program that `cargo run` runs.
    pub default_run: Option<String>,
    /// The least version of Rust that it needs.
    pub rust_version: Option<Version>,
}

/// Where a package comes from: a registry or a git repository.
#[derive(Debug, Drop, PartialEq, Eq)]
pub struct Source {
    /// The text of the source.
    pub repr: String,
}

/// What kind of place a source is: the part before the first `+` of its text, as in `git+https://host/repository`
/// (Cargo Book, "Package ID Specifications").
#[derive(Clone, Copy, Debug, PartialEq, Eq)]
pub enum SourceKind {
    /// A registry whose index is a git repository, `registry`; crates.io is written this way too.
    Registry,
    /// A registry whose index is read by HTTP, `sparse`.
    SparseRegistry,
    /// A git repository, `git`.
    Git,
    /// A directory, `path`.
    Path,
    /// None of these: another word is there, or the text has no `+`.
    Other,
}
