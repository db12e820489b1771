//! The two parts in which most of a package is read and copied: a package has the fields of both.

use crate::target::Edition;
use semver::Version;
use serde_json::Value;

/// What a package says about itself.
#[derive(Drop)]
pub struct About {
    /// Who wrote it.
    pub authors: Vec<String>,
    /// What it says about itself.
    pub description: Option<String>,
    /// Its licence, as an SPDX expression.
    pub license: Option<String>,
    /// The path of its licence file, from its manifest's directory.
    pub license_file: Option<String>,
    /// Its categories on crates.io.
    pub categories: Vec<String>,
    /// Its keywords on crates.io.
    pub keywords: Vec<String>,
    /// The path of its readme, from its manifest's directory.
    pub readme: Option<String>,
    /// The URL of its repository.
    pub repository: Option<String>,
    /// The URL of its home page.
    pub homepage: Option<String>,
    /// The URL of its documentation.
    pub documentation: Option<String>,
}

/// How a package is built and published.
#[derive(Drop)]
pub struct Settings {
    /// The edition of Rust that it is written in.
    pub edition: Edition,
    /// The free-form table `package.metadata`; null if there is none.
    pub metadata: Value,
    /// The native library that it links to.
    pub links: Option<String>,
    /// The registries that it may be published to; `None` if it may go to any.
    pub publish: Option<Vec<String>>,
    /// The program that `cargo run` runs.
    pub default_run: Option<String>,
    /// The least version of Rust that it needs.
    pub rust_version: Option<Version>,
}
