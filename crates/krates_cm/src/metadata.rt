//! The whole document.

use crate::package::Package;
use crate::package_id::PackageId;
use crate::resolve::Resolve;
use serde_json::Value;

/// What `cargo metadata --format-version 1` says about a workspace
/// (Cargo Book, "cargo metadata", "JSON format").
#[derive(Debug, Drop)]
pub struct Metadata {
    /// The packages of the workspace and of all that it depends on.
    pub packages: Vec<Package>,
    /// The members of the workspace.
    pub workspace_members: Vec<PackageId>,
    /// The default members of the workspace.
    pub workspace_default_members: WorkspaceDefaultMembers,
    /// The resolved dependency graph; `None` if cargo was asked not to resolve.
    pub resolve: Option<Resolve>,
    /// The path of the workspace.
    pub workspace_root: String,
    /// The path of the directory that cargo builds into.
    pub target_directory: String,
    /// The path of the directory for intermediate files.
    pub build_directory: Option<String>,
    /// The free-form table `workspace.metadata`; null if there is none.
    pub workspace_metadata: Value,
    /// The version of the document's format.
    pub version: usize,
}

/// The default members of the workspace; `None` if the document doesn't name them, as before cargo 1.71.
#[derive(Debug, Drop)]
pub struct WorkspaceDefaultMembers(pub Option<Vec<PackageId>>);
