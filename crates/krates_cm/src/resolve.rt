//! The dependency graph that cargo resolved.

use crate::dependency::DependencyKind;
use crate::package_id::PackageId;

/// The resolved dependency graph (Cargo Book, "cargo metadata", `resolve`).
#[derive(Debug, Drop)]
pub struct Resolve {
    /// The nodes, one for each package that cargo resolved.
    pub nodes: Vec<Node>,
    /// The package that the document was made for; `None` for a virtual workspace.
    pub root: Option<PackageId>,
}

/// A package of the resolved graph.
#[derive(Debug, Drop)]
pub struct Node {
    /// The id of the package.
    pub id: PackageId,
    /// What it depends on, with names and kinds.
    pub deps: Vec<NodeDep>,
    /// The ids of what it depends on.
    pub dependencies: Vec<PackageId>,
    /// The features that cargo enabled on it.
    pub features: Vec<String>,
}

/// A dependency of a node.
#[derive(Debug, Drop)]
pub struct NodeDep {
    /// The name by which the node's code refers to it.
    pub name: String,
    /// The id of the package that is depended on.
    pub pkg: PackageId,
    /// What it is needed for, and for which targets.
    pub dep_kinds: Vec<DepKindInfo>,
}

/// One way in which a node needs a dependency.
#[derive(Debug, Drop)]
pub struct DepKindInfo {
    /// What it is needed for.
    pub kind: DependencyKind,
    /// The target that it is needed for: a triple or a `cfg(..)` expression.
    pub target: Option<String>,
}
