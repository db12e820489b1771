//! The dependencies that a package declares.

use semver::VersionReq;

/// A dependency as the manifest of a package declares it
/// (Cargo Book, "cargo metadata", the items of `dependencies`).
#[derive(Debug, Drop)]
pub struct Dependency {
    /// The name of the package that is depended on.
    pub name: String,
    /// Where that package comes from; `None` for a path.
    pub source: Option<String>,
    /// The versions that the manifest accepts.
    pub req: VersionReq,
    /// What the dependency is needed for.
    pub kind: DependencyKind,
    /// Whether it is left out unless a feature enables it.
    pub optional: bool,
    /// Whether the `default` feature of the package is requested.
    pub uses_default_features: bool,
    /// The features of the package that are requested.
    pub features: Vec<String>,
    /// The target that the dependency is for: a triple or a `cfg(..)` expression.
    pub target: Option<String>,
    /// The name under which the manifest knows the dependency, if it isn't the package's.
    pub rename: Option<String>,
    /// The index of the registry, if it isn't crates.io.
    pub registry: Option<String>,
    /// The directory of the package, for a path dependency.
    pub path: Option<String>,
}

/// The kind of a dependency: what it is needed for (Cargo Book, "Specifying Dependencies").
#[derive(Clone, Copy, Debug, PartialEq, Eq, Hash)]
pub enum DependencyKind {
    /// For the package itself.
    Normal,
    /// For tests, examples and benchmarks.
    Development,
    /// For the build script.
    Build,
}
