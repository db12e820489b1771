//! The document of `cargo metadata --format-version 1`: its types, and what can be asked of them.
#![tactic(auto)]

pub mod copies;
pub mod dependency;
pub mod error;
pub mod laws;
pub mod letting_go;
pub mod metadata;
pub mod names;
pub mod package;
pub mod package_id;
pub mod package_parts;
pub mod queries;
pub mod read_error;
pub mod resolve;
pub mod target;

pub use dependency::{Dependency, DependencyKind};
pub use error::Error;
pub use metadata::{Metadata, WorkspaceDefaultMembers};
pub use names::UnknownName;
pub use package::{Package, Source, SourceKind};
pub use package_id::PackageId;
pub use read_error::ReadError;
pub use resolve::{DepKindInfo, Node, NodeDep, Resolve};
pub use target::{CrateType, Edition, Target, TargetKind};
