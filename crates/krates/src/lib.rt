//! Graphs of crates, built from the output of `cargo metadata`: which crates are kept under a setting, and which are not.
//!
//! The items of the crates below are re-exported under their names, so that a caller needs no other crate.
//!
//! ```text
//! let metadata = MetadataCommand::parse(alloc, text)?;
//! let krates: Krates = Builder::new(alloc).build_with_metadata(metadata, &mut NoneFilter)?;
//! for pkg in krates.krates() {
//!     println!(rt; "{} {}", pkg.name, pkg.version)?;
//! }
//! ```
#![tactic(auto)]

mod builder;
pub mod derive;
mod drawn;
pub mod laws;

pub use builder::{Builder, IndexSource};
pub use krates_cargo::{Cmd, LockOptions};
pub use krates_cm::{Metadata, Package, PackageId};
pub use krates_drawing::edge::Edge;
pub use krates_drawing::node::{EnabledFeatures, Node};
pub use krates_drawing::store::FromEdge;
pub use krates_drawing::{FilterFn, NoneFilter, OnFilter};
pub use krates_graph::graph::{EdgeId, NodeId};
pub use krates_graph::{agenda, graph};
pub use krates_ids::{Error, IdError, Kid, Lost, PkgSpec};
pub use krates_queries::from_package::{FromPackage, KrateDetails};
pub use krates_queries::kept::{Krates, KratesIter};
pub use krates_queries::queries::{
    Deps, DirectDependency, DirectDependent, KrateMatch, KrateNodes, Matches, Members,
};
pub use krates_resolve::{DepKind, Scope, Work};
pub use krates_text::features::{Feature, ParsedFeature};
pub use krates_text::target::Target;
pub use krates_text::{path, target};
pub use semver;

/// The document of `cargo metadata`, and the command whose output it is.
pub mod cm {
    pub use krates_cargo::{Features, MetadataCommand};
    pub use krates_cm::{
        CrateType, DepKindInfo, Dependency, DependencyKind, Edition, Error, Metadata, Node,
        NodeDep, Package, PackageId, ReadError, Resolve, Source, SourceKind, Target, TargetKind,
        UnknownName, WorkspaceDefaultMembers,
    };
    pub use krates_cm_json::{Borrowed, FromValue, JsonRef, Owned, ToValue};

    /// Laws of comparisons, and of what is read from JSON and written as it.
    pub mod laws {
        pub use krates_cm::laws::{
            dependency_kinds_compared, editions_compared, forms_compared, kinds_compared,
            package_ids_compared, source_kinds_compared, sources_compared,
        };
        pub use krates_cm_json::laws::{faults_are_exact, written_is_read};
    }
}

/// Expressions over targets, and the targets that are known by their triple.
pub mod cfg {
    pub use krates_text::cfg::{CfgError, Expression};
    pub use krates_text::target::{TargetInfo, builtin};
}

/// What an index knows of packages, and the correction of their features by it.
pub mod index {
    pub use krates_ids::{
        BuildIndexCache, CachingIndex, FeaturesMap, IndexAnswer, IndexKrate, IndexKrateVersion,
        PackageNames,
    };
}

/// Which documents can be resolved, what is kept, and what a document answers to the questions of the rules.
pub mod resolve {
    pub use krates_document::crate_table::CrateTable;
    pub use krates_resolve::{
        Availability, Document, EnabledFeature, Ids, KeptEdge, Need, NodePlace, NumberedFact,
        NumberedStep, Reason, Referent, RootChoice, Selection, Setting, ToggledFeature, Work,
        admit, select,
    };
    pub use krates_rules::Uses;
}
