//! The selection of a document under a setting.

use crate::trace::NumberedStep;
use crate::work::Work;
use krates_cm::DependencyKind;
use krates_ids::Kid;

/// What is kept of a document under a setting: exactly what has a derivation from the roots by the rules.
///
/// Edges and features name a crate by its number: its place among the kept crates, which are in the order of their ids. So they
/// are in that order, too, and are compared by numbers.
#[derive(Debug, Drop)]
pub struct Selection {
    /// The kept crates, by id.
    pub krates: Vec<Kid>,
    /// The kept edges, in their order, each once.
    pub edges: Vec<KeptEdge>,
    /// The enabled features, by crate and name.
    pub features: Vec<EnabledFeature>,
    /// The features that another crate's features enable, by that crate, the crate and the name.
    pub toggled: Vec<ToggledFeature>,
    /// The steps by which all of that was found, each behind those that it uses. A fact may have several.
    pub steps: Vec<NumberedStep>,
    /// How much work it was.
    pub work: Work,
}

/// A kept edge: one dependency of a kept crate, of one kind and for one target.
///
/// Parent, child and place determine an edge of one document, and by these edges are compared.
#[derive(Debug, Drop)]
#[derive_where(PartialEq, Eq, PartialOrd, Ord)]
pub struct KeptEdge {
    /// The number of the crate that has the dependency.
    pub parent: usize,
    /// The number of the crate that it depends on.
    pub child: usize,
    /// The first place of its kind and target in the `dep_kinds` of the node's dependency.
    pub place: usize,
    /// Its kind.
    #[derive_where(skip(EqHashOrd))]
    pub kind: DependencyKind,
    /// The target that it is needed for, as the document writes it.
    #[derive_where(skip(EqHashOrd))]
    pub cfg: Option<String>,
    /// The place of the declared dependency in the list of the parent's package.
    #[derive_where(skip(EqHashOrd))]
    pub declared: usize,
}

/// An enabled feature of a kept crate.
#[derive(Debug, Drop, PartialEq, Eq, PartialOrd, Ord)]
pub struct EnabledFeature {
    /// The number of the crate.
    pub krate: usize,
    /// The name of the feature.
    pub name: String,
}

/// A feature of a crate that a feature of another crate enables.
#[derive(Debug, Drop, PartialEq, Eq, PartialOrd, Ord)]
pub struct ToggledFeature {
    /// The number of the crate whose feature enables it.
    pub by: usize,
    /// The number of the crate whose feature it is.
    pub krate: usize,
    /// The name of the feature.
    pub name: String,
}
