//! Facts, and lists of steps by which they follow.

use crate::kind::DepKind;
use krates_ids::Kid;

/// A fact about crates, features and edges that the rules of resolution derive.
#[derive(Debug, Drop)]
pub enum Fact {
    /// The crate is kept.
    Crate(Kid),
    /// The feature of the crate is enabled.
    Feature {
        /// The crate.
        krate: Kid,
        /// The name of the feature.
        name: String,
    },
    /// The edge is kept.
    Kept {
        /// The crate that has the dependency.
        parent: Kid,
        /// The crate that it depends on.
        child: Kid,
        /// What it is needed for.
        kind: DepKind,
        /// The target that it is needed for, as the document writes it.
        cfg: Option<String>,
    },
    /// A feature of a crate enables a feature of another.
    Toggled {
        /// The crate whose feature enables it.
        parent: Kid,
        /// The crate whose feature it is.
        child: Kid,
        /// The name of the feature.
        name: String,
    },
}

/// A step of a derivation: a fact that follows by a rule from the facts of earlier steps.
#[derive(Debug, Drop)]
pub struct Step {
    /// The number of the rule.
    pub rule: u8,
    /// What follows.
    pub fact: Fact,
    /// The numbers of the steps from whose facts it follows, in the order of the rule.
    pub uses: Vec<usize>,
}

/// A list of steps, numbered from 0.
#[derive(Debug, Drop)]
pub struct Derivation {
    /// The steps.
    pub steps: Vec<Step>,
}
