//! What holds of a build.

use krates_build_facts::BuildFact;
use std::collections::BTreeSet;

/// What a certificate says that holds of a document and a build, by the numbers of their tables.
#[derive(Debug, Drop)]
pub enum BuildVerdict<'a> {
    /// The fact follows: the last step of a derivation gives it.
    Follows {
        /// The fact.
        fact: BuildFact<'a>,
        /// How many steps the derivation has.
        steps: usize,
    },
    /// Cargo builds no other crate than those that a closed list of facts has.
    Nothing {
        /// The numbers of these crates.
        krates: BTreeSet<usize>,
    },
}
