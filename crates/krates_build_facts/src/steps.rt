//! Steps of derivations: facts, each with those from which it follows.

use crate::facts::BuildFact;

/// A step of a derivation: a fact, and those from which it follows by one rule.
#[derive(Debug, Drop)]
pub struct BuildStep<'a> {
    /// Those from which it follows, in the order of the rule.
    pub premises: Vec<BuildFact<'a>>,
    /// What follows.
    pub fact: BuildFact<'a>,
}
