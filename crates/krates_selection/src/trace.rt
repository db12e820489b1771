//! The steps by which facts are found, in numbers.

ghost use Rattle.std.specs.Prelude.{◌≡◌};
ghost use Rattle.krates_selection.specs.Trace.{by_nothing, by_one, by_two};

use krates_questions::NodePlace;
use krates_rules::Uses;

/// A fact, by numbers of the document.
#[derive(Clone, Copy, Debug)]
pub enum NumberedFact {
    /// The crate is kept.
    Crate {
        /// The place of its node.
        place: NodePlace,
    },
    /// The feature is enabled.
    Feature {
        /// Its place among the features that all nodes list, in the order of the document.
        number: usize,
    },
    /// The edge is kept.
    Kept {
        /// The place of the node that has the dependency.
        place: NodePlace,
        /// The place of the dependency among those of the node.
        index: usize,
        /// The place of the kind and target in the `dep_kinds` of the dependency.
        kind: usize,
    },
    /// The feature is enabled by a feature of another crate.
    Toggled {
        /// The place of the node of the crate whose feature enables it.
        place: NodePlace,
        /// The place of the feature among those that all nodes list.
        number: usize,
    },
}

/// Why a fact is found: the number of the rule that gives it, and the steps that it is given from.
#[derive(Clone, Copy, Debug)]
pub struct Reason {
    /// The number of the rule.
    pub rule: u8,
    /// The steps whose facts are the premises of the rule.
    pub uses: Uses,
}

/// A step: a fact, and why it is found.
#[derive(Clone, Copy, Debug)]
pub struct NumberedStep {
    /// The fact.
    pub fact: NumberedFact,
    /// Why it is found.
    pub reason: Reason,
}

impl Reason {
    /// A rule that has no premise.
    pub fn by_nothing(rule: u8) -> Reason
        ensures { result ≡ by_nothing rule }
    {
        Reason {
            rule,
            uses: Uses {
                first: None,
                second: None,
            },
        }
    }

    /// A rule whose premise is the fact of this step.
    pub fn by_one(rule: u8, first: usize) -> Reason
        ensures { result ≡ by_one rule first }
    {
        Reason {
            rule,
            uses: Uses {
                first: Some(first),
                second: None,
            },
        }
    }

    /// A rule whose premises are the facts of these two steps.
    pub fn by_two(rule: u8, first: usize, second: usize) -> Reason
        ensures { result ≡ by_two rule first second }
    {
        Reason {
            rule,
            uses: Uses {
                first: Some(first),
                second: Some(second),
            },
        }
    }
}
