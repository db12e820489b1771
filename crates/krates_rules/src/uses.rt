//! What a step of a derivation uses.

/// The numbers of the steps that a step uses, in the order of the rule: a rule has two premises at most, and one that has a
/// second has a first.
#[derive(Clone, Copy, Debug)]
pub struct Uses {
    /// The step whose fact is the rule's first premise.
    pub first: Option<usize>,
    /// The step whose fact is the rule's second premise.
    pub second: Option<usize>,
}
