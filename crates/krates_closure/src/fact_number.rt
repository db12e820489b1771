//! The number of a fact.
ghost use Rattle.std.specs.Prelude.{◌≡◌, ℕ};

use std::marker::Model;

/// The number of a fact, by which clauses name it. What it stands for is the caller's.
#[derive(Clone, Copy, Debug, PartialEq, Eq, PartialOrd, Ord)]
pub struct FactNumber(usize);

impl Model for FactNumber {
    ghost Value = { ℕ };

    ghost view = { λ fact. fact.0 };

    ghost inverse = { λ number. record { 0 = number } };
}

impl FactNumber {
    /// The fact with that number. Time O(1).
    ///
    /// ```text
    /// let fact = FactNumber::new(3);
    /// ```
    pub fn new(number: usize) -> FactNumber
        ensures { result ≡ number }
    {
        FactNumber(number)
    }

    /// The number, as an index of a list of facts. Time O(1).
    pub fn index(self) -> usize
        ensures { result ≡ self }
    {
        self.0
    }
}
