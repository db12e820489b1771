//! The number of a clause.
ghost use Rattle.std.specs.Prelude.{◌≡◌, ℕ};

use std::marker::Model;

/// The number of a clause, counted from 0 in the order in which the clauses were added.
#[derive(Clone, Copy, Debug, PartialEq, Eq, PartialOrd, Ord)]
pub struct ClauseNumber(usize);

impl Model for ClauseNumber {
    ghost Value = { ℕ };

    ghost view = { λ clause. clause.0 };

    ghost inverse = { λ number. record { 0 = number } };
}

impl ClauseNumber {
    /// The clause with that number. Time O(1).
    pub fn new(number: usize) -> ClauseNumber
        ensures { result ≡ number }
    {
        ClauseNumber(number)
    }

    /// The number, as an index of a list of clauses. Time O(1).
    pub fn index(self) -> usize
        ensures { result ≡ self }
    {
        self.0
    }
}
