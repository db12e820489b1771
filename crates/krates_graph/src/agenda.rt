//! Work that is handed out once: numbers are put, and taken in the order in which they were put.
ghost use Rattle.std.specs.Prelude.{◌≡◌, [], ◌∷◌, ◌++◌, ◌+◌, ◌<◌, IfOk, IsTrue, ◌↔◌, Contains, if◌then◌else◌, is_some, length, slice_get, ℕ, vec_capacity};
ghost use Rattle.std.specs.Bool.{OnFalse, OnTrue};
ghost use Rattle.krates_graph.specs.Agenda.{IsMarked, IsOrderly, PutNumbers};

use std::alloc::{AllocError, Global};
use std::marker::Model;

/// The numbers below a size that were put, each once, in the order in which they were put, and how many of them were taken. Room for all of them is made at the start, so that no later call takes memory.
#[derive(Debug, Drop)]
pub struct Agenda {
    marks: Vec<bool>,
    numbers: Vec<usize>,
    next: usize,
}

impl Model for Agenda {
    ghost Value = { PutNumbers };

    ghost view = { λ a. record { size = length a.marks.items; put = a.numbers.items; taken = a.next } };

    ghost invariant = { λ a. IsMarked a.marks.items a.numbers.items a.next (vec_capacity a.numbers) };
}

/// A number that an agenda handed out. Only [`Agenda::take`] makes one, and it can't be copied: whoever receives one by value
/// knows that the number was taken once.
#[derive(Debug, Drop)]
pub struct Taken {
    number: usize,
}

impl Model for Taken {
    ghost Value = { ℕ };

    ghost view = { λ taken. taken.number };
}

impl Agenda {
    /// An agenda for the numbers below `size`, with room for all of them. The only error is running out of memory.
    /// Time O(size).
    ///
    /// ```text
    /// let mut agenda = Agenda::new(alloc, 10)?;
    /// ```
    pub fn new(alloc: Global, size: usize) -> Result<Agenda, AllocError>
        ensures { IfOk result (λ agenda. agenda ≡ record { size = size; put = []; taken = 0 }) }
    {
        let marks = vec![in alloc; false; size]?;
        let numbers = Vec::with_capacity(alloc, size)?;
        Ok(Agenda {
            marks,
            numbers,
            next: 0,
        })
    }

    /// Puts a number, and says whether it is new. One that was put before changes nothing. Time O(1).
    ///
    /// ```text
    /// assert!(rt; agenda.put(3)); // new
    /// assert!(rt; !agenda.put(3)); // put before
    /// ```
    pub fn put(&mut self, number: usize) -> bool
        requires { number < self.old.size }
        ensures new { OnTrue result (¬ Contains self.old.put number) }
        ensures old { OnFalse result (Contains self.old.put number) }
        ensures added { OnTrue result (self.new ≡ record self.old { put = self.old.put ++ number ∷ [] }) }
        ensures unchanged { OnFalse result (self.new ≡ self.old) }
        ensures orderly { IsOrderly self.new }
    {
        if self.marks[number] {
            return false;
        }
        self.marks[number] = true;
        let _ = self.numbers.push(number);
        true
    }

    /// Takes the number that was put first among those not taken yet; `None` if all were taken. Time O(1).
    ///
    /// ```text
    /// while let Some(taken) = agenda.take() {
    ///     println!(rt; "{}", taken.number())?;
    /// }
    /// ```
    pub fn take(&mut self) -> Option<Taken>
        ensures first { result ≡ slice_get self.old.put self.old.taken }
        ensures counted { self.new ≡ record self.old {
          taken = self.old.taken + (if is_some result then 1 else 0);
        } }
        ensures orderly { IsOrderly self.new }
    {
        let number = *self.numbers.get(self.next)?;
        self.next += 1;
        Some(Taken { number })
    }

    /// The numbers that were put, in that order. Time O(1).
    pub fn numbers(&self) -> &[usize]
        ensures put { result.now ≡ self.now.put }
        ensures orderly { IsOrderly self.now }
    {
        &self.numbers
    }

    /// How many numbers were taken. Time O(1).
    pub fn taken(&self) -> usize
        ensures count { result ≡ self.now.taken }
        ensures orderly { IsOrderly self.now }
    {
        self.next
    }
}

impl Taken {
    /// The number that was taken. Time O(1).
    pub fn number(&self) -> usize
        ensures { result ≡ self.now }
    {
        self.number
    }
}
