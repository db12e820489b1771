//! Clauses over numbered facts.
ghost use Rattle.std.specs.Prelude.{◌≡◌, ◌<◌, ◌≤◌, ◌↔◌, [], ◌∷◌, ◌++◌, All, IfOk, IsTrue, OnErr, OnOk, length, option_copied, slice_get};
ghost use Rattle.krates_closure.specs.Clauses.{ClauseModel, ClausesModel, NamesBelow};

use crate::clause_number::ClauseNumber;
use crate::fact_number::FactNumber;
use std::alloc::{AllocError, Global};
use std::marker::Model;

/// A clause: where all its premises hold, its fact holds. So that of a clause without premises holds.
#[derive(Debug, Drop)]
pub struct Clause {
    premises: Vec<FactNumber>,
    fact: FactNumber,
}

impl Model for Clause {
    ghost Value = { ClauseModel };

    ghost view = { λ clause. record { premises = clause.premises.items; fact = clause.fact } };
}

impl Clause {
    /// Its premises, in the order in which they were given; one that was given twice is there twice. Time O(1).
    ///
    /// ```text
    /// for premise in clause.premises() {
    ///     println!(rt; "from {}", premise.index())?;
    /// }
    /// ```
    pub fn premises(&self) -> &[FactNumber]
        ensures { result.now ≡ self.now.premises }
    {
        &self.premises
    }

    /// Its fact. Time O(1).
    pub fn fact(&self) -> FactNumber
        ensures { result ≡ self.now.fact }
    {
        self.fact
    }
}

/// Clauses over the facts whose numbers are below a size, in the order in which they were added.
#[derive(Debug, Drop)]
pub struct Clauses {
    size: usize,
    list: Vec<Clause>,
}

impl Model for Clauses {
    ghost Value = { ClausesModel };

    ghost view = { λ clauses. record { size = clauses.size; list = clauses.list.items } };

    ghost invariant = { λ clauses. All (NamesBelow clauses.size) clauses.list.items };
}

impl Clauses {
    /// No clauses, over the facts whose numbers are below `size`. Time O(1).
    ///
    /// ```text
    /// let mut clauses = Clauses::new(alloc, 4);
    /// ```
    pub fn new(alloc: Global, size: usize) -> Clauses
        ensures { result ≡ record { size = size; list = [] } }
    {
        Clauses {
            size,
            list: Vec::new(alloc),
        }
    }

    /// Appends a clause, under the next number; it may be one that is there already. The clause names only facts that the clauses may
    /// name, as [`Clauses::has_all`] tells. The only error is running out of memory; it leaves the clauses as they were. Time O(1), unless
    /// room has to be made.
    ///
    /// ```text
    /// let (a, b) = (FactNumber::new(0), FactNumber::new(1));
    /// clauses.push(Vec::new(alloc), a)?; // a holds
    /// clauses.push(vec![in alloc; a]?, b)?; // where a holds, so does b
    /// ```
    pub fn push(
        &mut self,
        premises: Vec<FactNumber>,
        fact: FactNumber,
    ) -> Result<ClauseNumber, AllocError>
        requires premises { All (λ premise. premise < self.old.size) premises.items }
        requires fact { fact < self.old.size }
        ensures number { IfOk result (λ number. number ≡ length self.old.list) }
        ensures added { OnOk result (self.new ≡ record self.old {
          list = self.old.list ++ record { premises = premises.items; fact = fact } ∷ [];
        }) }
        ensures unchanged { OnErr result (self.new ≡ self.old) }
    {
        let number = ClauseNumber::new(self.list.len());
        self.list.push(Clause { premises, fact })?;
        Ok(number)
    }

    /// Lets the clauses name more facts: those whose numbers are below `size`, which isn't less than before. The clauses stay. Time O(1).
    ///
    /// ```text
    /// clauses.grow(clauses.size() + 1);
    /// ```
    pub fn grow(&mut self, size: usize)
        requires { self.old.size ≤ size }
        ensures { self.new ≡ record self.old { size = size } }
    {
        self.size = size;
    }

    /// How many facts the clauses may name: those whose numbers are below this. Time O(1).
    pub fn size(&self) -> usize
        ensures { result ≡ self.now.size }
    {
        self.size
    }

    /// Whether the clauses may name all these facts: each number is below the size. Time O(facts).
    ///
    /// ```text
    /// assert!(rt; clauses.has_all(&[FactNumber::new(3)]));
    /// assert!(rt; !clauses.has_all(&[FactNumber::new(4)]));
    /// ```
    pub fn has_all(&self, facts: &[FactNumber]) -> bool
        ensures { IsTrue result ↔ All (λ fact. fact < self.now.size) facts.now }
    {
        let size = self.size;
        facts.iter().all(|fact| fact.index() < size)
    }

    /// The clause with that number; `None` where there is none. Time O(1).
    ///
    /// ```text
    /// if let Some(clause) = clauses.clause(number) {
    ///     println!(rt; "{} follows", clause.fact().index())?;
    /// }
    /// ```
    pub fn clause(&self, number: ClauseNumber) -> Option<&Clause>
        ensures { option_copied result ≡ slice_get self.now.list number }
    {
        self.list.get(number.index())
    }

    /// The clauses, each at its number. They name only facts whose numbers are below the size. Time O(1).
    ///
    /// ```text
    /// let count = clauses.as_slice().len();
    /// ```
    pub fn as_slice(&self) -> &[Clause]
        ensures clauses { result.now ≡ self.now.list }
        ensures below { All (NamesBelow self.now.size) result.now }
    {
        &self.list
    }
}
