//! How much work a selection was.

ghost use Rattle.std.specs.Prelude.{◌≡◌, ◌+◌};
ghost use Rattle.krates_selection.specs.Selection.{IsFresh, counted};

/// How much work a selection was: how many crates and features were taken, each once, and how many references these features have.
///
/// A count that has reached its greatest value stays there.
#[derive(Debug, Drop, Clone, Copy, PartialEq, Eq)]
pub struct Work {
    /// The kept crates.
    pub krates: u64,
    /// The enabled features.
    pub features: u64,
    /// The references of the enabled features.
    pub references: u64,
}

impl Work {
    /// Nothing was taken yet.
    pub fn new() -> Work
        ensures { IsFresh result }
    {
        Work {
            krates: 0,
            features: 0,
            references: 0,
        }
    }

    /// Counts a crate.
    pub fn count_krate(&mut self)
        ensures { self.new ≡ record self.old { krates = counted (self.old.krates + 1) } }
    {
        self.krates = self.krates.saturating_add(1);
    }

    /// Counts a feature and its references.
    pub fn count_feature(&mut self, references: u64)
        ensures features { self.new.features ≡ counted (self.old.features + 1) }
        ensures references { self.new.references ≡ counted (self.old.references + references) }
        ensures same { self.new.krates ≡ self.old.krates }
    {
        self.features = self.features.saturating_add(1);
        self.references = self.references.saturating_add(references);
    }
}
