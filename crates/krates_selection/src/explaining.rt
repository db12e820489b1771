//! The steps of a selection, by the numbers of the kept crates, each fact once.

ghost use Rattle.std.specs.Prelude.{◌≡◌, ◌<◌, All, IfOk, length, map};
ghost use Rattle.krates_selection.specs.KeptFacts.{AreChosen};
ghost use Rattle.krates_selection.specs.KeptTables.{AreStepsOf, IsKeptIn, kids_in};
ghost use Rattle.krates_questions.specs.Context.{Derives, document_of};
ghost use Rattle.krates_selection.specs.Trace.{IsTrace};
ghost use Rattle.krates_rules.specs.Facts.{Crate, Id};

use crate::kept::KeptStep;
use crate::kept_tables::KeptTables;
use crate::key::{KeptFactKey, fact_numbers, fact_of};
use crate::part_of_steps::{PartOfSteps, first_steps};
use crate::trace::NumberedStep;
use krates_ids::laws;
use krates_rules::Uses;
use std::alloc::{AllocError, Global};

impl KeptTables<'_, '_> {
    /// The steps of a selection, with its crates by number: of each fact the first step, which uses the first steps of its premises.
    ///
    /// The only error is running out of memory. Time: O(n log n) for n steps.
    pub fn kept_steps(&self, steps: &[NumberedStep]) -> Result<Vec<KeptStep>, AllocError>
        requires trace { IsTrace (document_of self.now.context) self.now.context.setting.now steps.now }
        requires crates { (i : Id) → Derives self.now.context (Crate i) → IsKeptIn (kids_in self.now) i }
        ensures { IfOk result (λ kept. AreStepsOf (document_of self.now.context) self.now.context.setting.now
            (kids_in self.now) steps.now kept.items) }
    {
        laws::one_reading();
        laws::comparison();
        krates_rules::laws::parts_follow();
        let alloc = self.context.alloc;
        let keys = self.keys_of(steps)?;
        let numbers = fact_numbers(alloc, self.krates.len(), &keys)?;
        let uses = uses_of(alloc, steps)?;
        let part = first_steps(alloc, &uses, &numbers, keys.len())?;
        chosen(alloc, &keys, steps, &part)
    }
}

/// What each step uses.
fn uses_of(alloc: Global, steps: &[NumberedStep]) -> Result<Vec<Uses>, AllocError>
    ensures { IfOk result (λ uses. uses.items ≡ map (λ x. x.reason.uses) steps.now) }
{
    steps.iter().map(|step| step.reason.uses).collect(alloc)
}

/// The chosen steps, whose facts are those of the keys at their places.
fn chosen(
    alloc: Global,
    keys: &[KeptFactKey<'_>],
    steps: &[NumberedStep],
    part: &PartOfSteps,
) -> Result<Vec<KeptStep>, AllocError>
    requires long { length keys.now ≡ length steps.now }
    requires matched { length part.now.uses.items ≡ length part.now.chosen.items }
    requires within { All (λ n. n < length steps.now) part.now.chosen.items }
    ensures { IfOk result (λ kept. AreChosen keys.now steps.now part.now.chosen.items part.now.uses.items kept.items) }
{
    let mut kept = Vec::with_capacity(alloc, part.chosen.len())?;
    for (place, number) in part.chosen.iter().enumerate() {
        kept.push(KeptStep {
            fact: fact_of(alloc, &keys[*number])?,
            rule: steps[*number].reason.rule,
            uses: part.uses[place],
        })?;
    }
    Ok(kept)
}
