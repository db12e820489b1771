//! The facts that say that texts are available which targets require.
#![tactic(auto, using(crate::proofs::RequiredTexts::nothing_numbered, crate::proofs::RequiredTexts::numbered_each, crate::proofs::RequiredTexts::numbered_all))]

ghost use Rattle.std.specs.Prelude.{OnOk};
ghost use Rattle.krates_build_facts.specs.Rows.{requires};
ghost use Rattle.krates_grounding.specs.Grounding.{HaveNumbers, required_in, required_texts};

use crate::ground::Ground;
use crate::unit_rows::require;
use krates_build_tables::{CrateEntry, Tables, TargetEntry};
use std::alloc::AllocError;

/// Gives a number to each fact that says that a text is available which a target requires: whether it follows is then told of each, also where
/// the target can't be compiled. The only error is running out of memory.
pub(crate) fn number_required<'a>(
    tables: &Tables<'a>,
    ground: &mut Ground<'a>,
) -> Result<(), AllocError>
    ensures { OnOk result (HaveNumbers ground.old ground.new (required_texts tables.now)) }
{
    for entry in &tables.crates {
        number_in_crate(entry, ground)?;
    }
    Ok(())
}

/// Numbers those of a crate.
fn number_in_crate<'a>(entry: &CrateEntry<'a>, ground: &mut Ground<'a>) -> Result<(), AllocError>
    ensures { OnOk result (HaveNumbers ground.old ground.new (required_in entry.now)) }
{
    for target in &entry.targets {
        number_for_target(target, ground)?;
    }
    Ok(())
}

/// Numbers those of a target.
fn number_for_target<'a>(
    target: &TargetEntry<'a>,
    ground: &mut Ground<'a>,
) -> Result<(), AllocError>
    ensures { OnOk result (HaveNumbers ground.old ground.new (requires target.now)) }
{
    let mut texts = Vec::new(ground.alloc());
    require(target, &mut texts)?;
    ground.number(texts.as_slice())
}
