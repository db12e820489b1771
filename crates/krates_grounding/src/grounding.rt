//! All instances that may matter of a build.
ghost use Rattle.std.specs.Prelude.{IfOk};
ghost use Rattle.krates_grounding.specs.Grounding.{IsGrounded};

use crate::ground::Ground;
use crate::initial_rows::write_initial;
use crate::required_texts::number_required;
use crate::rows::write_rows;
use krates_build_tables::Tables;
use std::alloc::{AllocError, Global};

/// The instances that a build begins with, and those that begin with a fact that has a number. Each text that a target requires has one, and
/// each new instance may give numbers to more facts; there are no more facts than the tables have parts. The only error is running out of
/// memory.
pub(crate) fn grounded<'a>(alloc: Global, tables: &Tables<'a>) -> Result<Ground<'a>, AllocError>
    ensures { IfOk result (IsGrounded tables.now) }
{
    let mut ground = Ground::new(alloc);
    write_initial(tables, &mut ground)?;
    number_required(tables, &mut ground)?;
    let mut next = 0;
    while let Some(fact) = ground.fact(next) {
        write_rows(tables, &fact, &mut ground)?;
        next += 1;
    }
    ground.agrees();
    Ok(ground)
}
