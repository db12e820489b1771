//! The lines that are written.

ghost use Rattle.std.specs.Prelude.{◌≡◌, ◌++◌, IfOk, OnOk, string_bytes};
ghost use Rattle.krates_queries.specs.Kept.{values_of};
ghost use Rattle.krates_cli.specs.Lines.{id_line, listed_lines};

use crate::listed::Listed;
use krates::Krates;
use krates::cm::PackageId;
use std::alloc::{AllocError, Global};

/// Adds a line: the mark, the text of the id as the document has it, and a newline.
pub(crate) fn push_line(lines: &mut String, mark: &str, id: &PackageId) -> Result<(), AllocError>
    ensures { OnOk result (string_bytes lines.new ≡ string_bytes lines.old ++ id_line mark.now id.now) }
{
    lines.push_str(mark)?;
    lines.push_str(id.repr.as_str())?;
    lines.push_str("\n")
}

/// The lines of the kept crates in the order of their ids, and then those of the others, which are given.
pub(crate) fn all_lines(
    alloc: Global,
    krates: &Krates<Listed>,
    reported: &str,
) -> Result<String, AllocError>
    ensures { IfOk result (λ lines. string_bytes lines ≡ listed_lines (values_of krates.now) ++ reported.now) }
{
    let mut lines = String::new(alloc);
    for listed in krates.krates() {
        push_line(&mut lines, "+ ", &listed.id)?;
    }
    lines.push_str(reported)?;
    Ok(lines)
}
