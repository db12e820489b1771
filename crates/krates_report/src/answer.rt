//! Answers, as text for people and as JSON for scripts.

ghost use Rattle.std.specs.Prelude.{◌≡◌, false, IfOk, string_bytes};
ghost use Rattle.krates_report.specs.LineTexts.{AreShownLines};

use crate::json::JsonObject;
use crate::lines::Lines;
use serde_json::Value;
use std::alloc::{AllocError, Global};

/// An answer that is printed. Each form is complete, and the only error is running out of memory.
pub trait Answer {
    /// Adds the lines that people read.
    fn push_lines(&self, lines: &mut Lines) -> Result<(), AllocError>;

    /// The value that scripts read.
    fn json(&self, alloc: Global) -> Result<Value, AllocError>;
}

/// What is printed of an answer by krates: its lines, or its JSON, indented, as one value with a line break after it, which says the `rules` and
/// the `version` of its form beside the `answer`. Time: that of the form. The lines for people are as `Lines` shows them.
pub fn printed<T: Answer>(alloc: Global, answer: &T, is_json: bool) -> Result<String, AllocError>
    ensures shown { is_json ≡ false → IfOk result (λ text. ∥ AreShownLines (string_bytes text) ∥₁) }
{
    if is_json {
        return pretty(alloc, by_krates(alloc, answer.json(alloc)));
    }
    let mut lines = Lines::new(alloc);
    answer.push_lines(&mut lines)?;
    lines.whole()
}

/// What JSON says of an answer by krates.
fn by_krates(alloc: Global, answer: Result<Value, AllocError>) -> Result<Value, AllocError> {
    JsonObject::versioned(alloc)
        .text("rules", "krates")
        .put("answer", answer)
        .object()
}

/// The indented text of a value, with a line break after it, if there was memory to make the value.
pub(crate) fn pretty(
    alloc: Global,
    value: Result<Value, AllocError>,
) -> Result<String, AllocError> {
    let value = value?;
    let mut text = value.to_string_pretty(alloc)?;
    text.push_str("\n")?;
    Ok(text)
}
