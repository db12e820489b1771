//! Tables of worked examples, which one function walks: one text with a line for each, or rows where a text has ends of lines.

use crate::failures::Failures;
use krates_text::text::Text;
use std::alloc::Global;
use std::test::Fail;

/// A row: a line that asks, and the line that is known to answer it.
pub type Row = (&'static str, &'static str);

/// What the lines of a table ask.
pub trait Question {
    /// The answer to a line.
    fn told(alloc: Global, line: &str) -> Result<String, Fail>;
}

/// What the lines of a table ask whose answers are written to one text, by calls that have no error to return.
pub trait Tell {
    /// Writes the answer to a line.
    fn tell(told: &mut Text, line: &str) -> Result<(), Fail>;
}

impl<T: Tell> Question for T {
    fn told(alloc: Global, line: &str) -> Result<String, Fail> {
        let mut told = Text::new(alloc);
        T::tell(&mut told, line)?;
        Ok(told.whole()?)
    }
}

/// The question and the known answer of a line of a table that is one text: `question => answer`, or `question =>` where the answer is
/// empty. A `$` behind a blank isn't of the answer: it shows where one ends that ends in a blank. None where the line is empty, or begins
/// with `// ` and says something of those below it. A line without an answer has one that nothing gives.
pub fn row_of(line: &str) -> Option<(&str, &str)> {
    if line.is_empty() || line.starts_with("// ") {
        return None;
    }
    match line.split_once(" =>") {
        Some((question, written)) => Some((question, answer_of(written))),
        None => Some((line, "an answer, which this line lacks")),
    }
}

/// The answer that is written behind the arrow of a line.
fn answer_of(written: &str) -> &str {
    let written = written.strip_prefix(' ').unwrap_or(written);
    match written.strip_suffix('$') {
        Some(answer) if answer.ends_with(' ') => answer,
        _ => written,
    }
}

/// Compares the answer to each line of a table that is one text, as `row_of` reads them, with the one that is known; fails where some
/// differ, and names each of their lines.
pub fn hold_lines<Q: Question>(alloc: Global, table: &str) -> Result<(), Fail> {
    let mut failures = Failures::new(alloc);
    for line in table.lines() {
        if let Some((line, answer)) = row_of(line) {
            failures.compare(line, Q::told(alloc, line), answer)?;
        }
    }
    failures.reported()
}

/// Compares the answer to each line with the one that is known; fails where some differ, and names each of their lines. For texts with
/// ends of lines, or other characters that a table in one text can't show.
pub fn hold<Q: Question>(alloc: Global, rows: &[Row]) -> Result<(), Fail> {
    let mut failures = Failures::new(alloc);
    for &(line, answer) in rows {
        failures.compare(line, Q::told(alloc, line), answer)?;
    }
    failures.reported()
}

/// Fails where the answer to a line isn't the known one, and names the line.
pub fn compare(line: &str, told: &str, answer: &str) -> Result<(), Fail> {
    if told != answer {
        return Err(Fail::new(format_args!("{line}: {told} in place of {answer}")));
    }
    Ok(())
}
