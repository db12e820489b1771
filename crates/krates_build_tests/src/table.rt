//! Tables of questions that run a program.

use krates_samples::failures::Failures;
use krates_samples::table::Row;
use krates_text::text::Text;
use std::test::Fail;

/// What the lines of a table ask.
pub(crate) trait Question {
    /// Writes the answer to a line.
    fn tell(told: &mut Text, rt: &HostRuntime, line: &str) -> Result<(), Fail>;
}

/// Compares the answer to each line with the one that is known; names each row where they differ.
pub(crate) fn hold_runs<Q: Question>(rt: &HostRuntime, rows: &[Row]) -> Result<(), Fail> {
    let mut failures = Failures::new(rt.alloc());
    for &(line, answer) in rows {
        failures.compare(line, answer_to::<Q>(rt, line), answer)?;
    }
    failures.reported()
}

/// The answer to a line.
fn answer_to<Q: Question>(rt: &HostRuntime, line: &str) -> Result<String, Fail> {
    let mut told = Text::new(rt.alloc());
    Q::tell(&mut told, rt, line)?;
    Ok(told.whole()?)
}
