//! The rows of a table whose answers aren't the known ones, and what is said of all of them where the table fails.

use std::alloc::{AllocError, Global};
use std::cell::Cell;
use std::fmt::{Display, InlineText};
use std::io::{self, Eprint};
use std::process::Termination;
use std::test::Fail;

/// How many bytes of what is said of it a failure of a test keeps.
const ROOM: usize = 512;

/// What a failure of a test says, which it only tells what it is printed to.
#[derive(Drop)]
struct Said {
    text: Cell<InlineText<{ ROOM }>>,
}

impl Eprint for Said {
    fn eprint<D: Display + Drop>(&self, value: D) -> io::Result<()> {
        self.text.set(InlineText::of(value));
        Ok(())
    }

    fn eprintln<D: Display + Drop>(&self, value: D) -> io::Result<()> {
        self.eprint(value)
    }
}

/// What a failure says.
fn said_by(fail: Fail) -> InlineText<{ ROOM }> {
    let text = Cell::new(InlineText::new());
    let said = Said { text };
    Err::<(), Fail>(fail).report(&said);
    said.text.get()
}

/// The rows of a table that fail, of those that were judged.
///
/// ```text
/// let mut failures = Failures::new(alloc);
/// for &(line, answer) in rows {
///     failures.compare(line, told(alloc, line), answer)?;
/// }
/// failures.reported()
/// ```
#[derive(Drop)]
pub struct Failures {
    rows: Vec<String>,
    judged: usize,
}

impl Failures {
    /// No row was judged. Time O(1).
    pub fn new(alloc: Global) -> Failures {
        let rows = Vec::new(alloc);
        Failures { rows, judged: 0 }
    }

    /// Judges a row, whose line has to be answered by the known answer. A line that isn't answered fails too, and what its failure says
    /// counts as told. It is refused only if memory runs out.
    pub fn compare(
        &mut self,
        line: &str,
        told: Result<String, Fail>,
        answer: &str,
    ) -> Result<(), AllocError> {
        match told {
            Ok(told) => self.judge(line, told.as_str(), answer, told.as_str() == answer),
            Err(fail) => self.judge(line, said_by(fail).as_str(), answer, false),
        }
    }

    /// Counts a row, and keeps what was told in place of the known answer, unless that is right.
    fn judge(
        &mut self,
        line: &str,
        told: &str,
        answer: &str,
        is_right: bool,
    ) -> Result<(), AllocError> {
        self.judged = self.judged.saturating_add(1);
        if !is_right {
            let (alloc, number) = (*self.rows.allocator(), self.judged);
            let row = format!(in alloc; "\n{number}. {line}: {told} in place of {answer}")?;
            self.rows.push(row)?;
        }
        Ok(())
    }

    /// The failure that names each row that fails, or nothing where none does.
    pub fn reported(&self) -> Result<(), Fail> {
        if self.rows.is_empty() {
            return Ok(());
        }
        Err(Fail::new(self.text().as_str()))
    }

    /// How many rows fail, and then each by its number and its line, with what was told in place of the known answer. Where not all has
    /// room in a failure, each row is cut to its share of the room.
    fn text(&self) -> InlineText<{ ROOM }> {
        let mut left = self.rows.len();
        let mut text = InlineText::of(format_args!("{left} of {} rows fail", self.judged));
        for row in &self.rows {
            let room = ROOM.saturating_sub(text.as_str().len());
            text = text.and_str(row.as_str(), room / left.max(1));
            left = left.saturating_sub(1);
        }
        text
    }
}
