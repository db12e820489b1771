//! The lines of an answer.

ghost use Rattle.std.specs.Prelude.{◌≡◌, false, true, [], IfErr, IfOk, Some, string_bytes};
ghost use Rattle.krates_report.specs.LineTexts.{AreShownLines};
ghost use Rattle.krates_text.specs.WrittenText.{held};

use krates_shown::Shown;
use krates_text::text::Text;
use std::alloc::{AllocError, Global};
use std::fmt::Display;

/// The lines of an answer for people. When a line is ended, what was written to it is shown as `Shown` shows a text; so whatever stands in a
/// name, a path or a licence can't end the line, move the cursor or turn the direction. The whole answer is such lines and nothing else.
///
/// A write has no error of its own: if memory runs out, `whole` reports it.
///
/// ```text
/// let mut lines = Lines::new(alloc);
/// write!(lines, "{} ({})", "MIT\nApache-2.0", 1);
/// lines.end();
/// assert_eq!(rt; lines.whole()?.as_str(), "MIT\\u{a}Apache-2.0 (1)\n");
/// ```
#[derive(Drop)]
pub struct Lines {
    /// The lines that are ended, as they are shown.
    ended: Text,
    /// What is written of the next one, as it is.
    line: String,
    is_whole: bool,
    ghost shown: { ∥ AreShownLines (held ended) ∥₁ },
}

impl Lines {
    ghost use Rattle.krates_report.specs.Lines.{Ends, Writes, ended_of, is_whole, line_of};

    /// No line. Time O(1).
    pub fn new(alloc: Global) -> Lines
        ensures { (ended_of result ≡ []) × (line_of result ≡ []) × (is_whole result ≡ true) }
    {
        Lines {
            ended: Text::new(alloc),
            line: String::new(alloc),
            is_whole: true,
        }
    }

    /// The allocator by which they grow. Time O(1).
    pub fn allocator(&self) -> Global {
        self.ended.allocator()
    }

    /// Whether no line is ended. Time O(1).
    pub fn is_empty(&self) -> bool {
        self.ended.as_str().is_empty()
    }

    /// Adds a text to the line. Time O(length), amortized over all calls.
    pub fn push_str(&mut self, text: &str)
        ensures { Writes self.old (Some text.now) self.new }
    {
        self.is_whole = self.line.push_str(text).is_ok() && self.is_whole;
    }

    /// Adds what is printed of a value to the line: `write!` calls it. Time: that of printing the value.
    pub fn write_fmt<D: Display + Drop>(&mut self, value: D)
        ensures { Writes self.old (D.output value) self.new }
    {
        self.is_whole = self.line.write_fmt(value).is_ok() && self.is_whole;
    }

    /// Ends the line, and begins the next one. Time O(length of the line), amortized over all calls.
    pub fn end(&mut self)
        ensures { Ends self.old self.new }
    {
        let line = Shown(self.line.as_str());
        writeln!(self.ended, "{line}");
        self.line.clear();
    }

    /// The lines that are ended. They are refused, as for lack of memory, where something couldn't be added. Time O(1).
    pub fn whole(self) -> Result<String, AllocError>
        ensures ok { IfOk result (λ text. (string_bytes text ≡ ended_of self) × (is_whole self ≡ true)) }
        ensures shown { IfOk result (λ text. ∥ AreShownLines (string_bytes text) ∥₁) }
        ensures err { IfErr result (λ _. is_whole self ≡ false) }
    {
        if self.is_whole {
            self.ended.whole()
        } else {
            Err(AllocError)
        }
    }
}
