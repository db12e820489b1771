//! A text that is written without an error at each write.

ghost use Rattle.std.specs.Prelude.{◌≡◌, [], Some, None, IfOk, IfErr, string_bytes};
ghost use Rattle.krates_text.specs.WrittenText.{held, written, Grows};

use std::alloc::{AllocError, Global};
use std::fmt::Display;

/// A text that grows while there is memory, and that is returned only if nothing of it is missing. So what writes it has no error of its
/// own.
///
/// ```text
/// let mut lines = Text::new(alloc);
/// lines.push_str("a needs");
/// writeln!(lines, " {}", "b");
/// assert_eq!(rt; lines.whole()?.as_str(), "a needs b\n");
/// ```
#[derive(Drop)]
pub struct Text {
    written: String,
    /// What is printed of a value, before it is added: so half of a value is never added.
    printed: String,
    is_whole: bool,
}

impl Text {
    /// An empty text. Time O(1).
    pub fn new(alloc: Global) -> Text
        ensures { written result ≡ Some [] }
    {
        Text {
            written: String::new(alloc),
            printed: String::new(alloc),
            is_whole: true,
        }
    }

    /// The allocator by which it grows. Time O(1).
    pub fn allocator(&self) -> Global {
        *self.written.allocator()
    }

    /// What is written so far, without what couldn't be added. Time O(1).
    ///
    /// ```text
    /// assert!(rt; Text::new(alloc).as_str().is_empty());
    /// ```
    pub fn as_str(&self) -> &str
        ensures { result.now ≡ held self.now }
    {
        self.written.as_str()
    }

    /// Adds this text. If memory runs out, nothing is added, and `whole` reports it. Time O(length), amortized over all calls.
    ///
    /// ```text
    /// let mut text = Text::new(alloc);
    /// text.push_str("a");
    /// text.push_str("b");
    /// assert_eq!(rt; text.as_str(), "ab");
    /// ```
    pub fn push_str(&mut self, text: &str)
        ensures { Grows self.old (Some text.now) self.new }
    {
        self.is_whole = self.written.push_str(text).is_ok() && self.is_whole;
    }

    /// Adds what is printed of a value: `write!` and `writeln!` call it. If memory runs out or the value can't be printed, nothing is added,
    /// and `whole` reports it. Time: that of printing the value.
    ///
    /// ```text
    /// let mut text = Text::new(alloc);
    /// write!(text, "{}-{}", 1, 2);
    /// assert_eq!(rt; text.as_str(), "1-2");
    /// ```
    pub fn write_fmt<D: Display + Drop>(&mut self, value: D)
        ensures { Grows self.old (D.output value) self.new }
    {
        self.printed.clear();
        self.is_whole = self.printed.write_fmt(value).is_ok()
            && self.written.push_str(self.printed.as_str()).is_ok()
            && self.is_whole;
    }

    /// The whole text. It is refused, as for lack of memory, where something couldn't be added. Time O(1).
    ///
    /// ```text
    /// let mut text = Text::new(alloc);
    /// write!(text, "{}", 12);
    /// assert_eq!(rt; text.whole()?.as_str(), "12");
    /// ```
    pub fn whole(self) -> Result<String, AllocError>
        ensures ok { IfOk result (λ text. written self ≡ Some (string_bytes text)) }
        ensures err { IfErr result (λ _. written self ≡ None) }
    {
        if self.is_whole {
            Ok(self.written)
        } else {
            Err(AllocError)
        }
    }
}
