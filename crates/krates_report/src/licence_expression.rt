//! The text of a licence, as a bill of materials has it.

use krates_text::text::Text;
use std::alloc::{AllocError, Global};

/// A text of a licence as an SPDX expression, if it is made of ids, brackets, `AND`, `OR` and `WITH` alone, and of the old `/`, which means `OR`
/// (Cargo Book, "The license and license-file fields"): its words with one blank between them. Whether the ids are known isn't looked at. The only
/// error is running out of memory. Time O(n) for n bytes.
///
/// ```text
/// assert_eq!(rt; expression(alloc, "MIT/Apache-2.0")?.as_deref(), Some("MIT OR Apache-2.0"));
/// ```
pub fn expression(alloc: Global, text: &str) -> Result<Option<String>, AllocError> {
    let mut reading = Reading {
        words: Text::new(alloc),
        depth: 0,
        wants_id: true,
        is_expression: true,
    };
    let spaced = text
        .replace(alloc, "/", " / ")?
        .replace(alloc, "(", " ( ")?
        .replace(alloc, ")", " ) ")?;
    for word in spaced.split_whitespace() {
        reading.read(word);
    }
    reading.end()
}

/// What is read of an expression.
#[derive(Drop)]
struct Reading {
    /// Its words.
    words: Text,
    /// How many brackets are open.
    depth: usize,
    /// Whether an id or a bracket has to follow, and not an operator.
    wants_id: bool,
    is_expression: bool,
}

impl Reading {
    /// Reads a word.
    fn read(&mut self, word: &str) {
        let is_right = match word {
            "(" => self.wants_id,
            ")" => !self.wants_id && self.depth > 0,
            "AND" | "OR" | "WITH" | "/" => !self.wants_id,
            _ => self.wants_id && is_id(word),
        };
        self.is_expression = self.is_expression && is_right;
        self.wants_id = matches!(word, "(" | "AND" | "OR" | "WITH" | "/");
        self.push(word);
        match word {
            "(" => self.depth = self.depth.saturating_add(1),
            ")" => self.depth = self.depth.saturating_sub(1),
            _ => {}
        }
    }

    /// Adds a word to the expression.
    fn push(&mut self, word: &str) {
        let before = self.words.as_str();
        if !before.is_empty() && !before.ends_with('(') && word != ")" {
            self.words.push_str(" ");
        }
        self.words.push_str(if word == "/" { "OR" } else { word });
    }

    /// The expression, if it is one.
    fn end(self) -> Result<Option<String>, AllocError> {
        let is_expression = self.is_expression && !self.wants_id && self.depth == 0;
        let words = self.words.whole()?;
        Ok(if is_expression { Some(words) } else { None })
    }
}

/// Whether a word can be the id of a licence or of an exception (SPDX, "SPDX license expressions").
fn is_id(word: &str) -> bool {
    word.bytes().all(
        |byte| matches!(byte, b'a'..=b'z' | b'A'..=b'Z' | b'0'..=b'9' | b'-' | b'.' | b'+' | b':'),
    )
}
