//! A JSON text as it is shown.

use crate::shown::is_hidden;
use std::fmt;

/// The text of a JSON value, as it is shown: what JSON may have in a string as it is, and what moves the cursor, ends a line for some or
/// turns the direction (DEL, C1, U+2028, U+2029 and the characters of Unicode Standard Annex 9), is printed by an escape of JSON (RFC 8259,
/// section 7), as `\u009b`. Everything else is printed as it is. Such characters stand in strings alone, so the text is one of the same value.
/// Time O(length).
///
/// ```text
/// println!(rt; "{}", ShownJson("[\"a\u{202e}b\"]"))?;
/// ["a\u202eb"]
/// ```
#[derive(Clone, Copy)]
pub struct ShownJson<'a>(pub &'a str);

impl fmt::Display for ShownJson<'_> {
    fn fmt<W: fmt::Write>(&self, f: &mut fmt::Formatter<W>) -> fmt::Result {
        for character in self.0.chars() {
            // C0 characters are escaped by JSON itself, and stand only between its tokens
            if is_hidden(character) && character > ' ' {
                write!(f, "\\u{:04x}", character as u32)?;
            } else {
                write!(f, "{character}")?;
            }
        }
        Ok(())
    }
}
