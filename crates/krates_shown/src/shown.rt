//! A text as it is shown.

ghost use Rattle.std.specs.Prelude.{◌≡◌, Some};
ghost use Rattle.std.specs.Str.{chars};
ghost use Rattle.krates_shown.specs.Shown.{begins_code, is_escaped, is_hidden, shown_before, shown_text};

use std::fmt;

/// A text that someone else wrote, such as a name, a licence or a path, as it is shown on a terminal or in a line.
///
/// It prints control characters (C0, DEL and C1), U+2028, U+2029 and the characters that turn the direction (Unicode Standard
/// Annex 9) by their numbers, as `\u{1b}`, and everything else as it is; except that a backslash before `u{` is printed as
/// `\u{5c}`, so that each text is printed in a way of its own and can be read back. So the text can neither end a line, nor move the
/// cursor, nor turn what follows. Time O(length).
///
/// ```text
/// println!(rt; "{}", Shown("MIT\n    openssl v9.9.9"))?;
/// MIT\u{a}    openssl v9.9.9
/// ```
#[derive(Clone, Copy)]
pub struct Shown<'a>(pub &'a str);

impl fmt::Display for Shown<'_> {
    ghost output = { λ shown. Some (shown_text shown.0.now) };

    fn fmt<W: fmt::Write>(&self, f: &mut fmt::Formatter<W>) -> fmt::Result {
        let mut rest = self.0.chars();
        while let Some(character) = rest.next() {
            let shown = ShownCharacter {
                character,
                rest: rest.as_str(),
            };
            write!(f, "{shown}")?;
        }
        Ok(())
    }
}

/// A character as it is shown before the rest of its text.
#[derive(Clone, Copy)]
struct ShownCharacter<'a> {
    character: char,
    rest: &'a str,
}

impl fmt::Display for ShownCharacter<'_> {
    ghost output = { λ shown. Some (shown_before shown.character shown.rest.now) };

    fn fmt<W: fmt::Write>(&self, f: &mut fmt::Formatter<W>) -> fmt::Result {
        let character = self.character;
        if is_escaped(character, self.rest) {
            write!(f, "\\u{{{:x}}}", character as u32)
        } else {
            write!(f, "{character}")
        }
    }
}

/// Whether a character is shown by its number before the rest of its text.
fn is_escaped(character: char, rest: &str) -> bool
    ensures { result ≡ is_escaped character (chars rest.now) }
{
    is_hidden(character) || (character == '\\' && begins_code(rest))
}

/// Whether a character ends a line, moves the cursor or turns the direction.
pub(crate) fn is_hidden(character: char) -> bool
    ensures { result ≡ is_hidden character }
{
    matches!(
        character,
        '\0'..='\x1f'
            | '\x7f'..='\u{9f}'
            | '\u{61c}'
            | '\u{200e}'..='\u{200f}'
            | '\u{2028}'..='\u{202e}'
            | '\u{2066}'..='\u{2069}'
    )
}

/// Whether a text goes on as the number of an escape does.
fn begins_code(rest: &str) -> bool
    ensures { result ≡ begins_code (chars rest.now) }
{
    rest.starts_with("u{")
}
