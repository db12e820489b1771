//! The colours of an answer on a terminal.

use krates_text::text::Text;
use std::alloc::{AllocError, Global};

/// An answer with colours: all of it in red where it is a no, and else the names of packages in bold, which are the words before a version.
/// JSON stays as it is. The only error is running out of memory. Time O(n) for n bytes.
pub(crate) fn coloured(alloc: Global, text: &str, is_yes: bool) -> Result<String, AllocError> {
    let mut lines = Text::new(alloc);
    if text.starts_with(['{', '[']) {
        lines.push_str(text);
        return lines.whole();
    }
    for line in text.lines() {
        if is_yes {
            push_line(line, &mut lines);
        } else {
            write!(lines, "\u{1b}[31m{line}\u{1b}[0m");
        }
        lines.push_str("\n");
    }
    lines.whole()
}

/// Adds a line whose names are bold.
fn push_line(line: &str, lines: &mut Text) {
    for (word, next) in line.split(' ').zip(line.split(' ').skip(1)) {
        push_word(word, is_version(next), lines);
        lines.push_str(" ");
    }
    push_word(line.rsplit(' ').next().unwrap_or(line), false, lines);
}

/// Adds a word, in bold where it is a name.
fn push_word(word: &str, is_name: bool, lines: &mut Text) {
    if is_name {
        write!(lines, "\u{1b}[1m{word}\u{1b}[0m");
    } else {
        lines.push_str(word);
    }
}

/// Whether a word is a version, as lines write one: `v1.0.152`.
fn is_version(word: &str) -> bool {
    match word.as_bytes() {
        [b'v', digit, ..] => digit.is_ascii_digit(),
        _ => false,
    }
}
