//! Help in lines of a width.

use krates_text::text::Text;
use std::alloc::{AllocError, Global};

/// The least width to which lines are wrapped.
const LEAST: usize = 40;

/// A text whose lines aren't wider than this, where their words allow it: what doesn't fit into a line is below it, as far to the right as the second
/// column of a table, or else as the line. The only error is running out of memory. Time O(n) for n bytes.
pub(crate) fn wrapped(alloc: Global, text: &str, width: usize) -> Result<String, AllocError> {
    let width = width.max(LEAST);
    let mut lines = Text::new(alloc);
    for line in text.lines() {
        if line.len() <= width {
            lines.push_str(line);
        } else {
            push_wrapped(line, width, &mut lines);
        }
        lines.push_str("\n");
    }
    lines.whole()
}

/// Adds a line in several.
fn push_wrapped(line: &str, width: usize, lines: &mut Text) {
    let margin = margin_of(line, width);
    let mut column = 0;
    for (number, word) in line.split(' ').enumerate() {
        let is_below = number > 0 && column > margin && column.saturating_add(word.len()) >= width;
        if is_below {
            lines.push_str("\n");
            push_blanks(margin, lines);
            column = margin;
        } else if number > 0 {
            lines.push_str(" ");
            column = column.saturating_add(1);
        }
        lines.push_str(word);
        column = column.saturating_add(word.len());
    }
}

/// Where the lines below begin: where the second column of a table does, if the line has two and there is room, or else where the line does.
fn margin_of(line: &str, width: usize) -> usize {
    let first = line.len().saturating_sub(line.trim_start().len());
    let rest = line.get(first..).unwrap_or("");
    match rest.split_once("  ") {
        Some((_, second)) => {
            let column = line.len().saturating_sub(second.trim_start().len());
            if column.saturating_mul(2) < width.saturating_add(width / 2) {
                column
            } else {
                first
            }
        }
        None => first,
    }
}

/// Adds as many blanks.
fn push_blanks(count: usize, lines: &mut Text) {
    for _ in 0..count {
        lines.push_str(" ");
    }
}
