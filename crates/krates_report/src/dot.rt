//! Pictures in the language DOT (Graphviz documentation, "DOT Language").

use crate::lines::Lines;
use krates_shown::Shown;
use krates_text::text::Text;
use std::alloc::{AllocError, Global};

/// Begins a picture.
pub fn push_begin(lines: &mut Lines) {
    push_line("digraph crates {", lines);
    push_line("    rankdir=\"LR\"", lines);
    push_line("    node [shape=\"box\" fontname=\"sans-serif\"]", lines);
}

/// Adds a box of this number, with a label and what else is said of it: attributes, each with a blank before it. The only error is running out of
/// memory.
pub fn push_box(
    alloc: Global,
    number: usize,
    label: &str,
    attributes: &str,
    lines: &mut Lines,
) -> Result<(), AllocError> {
    let label = quoted(alloc, label)?;
    write!(lines, "    n{number} [label=\"{label}\"{attributes}]");
    lines.end();
    Ok(())
}

/// Adds an arrow between boxes, with what is said of it: attributes in brackets, with a blank before them.
pub fn push_arrow(from: usize, to: usize, attributes: &str, lines: &mut Lines) {
    write!(lines, "    n{from} -> n{to}{attributes}");
    lines.end();
}

/// Ends the picture.
pub fn push_end(lines: &mut Lines) {
    push_line("}", lines);
}

/// Adds a line.
fn push_line(text: &str, lines: &mut Lines) {
    lines.push_str(text);
    lines.end();
}

/// A text between double quotes, as it is shown: no character of it ends the text, or means something to Graphviz.
fn quoted(alloc: Global, text: &str) -> Result<String, AllocError> {
    let shown = Shown(text).to_string(alloc)?;
    let mut quoted = Text::new(alloc);
    for character in shown.chars() {
        match character {
            '"' => quoted.push_str("\\\""),
            '\\' => quoted.push_str("\\\\"),
            _ => write!(quoted, "{character}"),
        }
    }
    quoted.whole()
}
