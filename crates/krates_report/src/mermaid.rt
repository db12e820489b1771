//! Pictures in the language of Mermaid (Mermaid documentation, "Flowcharts").

use crate::lines::Lines;
use krates_shown::Shown;
use krates_text::text::Text;
use std::alloc::{AllocError, Global};

/// Begins a picture.
pub fn push_begin(lines: &mut Lines) {
    push_line("flowchart LR", lines);
}

/// Adds a box of this number, with a label and the name of its class. The only error is running out of memory.
pub fn push_box(
    alloc: Global,
    number: usize,
    label: &str,
    class: &str,
    lines: &mut Lines,
) -> Result<(), AllocError> {
    let label = quoted(alloc, label)?;
    write!(lines, "    n{number}[\"{label}\"]:::{class}");
    lines.end();
    Ok(())
}

/// Adds an arrow between boxes, which is written so.
pub fn push_arrow(from: usize, to: usize, arrow: &str, lines: &mut Lines) {
    write!(lines, "    n{from} {arrow} n{to}");
    lines.end();
}

/// Says how a class is drawn.
pub fn push_class(class: &str, style: &str, lines: &mut Lines) {
    write!(lines, "    classDef {class} {style}");
    lines.end();
}

/// Adds a line.
fn push_line(text: &str, lines: &mut Lines) {
    lines.push_str(text);
    lines.end();
}

/// A text between double quotes, as it is shown: no character of it ends the text, or means something to Mermaid or to HTML.
fn quoted(alloc: Global, text: &str) -> Result<String, AllocError> {
    let shown = Shown(text).to_string(alloc)?;
    let mut quoted = Text::new(alloc);
    for character in shown.chars() {
        match character {
            '"' => quoted.push_str("#quot;"),
            '#' => quoted.push_str("#35;"),
            '&' => quoted.push_str("#amp;"),
            '<' => quoted.push_str("#lt;"),
            '>' => quoted.push_str("#gt;"),
            '`' => quoted.push_str("#96;"),
            _ => write!(quoted, "{character}"),
        }
    }
    quoted.whole()
}
