//! Trees of crates as they are shown.

use crate::answer::Answer;
use crate::crate_name::ShortName;
use crate::json::{JsonObject, Values};
use crate::lines::Lines;
use crate::tree::Tree;
use krates::{DepKind, KrateMatch, Package};
use krates_answers::tree::TreeLine;
use krates_words::{Prefix, TreeWords};
use serde_json::Value;
use std::alloc::{AllocError, Global};

/// A tree of crates as it is shown.
#[derive(Drop)]
pub struct DrawnTree<'a> {
    /// The tree.
    pub tree: Tree<'a>,
    /// How it is drawn.
    pub words: &'a TreeWords,
    /// The enabled features of the crate at each number, with commas between them; nothing where the format doesn't have them.
    pub features: Vec<String>,
}

impl DrawnTree<'_> {
    /// Adds a line after what is drawn before it. For each line that it is below, the margin's first, `above` has its column; those that it isn't below
    /// are forgotten, and its own is noted.
    fn push_drawn(
        &self,
        line: &TreeLine,
        is_last: bool,
        above: &mut Vec<Column>,
        lines: &mut Lines,
    ) -> Result<(), AllocError> {
        push_break(line, lines);
        above.truncate(line.depth);
        self.push_columns(above, lines);
        above.push(self.column(line, is_last))?;
        match self.tree.head(line.krate) {
            Some(kind) => lines.push_str(head_text(kind)),
            None => self.push_branch(line, is_last, lines),
        }
        lines.end();
        Ok(())
    }

    /// The column of a line, for those below it.
    fn column(&self, line: &TreeLine, is_last: bool) -> Column {
        match self.tree.head(line.krate) {
            Some(_) => Column::Missing,
            None if is_last => Column::Blank,
            None => Column::Branch,
        }
    }

    /// Adds the columns that are drawn before a line, without the margin's, which is the first.
    fn push_columns(&self, above: &[Column], lines: &mut Lines) {
        for column in above.iter().skip(1) {
            lines.push_str(match column {
                Column::Branch if self.words.is_ascii => "|   ",
                Column::Branch => "│   ",
                Column::Blank => "    ",
                Column::Missing => "",
            });
        }
    }

    /// Adds the branch to a line's crate, and the crate.
    fn push_branch(&self, line: &TreeLine, is_last: bool, lines: &mut Lines) {
        if line.depth > 0 {
            lines.push_str(match (self.words.is_ascii, is_last) {
                (false, true) => "└── ",
                (false, false) => "├── ",
                (true, true) => "`-- ",
                (true, false) => "|-- ",
            });
        }
        self.push_crate(line, lines);
    }

    /// Adds a line's crate, as the format writes it.
    fn push_crate(&self, line: &TreeLine, lines: &mut Lines) {
        if let Some(found) = self.tree.crates.get(line.krate.index()) {
            match &self.words.format {
                Some(format) => self.push_format(format.as_str(), found, lines),
                None => write!(lines, "{}", ShortName(found.krate)),
            }
        }
        if self.tree.is_repeated(line) {
            lines.push_str(" (*)");
        }
    }

    /// Adds what a format has of a crate.
    fn push_format(&self, format: &str, found: &KrateMatch<'_, Package>, lines: &mut Lines) {
        for (number, part) in format.split('{').enumerate() {
            match part.split_once('}') {
                Some((name, rest)) if number > 0 => {
                    self.push_pattern(name, found, lines);
                    lines.push_str(rest);
                }
                _ => lines.push_str(part),
            }
        }
    }

    /// Adds what a name between braces means of a crate: package, licence, repository or features.
    fn push_pattern(&self, name: &str, found: &KrateMatch<'_, Package>, lines: &mut Lines) {
        match name {
            "p" => write!(lines, "{}", ShortName(found.krate)),
            "l" => lines.push_str(found.krate.license.as_deref().unwrap_or("")),
            "r" => lines.push_str(found.krate.repository.as_deref().unwrap_or("")),
            _ => lines.push_str(
                self.features
                    .get(found.node_id.index())
                    .map_or("", String::as_str),
            ),
        }
    }

    /// Adds the lines with their branches, and with heads.
    fn push_indented(&self, lines: &mut Lines) -> Result<(), AllocError> {
        let are_last = self.are_last(lines.allocator())?;
        let mut above = Vec::new(lines.allocator());
        for (line, is_last) in self.tree.lines.iter().zip(&are_last) {
            self.push_drawn(line, *is_last, &mut above, lines)?;
        }
        Ok(())
    }

    /// Adds the lines of crates, without branches.
    fn push_flat(&self, lines: &mut Lines) -> Result<(), AllocError> {
        let mut above = Vec::new(lines.allocator());
        for line in &self.tree.lines {
            above.truncate(line.depth);
            let depth = self.tree.depth(line, &above);
            above.push(depth)?;
            if self.tree.head(line.krate).is_none() {
                self.push_flat_line(line, depth, lines);
            }
        }
        Ok(())
    }

    /// Adds the line of a crate, which is so deep.
    fn push_flat_line(&self, line: &TreeLine, depth: usize, lines: &mut Lines) {
        push_break(line, lines);
        if self.words.prefix == Prefix::Depth {
            write!(lines, "{depth}");
        }
        self.push_crate(line, lines);
        lines.end();
    }

    /// For each line, whether it is the last below its parent or below a head: no later line is indented as far before a head, or one that is indented
    /// less.
    fn are_last(&self, alloc: Global) -> Result<Vec<bool>, AllocError> {
        let mut are_last = Vec::new(alloc);
        let mut has_later = Vec::new(alloc);
        for line in self.tree.lines.iter().rev() {
            let has_own = matches!(has_later.get(line.depth), Some(true));
            are_last.push(!has_own)?;
            fit(&mut has_later, line.depth)?;
            has_later.push(self.tree.head(line.krate).is_none())?;
        }
        are_last.reverse();
        Ok(are_last)
    }

    /// Adds what JSON says of a line, if it is of a crate, which is below that many.
    fn add_json(&self, alloc: Global, line: &TreeLine, depth: usize, values: &mut Values) {
        if let Some(found) = self.tree.crates.get(line.krate.index()) {
            let object = JsonObject::new(alloc)
                .put(
                    "depth",
                    Ok(Value::from(u64::try_from(depth).unwrap_or(u64::MAX))),
                )
                .text("id", found.krate.id.repr.as_str())
                .put("repeated", Ok(Value::Bool(self.tree.is_repeated(line))));
            if self.tree.has_kinds() {
                values.add(
                    object
                        .put("kind", kind_json(alloc, self.tree.kind(line)))
                        .object(),
                );
            } else {
                values.add(object.object());
            }
        }
    }
}

/// Adds an empty line before each root except the first.
fn push_break(line: &TreeLine, lines: &mut Lines) {
    if line.depth == 0 && !lines.is_empty() {
        lines.end();
    }
}

/// What stands in the column of a line, before the lines below it.
#[derive(Clone, Copy)]
enum Column {
    /// More follows below the parent of the line.
    Branch,
    /// It is the last one.
    Blank,
    /// It is a head, which has no column.
    Missing,
}

/// How a head is written, as `cargo tree` does.
fn head_text(kind: DepKind) -> &'static str {
    match kind {
        DepKind::Build => "[build-dependencies]",
        DepKind::Normal | DepKind::Dev => "[dev-dependencies]",
    }
}

/// What JSON says of a kind.
fn kind_json(alloc: Global, kind: Option<DepKind>) -> Result<Value, AllocError> {
    match kind {
        Some(DepKind::Normal) => Value::try_from_str(alloc, "normal"),
        Some(DepKind::Build) => Value::try_from_str(alloc, "build"),
        Some(DepKind::Dev) => Value::try_from_str(alloc, "dev"),
        None => Ok(Value::Null),
    }
}

/// Makes a list this long: cut, or padded with no.
fn fit(flags: &mut Vec<bool>, len: usize) -> Result<(), AllocError> {
    flags.truncate(len);
    for _ in flags.len()..len {
        flags.push(false)?;
    }
    Ok(())
}

impl Answer for DrawnTree<'_> {
    /// A line for each crate below its parent, drawn as `cargo tree` draws it: ` (*)` says that what the crate leads to is written
    /// above, and a head stands before build dependencies and before dev dependencies, where kinds are told. An empty line comes before each root
    /// except the first.
    fn push_lines(&self, lines: &mut Lines) -> Result<(), AllocError> {
        match self.words.prefix {
            Prefix::Indent => self.push_indented(lines),
            Prefix::Depth | Prefix::Nothing => self.push_flat(lines),
        }
    }

    /// A list of the crates' lines, each with `depth`, `id` and `repeated`, and where kinds are told with the `kind` by which its parent leads to it:
    /// `normal`, `build`, `dev`, or null for a root.
    fn json(&self, alloc: Global) -> Result<Value, AllocError> {
        let mut values = Values::new(alloc);
        let mut above = Vec::new(alloc);
        for line in &self.tree.lines {
            above.truncate(line.depth);
            let depth = self.tree.depth(line, &above);
            above.push(depth)?;
            self.add_json(alloc, line, depth, &mut values);
        }
        values.list()
    }
}
