//! What the words say of how a tree is drawn.

use crate::error::WordsError;
use crate::values::{text, texts};
use clap::ArgMatches;
use std::alloc::Global;

/// How a tree is drawn, as `cargo tree` draws one by the options of the same names (Cargo Book, "cargo tree").
#[derive(Debug, Drop)]
pub struct TreeWords {
    /// How many crates are at most between a line and its root, with its own: `--depth`.
    pub depth: Option<u64>,
    /// The package specifications or ids of the crates that are left out, with what only they lead to: `--prune`.
    pub pruned: Vec<String>,
    /// Whether what a crate leads to stands below each of its lines: `--no-dedupe`.
    pub no_dedupe: bool,
    /// What stands before a crate: `--prefix`.
    pub prefix: Prefix,
    /// Whether branches are drawn in ASCII: `--charset`.
    pub is_ascii: bool,
    /// How a crate is written: `--format`.
    pub format: Option<String>,
}

/// What stands before a crate in a tree.
#[derive(Clone, Copy, Debug, PartialEq, Eq)]
pub enum Prefix {
    /// Branches.
    Indent,
    /// How deep it is.
    Depth,
    /// Nothing.
    Nothing,
}

impl TreeWords {
    /// Whether a crate is written with its features. Time O(length of the format).
    pub fn has_features(&self) -> bool {
        match &self.format {
            Some(format) => format.contains("{f}"),
            None => false,
        }
    }

    /// What the words say of it. They are refused as wrong where a format names something else than a tree has.
    pub(crate) fn of(alloc: Global, found: &ArgMatches<'_>) -> Result<TreeWords, WordsError> {
        check_format(alloc, found.get_str("format").unwrap_or(""))?;
        let pruned = texts(alloc, found, "prune")?;
        let format = text(alloc, found, "format")?;
        Ok(TreeWords {
            depth: found.get_one("depth"),
            pruned,
            no_dedupe: found.get_flag("no-dedupe"),
            prefix: prefix_of(found.get_str("prefix")),
            is_ascii: found.get_str("charset") == Some("ascii"),
            format,
        })
    }
}

/// What stands before a crate by this word. `clap` lets no other through.
fn prefix_of(word: Option<&str>) -> Prefix {
    match word {
        Some("depth") => Prefix::Depth,
        Some("none") => Prefix::Nothing,
        _ => Prefix::Indent,
    }
}

/// What a format may name between braces: the package, its licence, its repository, and its enabled features.
static PATTERNS: [&str; 4] = ["p", "l", "r", "f"];

/// Refuses a format that names something else.
fn check_format(alloc: Global, format: &str) -> Result<(), WordsError> {
    for part in format.split('{').skip(1) {
        let is_known = match part.split_once('}') {
            Some((name, _)) => PATTERNS.contains(&name),
            None => false,
        };
        if !is_known {
            return Err(WordsError::invalid(
                alloc,
                format,
                "--format <FORMAT>",
                "between braces stands p, l, r or f: package, licence, repository, features",
            ));
        }
    }
    Ok(())
}
