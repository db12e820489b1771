//! What the words of the command lines `cargo krates` and `krates_check` mean. Only the words are read.
#![tactic(auto)]

mod bill_words;
mod build_words;
mod cargo;
mod check_words;
mod choice;
mod command;
mod completions;
mod edges;
mod error;
mod feature_names;
mod found;
mod found_rules;
mod known;
mod known_options;
mod manual;
mod picture_words;
mod rules;
mod setting_words;
mod shell_words;
mod stated;
mod together;
mod tree_words;
mod values;
mod words_of_build;

use crate::command::command_line;
use crate::error::shown_words;
use crate::found::asked;
pub use bill_words::{BillWords, SpecVersion};
pub use build_words::BuildWords;
pub use cargo::CargoWords;
pub use check_words::{CheckWords, check_words_of};
pub use choice::Choice;
pub use error::WordsError;
pub use picture_words::{PictureForm, PictureWords, WhyForm};
pub use rules::Rules;
pub use shell_words::{ColorChoice, ShellWords};
pub use stated::StatedSetting;
use std::alloc::{AllocError, Global};
pub use tree_words::{Prefix, TreeWords};
pub use words_of_build::{build_setting_words, resolver_name};

/// What a run is asked for.
#[derive(Debug, Drop)]
pub struct Asked {
    /// What is answered.
    pub word: Word,
    /// Where the document comes from.
    pub input: Input,
    /// The options that cargo is given, where the document comes from it.
    pub cargo: CargoWords,
    /// By which rules, and what the words say of them: `--by`.
    pub rules: Rules,
    /// Whether the answer is JSON: `--json`.
    pub is_json: bool,
    /// The most bytes that are read of one input, which is a file, standard input, or what a program prints: `--max-bytes`.
    pub max_bytes: u64,
    /// How the program talks to people: `--quiet` and `--color`.
    pub shell: ShellWords,
}

/// What is answered.
#[derive(Debug, Drop)]
pub enum Word {
    /// The kept crates.
    List {
        /// Only those that are built for this, if it is there: `--side`.
        side: Option<BuildSide>,
        /// Whether they are listed by their ids: `--ids`.
        ids: bool,
        /// Whether their units are listed below them: `--units`.
        units: bool,
    },
    /// What the workspace, or a crate, needs.
    Tree {
        /// The package specification or id of the crate.
        spec: Option<String>,
        /// How it is drawn.
        words: TreeWords,
    },
    /// What needs a crate.
    Dependents {
        /// The package specification or id of the crate.
        spec: String,
        /// How it is drawn.
        words: TreeWords,
    },
    /// Why a crate is kept.
    Why {
        /// The package specification or id of the crate.
        spec: String,
        /// How the derivation is printed: `--steps` and `--dot`.
        form: WhyForm,
    },
    /// The features of a crate that are enabled.
    Features {
        /// The package specification or id of the crate.
        spec: String,
    },
    /// The names of several kept crates.
    Duplicates,
    /// The licences.
    Licences,
    /// What each crate is used for.
    Uses,
    /// An order in which the crates can be built.
    Order,
    /// A picture of the crates and what they need.
    Graph {
        /// What the words say of it.
        words: PictureWords,
    },
    /// What went since another document, and what came.
    Diff {
        /// The file with the other document, which was before this one; `-` for standard input.
        old: String,
        /// Whether it is a no where anything went or came: `--exit-code`.
        exit_code: bool,
    },
    /// A bill of materials.
    Sbom {
        /// What the words say of it.
        words: BillWords,
    },
    /// A certificate that someone else can check.
    Certify {
        /// The package specification or id of the crate that it is about; `None` where it is about all that is kept: `--all`.
        spec: Option<String>,
    },
    /// Whether nothing can need a crate.
    Unreachable {
        /// The package specification or id of the crate.
        spec: String,
        /// What it would be needed for, if only that is asked: `--side`.
        side: Option<BuildSide>,
    },
}

/// What something is built for.
#[derive(Clone, Copy, Debug, PartialEq, Eq)]
pub enum BuildSide {
    /// The host, where build scripts and procedural macros run.
    Host,
    /// A machine that the build is for.
    Target,
}

/// Where the document comes from.
#[derive(Debug, Drop)]
pub enum Input {
    /// Cargo is run for it.
    Cargo,
    /// The file with this path: `--metadata FILE`.
    File(String),
    /// Standard input: `--metadata -`.
    Stdin,
}

/// What the words after the program's name mean. A first word `krates`, which cargo passes on where it runs the
/// program, is skipped.
///
/// It is refused as `Asked` where the words ask for help or the version, as `Page` where they ask for completions or the manual page, as `Wrong` where they mean nothing known or combine what
/// can't go together, and else as `Memory`. Time O(length of the words).
pub fn asked_of(alloc: Global, words: &[String]) -> Result<Asked, WordsError> {
    let words = without_name(words);
    match command_line(alloc)?.try_get_matches_from(words) {
        Ok(found) => asked(alloc, &found),
        Err(_) => Err(refusal(alloc, words)?),
    }
}

/// Why clap refuses these words.
fn refusal(alloc: Global, words: &[String]) -> Result<WordsError, AllocError> {
    let shown = shown_words(alloc, words)?;
    let found = command_line(alloc)?.try_get_matches_from(&shown);
    Ok(WordsError::of_shown(alloc, found))
}

/// The words, without the name by which cargo knows the program.
fn without_name(words: &[String]) -> &[String] {
    match words {
        [first, rest @ ..] if first.as_str() == "krates" => rest,
        _ => words,
    }
}
