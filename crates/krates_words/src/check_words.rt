//! What the words of the program that checks certificates mean.

use crate::command::{VERSION, push_groups};
use crate::error::{WordsError, shown_words};
use crate::found::{max_bytes, rules};
use crate::known_options::FOR_CERTIFICATES;
use crate::rules::{By, Rules};
use crate::shell_words::ShellWords;
use crate::together::check;
use crate::values::required;
use clap::{ArgMatches, Command};
use std::alloc::{AllocError, Global};

static EXPLANATION: &str = "\
The certificate is read from standard input, as `cargo krates certify` writes it.
The options have to be those under which it was made.";

/// What a run of the checker is asked for. The certificate comes from standard input.
#[derive(Debug, Drop)]
pub struct CheckWords {
    /// The file with the document: `--metadata`.
    pub document: String,
    /// By which rules it is judged, and what the words say of them: `--by`.
    pub rules: Rules,
    /// The most bytes that are read of one input: `--max-bytes`.
    pub max_bytes: u64,
    /// How the program talks to people: `--quiet` and `--color`.
    pub shell: ShellWords,
}

/// What the words after the name of the checker mean.
///
/// It is refused as `Asked` where the words ask for help or the version, as `Wrong` where they mean nothing known or combine what
/// can't go together, and else as `Memory`. Time O(length of the words).
pub fn check_words_of(alloc: Global, words: &[String]) -> Result<CheckWords, WordsError> {
    match command_line(alloc)?.try_get_matches_from(words) {
        Ok(found) => found_words(alloc, &found),
        Err(_) => Err(refusal(alloc, words)?),
    }
}

/// Why clap refuses these words.
fn refusal(alloc: Global, words: &[String]) -> Result<WordsError, AllocError> {
    let shown = shown_words(alloc, words)?;
    let found = command_line(alloc)?.try_get_matches_from(&shown);
    Ok(WordsError::of_shown(alloc, found))
}

/// The command.
fn command_line<'w>(alloc: Global) -> Result<Command<'w>, AllocError> {
    let mut args = Vec::new(alloc);
    push_groups(alloc, &mut args, &FOR_CERTIFICATES)?;
    Command::new(alloc, "krates_check")
        .version(VERSION)
        .about(
            "Checks a certificate of what cargo builds, or with --by krates of which crates a workspace needs",
        )
        .after_help(EXPLANATION)
        .no_binary_name(true)
        .arg_required_else_help(true)
        .args(args)
}

/// What is asked, from what `clap` found in the words.
fn found_words(alloc: Global, found: &ArgMatches<'_>) -> Result<CheckWords, WordsError> {
    let by = By::of(found);
    check(alloc, by, found)?;
    let document = required(alloc, found, "metadata")?;
    if document.as_str() == "-" {
        return Err(WordsError::wrong(
            alloc,
            "standard input is the certificate: '--metadata <FILE>' has to be a file",
        ));
    }
    let rules = rules(alloc, by, found)?;
    Ok(CheckWords {
        document,
        rules,
        max_bytes: max_bytes(found),
        shell: ShellWords::of(found),
    })
}
