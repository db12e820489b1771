//! What is asked, from what `clap` found in the words.

use crate::completions::completions;
use crate::error::WordsError;
use crate::found_rules::{build_words, choice};
use crate::manual::manual;
use crate::picture_words::{PictureWords, WhyForm};
use crate::rules::By;
use crate::together::check;
use crate::values::{required, text, texts};
use crate::{Asked, BillWords, BuildSide, CargoWords, Input, Rules, ShellWords, TreeWords, Word};
use clap::ArgMatches;
use std::alloc::{AllocError, Global};

/// What is read of one input where no limit is set: 4 GiB.
const MAX_BYTES: u64 = 4 << 30;

/// What is asked.
pub(crate) fn asked(alloc: Global, found: &ArgMatches<'_>) -> Result<Asked, WordsError> {
    let Some((name, found)) = found.subcommand() else {
        return Err(WordsError::wrong(alloc, "a word is missing"));
    };
    if let Some(page) = page(alloc, name, found)? {
        return Err(WordsError::Page(page));
    }
    let by = By::of(found);
    check(alloc, by, found)?;
    let rules = rules(alloc, by, found)?;
    let cargo = cargo(alloc, by, found)?;
    let input = input(alloc, found)?;
    let word = word(alloc, name, found)?;
    Ok(Asked {
        word,
        input,
        cargo,
        rules,
        is_json: found.get_flag("json"),
        max_bytes: max_bytes(found),
        shell: ShellWords::of(found),
    })
}

/// The page that a word of this name asks for, if it asks for one.
fn page(alloc: Global, name: &str, found: &ArgMatches<'_>) -> Result<Option<String>, AllocError> {
    match name {
        "completions" => Ok(Some(completions(alloc, found.get_str("SHELL").unwrap_or("bash"))?)),
        "man" => Ok(Some(manual(alloc)?)),
        _ => Ok(None),
    }
}

/// The word of this name.
fn word(alloc: Global, name: &str, found: &ArgMatches<'_>) -> Result<Word, WordsError> {
    match name {
        "list" => Ok(Word::List {
            ids: found.get_flag("ids"),
            side: side(found),
            units: found.get_flag("units"),
        }),
        "tree" => tree(alloc, found),
        "duplicates" => Ok(Word::Duplicates),
        "licences" => Ok(Word::Licences),
        "uses" => Ok(Word::Uses),
        "order" => Ok(Word::Order),
        "graph" => Ok(Word::Graph {
            words: PictureWords::of(alloc, found)?,
        }),
        "sbom" => Ok(Word::Sbom {
            words: BillWords::of(alloc, found)?,
        }),
        "diff" => Ok(Word::Diff {
            old: required(alloc, found, "OLD")?,
            exit_code: found.get_flag("exit-code"),
        }),
        "certify" => certificate(alloc, found),
        _ => word_of_crate(alloc, name, found),
    }
}

/// A tree of what the crate that is named needs, or where it is inverted of those that need it.
fn tree(alloc: Global, found: &ArgMatches<'_>) -> Result<Word, WordsError> {
    let words = TreeWords::of(alloc, found)?;
    match (text(alloc, found, "SPEC")?, text(alloc, found, "invert")?) {
        (Some(_), Some(_)) => Err(WordsError::wrong(
            alloc,
            "<SPEC> can't stand beside '--invert <SPEC>'",
        )),
        (spec, None) => Ok(Word::Tree { spec, words }),
        (None, Some(spec)) => Ok(Word::Dependents { spec, words }),
    }
}

/// A certificate of the crate that is named, or of all.
fn certificate(alloc: Global, found: &ArgMatches<'_>) -> Result<Word, WordsError> {
    match (text(alloc, found, "SPEC")?, found.get_flag("all")) {
        (Some(_), true) => Err(WordsError::wrong(alloc, "<SPEC> can't stand beside '--all'")),
        (None, false) => Err(WordsError::wrong(alloc, "<SPEC> or '--all' is missing")),
        (spec, _) => Ok(Word::Certify { spec }),
    }
}

/// The word of this name, which is about a crate.
fn word_of_crate(alloc: Global, name: &str, found: &ArgMatches<'_>) -> Result<Word, WordsError> {
    let spec = required(alloc, found, "SPEC")?;
    match name {
        "dependents" => Ok(Word::Dependents {
            spec,
            words: TreeWords::of(alloc, found)?,
        }),
        "why" => Ok(Word::Why {
            spec,
            form: WhyForm::of(alloc, found)?,
        }),
        "features" => Ok(Word::Features { spec }),
        "unreachable" => Ok(Word::Unreachable {
            spec,
            side: side(found),
        }),
        _ => Err(WordsError::wrong(alloc, format_args!("unrecognized word '{name}'"))),
    }
}

/// The side that is asked for. `clap` lets no other word through.
fn side(found: &ArgMatches<'_>) -> Option<BuildSide> {
    match found.get_str("side") {
        Some("host") => Some(BuildSide::Host),
        Some("target") => Some(BuildSide::Target),
        _ => None,
    }
}

/// Where the document comes from.
fn input(alloc: Global, found: &ArgMatches<'_>) -> Result<Input, AllocError> {
    match found.get_str("metadata") {
        Some("-") => Ok(Input::Stdin),
        Some(path) => Ok(Input::File(String::from_str(alloc, path)?)),
        None => Ok(Input::Cargo),
    }
}

/// The most bytes that are read of one input.
pub(crate) fn max_bytes(found: &ArgMatches<'_>) -> u64 {
    found.get_one("max-bytes").unwrap_or(MAX_BYTES)
}

/// The rules, and what the words say of them.
pub(crate) fn rules(alloc: Global, by: By, found: &ArgMatches<'_>) -> Result<Rules, WordsError> {
    match by {
        By::Build => Ok(Rules::Build(build_words(alloc, found)?)),
        By::Krates => Ok(Rules::Krates(choice(alloc, found)?)),
    }
}

/// The options that cargo is given.
fn cargo(alloc: Global, by: By, found: &ArgMatches<'_>) -> Result<CargoWords, AllocError> {
    let words = words_for_cargo(alloc, found)?;
    match by {
        By::Build => Ok(words.for_build()),
        By::Krates => Ok(words),
    }
}

/// The options that are for cargo, as they are there.
fn words_for_cargo(alloc: Global, found: &ArgMatches<'_>) -> Result<CargoWords, AllocError> {
    Ok(CargoWords {
        manifest_path: text(alloc, found, "manifest-path")?,
        features: texts(alloc, found, "features")?,
        all_features: found.get_flag("all-features"),
        no_default_features: found.get_flag("no-default-features"),
        locked: found.get_flag("locked"),
        offline: found.get_flag("offline"),
        frozen: found.get_flag("frozen"),
    })
}
