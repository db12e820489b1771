//! What can't go together in words, and what no option can mean.

ghost use Rattle.std.specs.Prelude.{◌≡◌};
ghost use Rattle.krates_words.specs.Triples.{is_triple};

use crate::edges;
use crate::error::WordsError;
use crate::known_options::{FEATURE_OPTIONS, KnownOption, OF_BUILDS, OF_KRATES, Takes};
use crate::rules::By;
use crate::values::values;
use clap::ArgMatches;
use krates_text::path::ends_with;
use std::alloc::Global;

/// Refuses what can't go together, and what no option can mean.
pub(crate) fn check(alloc: Global, by: By, found: &ArgMatches<'_>) -> Result<(), WordsError> {
    check_known(alloc, by, found)?;
    match by {
        By::Build => check_build(alloc, found)?,
        By::Krates => {
            check_choice(alloc, found)?;
            check_features(alloc, found)?;
        }
    }
    check_manifest(alloc, found.get_str("manifest-path"))?;
    check_documents(alloc, found.get_str("metadata"), found.get_str("OLD"))
}

/// Refuses options that only the other rules know.
fn check_known(alloc: Global, by: By, found: &ArgMatches<'_>) -> Result<(), WordsError> {
    let others = match by {
        By::Build => OF_KRATES.as_slice(),
        By::Krates => OF_BUILDS.as_slice(),
    };
    for other in others {
        if is_given(found, &other.option) {
            return Err(WordsError::wrong(alloc, other.refusal));
        }
    }
    Ok(())
}

/// Whether an option is there.
fn is_given(found: &ArgMatches<'_>, option: &KnownOption) -> bool {
    match option.takes {
        Takes::Nothing => found.get_flag(option.name),
        _ => found.contains_id(option.name),
    }
}

/// Refuses what no option of a build can mean.
fn check_build(alloc: Global, found: &ArgMatches<'_>) -> Result<(), WordsError> {
    check_targets(alloc, found)?;
    check_triples(alloc, "--host <TRIPLE>", values(found, "host"))
}

/// Refuses what can't go together among the options that choose a part of the document, and what none of them can mean.
fn check_choice(alloc: Global, found: &ArgMatches<'_>) -> Result<(), WordsError> {
    edges::check(alloc, values(found, "edges"))?;
    check_targets(alloc, found)?;
    check_packages(alloc, values(found, "package"))
}

/// Refuses features for cargo where it isn't run.
fn check_features(alloc: Global, found: &ArgMatches<'_>) -> Result<(), WordsError> {
    for option in &FEATURE_OPTIONS {
        if found.contains_id("metadata") && is_given(found, option) {
            return Err(WordsError::wrong(
                alloc,
                format_args!(
                    "'--{}' can't stand beside '--metadata <FILE>': by krates, it is for cargo",
                    option.name
                ),
            ));
        }
    }
    Ok(())
}

/// Refuses triples of targets that can't be any, and more descriptions than targets.
fn check_targets(alloc: Global, found: &ArgMatches<'_>) -> Result<(), WordsError> {
    let triples = values(found, "target");
    check_triples(alloc, "--target <TRIPLE>", triples)?;
    check_descriptions(alloc, triples.len(), values(found, "cfg").len())
}

/// Refuses triples that rustc could read as something else: a file of words, which it names by `@`, or an option.
fn check_triples(alloc: Global, option: &'static str, triples: &[&str]) -> Result<(), WordsError> {
    match triples.iter().find(|triple| !is_triple(triple)) {
        Some(triple) => Err(WordsError::invalid(
            alloc,
            triple,
            option,
            "it can't begin with '@' or '-'",
        )),
        None => Ok(()),
    }
}

/// Whether a text can be a triple.
fn is_triple(text: &str) -> bool
    ensures { result ≡ is_triple text.now }
{
    !matches!(text.as_bytes().first(), Some(b'@' | b'-'))
}

/// Refuses more descriptions than targets.
fn check_descriptions(alloc: Global, targets: usize, cfgs: usize) -> Result<(), WordsError> {
    if cfgs > targets {
        return Err(WordsError::wrong(
            alloc,
            "'--cfg <FILE>' stands more often than '--target <TRIPLE>': each file describes the target in its place",
        ));
    }
    Ok(())
}

/// Refuses a manifest path that doesn't end in `Cargo.toml`, as cargo does.
fn check_manifest(alloc: Global, path: Option<&str>) -> Result<(), WordsError> {
    match path {
        Some(path) if !ends_with(path, "Cargo.toml") => Err(WordsError::invalid(
            alloc,
            path,
            "--manifest-path <PATH>",
            "it has to end in Cargo.toml",
        )),
        _ => Ok(()),
    }
}

/// Refuses directories of members that aren't absolute, as documents write them.
fn check_packages(alloc: Global, paths: &[&str]) -> Result<(), WordsError> {
    match paths.iter().find(|path| !is_absolute(path)) {
        Some(path) => Err(WordsError::invalid(
            alloc,
            path,
            "--package <PATH>",
            "it has to be an absolute path",
        )),
        None => Ok(()),
    }
}

/// Whether a path is absolute, here or on Windows, where it begins with `\\` or with a drive's letter, a colon and a slash.
fn is_absolute(path: &str) -> bool {
    match path.as_bytes() {
        [b'/' | b'\\', ..] => true,
        [drive, b':', b'/' | b'\\', ..] => drive.is_ascii_alphabetic(),
        _ => false,
    }
}

/// Refuses standard input for two documents.
fn check_documents(
    alloc: Global,
    document: Option<&str>,
    other: Option<&str>,
) -> Result<(), WordsError> {
    if document == Some("-") && other == Some("-") {
        return Err(WordsError::wrong(
            alloc,
            "standard input can't be both documents: one '-' has to be a file",
        ));
    }
    Ok(())
}
