//! What `clap` found of one option, as texts.

use crate::error::WordsError;
use clap::ArgMatches;
use std::alloc::{AllocError, Global};

/// The values of an option, of all its uses.
pub(crate) fn values<'m, 'w>(found: &'m ArgMatches<'w>, name: &str) -> &'m [&'w str] {
    found.get_strs(name).unwrap_or_default()
}

/// The same, as texts of their own.
pub(crate) fn texts(
    alloc: Global,
    found: &ArgMatches<'_>,
    name: &str,
) -> Result<Vec<String>, AllocError> {
    let mut texts = Vec::new(alloc);
    for value in values(found, name) {
        texts.push(String::from_str(alloc, value)?)?;
    }
    Ok(texts)
}

/// The value of an option that takes one.
pub(crate) fn text(
    alloc: Global,
    found: &ArgMatches<'_>,
    name: &str,
) -> Result<Option<String>, AllocError> {
    match found.get_str(name) {
        Some(value) => Ok(Some(String::from_str(alloc, value)?)),
        None => Ok(None),
    }
}

/// The value of what must follow a word.
pub(crate) fn required(
    alloc: Global,
    found: &ArgMatches<'_>,
    name: &str,
) -> Result<String, WordsError> {
    match text(alloc, found, name)? {
        Some(value) => Ok(value),
        None => Err(WordsError::wrong(alloc, format_args!("<{name}> is missing"))),
    }
}
