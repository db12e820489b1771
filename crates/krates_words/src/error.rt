//! Why words can't be answered.

ghost use Rattle.std.specs.Prelude.{◌≡◌};
ghost use Rattle.krates_words.specs.Errors.{IsWrongOrMemory, error_of, words_error_text};
ghost use Rattle.krates_words.specs.declared.error.WordsError.TheVariants.{Memory};

use clap::ArgMatches;
use clap::error::ErrorKind;
use krates_shown::Shown;
use std::alloc::{AllocError, AllocFailed, Global};
use std::fmt;

/// Why words can't be answered.
#[derive(Debug, Drop, thiserror::Error)]
pub enum WordsError {
    /// They ask for help or the version, which is this text.
    Asked(String),
    /// They ask for what completes them in a shell, or for the manual page, which is this text.
    Page(String),
    /// They are wrong, as this text says.
    Wrong(String),
    /// Memory ran out.
    Memory,
}

impl WordsError {
    /// Why clap refuses words, from what it says of them as they are shown: it quotes words as it is given them.
    pub(crate) fn of_shown(
        alloc: Global,
        found: Result<ArgMatches<'_>, clap::Error>,
    ) -> WordsError {
        match found {
            Ok(_) => WordsError::wrong(alloc, "a word has characters that aren't shown"),
            Err(error) => WordsError::by_clap(alloc, &error),
        }
    }

    /// The refusal of clap.
    fn by_clap(alloc: Global, error: &clap::Error) -> WordsError {
        match error.to_string(alloc) {
            Ok(text) => WordsError::of_kind(error.kind(), text),
            Err(_) => WordsError::Memory,
        }
    }

    /// The refusal of this kind with this text.
    fn of_kind(kind: ErrorKind, text: String) -> WordsError
        ensures { result ≡ error_of kind text }
    {
        match kind {
            ErrorKind::DisplayHelp | ErrorKind::DisplayVersion => WordsError::Asked(text),
            ErrorKind::OutOfMemory => WordsError::Memory,
            _ => WordsError::Wrong(text),
        }
    }

    /// The value of an option is wrong for this reason.
    pub(crate) fn invalid(
        alloc: Global,
        value: &str,
        option: &'static str,
        reason: &'static str,
    ) -> WordsError
        ensures { IsWrongOrMemory result }
    {
        let value = Shown(value);
        WordsError::wrong(
            alloc,
            format_args!("invalid value '{value}' for '{option}': {reason}"),
        )
    }

    /// The words are wrong for this reason.
    pub(crate) fn wrong(alloc: Global, reason: impl fmt::Display + Drop) -> WordsError
        ensures { IsWrongOrMemory result }
    {
        match format!(in alloc; "error: {reason}\n\nFor more information, try '--help'.\n") {
            Ok(text) => WordsError::Wrong(text),
            Err(_) => WordsError::Memory,
        }
    }
}

/// The words as they are shown.
pub(crate) fn shown_words(alloc: Global, words: &[String]) -> Result<Vec<String>, AllocError> {
    let mut shown = Vec::new(alloc);
    for word in words {
        shown.push(Shown(word.as_str()).to_string(alloc)?)?;
    }
    Ok(shown)
}

/// The text.
// By hand, since a clause says what is printed, and what a derive writes has none.
impl fmt::Display for WordsError {
    ghost output = { words_error_text };

    fn fmt<W: fmt::Write>(&self, f: &mut fmt::Formatter<W>) -> fmt::Result {
        match self {
            WordsError::Asked(text) | WordsError::Page(text) | WordsError::Wrong(text) =>
                f.write_str(text.as_str()),
            WordsError::Memory => f.write_str("error: out of memory\n"),
        }
    }
}

impl From<AllocError> for WordsError {
    ghost from_gives = { λ _ e. e ≡ Memory };

    fn from(_error: AllocError) -> WordsError {
        WordsError::Memory
    }
}

impl<T: Drop> From<AllocFailed<T>> for WordsError {
    ghost from_gives = { λ _ e. e ≡ Memory };

    fn from(_error: AllocFailed<T>) -> WordsError {
        WordsError::Memory
    }
}
