//! The words of a program, and what it says where it can't do what they say.

use crate::shell::Shell;
use crate::status::{NO_ANSWER, WRONG};
use crate::wrapped::wrapped;
use krates_words::WordsError;
use std::alloc::AllocError;
use std::env::{Env, FillError};
use std::process::ExitCode;
use std::{env, io};

/// The words after the program's name. It is refused as `InvalidData` where one isn't UTF-8. Time O(length of the words).
pub fn words_of(rt: &HostRuntime) -> io::Result<Vec<String>> {
    let mut words = Vec::new(rt.alloc());
    for word in env::args(rt)?.skip(1) {
        words.push(word)?;
    }
    Ok(words)
}

/// How long a word is at most that is shown where it isn't UTF-8.
const LONGEST: usize = 4096;

/// Says why the words can't be read, and returns the status.
pub fn refuse_words(rt: &HostRuntime, cause: &io::Error) -> ExitCode {
    let shell = Shell::new(rt);
    if cause.kind() == io::ErrorKind::InvalidData {
        refuse_bytes(&shell);
        return ExitCode::from(WRONG);
    }
    shell.error("out of memory");
    ExitCode::from(NO_ANSWER)
}

/// Says which word isn't UTF-8, by its bytes, those that aren't of ASCII escaped.
fn refuse_bytes(shell: &Shell<'_>) {
    match unread_word(shell.rt) {
        Some(word) => shell.error(format_args!("this word isn't UTF-8: {}", word.escape_ascii())),
        None => shell.error("a word isn't UTF-8"),
    }
}

/// The first word that isn't UTF-8, unless it is too long.
fn unread_word(rt: &HostRuntime) -> Option<Vec<u8>> {
    let mut word = Vec::new(rt.alloc());
    for number in 1..usize::MAX {
        word.resize(LONGEST, 0u8).ok()?;
        match rt.arg(number, word.as_mut_slice()) {
            Ok(len) => word.truncate(len),
            Err(FillError::TooLong) => word.clear(),
            Err(FillError::NotPresent) => return None,
        }
        if str::from_utf8(&word).is_err() {
            return Some(word);
        }
    }
    None
}

/// Prints help, as wide as the variable `COLUMNS` says, and returns the status.
fn print_help(shell: &Shell<'_>, text: &str) -> ExitCode {
    let Some(width) = columns(shell.rt) else {
        return shell.print(text, true);
    };
    match wrapped(shell.rt.alloc(), text, width) {
        Ok(text) => shell.print(text.as_str(), true),
        Err(AllocError) => {
            shell.error("out of memory");
            ExitCode::from(NO_ANSWER)
        }
    }
}

/// The number in the variable `COLUMNS`, if it has one.
fn columns(rt: &HostRuntime) -> Option<usize> {
    match env::var(rt, "COLUMNS") {
        Ok(text) => text.as_str().parse::<usize>().ok(),
        Err(_) => None,
    }
}

/// Prints the help that was asked for, or says what is wrong with the words, and returns the status.
pub fn refuse_asked(rt: &HostRuntime, error: &WordsError) -> ExitCode {
    let shell = Shell::new(rt);
    match error {
        WordsError::Asked(text) => print_help(&shell, text.as_str()),
        WordsError::Page(text) => shell.print(text.as_str(), true),
        WordsError::Wrong(text) => {
            shell.wrong(text.as_str());
            ExitCode::from(WRONG)
        }
        WordsError::Memory => {
            shell.error("out of memory");
            ExitCode::from(NO_ANSWER)
        }
    }
}
