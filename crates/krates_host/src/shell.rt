//! How a program talks to people: its answer on standard output, notes and errors on standard error, and its status.

use crate::colours::coloured;
use crate::status::{is_delivered, status_of};
use krates_words::{ColorChoice, ShellWords};
use std::env::VarError;
use std::fmt::Display;
use std::io::{IsTerminal, Write};
use std::process::ExitCode;
use std::{env, io};

static RED: &str = "31";

static YELLOW: &str = "33";

/// How a program talks to people.
#[derive(Clone, Copy)]
pub struct Shell<'a> {
    /// The machine.
    pub rt: &'a HostRuntime,
    /// What the words say of it.
    pub words: ShellWords,
}

impl<'a> Shell<'a> {
    /// One of which the words say nothing. Time O(1).
    pub fn new(rt: &'a HostRuntime) -> Shell<'a> {
        Shell {
            rt,
            words: ShellWords::unsaid(),
        }
    }
}

impl Shell<'_> {
    /// Says why there is no answer.
    pub fn error(&self, reason: impl Display + Drop) {
        self.say("error", RED, reason);
    }

    /// Says what a reader of the answer may want to know, unless notes are left out.
    pub fn note(&self, text: impl Display + Drop) {
        if !self.words.is_quiet {
            self.say("note", YELLOW, text);
        }
    }

    /// Says by which rules an answer is that is by krates.
    pub fn note_krates(&self) {
        self.note("by krates: the graph of the Rust crate krates, not what cargo builds");
    }

    /// Says why the words are wrong, or which words there are.
    pub fn wrong(&self, text: &str) {
        match text.strip_prefix("error: ") {
            Some(reason) => self.error(reason.trim_end()),
            None => {
                let _ = eprint!(self.rt; "{text}");
            }
        }
    }

    /// Says a word and a text. If that fails there is nowhere to say so.
    fn say(&self, word: &str, colour: &str, text: impl Display + Drop) {
        let _ = if self.has_colours(self.rt.stderr().is_terminal()) {
            eprintln!(self.rt; "\u{1b}[1;{colour}m{word}\u{1b}[0m: {text}")
        } else {
            eprintln!(self.rt; "{word}: {text}")
        };
    }

    /// Whether there are colours on a stream, which is a terminal or not.
    fn has_colours(&self, is_terminal: bool) -> bool {
        match self.words.color {
            ColorChoice::Always => true,
            ColorChoice::Never => false,
            ColorChoice::Auto => is_terminal && !has_no_color(self.rt),
        }
    }

    /// Prints an answer, and returns the status. If it can't be written, an error says so, unless nobody reads it any more.
    pub fn print(&self, text: &str, is_yes: bool) -> ExitCode {
        let written = self.write(text, is_yes);
        if let Err(cause) = &written {
            if !is_delivered(&written) {
                self.error(format_args!("can't write the answer: {cause}"));
            }
        }
        ExitCode::from(status_of(&written, is_yes))
    }

    /// Writes an answer, in colours where there are any.
    fn write(&self, text: &str, is_yes: bool) -> io::Result<()> {
        let mut stdout = self.rt.stdout();
        if self.has_colours(stdout.is_terminal()) {
            let text = coloured(self.rt.alloc(), text, is_yes)?;
            stdout.write_all(text.as_bytes())
        } else {
            stdout.write_all(text.as_bytes())
        }
    }
}

/// Whether something is set in `NO_COLOR` (no-color.org).
fn has_no_color(rt: &HostRuntime) -> bool {
    match env::var(rt, "NO_COLOR") {
        Ok(value) => !value.is_empty(),
        Err(VarError::NotPresent) => false,
        Err(_) => true,
    }
}
