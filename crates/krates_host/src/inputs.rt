//! What comes from outside: files, standard input, and what other programs print, each up to a limit.

ghost use Rattle.std.specs.Prelude.{◌≤◌, IfOk, vec_len};
ghost use Rattle.krates_host.specs.Running.{IsWithin};

use crate::failure::Failure;
use crate::printed::Errors;
use crate::reading::{ReadFailure, read_whole};
use crate::running::{RunFailure, run};
use crate::shell::Shell;
use std::alloc::Global;
use std::env;
use std::env::VarError;
use std::fs::File;
use std::io::{self, IsTerminal};
use std::process::{Command, Output};

/// What standard input is called.
pub(crate) static STANDARD_INPUT: &str = "standard input";

/// Where a run reads, and how much.
#[derive(Clone, Copy)]
pub struct Inputs<'a> {
    /// How it talks to people, and the machine.
    pub shell: Shell<'a>,
    /// The most bytes that are read of a file, of standard input, or of a stream of a program.
    pub max_bytes: u64,
}

impl Inputs<'_> {
    /// What the run allocates by.
    pub fn alloc(&self) -> Global {
        self.shell.rt.alloc()
    }

    /// The bytes in standard input up to its end. If someone has to type them, a note says what is read.
    ///
    /// It is refused as `TooLong` where there are more than the limit allows, and as `Unread` where a read fails; it may instead return
    /// `Memory`. Time O(n) for n bytes.
    pub fn bytes_in_standard_input(&self, what: &str) -> Result<Vec<u8>, Failure>
        ensures within { IfOk result (λ bytes. vec_len bytes ≤ self.now.max_bytes) }
    {
        if self.shell.rt.stdin().is_terminal() {
            self.shell
                .note(format_args!("reading {what} from standard input"));
        }
        let mut input = self.shell.rt.reader();
        match read_whole(self.alloc(), &mut input, self.max_bytes) {
            Ok(bytes) => Ok(bytes),
            Err(cause) => Err(self.unread(STANDARD_INPUT, cause)),
        }
    }

    /// The text in standard input.
    pub(crate) fn text_in_standard_input(&self, what: &str) -> Result<String, Failure> {
        let bytes = self.bytes_in_standard_input(what)?;
        text_of(self.alloc(), STANDARD_INPUT, bytes)
    }

    /// The text in a file.
    pub(crate) fn text_in(&self, path: &str) -> Result<String, Failure> {
        match self.bytes_in(path) {
            Ok(bytes) => text_of(self.alloc(), path, bytes),
            Err(cause) => Err(self.unread(path, cause)),
        }
    }

    /// The bytes in a file.
    fn bytes_in(&self, path: &str) -> Result<Vec<u8>, ReadFailure>
        ensures within { IfOk result (λ bytes. vec_len bytes ≤ self.now.max_bytes) }
    {
        match File::open(self.shell.rt, path) {
            Ok(mut file) => read_whole(self.alloc(), &mut file, self.max_bytes),
            Err(cause) => Err(ReadFailure::Failed(cause)),
        }
    }

    /// What a program prints, and how it ends. If it can't be run, it is refused with this advice. What it prints to standard error is kept or said.
    pub(crate) fn printed_by(
        &self,
        command: &mut Command,
        advice: &'static str,
        errors: Errors,
    ) -> Result<Output, Failure>
        ensures within { IfOk result (IsWithin self.now.max_bytes) }
    {
        match run(self.shell.rt, command, self.max_bytes, errors) {
            Ok(output) => Ok(output),
            Err(RunFailure::NotRead(cause)) => {
                let program = command.get_program();
                let name = format!(in self.alloc(); "the output of `{program}`")?;
                Err(self.unread(name.as_str(), cause))
            }
            Err(RunFailure::NotRun(cause)) => {
                Err(not_run(self.alloc(), command.get_program(), cause, advice))
            }
        }
    }

    /// The failure of an input that isn't read whole.
    fn unread(&self, name: &str, cause: ReadFailure) -> Failure {
        match cause {
            ReadFailure::Failed(cause) => Failure::unread(self.alloc(), name, cause),
            ReadFailure::Memory => Failure::Memory,
            ReadFailure::TooLong => match String::from_str(self.alloc(), name) {
                Ok(file) => Failure::TooLong {
                    file,
                    max_bytes: self.max_bytes,
                },
                Err(_) => Failure::Memory,
            },
        }
    }
}

/// The failure of a program that can't be run; `Memory` where that is the cause.
fn not_run(alloc: Global, program: &str, cause: io::Error, advice: &'static str) -> Failure {
    match String::from_str(alloc, program) {
        Ok(program) if cause.kind() != io::ErrorKind::OutOfMemory => Failure::NotRun {
            program,
            cause,
            advice,
        },
        _ => Failure::Memory,
    }
}

/// The text of these bytes; a refusal has this name for them. JSON has no byte order mark before it (RFC 8259, section 8.1), so a text with
/// one is refused here by that name, where `parse` would only miss a value.
pub(crate) fn text_of(alloc: Global, name: &str, bytes: Vec<u8>) -> Result<String, Failure> {
    let Ok(text) = String::from_utf8(bytes) else {
        return Err(Failure::NoText {
            file: String::from_str(alloc, name)?,
        });
    };
    if text.starts_with('\u{feff}') {
        return Err(Failure::Marked {
            file: String::from_str(alloc, name)?,
        });
    }
    Ok(text)
}

/// The value of a variable, where it is set and not empty.
pub(crate) fn variable(rt: &HostRuntime, name: &'static str) -> Result<Option<String>, Failure> {
    match set_variable(rt, name)? {
        Some(value) if value.is_empty() => Ok(None),
        value => Ok(value),
    }
}

/// The value of a variable, where it is set.
pub(crate) fn set_variable(
    rt: &HostRuntime,
    name: &'static str,
) -> Result<Option<String>, Failure> {
    match env::var(rt, name) {
        Ok(value) => Ok(Some(value)),
        Err(VarError::NotPresent) => Ok(None),
        Err(VarError::NotUnicode) => Err(Failure::Variable(name)),
        Err(VarError::OutOfMemory) => Err(Failure::Memory),
    }
}
