//! What a program prints to its two streams, up to a limit for each.

ghost use Rattle.std.specs.Prelude.{ℕ, ◌≡◌, ◌≤◌, IfOk, vec_len};

use crate::reading::{ReadFailure, read_more};
use krates_shown::Shown;
use libc::net::{POLLIN, poll};
use libc::types::pollfd;
use std::alloc::Global;
use std::io;
use std::io::{ErrorKind, Read};
use std::os::fd::AsRawFd;
use std::process::{ChildStderr, ChildStdout};

/// One stream of a program, and what came from it.
#[derive(Drop)]
struct Stream<R> {
    reader: R,
    bytes: Vec<u8>,
    max: u64,
    has_ended: bool,
    ghost within: { vec_len bytes ≤ max },
}

impl<R: Read + AsRawFd> Stream<R> {
    /// Nothing has come yet.
    fn new(alloc: Global, reader: R, max: u64) -> Stream<R>
        ensures { result.max ≡ max }
    {
        Stream {
            reader,
            bytes: Vec::new(alloc),
            max,
            has_ended: false,
        }
    }

    /// The question whether something has come, or nothing is asked where the stream has ended: `poll` passes over a negative number.
    fn question(&self) -> pollfd {
        let fd = if self.has_ended {
            -1
        } else {
            self.reader.as_raw_fd()
        };
        pollfd {
            fd,
            events: POLLIN,
            revents: 0,
        }
    }

    /// What has come.
    fn into_bytes(self) -> Vec<u8>
    where
        R: Drop,
        ensures { vec_len result ≤ self.max }
    {
        self.bytes
    }

    /// Reads once, if that doesn't wait.
    fn read_if(&mut self, is_ready: bool) -> Result<(), ReadFailure>
        ensures { self.new.max ≡ self.old.max }
    {
        if is_ready {
            self.has_ended = read_more(&mut self.reader, &mut self.bytes, self.max)?;
        }
        Ok(())
    }
}

/// What becomes of what a program prints to standard error.
#[derive(Clone, Copy, PartialEq, Eq)]
pub(crate) enum Errors {
    /// It is kept, and nothing is said of it.
    Kept,
    /// Each line is said as soon as it has come.
    Said,
}

/// Both streams of a program.
#[derive(Drop)]
pub(crate) struct Printed {
    stdout: Stream<ChildStdout>,
    stderr: Stream<ChildStderr>,
    /// How many bytes of standard error are said.
    said: usize,
}

impl Printed {
    ghost use Rattle.krates_host.specs.Running.{AreWithin, HasLimit};

    /// Nothing has come yet.
    pub(crate) fn new(alloc: Global, stdout: ChildStdout, stderr: ChildStderr, max: u64) -> Printed
        ensures { HasLimit max result }
    {
        Printed {
            stdout: Stream::new(alloc, stdout, max),
            stderr: Stream::new(alloc, stderr, max),
            said: 0,
        }
    }

    /// All that comes, up to the limit.
    pub(crate) fn collect(
        mut self,
        rt: &HostRuntime,
        errors: Errors,
    ) -> Result<(Vec<u8>, Vec<u8>), ReadFailure>
        ensures { (max : ℕ) → HasLimit max self → IfOk result (AreWithin max) }
    {
        self.read_both(rt, errors)?;
        let Printed { stdout, stderr, .. } = self;
        Ok((stdout.into_bytes(), stderr.into_bytes()))
    }

    /// Reads both to their ends by turns, since a program that waits on a full stream never ends the other.
    fn read_both(&mut self, rt: &HostRuntime, errors: Errors) -> Result<(), ReadFailure>
        ensures { (max : ℕ) → HasLimit max self.old → HasLimit max self.new }
    {
        for _ in 0..u64::MAX {
            if self.stdout.has_ended && self.stderr.has_ended {
                return Ok(());
            }
            self.read_some()?;
            self.say(rt, errors);
        }
        Err(ReadFailure::Failed(io::Error::from(ErrorKind::TimedOut)))
    }

    /// Waits until something has come, and reads it. A call of `poll` that fails was interrupted, or the system had no memory for it: nothing
    /// is read then, and the next turn calls again.
    fn read_some(&mut self) -> Result<(), ReadFailure>
        ensures { (max : ℕ) → HasLimit max self.old → HasLimit max self.new }
    {
        let mut questions = [self.stdout.question(), self.stderr.question()];
        if poll(&mut questions, -1) > 0 {
            self.stdout.read_if(questions[0].revents != 0)?;
            self.stderr.read_if(questions[1].revents != 0)?;
        }
        Ok(())
    }
    /// Says the lines of standard error that have come and aren't said yet, if they are to be said, and at its end the rest.
    fn say(&mut self, rt: &HostRuntime, errors: Errors)
        ensures { (max : ℕ) → HasLimit max self.old → HasLimit max self.new }
    {
        if errors == Errors::Said {
            let stderr = &self.stderr;
            self.said = say_lines(rt, &stderr.bytes, self.said, stderr.has_ended);
        }
    }
}

/// Says the lines behind the first of these bytes, with those at the end that no line feed ends only where no more comes, and returns how many
/// bytes are said. A line is said as `Shown` shows it behind the program's name, so that it can't be taken for one of ours. If memory runs out
/// it isn't said.
fn say_lines(rt: &HostRuntime, bytes: &[u8], said: usize, is_whole: bool) -> usize {
    let mut said = said;
    let rest = bytes.get(said..).unwrap_or(&[]);
    for line in rest.split_inclusive(|byte| *byte == b'\n') {
        if is_whole || line.ends_with(b"\n") {
            said = said.saturating_add(line.len());
            say_line(rt, line);
        }
    }
    said
}

/// Says a line.
fn say_line(rt: &HostRuntime, line: &[u8]) {
    if let Ok(text) = String::from_utf8_lossy(rt.alloc(), line) {
        let _ = eprintln!(rt; "cargo: {}", Shown(text.trim_end()));
    }
}
