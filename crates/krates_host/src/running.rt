//! Other programs: what they print, up to a limit, and how they end.

ghost use Rattle.std.specs.Prelude.{IfOk};
ghost use Rattle.krates_host.specs.Running.{AreWithin, IsWithin};

use crate::printed::{Errors, Printed};
use crate::reading::ReadFailure;
use std::io;
use std::process::{Child, Command, Output, Stdio};

/// Why it isn't known what a program prints.
#[derive(Debug, Drop)]
pub(crate) enum RunFailure {
    /// It can't be started, or waited for.
    NotRun(io::Error),
    /// What it prints isn't read whole.
    NotRead(ReadFailure),
}

impl From<io::Error> for RunFailure {
    fn from(cause: io::Error) -> RunFailure {
        RunFailure::NotRun(cause)
    }
}

/// Runs a program, which has nothing to read, to its end. Standard output and standard error are each collected up to the limit; a program
/// that prints more is killed, and it is refused as `NotRead` with `TooLong`.
pub(crate) fn run(
    rt: &HostRuntime,
    command: &mut Command,
    max: u64,
    errors: Errors,
) -> Result<Output, RunFailure>
    ensures within { IfOk result (IsWithin max) }
{
    command
        .stdin(Stdio::null())
        .stdout(Stdio::piped())
        .stderr(Stdio::piped());
    let mut child = command.spawn(rt)?;
    match collect(rt, &mut child, max, errors) {
        Ok((stdout, stderr)) => Ok(Output {
            status: child.wait()?,
            stdout,
            stderr,
        }),
        Err(cause) => {
            stop(child);
            Err(RunFailure::NotRead(cause))
        }
    }
}

/// Kills a program of which no more is read, and waits for its end. If it can't be killed there is nothing to be done.
fn stop(mut child: Child) {
    if child.kill().is_ok() {
        let _ = child.wait();
    }
}

/// What comes from a program, up to the limit for each.
fn collect(
    rt: &HostRuntime,
    child: &mut Child,
    max: u64,
    errors: Errors,
) -> Result<(Vec<u8>, Vec<u8>), ReadFailure>
    ensures within { IfOk result (AreWithin max) }
{
    match (child.stdout.take(), child.stderr.take()) {
        (Some(stdout), Some(stderr)) => {
            Printed::new(rt.alloc(), stdout, stderr, max).collect(rt, errors)
        }
        // no program that `run` starts
        _ => Ok((Vec::new(rt.alloc()), Vec::new(rt.alloc()))),
    }
}
