//! The runs, and the substitute for cargo in them.

use crate::command::push_read;
use crate::table::{Question, hold_runs};
use krates_cargo::MetadataCommand;
use krates_cm::Error;
use krates_samples::stand_in::answer;
use krates_samples::table::Row;
use krates_text::text::Text;
use std::io::Write;
use std::test::Fail;

/// The last word of a run, after `verbose` where that is set, and what is read from it; and a program that isn't there.
static RUNS: &[Row] = &[
    ("x", "2 packages"),
    (
        "--fake=fail",
        "`cargo metadata` exited with an error: no manifest\n",
    ),
    (
        "--fake=badout",
        "cannot convert the stdout of `cargo metadata`: invalid utf-8 sequence of 1 bytes from index 0",
    ),
    (
        "--fake=baderr",
        "cannot convert the stderr of `cargo metadata`: invalid utf-8 sequence of 1 bytes from index 0",
    ),
    (
        "--fake=nojson",
        "could not find any json in the output of `cargo metadata`",
    ),
    (
        "--fake=words",
        "`cargo metadata` exited with an error: metadata\n--format-version\n1\n--fake=words\n",
    ),
    (
        "--fake=env",
        "`cargo metadata` exited with an error: a value\n",
    ),
    // what a verbose run writes as an error goes to the standard error of this program, and isn't collected
    (
        "verbose --fake=fail",
        "`cargo metadata` exited with an error: ",
    ),
    // after the colon the operating system's words
    (
        "/no/such/program",
        "failed to start `cargo metadata`: No such file or directory (os error 2)",
    ),
];

/// Writes what the last word says, if words follow the name of the test, and returns the status.
pub(crate) fn run(rt: &HostRuntime) -> Result<u8, Fail> {
    let words: Vec<String> = std::env::args(rt)?.skip(1).collect(rt.alloc())?;
    if words.len() < 2 {
        return Ok(0);
    }
    let variable = std::env::var(rt, "FAKE_CARGO").ok();
    let value = variable.as_ref().map(|value| value.as_str());
    let answer = answer(rt.alloc(), words.as_slice(), value)?;
    std::io::writer(rt).write_all(&answer.stdout)?;
    rt.stderr().write_all(&answer.stderr)?;
    Ok(answer.status)
}

/// Sets a program and a last word, and twice a variable.
fn set(command: &mut MetadataCommand, program: String, last: Vec<String>) -> Result<(), Error> {
    command
        .cargo_path(program)
        .other_options(last)
        .env("FAKE_CARGO", "another")?
        .env("FAKE_CARGO", "a value")?;
    Ok(())
}

/// A command that this program runs instead of cargo, with this last word.
pub(crate) fn command(rt: &HostRuntime, last: &str) -> Result<MetadataCommand, Fail> {
    let program = std::env::current_exe(rt)?;
    let program = String::from_str(rt.alloc(), program.as_str())?;
    let last = vec![in rt.alloc(); String::from_str(rt.alloc(), last)?]?;
    let mut command = MetadataCommand::new(rt.alloc());
    set(&mut command, program, last)?;
    Ok(command)
}

/// What is read of a run with this last word, by a copy of the command, whose own program counts and not the one that is handed in; or of a run
/// of this program, which is handed in.
struct Ran;

impl Question for Ran {
    fn tell(told: &mut Text, rt: &HostRuntime, line: &str) -> Result<(), Fail> {
        if line.starts_with('/') {
            push_read(told, MetadataCommand::new(rt.alloc()).exec(Some(line), rt));
            return Ok(());
        }
        let mut command = command(rt, line.trim_start_matches("verbose "))?;
        command.verbose(line.starts_with("verbose"));
        push_read(told, command.clone()?.exec(Some("/no/such/program"), rt));
        Ok(())
    }
}

#[test]
fn runs(rt: HostRuntime) -> Result<(), Fail> {
    hold_runs::<Ran>(&rt, RUNS)
}
