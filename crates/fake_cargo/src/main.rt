//! `fake-cargo`: a substitute for cargo where cargo itself isn't to be run. Its last word chooses what it writes.
#![tactic(auto)]

use krates_samples::stand_in::{Output, answer};
use std::io::Write;
use std::process::ExitCode;
use std::{env, io};

/// The answer to the words after the program's name.
fn answer_of(rt: &HostRuntime) -> io::Result<Output> {
    let mut words = Vec::new(rt.alloc());
    for word in env::args(rt)?.skip(1) {
        words.push(word)?;
    }
    let variable = env::var(rt, "FAKE_CARGO").ok();
    let value = variable.as_ref().map(|value| value.as_str());
    Ok(answer(rt.alloc(), words.as_slice(), value)?)
}

/// Writes the answer, and returns its status.
fn write_answer(rt: &HostRuntime) -> io::Result<u8> {
    let answer = answer_of(rt)?;
    rt.stdout().write_all(&answer.stdout)?;
    rt.stderr().write_all(&answer.stderr)?;
    Ok(answer.status)
}

/// Does what the last word says.
fn main(rt: HostRuntime) -> ExitCode {
    match write_answer(&rt) {
        Ok(status) => ExitCode::from(status),
        Err(_) => ExitCode::FAILURE,
    }
}
