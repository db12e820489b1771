//! Runs of the program over the document that a substitute for cargo writes.

use krates_cli::{Counted, Options, RunError, program, run_by_cargo};
use krates_samples::failures::Failures;
use krates_samples::table::{Row, compare};
use std::alloc::Global;
use std::test::Fail;
use std::{env, str};

/// The words of a run of the program, where `SELF` is the substitute; then the status, what it reports and what it lists.
static LISTINGS: &[Row] = &[
    (
        "--cargo SELF",
        "0 |+ path+file:///w/a#0.1.0\n+ path+file:///w/b#0.1.0\n",
    ),
    (
        "--ignore-kind dev --cargo SELF",
        "0 |+ path+file:///w/a#0.1.0\n- path+file:///w/b#0.1.0\n",
    ),
    // the last program counts
    (
        "--cargo /no/such/program --cargo SELF",
        "0 |+ path+file:///w/a#0.1.0\n+ path+file:///w/b#0.1.0\n",
    ),
    (
        "--exclude a --cargo SELF",
        "1 refused: no root crates available\n|",
    ),
    // why a crate of its document is kept, and one that isn't
    (
        "--why path+file:///w/b#0.1.0 --cargo SELF",
        "0 |0 rule 1: crate path+file:///w/a#0.1.0\n1 rule 5: kept path+file:///w/a#0.1.0 -> path+file:///w/b#0.1.0 (dev) from 0\n2 rule 5: crate path+file:///w/b#0.1.0 from 1\n",
    ),
    (
        "--cargo SELF --why path+file:///w/b#0.1.0 --ignore-kind dev",
        "1 refused: not kept: path+file:///w/b#0.1.0\n|",
    ),
];

/// Adds a word, or the path of this program where it is meant.
fn push_word(words: &mut Vec<String>, rt: &HostRuntime, word: &str) -> Result<(), Fail> {
    let this = env::current_exe(rt)?;
    let word = if word == "SELF" { this.as_str() } else { word };
    words.push(String::from_str(rt.alloc(), word)?)?;
    Ok(())
}

/// Adds the words, each in that way.
fn push_words(words: &mut Vec<String>, rt: &HostRuntime, line: &str) -> Result<(), Fail> {
    for word in line.split_whitespace() {
        push_word(words, rt, word)?;
    }
    Ok(())
}

/// A line that has begun, with what went to standard error, a bar, and what went to standard output.
fn streams(begun: String, errors: &[u8], output: &[u8]) -> Result<String, Fail> {
    let mut line = begun;
    line.push_str(str::from_utf8(errors)?)?;
    line.push_str("|")?;
    line.push_str(str::from_utf8(output)?)?;
    Ok(line)
}

/// The status and what goes to standard error, a bar, and what goes to standard output; before them, whether something was read.
fn listed(rt: &HostRuntime, words: &[String]) -> Result<String, Fail> {
    let mut input = Counted::new(b"{}".as_slice());
    let mut output = Counted::new(Vec::new(rt.alloc()));
    let mut errors = Counted::new(Vec::new(rt.alloc()));
    let status = program(words, &mut input, &mut output, &mut errors, rt);
    let read = if input.get_ref().len() == 2 {
        ""
    } else {
        "something was read: "
    };
    let begun = format!(in rt.alloc(); "{read}{status} ")?;
    streams(
        begun,
        errors.get_ref().as_slice(),
        output.get_ref().as_slice(),
    )
}

/// What a run of the program with these words reports and lists.
fn listing(rt: &HostRuntime, line: &str) -> Result<String, Fail> {
    let mut words = Vec::new(rt.alloc());
    push_words(&mut words, rt, line)?;
    listed(rt, words.as_slice())
}

#[test]
fn listings(rt: HostRuntime) -> Result<(), Fail> {
    let mut failures = Failures::new(rt.alloc());
    for &(line, answer) in LISTINGS {
        failures.compare(line, listing(&rt, line), answer)?;
    }
    failures.reported()
}

/// The lines that a run wrote, or why it is refused.
fn lines_of(alloc: Global, ran: &Result<(), RunError>, output: &[u8]) -> Result<String, Fail> {
    let output = str::from_utf8(output)?;
    let told = match ran {
        Ok(()) => String::from_str(alloc, output),
        Err(error) => format!(in alloc; "{error}"),
    };
    Ok(told?)
}

/// Runs with this program in cargo's place, under no options.
fn run_plainly(
    rt: &HostRuntime,
    cargo: &str,
    output: &mut Counted<Vec<u8>>,
) -> Result<(), RunError> {
    let options = Options::new(rt.alloc());
    run_by_cargo(rt.alloc(), &options, cargo, rt, output)
}

/// What a run with this program in cargo's place writes, or why it is refused.
fn written(rt: &HostRuntime, cargo: &str) -> Result<String, Fail> {
    let mut output = Counted::new(Vec::new(rt.alloc()));
    let ran = run_plainly(rt, cargo, &mut output);
    lines_of(rt.alloc(), &ran, output.get_ref().as_slice())
}

#[test]
fn lines_by_cargo(rt: HostRuntime) -> Result<(), Fail> {
    let this = env::current_exe(&rt)?;
    let told = written(&rt, this.as_str())?;
    let expected = "+ path+file:///w/a#0.1.0\n+ path+file:///w/b#0.1.0\n";
    compare("lines by cargo", told.as_str(), expected)
}

#[test]
fn no_listing_without_a_program(rt: HostRuntime) -> Result<(), Fail> {
    let told = listing(&rt, "--cargo /no/such/program")?;
    assert!(rt;
        told.starts_with("1 refused: failed to start `cargo metadata`: ") && told.ends_with("\n|"),
        "{told}"
    );
    Ok(())
}
