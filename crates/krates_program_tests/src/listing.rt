//! Whole runs of the command line: from a document, or what isn't one, to the lines, the refusal and the status.

use crate::no_programs::NoPrograms;
use krates_cli::{Counted, Options, RunError, program, refuse_words, run};
use krates_samples::documents::{document, kid_of};
use krates_samples::table::{Question, Row, compare, hold};
use std::alloc::Global;
use std::io::{ErrorKind, Read, Write};
use std::test::Fail;
use std::{io, str};

/// The words of a line, with a space for each tilde.
pub(crate) fn words_of(alloc: Global, line: &str) -> Result<Vec<String>, Fail> {
    let mut words = Vec::new(alloc);
    for word in line.split_whitespace() {
        words.push(word.replace(alloc, '~', " ")?)?;
    }
    Ok(words)
}

/// The status, and what goes to standard error.
pub(crate) fn told<R: Read, W: Write>(
    alloc: Global,
    words: &[String],
    input: &mut Counted<R>,
    output: &mut Counted<W>,
) -> Result<String, Fail> {
    let mut errors = Counted::new(Vec::new(alloc));
    let status = program(words, input, output, &mut errors, &(NoPrograms, alloc));
    let text = str::from_utf8(errors.get_ref().as_slice())?;
    Ok(format!(in alloc; "{status} {text}")?)
}

/// The status and what goes to standard error, a bar, and what goes to standard output.
pub(crate) fn outcome<R: Read + Drop>(
    alloc: Global,
    words: &[String],
    reader: R,
) -> Result<String, Fail> {
    let mut input = Counted::new(reader);
    let mut output = Counted::new(Vec::new(alloc));
    let told = told(alloc, words, &mut input, &mut output)?;
    let lines = str::from_utf8(output.get_ref().as_slice())?;
    Ok(format!(in alloc; "{told}|{lines}")?)
}

/// What a run reports and writes; a line has its words, and after `<` the document that it reads, or the text itself, which begins
/// with `{` or a byte order mark.
pub(crate) struct Listed;

impl Question for Listed {
    fn told(alloc: Global, line: &str) -> Result<String, Fail> {
        let (words, line) = line.split_once('<').unwrap_or((line, ""));
        let words = words_of(alloc, words)?;
        if line.starts_with('{') || line.starts_with('\u{feff}') {
            return outcome(alloc, words.as_slice(), line.as_bytes());
        }
        let json = document(alloc, line)?;
        outcome(alloc, words.as_slice(), json.as_bytes())
    }
}

const LISTED: &[Row] = &[
    // the first package needs the second for its tests, and no crate needs the third
    (
        "< a b&dev|b",
        "0 |+ path+file:///w/a#0.1.0\n+ path+file:///w/b#0.1.0\n",
    ),
    (
        "< a b&dev|b|c",
        "0 |+ path+file:///w/a#0.1.0\n+ path+file:///w/b#0.1.0\n- path+file:///w/c#0.1.0\n",
    ),
];

static REFUSED: &[Row] = &[
    (
        "< a b&dev|b|c / nodes",
        "1 refused: lost node: path+file:///w/a#0.1.0\n|",
    ),
    (
        "< a|b|c / nodes a b&dev|b|c",
        "1 refused: undeclared dependency: path+file:///w/b#0.1.0 of path+file:///w/a#0.1.0\n|",
    ),
    (
        "< / members / no graph",
        "1 refused: no resolution graph was provided\n|",
    ),
    (
        r#"<{"packages":[],"workspace_members":[],"workspace_root":"/w","target_directory":"/t"}"#,
        "1 refused: no resolution graph was provided\n|",
    ),
    // a byte order mark is no JSON
    (
        "<\u{feff}{}",
        "1 refused: failed to interpret `cargo metadata`'s json: invalid JSON at line 1 column 1\n|",
    ),
];

#[test]
fn lists_what_is_kept_and_refuses_what_cannot_be_built(rt: HostRuntime) -> Result<(), Fail> {
    hold::<Listed>(rt.alloc(), LISTED)?;
    hold::<Listed>(rt.alloc(), REFUSED)
}

#[test]
fn refuses_what_is_no_document(rt: HostRuntime) -> Result<(), Fail> {
    let mut input = Counted::new(b"{\"packages\":".as_slice());
    let mut output = Counted::new(Vec::new(rt.alloc()));
    let options = Options::new(rt.alloc());
    let result = run(rt.alloc(), &options, &mut input, &mut output);
    assert!(rt; matches!(result, Err(RunError::Parse(krates::cm::Error::Json(_)))));
    Ok(())
}

#[test]
fn refuses_what_is_not_utf_8(rt: HostRuntime) -> Result<(), Fail> {
    let told = outcome(rt.alloc(), &[], [0xffu8].as_slice())?;
    compare("\\xff", told.as_str(), "1 refused: input is not UTF-8\n|")
}

/// A reader whose first read gives one byte, and whose every further read fails.
#[derive(Drop)]
struct FailsSecond {
    has_read: bool,
}

impl Read for FailsSecond {
    fn read(&mut self, buffer: &mut [u8]) -> io::Result<usize> {
        if self.has_read || buffer.is_empty() {
            return Err(io::Error::other("no second read"));
        }
        self.has_read = true;
        buffer[0] = b'{';
        Ok(1)
    }
}

/// A writer that takes no byte: its calls fail, or answer that nothing was written.
#[derive(Drop)]
struct TakesNothing {
    fails: bool,
}

impl Write for TakesNothing {
    fn write(&mut self, _bytes: &[u8]) -> io::Result<usize> {
        if self.fails {
            return Err(io::Error::other("no write"));
        }
        Ok(0)
    }

    fn flush(&mut self) -> io::Result<()> {
        Ok(())
    }
}

#[test]
fn refuses_where_the_second_read_fails(rt: HostRuntime) -> Result<(), Fail> {
    let mut input = Counted::new(FailsSecond { has_read: false });
    let mut output = Counted::new(Vec::new(rt.alloc()));
    let told = told(rt.alloc(), &[], &mut input, &mut output)?;
    compare("a read", told.as_str(), "1 refused: read failed\n")?;
    assert!(rt; input.failures() == 1 && output.get_ref().is_empty());
    Ok(())
}

/// The status and what goes to standard error where each write fails, or takes nothing, and how many did.
struct Unwritten;

impl Question for Unwritten {
    fn told(alloc: Global, line: &str) -> Result<String, Fail> {
        let fails = line == "fails";
        let json = document(alloc, "a b&dev|b")?;
        let mut input = Counted::new(json.as_bytes());
        let mut output = Counted::new(TakesNothing { fails });
        let told = told(alloc, &[], &mut input, &mut output)?;
        Ok(format!(in alloc; "{told}{}", output.failures())?)
    }
}

static UNWRITTEN: &[Row] = &[
    ("fails", "1 refused: write failed\n1"),
    ("takes nothing", "1 refused: write failed\n1"),
];

#[test]
fn refuses_where_the_first_write_fails(rt: HostRuntime) -> Result<(), Fail> {
    hold::<Unwritten>(rt.alloc(), UNWRITTEN)
}

/// What is reported of words that aren't options.
pub(crate) static USAGE: &str =
    "usage: krates-list [--workspace] [--ignore-kind KIND] [--target TRIPLE] [--exclude SPEC] [--cargo PROGRAM] [--why ID] [--all-named]\n";

#[test]
fn answers_the_usage_line_to_an_unknown_word(rt: HostRuntime) -> Result<(), Fail> {
    let words = words_of(rt.alloc(), "--nope")?;
    let told = outcome(
        rt.alloc(),
        words.as_slice(),
        FailsSecond { has_read: false },
    )?;
    let expected = format!(in rt.alloc(); "2 {USAGE}|")?;
    compare("--nope", told.as_str(), expected.as_str())
}

/// Compares the status, and what goes to standard error, with those that are known, where words couldn't be read for this reason.
fn hold_refusal(alloc: Global, kind: ErrorKind, status: u8, told: &str) -> Result<(), Fail> {
    let mut errors = Counted::new(Vec::new(alloc));
    let answer = refuse_words(&io::Error::from(kind), &mut errors);
    if answer != status {
        return Err(Fail::new(format_args!("{told}: {answer} in place of {status}")));
    }
    let text = str::from_utf8(errors.get_ref().as_slice())?;
    compare("words that cannot be had", text, told)
}

#[test]
fn refuses_words_that_cannot_be_had(rt: HostRuntime) -> Result<(), Fail> {
    hold_refusal(
        rt.alloc(),
        ErrorKind::OutOfMemory,
        1,
        "refused: out of memory\n",
    )?;
    hold_refusal(rt.alloc(), ErrorKind::InvalidData, 2, USAGE)
}

#[test]
fn refusals_of_a_run_are_printed(rt: HostRuntime) -> Result<(), Fail> {
    let told = format!(in rt.alloc();
        "{}, {}, {}, {}, {}",
        RunError::Read,
        RunError::Utf8,
        RunError::Write,
        RunError::Memory,
        RunError::NotKept(kid_of(rt.alloc(), "b")?)
    )?;
    compare(
        "refusals",
        told.as_str(),
        "read failed, input is not UTF-8, write failed, out of memory, not kept: path+file:///w/b#0.1.0",
    )
}
