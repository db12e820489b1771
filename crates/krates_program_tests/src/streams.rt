//! Runs over readers and writers that give and take little at a time, that fail, and that are interrupted.

use crate::listing::{told, words_of};
use crate::no_programs::NoPrograms;
use crate::why::STEPS;
use krates_cli::{Counted, program};
use krates_samples::documents::document;
use krates_samples::table::{Question, Row, hold};
use std::alloc::Global;
use std::io;
use std::io::{ErrorKind, Read, Write};
use std::test::Fail;

/// What is written of the document.
static LINES: &str = "+ path+file:///w/a#0.1.0\n+ path+file:///w/b#0.1.0\n";

/// A call that goes wrong: which one, counted from 0, and with what error; without one it takes no byte.
#[derive(Clone, Copy)]
struct Mishap {
    call: usize,
    kind: Option<ErrorKind>,
}

/// How a reader or a writer goes: how many bytes it moves in a call at most, and which call goes wrong.
#[derive(Clone, Copy)]
struct Pace {
    most: usize,
    mishap: Mishap,
    calls: usize,
}

impl Pace {
    /// At most this many bytes in a call, one of which goes wrong.
    fn new(most: usize, kind: Option<ErrorKind>, call: usize) -> Pace {
        let mishap = Mishap { call, kind };
        Pace {
            most,
            mishap,
            calls: 0,
        }
    }

    /// How many of this many bytes are moved by the next call.
    fn next(&mut self, wanted: usize) -> io::Result<usize> {
        let call = self.calls;
        self.calls = call.saturating_add(1);
        if call != self.mishap.call {
            return Ok(wanted.min(self.most));
        }
        match self.mishap.kind {
            Some(kind) => Err(io::Error::from(kind)),
            None => Ok(0),
        }
    }
}

/// A reader of bytes at a pace.
#[derive(Drop)]
struct Paced<'a> {
    rest: &'a [u8],
    pace: Pace,
}

impl Read for Paced<'_> {
    fn read(&mut self, buffer: &mut [u8]) -> io::Result<usize> {
        let count = self.pace.next(buffer.len())?;
        match buffer.get_mut(..count) {
            Some(front) => self.rest.read(front),
            None => Ok(0),
        }
    }
}

/// A writer at a pace.
#[derive(Drop)]
struct Taking {
    taken: Vec<u8>,
    pace: Pace,
}

impl Write for Taking {
    fn write(&mut self, bytes: &[u8]) -> io::Result<usize> {
        let count = self.pace.next(bytes.len())?;
        let Some(front) = bytes.get(..count) else {
            return Ok(0);
        };
        self.taken.extend_from_slice(front)?;
        Ok(count)
    }

    fn flush(&mut self) -> io::Result<()> {
        Ok(())
    }
}

/// A document of this many bytes: the first package needs the second for its tests, and spaces follow the first brace.
fn document_of(alloc: Global, size: usize) -> Result<String, Fail> {
    let json = document(alloc, "a b&dev|b")?;
    let blanks = " ".repeat(alloc, size.saturating_sub(json.len()))?;
    let rest = json.as_str().strip_prefix("{").unwrap_or("no object");
    Ok(format!(in alloc; "{{{blanks}{rest}")?)
}

/// How much of the text was written.
fn extent(text: &str, taken: &[u8]) -> &'static str {
    match text.as_bytes().strip_prefix(taken) {
        Some([]) => "all",
        Some(_) => "a beginning",
        None => "other bytes",
    }
}

/// What runs of one kind report at a pace.
trait Course {
    /// The status and the refusal, how much was written, and how many calls have failed.
    fn run(alloc: Global, json: &str, pace: Pace) -> Result<String, Fail>;
}

/// Runs whose reader goes at the pace.
struct Reading;

impl Course for Reading {
    fn run(alloc: Global, json: &str, pace: Pace) -> Result<String, Fail> {
        let rest = json.as_bytes();
        let mut input = Counted::new(Paced { rest, pace });
        let mut output = Counted::new(Vec::new(alloc));
        let told = told(alloc, &[], &mut input, &mut output)?;
        let taken = output.get_ref().as_slice();
        let extent = if taken.is_empty() {
            "nothing"
        } else {
            extent(LINES, taken)
        };
        let (told, failed) = (told.as_str().trim_end(), input.failures());
        Ok(format!(in alloc; "{told}, {extent} written, {failed} failed")?)
    }
}

/// What a run with these words whose writer goes at the pace reports, how much of the text was written, and how many calls failed.
fn written(
    alloc: Global,
    words: &[String],
    json: &str,
    pace: Pace,
    text: &str,
) -> Result<String, Fail> {
    let taken = Vec::new(alloc);
    let mut input = Counted::new(json.as_bytes());
    let mut output = Counted::new(Taking { taken, pace });
    let told = told(alloc, words, &mut input, &mut output)?;
    let extent = extent(text, output.get_ref().taken.as_slice());
    let (told, failed) = (told.as_str().trim_end(), output.failures());
    Ok(format!(in alloc; "{told}, {extent} written, {failed} failed")?)
}

/// Runs whose writer goes at the pace.
struct Writing;

impl Course for Writing {
    fn run(alloc: Global, json: &str, pace: Pace) -> Result<String, Fail> {
        written(alloc, &[], json, pace, LINES)
    }
}

/// Runs that write why a crate is kept, whose writer goes at the pace.
struct Explaining;

impl Course for Explaining {
    fn run(alloc: Global, json: &str, pace: Pace) -> Result<String, Fail> {
        let words = words_of(alloc, "--why path+file:///w/b#0.1.0")?;
        written(alloc, words.as_slice(), json, pace, STEPS)
    }
}

/// What is reported of bytes that aren't a text.
static REFUSAL: &str = "refused: input is not UTF-8\n";

/// Runs over bytes that aren't a text, whose writer of refusals goes at the pace. No document is read.
struct Telling;

impl Course for Telling {
    fn run(alloc: Global, _json: &str, pace: Pace) -> Result<String, Fail> {
        let taken = Vec::new(alloc);
        let mut input = Counted::new(b"\xff".as_slice());
        let mut output = Counted::new(Vec::new(alloc));
        let mut errors = Counted::new(Taking { taken, pace });
        let status = program(
            &[],
            &mut input,
            &mut output,
            &mut errors,
            &(NoPrograms, alloc),
        );
        let extent = extent(REFUSAL, errors.get_ref().taken.as_slice());
        let (failed, lines) = (errors.failures(), output.get_ref().len());
        Ok(format!(in alloc; "{status} with {lines} bytes, {extent} written, {failed} failed")?)
    }
}

/// What runs report in which one call goes wrong, each call in turn, and how many calls there are. A line has the size of the
/// document, how many bytes a call moves at most, and how it goes wrong.
struct EachCall<C> {
    course: C,
}

impl<C: Course> Question for EachCall<C> {
    fn told(alloc: Global, line: &str) -> Result<String, Fail> {
        let (size, line) = line.split_once(' ').unwrap_or((line, ""));
        let (most, mishap) = line.split_once(' ').unwrap_or((line, ""));
        let (size, most, kind) = (size.parse()?, most.parse()?, kind_of(mishap));
        let json = document_of(alloc, size)?;
        let first = C::run(alloc, json.as_str(), Pace::new(most, kind, 0))?;
        each_call::<C>(alloc, json.as_str(), most, kind, first.as_str())
    }
}

/// With what error a call goes wrong; without one it takes no byte.
fn kind_of(mishap: &str) -> Option<ErrorKind> {
    match mishap {
        "fails" => Some(ErrorKind::Other),
        "is interrupted" => Some(ErrorKind::Interrupted),
        _ => None,
    }
}

/// How many calls there are, with what the first run reports, where none goes wrong any more; what the run reports where that is
/// something else than the first one; and nothing where it is the same.
fn end_of<C: Course>(
    alloc: Global,
    json: &str,
    pace: Pace,
    first: &str,
) -> Result<Option<String>, Fail> {
    let told = C::run(alloc, json, pace)?;
    if told.ends_with(", all written, 0 failed") {
        return Ok(Some(format!(in alloc; "{} calls: {first}", pace.mishap.call)?));
    }
    if told.as_str() == first {
        return Ok(None);
    }
    Ok(Some(told))
}

/// Makes each call except the first go wrong in turn, up to the run in which none does any more.
fn each_call<C: Course>(
    alloc: Global,
    json: &str,
    most: usize,
    kind: Option<ErrorKind>,
    first: &str,
) -> Result<String, Fail> {
    for call in 1..1000usize {
        if let Some(end) = end_of::<C>(alloc, json, Pace::new(most, kind, call), first)? {
            return Ok(end);
        }
    }
    Ok(String::from_str(alloc, first)?)
}

// The buffer of a run has 16,384 bytes; the last call of each reader finds the end. A document without spaces has 777 bytes.
static FAILED_READS: &[Row] = &[
    (
        "0 1 fails",
        "778 calls: 1 refused: read failed, nothing written, 1 failed",
    ),
    (
        "4095 65536 fails",
        "2 calls: 1 refused: read failed, nothing written, 1 failed",
    ),
    (
        "4096 65536 fails",
        "2 calls: 1 refused: read failed, nothing written, 1 failed",
    ),
    (
        "4097 65536 fails",
        "2 calls: 1 refused: read failed, nothing written, 1 failed",
    ),
    (
        "4095 4096 fails",
        "2 calls: 1 refused: read failed, nothing written, 1 failed",
    ),
    (
        "4096 4096 fails",
        "2 calls: 1 refused: read failed, nothing written, 1 failed",
    ),
    (
        "4097 4096 fails",
        "3 calls: 1 refused: read failed, nothing written, 1 failed",
    ),
    (
        "4096 4095 fails",
        "3 calls: 1 refused: read failed, nothing written, 1 failed",
    ),
    (
        "40960 4096 fails",
        "11 calls: 1 refused: read failed, nothing written, 1 failed",
    ),
    (
        "4096 1000 fails",
        "6 calls: 1 refused: read failed, nothing written, 1 failed",
    ),
    (
        "16383 100000 fails",
        "2 calls: 1 refused: read failed, nothing written, 1 failed",
    ),
    (
        "16384 100000 fails",
        "2 calls: 1 refused: read failed, nothing written, 1 failed",
    ),
    (
        "16385 100000 fails",
        "3 calls: 1 refused: read failed, nothing written, 1 failed",
    ),
    (
        "16385 16383 fails",
        "3 calls: 1 refused: read failed, nothing written, 1 failed",
    ),
    (
        "32768 100000 fails",
        "3 calls: 1 refused: read failed, nothing written, 1 failed",
    ),
    (
        "65537 100000 fails",
        "6 calls: 1 refused: read failed, nothing written, 1 failed",
    ),
];

static INTERRUPTED_READS: &[Row] = &[
    ("0 1 is interrupted", "778 calls: 0, all written, 1 failed"),
    (
        "4095 65536 is interrupted",
        "2 calls: 0, all written, 1 failed",
    ),
    (
        "4096 65536 is interrupted",
        "2 calls: 0, all written, 1 failed",
    ),
    (
        "4097 65536 is interrupted",
        "2 calls: 0, all written, 1 failed",
    ),
    (
        "4095 4096 is interrupted",
        "2 calls: 0, all written, 1 failed",
    ),
    (
        "4096 4096 is interrupted",
        "2 calls: 0, all written, 1 failed",
    ),
    (
        "4097 4096 is interrupted",
        "3 calls: 0, all written, 1 failed",
    ),
    (
        "4096 4095 is interrupted",
        "3 calls: 0, all written, 1 failed",
    ),
    (
        "40960 4096 is interrupted",
        "11 calls: 0, all written, 1 failed",
    ),
    (
        "4096 1000 is interrupted",
        "6 calls: 0, all written, 1 failed",
    ),
    (
        "16383 100000 is interrupted",
        "2 calls: 0, all written, 1 failed",
    ),
    (
        "16384 100000 is interrupted",
        "2 calls: 0, all written, 1 failed",
    ),
    (
        "16385 100000 is interrupted",
        "3 calls: 0, all written, 1 failed",
    ),
    (
        "16385 16383 is interrupted",
        "3 calls: 0, all written, 1 failed",
    ),
    (
        "32768 100000 is interrupted",
        "3 calls: 0, all written, 1 failed",
    ),
    (
        "65537 100000 is interrupted",
        "6 calls: 0, all written, 1 failed",
    ),
];

#[test]
fn refuses_where_any_read_fails_and_reads_again_where_it_is_interrupted(
    rt: HostRuntime,
) -> Result<(), Fail> {
    hold::<EachCall<Reading>>(rt.alloc(), FAILED_READS)?;
    hold::<EachCall<Reading>>(rt.alloc(), INTERRUPTED_READS)
}

// Fifty bytes are written.
static WRITES: &[Row] = &[
    (
        "0 1 fails",
        "50 calls: 1 refused: write failed, a beginning written, 1 failed",
    ),
    (
        "0 1 takes nothing",
        "50 calls: 1 refused: write failed, a beginning written, 1 failed",
    ),
    ("0 1 is interrupted", "50 calls: 0, all written, 1 failed"),
    (
        "0 7 fails",
        "8 calls: 1 refused: write failed, a beginning written, 1 failed",
    ),
    (
        "0 7 takes nothing",
        "8 calls: 1 refused: write failed, a beginning written, 1 failed",
    ),
    ("0 7 is interrupted", "8 calls: 0, all written, 1 failed"),
    (
        "0 49 fails",
        "2 calls: 1 refused: write failed, a beginning written, 1 failed",
    ),
    (
        "0 49 takes nothing",
        "2 calls: 1 refused: write failed, a beginning written, 1 failed",
    ),
    ("0 49 is interrupted", "2 calls: 0, all written, 1 failed"),
    (
        "0 50 fails",
        "1 calls: 1 refused: write failed, a beginning written, 1 failed",
    ),
    (
        "0 50 takes nothing",
        "1 calls: 1 refused: write failed, a beginning written, 1 failed",
    ),
    ("0 50 is interrupted", "1 calls: 0, all written, 1 failed"),
    (
        "0 51 fails",
        "1 calls: 1 refused: write failed, a beginning written, 1 failed",
    ),
    (
        "0 51 takes nothing",
        "1 calls: 1 refused: write failed, a beginning written, 1 failed",
    ),
    ("0 51 is interrupted", "1 calls: 0, all written, 1 failed"),
];

// 162 bytes are written.
static EXPLAINED: &[Row] = &[
    (
        "0 7 fails",
        "24 calls: 1 refused: write failed, a beginning written, 1 failed",
    ),
    (
        "0 7 takes nothing",
        "24 calls: 1 refused: write failed, a beginning written, 1 failed",
    ),
    ("0 7 is interrupted", "24 calls: 0, all written, 1 failed"),
    (
        "0 161 fails",
        "2 calls: 1 refused: write failed, a beginning written, 1 failed",
    ),
    (
        "0 162 takes nothing",
        "1 calls: 1 refused: write failed, a beginning written, 1 failed",
    ),
    ("0 162 is interrupted", "1 calls: 0, all written, 1 failed"),
];

#[test]
fn writes_all_lines_or_steps_or_a_beginning(rt: HostRuntime) -> Result<(), Fail> {
    hold::<EachCall<Writing>>(rt.alloc(), WRITES)?;
    hold::<EachCall<Explaining>>(rt.alloc(), EXPLAINED)
}

// Twenty-eight bytes are written. The status is that of the refusal, whether it is reported or not.
static TOLD: &[Row] = &[
    (
        "0 1 fails",
        "28 calls: 1 with 0 bytes, a beginning written, 1 failed",
    ),
    (
        "0 27 takes nothing",
        "2 calls: 1 with 0 bytes, a beginning written, 1 failed",
    ),
    (
        "0 28 is interrupted",
        "1 calls: 1 with 0 bytes, all written, 1 failed",
    ),
];

#[test]
fn answers_the_status_where_no_refusal_can_be_told(rt: HostRuntime) -> Result<(), Fail> {
    hold::<EachCall<Telling>>(rt.alloc(), TOLD)
}
