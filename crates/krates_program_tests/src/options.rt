//! Options of the command line: what they leave out of a document, and which words aren't options.

use crate::listing::{Listed, USAGE, told, words_of};
use krates_cli::Counted;
use krates_samples::table::{Question, Row, hold};
use std::alloc::Global;
use std::str;
use std::test::Fail;

const BOTH: &str = "0 |+ path+file:///w/a#0.1.0\n+ path+file:///w/b#0.1.0\n";

const WITHOUT_B: &str = "0 |+ path+file:///w/a#0.1.0\n- path+file:///w/b#0.1.0\n";

// The first package needs the second for its tests.
static KINDS_AND_PACKAGES: &[Row] = &[
    ("< a b&dev|b", BOTH),
    ("--ignore-kind dev < a b&dev|b", WITHOUT_B),
    ("--ignore-kind build < a b&dev|b", BOTH),
    (
        "--ignore-kind build --ignore-kind dev < a b&dev|b",
        WITHOUT_B,
    ),
    ("--exclude b < a b&dev|b", WITHOUT_B),
    ("--exclude b --exclude c < a b&dev|b", WITHOUT_B),
    ("--exclude b@0.2.0 < a b&dev|b", BOTH),
];

// The first package needs the second on systems like Unix.
static TARGETS: &[Row] = &[
    ("< a b&on=cfg(unix)|b", BOTH),
    (
        "--target x86_64-pc-windows-msvc < a b&on=cfg(unix)|b",
        WITHOUT_B,
    ),
    (
        "--target x86_64-unknown-linux-gnu < a b&on=cfg(unix)|b",
        BOTH,
    ),
    (
        "--target x86_64-unknown-linux-gnu --target x86_64-pc-windows-msvc < a b&on=cfg(unix)|b",
        BOTH,
    ),
    // the word after an option is its value, whatever it is
    ("--target --workspace < a b&on=cfg(unix)|b", WITHOUT_B),
];

// Two members, of which the first is the root; neither needs the other.
static EVERY_MEMBER: &[Row] = &[
    ("< a|b / members a b / root a", WITHOUT_B),
    ("--workspace < a|b / members a b / root a", BOTH),
    ("--workspace --workspace < a|b / members a b / root a", BOTH),
];

const LEAST: &str =
    "0 |+ path+file:///w/a#0.1.0\n+ path+file:///w/d#d@0.10.0\n- path+file:///w/d#d@0.9.0\n";

const ALL: &str =
    "0 |+ path+file:///w/a#0.1.0\n+ path+file:///w/d#d@0.10.0\n+ path+file:///w/d#d@0.9.0\n";

// A feature of the only member enables a dependency by a name that two versions match.
static NAMED: &[Row] = &[
    (
        "< a d?;x=dep:d|d@0.10.0|d@0.9.0 / nodes a d@0.10.0 d@0.9.0;x|d@0.10.0|d@0.9.0",
        LEAST,
    ),
    (
        "--all-named < a d?;x=dep:d|d@0.10.0|d@0.9.0 / nodes a d@0.10.0 d@0.9.0;x|d@0.10.0|d@0.9.0",
        ALL,
    ),
];

#[test]
fn leaves_out_and_keeps_what_options_ask(rt: HostRuntime) -> Result<(), Fail> {
    hold::<Listed>(rt.alloc(), KINDS_AND_PACKAGES)?;
    hold::<Listed>(rt.alloc(), TARGETS)?;
    hold::<Listed>(rt.alloc(), EVERY_MEMBER)?;
    hold::<Listed>(rt.alloc(), NAMED)
}

/// What is reported before the usage line, or before the cause for which a program isn't found, and a mark for the rest.
fn beginning(told: &str) -> (&str, &str) {
    if let Some(status) = told.strip_suffix(USAGE) {
        return (status, "usage");
    }
    match told.split_once("`: ") {
        Some((refusal, _cause)) => (refusal, "`"),
        None => (told, ""),
    }
}

/// How a run with these words over two bytes begins to report, how many of the bytes it leaves unread, and what it writes.
fn run_unread(alloc: Global, words: &[String]) -> Result<String, Fail> {
    let mut input = Counted::new(b"{}".as_slice());
    let mut output = Counted::new(Vec::new(alloc));
    let told = told(alloc, words, &mut input, &mut output)?;
    let written = str::from_utf8(output.get_ref().as_slice())?;
    let ((told, mark), left) = (beginning(told.as_str()), input.get_ref().len());
    Ok(format!(in alloc; "{told}{mark}, {left} left|{written}")?)
}

/// What such a run answers to the words of a line.
struct Unread;

impl Question for Unread {
    fn told(alloc: Global, line: &str) -> Result<String, Fail> {
        let words = words_of(alloc, line)?;
        run_unread(alloc, words.as_slice())
    }
}

static NO_OPTIONS: &[Row] = &[
    ("--nope", "2 usage, 2 left|"),
    ("--workspace nope", "2 usage, 2 left|"),
    ("--all-named nope", "2 usage, 2 left|"),
    ("--all-name", "2 usage, 2 left|"),
    ("--ignore-kind", "2 usage, 2 left|"),
    ("--ignore-kind all", "2 usage, 2 left|"),
    ("--exclude", "2 usage, 2 left|"),
    ("--exclude a@", "2 usage, 2 left|"),
    ("--target", "2 usage, 2 left|"),
    ("--cargo", "2 usage, 2 left|"),
    // not an id: no word, none with a version, another word, and escapes of what isn't one or may not be escaped
    ("--why", "2 usage, 2 left|"),
    ("--why a", "2 usage, 2 left|"),
    ("--why x#1/2", "2 usage, 2 left|"),
    ("--why --workspace", "2 usage, 2 left|"),
    (
        "--why git+https://x.org/y?branch=%2#n@1.0.0",
        "2 usage, 2 left|",
    ),
    ("--why a --why path+file:///w/a#0.1.0", "2 usage, 2 left|"),
    ("--why path+file:///w/a#0.1.0 --why a", "2 usage, 2 left|"),
    ("--cargo x --nope", "2 usage, 2 left|"),
];

static NO_PROGRAMS: &[Row] = &[
    (
        "--cargo x",
        "1 refused: failed to start `cargo metadata`, 2 left|",
    ),
    (
        "--why path+file:///w/b#0.1.0 --cargo x",
        "1 refused: failed to start `cargo metadata`, 2 left|",
    ),
    // the word after an option is its value, whatever it is
    (
        "--workspace --cargo --cargo",
        "1 refused: failed to start `cargo metadata`, 2 left|",
    ),
];

#[test]
fn reads_nothing_where_words_are_no_options_or_name_a_program(rt: HostRuntime) -> Result<(), Fail> {
    hold::<Unread>(rt.alloc(), NO_OPTIONS)?;
    hold::<Unread>(rt.alloc(), NO_PROGRAMS)
}
