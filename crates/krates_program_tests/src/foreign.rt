//! Calls over bytes, as other languages make them: what is in the room that the caller lends.

use krates_foreign::{CallRefusal, Status, check, graph, hand_over, list, why};
use krates_samples::documents::{document, section};
use krates_samples::failures::Failures;
use krates_samples::table::{Question, Row, hold};
use std::alloc::Global;
use std::str;
use std::test::Fail;

/// What isn't UTF-8.
static NO_TEXT: &[u8] = b"\xff";

/// JSON behind a byte order mark.
static MARKED: &[u8] = b"\xef\xbb\xbf{}";

/// What a line asks: the call, the length of the room, the words, and what comes after `<`.
#[derive(Clone, Copy)]
struct Asked<'l> {
    call: &'l str,
    length: usize,
    words: &'l str,
    document: &'l str,
}

impl<'l> Asked<'l> {
    /// What the line asks.
    fn of(line: &'l str) -> Asked<'l> {
        let (asked, document) = line.split_once(" < ").unwrap_or((line, ""));
        let (call, asked) = asked.split_once(' ').unwrap_or((asked, ""));
        let (length, words) = asked.split_once(' ').unwrap_or((asked, ""));
        Asked {
            call,
            length: length.parse().unwrap_or(0),
            words,
            document,
        }
    }

    /// The bytes of a section after the document.
    fn bytes_of(self, name: &str) -> &'l [u8] {
        match section(self.document, name) {
            Some("no text") => NO_TEXT,
            Some("marked") => MARKED,
            Some(text) => text.as_bytes(),
            None => b"",
        }
    }

    /// What the call answers of a document under words, one per line; the id and the certificate are in sections.
    fn called(self, alloc: Global, json: &[u8], words: &[u8]) -> Result<String, CallRefusal> {
        match self.call {
            "list" => list(alloc, json, words),
            "graph" => graph(alloc, json, words),
            "why" => why(alloc, json, words, self.bytes_of("id ")),
            _ => check(alloc, json, words, self.bytes_of("certificate ")),
        }
    }

    /// What is handed over for a document.
    fn handed(self, alloc: Global, json: &[u8]) -> Result<String, Fail> {
        if self.words == "no text" {
            return room_of(alloc, self.called(alloc, json, NO_TEXT), self.length);
        }
        let words = lines_of(alloc, self.words)?;
        let told = self.called(alloc, json, words.as_bytes());
        room_of(alloc, told, self.length)
    }
}

/// The words between spaces, one per line.
fn lines_of(alloc: Global, words: &str) -> Result<String, Fail> {
    let mut lines = String::new(alloc);
    for word in words.split_whitespace() {
        lines.push_str(word)?;
        lines.push_str("\n")?;
    }
    Ok(lines)
}

/// What is handed over in a room of this many bytes, each of them a full stop before: the status, the length, and the room.
fn room_of(
    alloc: Global,
    told: Result<String, CallRefusal>,
    length: usize,
) -> Result<String, Fail> {
    let mut room = Vec::from_elem(alloc, b'.', length)?;
    let answer = hand_over(alloc, told, &mut room);
    let room = str::from_utf8(&room)?;
    Ok(format!(in alloc; "{} {} {room}", answer.status, answer.length)?)
}

/// What a call hands over: a line has the call, the length of the room and the words, and after `<` the document. Words, document, id or
/// certificate may be `no text`, which isn't UTF-8, and document or certificate `marked`, which begins with a byte order mark.
struct Handed;

impl Question for Handed {
    fn told(alloc: Global, line: &str) -> Result<String, Fail> {
        let asked = Asked::of(line);
        match asked.document {
            "no text" => asked.handed(alloc, NO_TEXT),
            "marked" => asked.handed(alloc, MARKED),
            line => asked.handed(alloc, document(alloc, line)?.as_bytes()),
        }
    }
}

const LISTED: &[Row] = &[
    (
        "list 52 < a b&dev|b",
        "0 50 + path+file:///w/a#0.1.0\n+ path+file:///w/b#0.1.0\n..",
    ),
    (
        "list 50 --ignore-kind dev < a b&dev|b",
        "0 50 + path+file:///w/a#0.1.0\n- path+file:///w/b#0.1.0\n",
    ),
    // no room for the last byte, and none at all
    (
        "list 49 < a b&dev|b",
        "8 50 .................................................",
    ),
    ("list 0 < a b&dev|b", "8 50 "),
    (
        "list 45 --ignore-kind < a",
        "1 38 the options are not those of a setting.......",
    ),
    (
        "list 38 --why path+file:///w/a#0.1.0 < a",
        "1 38 the options are not those of a setting",
    ),
    (
        "list 38 --cargo cargo < a",
        "1 38 the options are not those of a setting",
    ),
    (
        "list 38 no text < a",
        "1 38 the options are not those of a setting",
    ),
    ("list 30 < no text", "3 25 the document is not UTF-8....."),
    // a byte order mark is no JSON, and no beginning of a word
    (
        "list 80 < marked",
        "4 76 failed to interpret `cargo metadata`'s json: invalid JSON at line 1 column 1....",
    ),
    (
        "list 38 \u{feff}--workspace < a",
        "1 38 the options are not those of a setting",
    ),
    // of several faults the first counts: here that of the words
    (
        "list 38 --cargo cargo < no text",
        "1 38 the options are not those of a setting",
    ),
    (
        "list 60 < a / no graph",
        "5 32 no resolution graph was provided............................",
    ),
];

static EXPLAINED: &[Row] = &[
    (
        "why 165 < a b&dev|b / id path+file:///w/b#0.1.0",
        "0 162 0 rule 1: crate path+file:///w/a#0.1.0\n1 rule 5: kept path+file:///w/a#0.1.0 -> path+file:///w/b#0.1.0 (dev) from 0\n2 rule 5: crate path+file:///w/b#0.1.0 from 1\n...",
    ),
    (
        "why 33 --ignore-kind dev < a b&dev|b / id path+file:///w/b#0.1.0",
        "6 32 not kept: path+file:///w/b#0.1.0.",
    ),
    (
        "why 31 --ignore-kind dev < a b&dev|b / id path+file:///w/b#0.1.0",
        "8 32 ...............................",
    ),
    ("why 30 < a / id b", "2 28 the text is not a package id.."),
    // the words count before the id, and the id before the document
    (
        "why 38 --cargo cargo < a / id b",
        "1 38 the options are not those of a setting",
    ),
    ("why 28 < no text", "2 28 the text is not a package id"),
    (
        "why 28 < a / id no text",
        "2 28 the text is not a package id",
    ),
];

static DRAWN: &[Row] = &[
    (
        "graph 235 < a b&with=j&on=cfg(unix) c!&build|b;j=|c;default=",
        "0 233 crate 22:path+file:///w/a#0.1.0 1 2\ncrate 22:path+file:///w/b#0.1.0\ncrate 22:path+file:///w/c#0.1.0\nfeature 1 1:j\nfeature 2 7:default\nedge 0 3 depfeature normal 9:cfg(unix)\nedge 0 4 depfeature build\nedge 3 1 feature\nedge 4 2 feature\n..",
    ),
    // what the first declared dependency means isn't kept
    (
        "graph 88 --ignore-kind dev < a b&dev c|b|c",
        "0 88 crate 22:path+file:///w/a#0.1.0 - 1\ncrate 22:path+file:///w/c#0.1.0\nedge 0 1 dep normal\n",
    ),
    (
        "graph 84 < a b&dev|b",
        "0 83 crate 22:path+file:///w/a#0.1.0 1\ncrate 22:path+file:///w/b#0.1.0\nedge 0 1 dep dev\n.",
    ),
    (
        "graph 38 --exclude < a",
        "1 38 the options are not those of a setting",
    ),
];

static JUDGED: &[Row] = &[
    (
        r#"check 50 --ignore-kind dev < a b&dev|b / certificate {"kind":"closed","setting":["--ignore-kind=dev"],"facts":[{"fact":"crate","krate":"path+file:///w/a#0.1.0"}]}"#,
        "0 47 holds: nothing but this 1 crate can be reached\n...",
    ),
    // all words of a setting, in the order of certificates
    (
        r#"check 47 --target x --exclude b --ignore-kind dev --all-named --workspace < a b&dev|b / certificate {"kind":"closed","setting":["--workspace","--all-named","--ignore-kind=dev","--exclude=b","--target=x"],"facts":[{"fact":"crate","krate":"path+file:///w/a#0.1.0"}]}"#,
        "0 47 holds: nothing but this 1 crate can be reached\n",
    ),
    (
        r#"check 56 < a b&dev|b / certificate {"kind":"closed","setting":["--ignore-kind=dev"],"facts":[{"fact":"crate","krate":"path+file:///w/a#0.1.0"}]}"#,
        "7 56 the certificate is of another setting: --ignore-kind=dev",
    ),
    (
        r#"check 53 < a b|b / certificate {"kind":"closed","setting":[],"facts":[{"fact":"crate","krate":"path+file:///w/a#0.1.0"}]}"#,
        "7 53 something follows from the facts and isn't among them",
    ),
    // the id of the document's package, never the text of the certificate
    (
        r#"check 54 < a / certificate {"kind":"derivation","setting":[],"steps":[{"fact":{"fact":"crate","krate":"a 0.1.0 (path+file:///w/a#)\nholds: nothing but these 2 crates can be reached\n(x)"},"rule":1,"uses":[]}]}"#,
        "0 52 holds: crate path+file:///w/a#0.1.0 is kept, 1 step\n..",
    ),
    ("check 25 < no text", "3 25 the document is not UTF-8"),
    // the words count before the document
    (
        "check 38 --cargo cargo < no text",
        "1 38 the options are not those of a setting",
    ),
    (
        "check 28 < a / certificate no text",
        "7 28 the certificate is not UTF-8",
    ),
    (
        "check 52 < a / certificate marked",
        "7 52 this is no certificate: not JSON, at line 1 column 1",
    ),
    (
        "check 38 no text < a / certificate {}",
        "1 38 the options are not those of a setting",
    ),
];

/// What comes from a document, an id or a certificate is shown in the text of a refusal.
static SHOWN: &[Row] = &[
    (
        r"list 52 < a b|b&id=b~0.1.0~(path+file:///w/b#\n\u001b[2K) / nodes a b&id=b~0.1.0~(path+file:///w/b#\n\u001b[2K)",
        r"5 52 lost node: b 0.1.0 (path+file:///w/b#\u{a}\u{1b}[2K)",
    ),
    (
        r"graph 53 < a|b&id=b~0.1.0~(path+file:///w/b#\n\u001b[2K)|b&id=b~0.1.0~(path+file:///w/b#\n\u001b[2K)",
        r"5 53 doubled id: b 0.1.0 (path+file:///w/b#\u{a}\u{1b}[2K)",
    ),
    // this text quotes nothing from the document
    (
        r"list 56 < a|b@x\n\u001b[2K",
        r"4 56 failed to interpret `cargo metadata`'s json: bad version",
    ),
    (
        "why 51 < a / id b 0.1.0 (path+file:///w/b#\n\u{1b}[2K)",
        r"6 51 not kept: b 0.1.0 (path+file:///w/b#\u{a}\u{1b}[2K)",
    ),
    // shown once, as `krates_check` prints it
    (
        r#"check 53 < a / certificate {"kind":"closed","setting":["\n\u001b[2K"],"facts":[]}"#,
        r"7 53 the certificate is of another setting: \u{a}\u{1b}[2K",
    ),
];

static STATUSES: &[(Status, &str)] = &[
    (Status::Answered, "0"),
    (Status::Words, "1"),
    (Status::Id, "2"),
    (Status::Utf8, "3"),
    (Status::Parse, "4"),
    (Status::Build, "5"),
    (Status::NotKept, "6"),
    (Status::Certificate, "7"),
    (Status::TooShort, "8"),
    (Status::Memory, "9"),
];

/// Each status by the number that other languages write.
#[test]
fn numbers_of_statuses(rt: HostRuntime) -> Result<(), Fail> {
    let mut failures = Failures::new(rt.alloc());
    for &(status, number) in STATUSES {
        let line = format!(in rt.alloc(); "{status:?}")?;
        let told = format!(in rt.alloc(); "{}", status.number())?;
        failures.compare(line.as_str(), Ok(told), number)?;
    }
    failures.reported()
}

/// Calls over bytes, and what they hand over.
#[test]
fn calls_over_bytes(rt: HostRuntime) -> Result<(), Fail> {
    hold::<Handed>(rt.alloc(), LISTED)?;
    hold::<Handed>(rt.alloc(), EXPLAINED)?;
    hold::<Handed>(rt.alloc(), DRAWN)?;
    hold::<Handed>(rt.alloc(), JUDGED)?;
    hold::<Handed>(rt.alloc(), SHOWN)
}
