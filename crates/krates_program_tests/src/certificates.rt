//! Certificates as `cargo krates` writes them, and what the program that checks them says.

use crate::asked::{Answered, add_targets, answered_of, document_of, words_by_krates};
use krates_samples::table::{Question, Row, hold};
use krates_verdict::run_under;
use krates_words::{Choice, Rules, check_words_of};
use std::alloc::Global;
use std::io;
use std::io::{ErrorKind, Read};
use std::test::Fail;

/// Certificates, as they are written.
static CERTIFICATES: &[Row] = &[
    (
        "certify b < a b&dev|b",
        "{\n  \"kind\": \"derivation\",\n  \"setting\": [],\n  \"steps\": [\n    {\n      \"fact\": {\n        \"fact\": \"crate\",\n        \"krate\": \"path+file:///w/a#0.1.0\"\n      },\n      \"rule\": 1,\n      \"uses\": []\n    },\n    {\n      \"fact\": {\n        \"cfg\": null,\n        \"child\": \"path+file:///w/b#0.1.0\",\n        \"fact\": \"kept\",\n        \"kind\": \"dev\",\n        \"parent\": \"path+file:///w/a#0.1.0\"\n      },\n      \"rule\": 5,\n      \"uses\": [\n        0\n      ]\n    },\n    {\n      \"fact\": {\n        \"fact\": \"crate\",\n        \"krate\": \"path+file:///w/b#0.1.0\"\n      },\n      \"rule\": 5,\n      \"uses\": [\n        1\n      ]\n    }\n  ]\n}\n",
    ),
    (
        "certify --all --workspace --all-named --package /w/a -e no-dev --exclude c --target x86_64-pc-windows-msvc < a b&dev|b",
        "{\n  \"facts\": [\n    {\n      \"fact\": \"crate\",\n      \"krate\": \"path+file:///w/a#0.1.0\"\n    }\n  ],\n  \"kind\": \"closed\",\n  \"setting\": [\n    \"--workspace\",\n    \"--all-named\",\n    \"--package=/w/a\",\n    \"--ignore-kind=dev\",\n    \"--exclude=c\",\n    \"--target=x86_64-pc-windows-msvc\"\n  ]\n}\n",
    ),
    // of a package that isn't kept, all that is kept
    (
        "certify b -e no-dev < a b&dev|b",
        "{\n  \"facts\": [\n    {\n      \"fact\": \"crate\",\n      \"krate\": \"path+file:///w/a#0.1.0\"\n    }\n  ],\n  \"kind\": \"closed\",\n  \"setting\": [\n    \"--ignore-kind=dev\"\n  ]\n}\n",
    ),
    ("certify z < a", "refused: no package fits `z`"),
];

/// What is written where the certificate that comes in holds of what is asked and a document, or why it doesn't.
fn written<R: Read + Drop>(
    alloc: Global,
    choice: &mut Choice,
    document: &str,
    mut input: R,
) -> Result<String, Fail> {
    add_targets(alloc, choice)?;
    let metadata = document_of(alloc, document)?;
    let mut output = Vec::new(alloc);
    match run_under(alloc, choice, &metadata, &mut input, &mut output) {
        Ok(()) => Ok(String::from_utf8(output)?),
        Err(refusal) => Ok(format!(in alloc; "refused: {refusal}")?),
    }
}

/// What the checker says by krates of the certificate that comes in under the words of a line, about the document after `<`.
fn checked<R: Read + Drop>(alloc: Global, line: &str, input: R) -> Result<String, Fail> {
    let (words, document) = line.split_once(" < ").unwrap_or((line, ""));
    match check_words_of(alloc, &words_by_krates(alloc, words)?) {
        Ok(mut asked) => match &mut asked.rules {
            Rules::Krates(choice) => written(alloc, choice, document, input),
            Rules::Build(_) => Err(Fail::new("by build")),
        },
        Err(error) => Ok(format!(in alloc; "{error}")?),
    }
}

/// The words that request a certificate and its document, and after `=>` the words and the document by which it is checked: what the
/// checker says of the certificate as it is printed.
struct Certified;

impl Question for Certified {
    fn told(alloc: Global, line: &str) -> Result<String, Fail> {
        let (made, by) = line.split_once(" => ").unwrap_or((line, line));
        let certificate = answered_of(alloc, made)?;
        checked(alloc, by, certificate.as_bytes())
    }
}

/// Certificates that are written, as the program that checks them judges them.
static CERTIFIED: &[Row] = &[
    (
        "certify b < a b|b => --metadata m < a b|b",
        "holds: crate path+file:///w/b#0.1.0 is kept, 3 steps\n",
    ),
    (
        "certify a < a => --metadata m < a",
        "holds: crate path+file:///w/a#0.1.0 is kept, 1 step\n",
    ),
    (
        "certify --all < a b|b => --metadata m < a b|b",
        "holds: nothing but these 2 crates can be reached\n",
    ),
    (
        "certify --all < a => --metadata m < a",
        "holds: nothing but this 1 crate can be reached\n",
    ),
    (
        "certify c < a b|b|c => --metadata m < a b|b|c",
        "holds: nothing but these 2 crates can be reached\n",
    ),
    (
        "certify b < a b&dev|b => --metadata m < a b&dev|b",
        "holds: crate path+file:///w/b#0.1.0 is kept, 3 steps\n",
    ),
    // other words that mean the same setting
    (
        "certify a -e no-dev < a b&dev|b => --metadata m --ignore-kind dev < a b&dev|b",
        "holds: crate path+file:///w/a#0.1.0 is kept, 1 step\n",
    ),
    (
        "certify --all --target x86_64-pc-windows-msvc --exclude b < a b|b => --exclude b --target x86_64-pc-windows-msvc --metadata m < a b|b",
        "holds: nothing but this 1 crate can be reached\n",
    ),
    // another document
    (
        "certify b < a b|b => --metadata m < a b&dev|b",
        "refused: step 1 does not follow",
    ),
    (
        "certify --all < a b|b => --metadata m < a b c|b|c",
        "refused: something follows from the facts and isn't among them",
    ),
    // another setting
    (
        "certify b < a b&dev|b => --metadata m -e no-dev < a b&dev|b",
        "refused: the certificate is of another setting: no options",
    ),
    (
        "certify --all -e no-dev --workspace < a b&dev|b => --metadata m < a b&dev|b",
        "refused: the certificate is of another setting: --workspace --ignore-kind=dev",
    ),
    (
        "certify --all --target x86_64-pc-windows-msvc < a b|b => --metadata m --target x86_64-unknown-linux-gnu < a b|b",
        "refused: the certificate is of another setting: --target=x86_64-pc-windows-msvc",
    ),
    // wrong words
    (
        "certify a < a => --metadata - < a",
        "error: standard input is the certificate: '--metadata <FILE>' has to be a file\n\nFor more information, try '--help'.\n",
    ),
    (
        "certify a < a => --metadata m --package w/a < a",
        "error: invalid value 'w/a' for '--package <PATH>': it has to be an absolute path\n\nFor more information, try '--help'.\n",
    ),
    (
        "certify a < a => --metadata m --package w:a < a",
        "error: invalid value 'w:a' for '--package <PATH>': it has to be an absolute path\n\nFor more information, try '--help'.\n",
    ),
];

/// A certificate, or `no text`, which isn't UTF-8, and after `<` a document where it isn't `a b|b`: what the checker says of the
/// certificate about it.
struct ByHand;

impl Question for ByHand {
    fn told(alloc: Global, line: &str) -> Result<String, Fail> {
        let (text, document) = line.split_once(" < ").unwrap_or((line, "a b|b"));
        let certificate = match text {
            "no text" => b"\xff".as_slice(),
            _ => text.as_bytes(),
        };
        let asked = format!(in alloc; "--metadata m < {document}")?;
        checked(alloc, asked.as_str(), certificate)
    }
}

/// Certificates that are written by hand, as they are judged.
static BY_HAND: &[Row] = &[
    // what the last step says, whatever the others say
    (
        r#"{"kind":"derivation","setting":[],"steps":[{"fact":{"fact":"crate","krate":"path+file:///w/a#0.1.0"},"rule":1,"uses":[]},{"fact":{"fact":"kept","parent":"path+file:///w/a#0.1.0","child":"path+file:///w/b#0.1.0","kind":"normal","cfg":null},"rule":5,"uses":[0]}]}"#,
        "holds: kept path+file:///w/a#0.1.0 -> path+file:///w/b#0.1.0 follows, 2 steps\n",
    ),
    (
        r#"{"kind":"derivation","setting":[],"steps":[{"fact":{"fact":"crate","krate":"path+file:///w/a#0.1.0"},"rule":1,"uses":[]},{"fact":{"fact":"crate","krate":"path+file:///w/b#0.1.0"},"rule":1,"uses":[]}]}"#,
        "refused: step 1 does not follow",
    ),
    (
        r#"{"kind":"derivation","setting":[],"steps":[]}"#,
        "refused: the derivation has no step",
    ),
    // a crate that is listed twice counts once
    (
        r#"{"kind":"closed","setting":[],"facts":[{"fact":"crate","krate":"path+file:///w/a#0.1.0"},{"fact":"kept","parent":"path+file:///w/a#0.1.0","child":"path+file:///w/b#0.1.0","kind":"normal","cfg":null},{"fact":"crate","krate":"path+file:///w/b#0.1.0"},{"fact":"crate","krate":"path+file:///w/b#0.1.0"}]}"#,
        "holds: nothing but these 2 crates can be reached\n",
    ),
    // of a doubled key the last counts
    (
        r#"{"kind":"derivation","setting":["--workspace"],"setting":[],"steps":[{"fact":{"fact":"crate","krate":"path+file:///w/a#0.1.0"},"rule":1,"uses":[]}]}"#,
        "holds: crate path+file:///w/a#0.1.0 is kept, 1 step\n",
    ),
    (
        r#"{"kind":"derivation","setting":[],"setting":["--workspace"],"steps":[{"fact":{"fact":"crate","krate":"path+file:///w/a#0.1.0"},"rule":1,"uses":[]}]}"#,
        "refused: the certificate is of another setting: --workspace",
    ),
    (
        r#"{"kind":"closed","setting":[],"facts":[]}"#,
        "refused: something follows from the facts and isn't among them",
    ),
    ("no text", "refused: the certificate is not UTF-8"),
    // the first character that can't stand is the 11th of the second line, and the 18th of the first
    (
        "{\n  \"kind\": derivation\n}",
        "refused: this is no certificate: not JSON, at line 2 column 11",
    ),
    (
        "{\"kind\":\"closed\",}\n",
        "refused: this is no certificate: not JSON, at line 1 column 18",
    ),
    // behind the byte order mark stands one that holds
    (
        "\u{feff}{\"kind\":\"derivation\",\"setting\":[],\"steps\":[{\"fact\":{\"fact\":\"crate\",\"krate\":\"path+file:///w/a#0.1.0\"},\"rule\":1,\"uses\":[]}]}",
        "refused: this is no certificate: not JSON, at line 1 column 1",
    ),
];

/// Certificates whose ids equal those of a document's packages and have other texts: the verdict has the document's.
static NAMED: &[Row] = &[
    // what stands after the last `#` of an opaque id is no part of it, so it could be lines, or a commit that nobody checked
    (
        r#"{"kind":"derivation","setting":[],"steps":[{"fact":{"fact":"crate","krate":"a 0.1.0 (path+file:///w/a#)\nholds: nothing but these 2 crates can be reached\n(x)"},"rule":1,"uses":[]}]}"#,
        "holds: crate path+file:///w/a#0.1.0 is kept, 1 step\n",
    ),
    (
        r#"{"kind":"derivation","setting":[],"steps":[{"fact":{"fact":"crate","krate":"a 0.1.0 (path+file:///w/a#0123456789abcdef0123456789abcdef01234567)"},"rule":1,"uses":[]}]}"#,
        "holds: crate path+file:///w/a#0.1.0 is kept, 1 step\n",
    ),
    (
        r#"{"kind":"derivation","setting":[],"steps":[{"fact":{"fact":"crate","krate":"a 0.1.0 (path+file:///w/a#)\u001b[2K)"},"rule":1,"uses":[]},{"fact":{"fact":"kept","parent":"a 0.1.0 (path+file:///w/a#)\nholds: crate b is kept, 1 step\n(x)","child":"b 0.1.0 (path+file:///w/b#)\u001b[2K)","kind":"normal","cfg":null},"rule":5,"uses":[0]}]}"#,
        "holds: kept path+file:///w/a#0.1.0 -> path+file:///w/b#0.1.0 follows, 2 steps\n",
    ),
    (
        r#"{"kind":"derivation","setting":[],"steps":[{"fact":{"fact":"feature","krate":"a 0.1.0 (path+file:///w/a#x)","name":"f"},"rule":1,"uses":[]}]} < a;f="#,
        "holds: feature f of path+file:///w/a#0.1.0 follows, 1 step\n",
    ),
    (
        r#"{"kind":"derivation","setting":[],"steps":[{"fact":{"fact":"feature","krate":"path+file:///w/a#0.1.0","name":"f"},"rule":1,"uses":[]},{"fact":{"fact":"crate","krate":"path+file:///w/a#0.1.0"},"rule":1,"uses":[]},{"fact":{"fact":"kept","parent":"path+file:///w/a#0.1.0","child":"path+file:///w/b#0.1.0","kind":"dev","cfg":"cfg(unix)"},"rule":5,"uses":[1]},{"fact":{"fact":"toggled","parent":"a 0.1.0 (path+file:///w/a#x)","child":"b 0.1.0 (path+file:///w/b#y)","name":"j"},"rule":4,"uses":[0,2]}]} < a b&dev&on=cfg(unix);f=b/j|b;j="#,
        "holds: toggled j of path+file:///w/b#0.1.0 by path+file:///w/a#0.1.0 follows, 4 steps\n",
    ),
    (
        r#"{"kind":"derivation","setting":[],"steps":[{"fact":{"fact":"crate","krate":"path+file:///w/a#0.1.0"},"rule":1,"uses":[]},{"fact":{"fact":"kept","parent":"path+file:///w/a#0.1.0","child":"b 0.1.0 (path+file:///w/b#y)","kind":"dev","cfg":"cfg(unix)"},"rule":5,"uses":[0]}]} < a b&dev&on=cfg(unix)|b"#,
        "holds: kept path+file:///w/a#0.1.0 -> path+file:///w/b#0.1.0 (dev) 'cfg(unix)' follows, 2 steps\n",
    ),
    // as the document writes it, its commit and its escapes too
    (
        r#"{"kind":"derivation","setting":[],"steps":[{"fact":{"fact":"crate","krate":"path+file:///w/a#0.1.0"},"rule":1,"uses":[]}]} < a&id=a~0.1.0~(path+file:///w/a#c0ffee)"#,
        "holds: crate a 0.1.0 (path+file:///w/a#c0ffee) is kept, 1 step\n",
    ),
    (
        r#"{"kind":"derivation","setting":[],"steps":[{"fact":{"fact":"crate","krate":"git+https://h/a?branch=x=y#0.1.0"},"rule":1,"uses":[]}]} < a&id=git+https://h/a?branch=x%3Dy#0.1.0 / members a&id=git+https://h/a?branch=x%3Dy#0.1.0"#,
        "holds: crate git+https://h/a?branch=x%3Dy#0.1.0 is kept, 1 step\n",
    ),
    // and as it is shown
    (
        r#"{"kind":"derivation","setting":[],"steps":[{"fact":{"fact":"crate","krate":"path+file:///w/a#0.1.0"},"rule":1,"uses":[]}]} < a&id=a~0.1.0~(path+file:///w/a#)\u001b[2K)"#,
        "holds: crate a 0.1.0 (path+file:///w/a#)\\u{1b}[2K) is kept, 1 step\n",
    ),
    (
        r#"{"kind":"closed","setting":["\u001b[2K\r\u001b[1A","\nholds: nothing"],"facts":[]}"#,
        "refused: the certificate is of another setting: \\u{1b}[2K\\u{d}\\u{1b}[1A \\u{a}holds: nothing",
    ),
];

/// A reader that fails.
#[derive(Drop)]
struct Failing {
    kind: ErrorKind,
}

impl Read for Failing {
    fn read(&mut self, _buffer: &mut [u8]) -> io::Result<usize> {
        Err(io::Error::from(self.kind))
    }
}

/// What the checker says where the certificate can't be read, for want of memory or for the other cause that a line names.
struct Unread;

impl Question for Unread {
    fn told(alloc: Global, line: &str) -> Result<String, Fail> {
        let kind = match line {
            "memory" => ErrorKind::OutOfMemory,
            _ => ErrorKind::PermissionDenied,
        };
        checked(alloc, "--metadata m < a", Failing { kind })
    }
}

static UNREAD: &[Row] = &[
    ("memory", "refused: out of memory"),
    (
        "permission",
        "refused: the certificate can't be read: permission denied",
    ),
];

#[test]
fn certificates_written_checked_by_hand_and_unread(rt: HostRuntime) -> Result<(), Fail> {
    hold::<Answered>(rt.alloc(), CERTIFICATES)?;
    hold::<Certified>(rt.alloc(), CERTIFIED)?;
    hold::<ByHand>(rt.alloc(), BY_HAND)?;
    hold::<ByHand>(rt.alloc(), NAMED)?;
    hold::<Unread>(rt.alloc(), UNREAD)
}
