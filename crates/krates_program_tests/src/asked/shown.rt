//! What `cargo krates` prints of texts that someone else wrote: names, ids, paths, licences, features and targets with characters in them that
//! end a line, move the cursor or turn the direction, in each answer and each error.

use crate::asked::{choice_of, replaced, told_of, words_by_krates};
use crate::listing::words_of;
use krates::Metadata;
use krates::cm::MetadataCommand;
use krates_report::Reporter;
use krates_samples::documents::document;
use krates_samples::table::{Question, Row, hold};
use krates_words::{Asked, asked_of};
use std::alloc::Global;
use std::test::Fail;

/// Such a text, for which a `¤` stands in lines: an escape, the ends of lines, a tab, DEL, a C1 character, one that turns the direction, and quotes.
static HOSTILE: &str = "x\u{1b}[2K\r\n\t\u{7f}\u{9b}31m\u{202e}\"'";

/// How it stands in the JSON of a document, and in that of a bill of materials.
const ESCAPED: &str = r#"x\u001b[2K\r\n\t\u007f\u009b31m\u202e\"'"#;

/// How it stands in other JSON that is printed.
static IN_JSON: &str = "x\\u001b[2K\\r\\n\\t\u{7f}\u{9b}31m\u{202e}\\\"'";

/// How it is shown.
static SHOWN: &str = "x\\u{1b}[2K\\u{d}\\u{a}\\u{9}\\u{7f}\\u{9b}31m\\u{202e}\"'";

/// What a document of the samples has, and what stands there instead: the text also in the licence of each package, in the directory of the
/// workspace, and in the source of a package that isn't from there.
static PLACES: &[Row] = &[
    ("\"targets\":[]", "\"license\":\"¤\",\"targets\":[]"),
    ("\"workspace_root\":\"/w\"", "\"workspace_root\":\"/w/¤\""),
    (
        "\"source\":\"registry+https://github.com/rust-lang/crates.io-index\"",
        "\"source\":\"git+https://x.org/¤\"",
    ),
    ("¤", ESCAPED),
];

/// The document of a line.
fn hostile_document(alloc: Global, line: &str) -> Result<Metadata, Fail> {
    let json = replaced(alloc, document(alloc, line)?.as_str(), PLACES)?;
    Ok(MetadataCommand::parse(alloc, json.as_str())?)
}

/// The words of a line that has no documents, or by krates of one that has some.
fn words_for(alloc: Global, line: &str, has_documents: bool) -> Result<Vec<String>, Fail> {
    if has_documents {
        words_by_krates(alloc, line)
    } else {
        words_of(alloc, line)
    }
}

/// These words, with the text for its mark.
fn hostile_words(alloc: Global, line: &[String]) -> Result<Vec<String>, Fail> {
    let mut words = Vec::new(alloc);
    for word in line {
        words.push(word.replace(alloc, "¤", HOSTILE)?)?;
    }
    Ok(words)
}

/// What is printed of documents.
fn printed_of(alloc: Global, asked: &Asked, documents: &str) -> Result<String, Fail> {
    let (old, document) = documents.split_once(" // ").unwrap_or(("a", documents));
    let choice = choice_of(asked)?;
    let old = hostile_document(alloc, old)?;
    let document = hostile_document(alloc, document)?;
    told_of(
        alloc,
        Reporter::new(alloc, asked, choice).answer(document, Some(old)),
    )
}

/// What is printed for the words of a line, about the documents after `<`.
fn printed(alloc: Global, line: &str) -> Result<String, Fail> {
    let (words, documents) = line.split_once(" < ").unwrap_or((line, "a"));
    let words = words_for(alloc, words, line.contains(" < "))?;
    match asked_of(alloc, &hostile_words(alloc, &words)?) {
        Ok(asked) => printed_of(alloc, &asked, documents),
        Err(error) => Ok(format!(in alloc; "{error}")?),
    }
}

/// Lines that are words, with the documents after `<`. In the answer `¤` stands for the text as it is shown, `¤json` for the text in JSON, and
/// `¤escaped` for the text in JSON with each of its characters escaped.
struct AsPrinted;

impl Question for AsPrinted {
    fn told(alloc: Global, line: &str) -> Result<String, Fail> {
        let told = printed(alloc, line)?;
        let marks = [(SHOWN, "¤"), (IN_JSON, "¤json"), (ESCAPED, "¤escaped")];
        Ok(replaced(alloc, told.as_str(), &marks)?)
    }
}

/// The lines of each word.
static LINES: &[Row] = &[
    ("list < a b¤|b¤", "a v0.1.0 (/w/a)\nb¤ v0.1.0 (/w/b¤)\n"),
    (
        "list --ids < a b¤|b¤",
        "path+file:///w/a#0.1.0\npath+file:///w/b¤#0.1.0\n",
    ),
    (
        "list < a b¤&crates.io|b¤&crates.io",
        "a v0.1.0 (/w/a)\nb¤ v0.1.0 (https://x.org/¤)\n",
    ),
    ("tree < a b¤|b¤", "a v0.1.0 (/w/a)\n└── b¤ v0.1.0 (/w/b¤)\n"),
    (
        "dependents path+file:///w/b¤#0.1.0 < a b¤|b¤",
        "b¤ v0.1.0 (/w/b¤)\n└── a v0.1.0 (/w/a)\n",
    ),
    (
        "why path+file:///w/b¤#0.1.0 < a b¤&on=¤|b¤",
        "b¤ v0.1.0 (/w/b¤) is kept:\n  a v0.1.0 is a root\n  a v0.1.0 needs b¤ v0.1.0, on ¤\n",
    ),
    (
        "why path+file:///w/b¤#0.1.0 < a b¤?;f¤=dep:b¤|b¤",
        "b¤ v0.1.0 (/w/b¤) is kept:\n  feature `f¤` of a v0.1.0 is enabled: a v0.1.0 is a root, for which cargo lists it\n  a v0.1.0 needs b¤ v0.1.0, for its feature `f¤`\n",
    ),
    (
        "why path+file:///w/b¤#0.1.0 --steps < a b¤&on=¤|b¤",
        "0 rule 1: crate path+file:///w/a#0.1.0\n1 rule 5: kept path+file:///w/a#0.1.0 -> path+file:///w/b¤#0.1.0 '¤' from 0\n2 rule 5: crate path+file:///w/b¤#0.1.0 from 1\n",
    ),
    (
        "features b < a b&with=x¤|b;x¤=y¤ y¤=",
        "b v0.1.0 (/w/b)\n  x¤: a v0.1.0 asks for it\n  y¤: its feature `x¤` enables it\n",
    ),
    (
        "duplicates < a b d¤@0.9.0|b d¤@0.10.0|d¤@0.9.0|d¤@0.10.0",
        "d¤ v0.10.0 (/w/d¤)\n    b v0.1.0 (/w/b)\nd¤ v0.9.0 (/w/d¤)\n    a v0.1.0 (/w/a)\n",
    ),
    (
        "licences < a¤ / members a¤",
        "¤ (1)\n    a¤ v0.1.0 (/w/a¤)\n",
    ),
    (
        "uses < a b¤&dev|b¤",
        "shipped (1)\n    a v0.1.0 (/w/a)\nbuild only (0)\ndev only (1)\n    b¤ v0.1.0 (/w/b¤)\n",
    ),
    (
        "diff F < a b¤ d¤@0.1.0|b¤|d¤@0.1.0 // a c¤ d¤@0.2.0|c¤|d¤@0.2.0",
        "~ d¤ 0.1.0 -> 0.2.0\n- b¤ v0.1.0 (/w/b¤)\n- d¤ v0.1.0 (/w/d¤)\n+ c¤ v0.1.0 (/w/c¤)\n+ d¤ v0.2.0 (/w/d¤)\n- a v0.1.0 -> b¤ v0.1.0\n- a v0.1.0 -> d¤ v0.1.0\n+ a v0.1.0 -> c¤ v0.1.0\n+ a v0.1.0 -> d¤ v0.2.0\n",
    ),
    (
        "unreachable path+file:///w/b¤#0.1.0 < a|b¤",
        "b¤ v0.1.0 (/w/b¤) can't be reached: it isn't among the facts (1), and these are closed under the rules\n",
    ),
    (
        "unreachable path+file:///w/b¤#0.1.0 < a b¤|b¤",
        "no: b¤ v0.1.0 (/w/b¤) is kept; `why` says why\n",
    ),
];

/// JSON keeps the texts as they are.
static JSON: &[Row] = &[
    (
        "list --json < a¤ / members a¤",
        "{\n  \"answer\": [\n    {\n      \"id\": \"path+file:///w/a¤json#0.1.0\",\n      \"name\": \"a¤json\",\n      \"source\": null,\n      \"version\": \"0.1.0\"\n    }\n  ],\n  \"rules\": \"krates\",\n  \"version\": 1\n}\n",
    ),
    (
        "features a --json < a;x¤=",
        "{\n  \"answer\": {\n    \"features\": [\n      {\n        \"name\": \"x¤json\",\n        \"reason\": \"a v0.1.0 is a root, for which cargo lists it\"\n      }\n    ],\n    \"id\": \"path+file:///w/a#0.1.0\"\n  },\n  \"rules\": \"krates\",\n  \"version\": 1\n}\n",
    ),
    (
        "certify path+file:///w/a¤#0.1.0 < a¤ / members a¤",
        "{\n  \"kind\": \"derivation\",\n  \"setting\": [],\n  \"steps\": [\n    {\n      \"fact\": {\n        \"fact\": \"crate\",\n        \"krate\": \"path+file:///w/a¤json#0.1.0\"\n      },\n      \"rule\": 1,\n      \"uses\": []\n    }\n  ]\n}\n",
    ),
    (
        "sbom < a¤ / members a¤",
        "{\n  \"$schema\": \"http://cyclonedx.org/schema/bom-1.5.schema.json\",\n  \"bomFormat\": \"CycloneDX\",\n  \"components\": [],\n  \"dependencies\": [\n    {\n      \"dependsOn\": [],\n      \"ref\": \"pkg:cargo/ax%1B%5B2K%0D%0A%09%7F%C2%9B31m%E2%80%AE%22%27@0.1.0?download_url=file%3A%2F%2F%2Fw%2Fax%1B%5B2K%0D%0A%09%7F%C2%9B31m%E2%80%AE%22%27\"\n    }\n  ],\n  \"metadata\": {\n    \"component\": {\n      \"bom-ref\": \"pkg:cargo/ax%1B%5B2K%0D%0A%09%7F%C2%9B31m%E2%80%AE%22%27@0.1.0?download_url=file%3A%2F%2F%2Fw%2Fax%1B%5B2K%0D%0A%09%7F%C2%9B31m%E2%80%AE%22%27\",\n      \"licenses\": [\n        {\n          \"license\": {\n            \"name\": \"¤escaped\"\n          }\n        }\n      ],\n      \"name\": \"a¤escaped\",\n      \"purl\": \"pkg:cargo/ax%1B%5B2K%0D%0A%09%7F%C2%9B31m%E2%80%AE%22%27@0.1.0?download_url=file%3A%2F%2F%2Fw%2Fax%1B%5B2K%0D%0A%09%7F%C2%9B31m%E2%80%AE%22%27\",\n      \"type\": \"library\",\n      \"version\": \"0.1.0\"\n    },\n    \"tools\": {\n      \"components\": [\n        {\n          \"name\": \"cargo-krates\",\n          \"type\": \"application\",\n          \"version\": \"0.22.0\"\n        }\n      ]\n    }\n  },\n  \"specVersion\": \"1.5\",\n  \"version\": 1\n}\n",
    ),
];

/// Errors that quote a word, an id or a name.
static ERRORS: &[Row] = &[
    (
        "why ¤ < a",
        "refused: `¤` names no package: found an invalid character for the package name\nwrite NAME, NAME@VERSION, or an id as cargo prints it",
    ),
    (
        "why b < a b¤|b¤",
        "refused: no package fits `b`; these come near:\n    b¤@0.1.0",
    ),
    (
        "why path+file:///w/b¤#0.1.0 < a|b¤",
        "refused: nothing that is kept needs `path+file:///w/b¤#0.1.0`, which means:\n    b¤@0.1.0",
    ),
    // two of one name and version are named by their ids
    (
        "why b < a|b|b&id=path+file:///w/¤#b@0.1.0",
        "refused: nothing that is kept needs `b`, which means:\n    path+file:///w/b#0.1.0\n    path+file:///w/¤#b@0.1.0",
    ),
    (
        "list < a¤ / members a¤ / nodes",
        "refused: lost node: path+file:///w/a¤#0.1.0",
    ),
    (
        "list --target=@¤",
        "error: invalid value '@¤' for '--target <TRIPLE>': it can't begin with '@' or '-'\n\nFor more information, try '--help'.\n",
    ),
    (
        "list --by krates --package ¤",
        "error: invalid value '¤' for '--package <PATH>': it has to be an absolute path\n\nFor more information, try '--help'.\n",
    ),
    (
        "list --by krates --exclude ¤",
        "error: invalid value '¤' for '--exclude <SPEC>': found an invalid character for the package name\n\nFor more information, try '--help'.\n",
    ),
    (
        "list --max-bytes ¤",
        "error: invalid value '¤' for '--max-bytes <BYTES>': invalid digit found in string\n\nFor more information, try '--help'.\n",
    ),
    (
        "list --¤",
        "error: unexpected argument '--¤' found\n\nUsage: cargo krates list [OPTIONS]\n\nFor more information, try '--help'.\n",
    ),
];

#[test]
fn texts_of_others_in_lines(rt: HostRuntime) -> Result<(), Fail> {
    hold::<AsPrinted>(rt.alloc(), LINES)
}

#[test]
fn texts_of_others_in_json_and_in_errors(rt: HostRuntime) -> Result<(), Fail> {
    hold::<AsPrinted>(rt.alloc(), JSON)?;
    hold::<AsPrinted>(rt.alloc(), ERRORS)
}
