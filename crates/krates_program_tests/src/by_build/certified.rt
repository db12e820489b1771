//! Certificates of what cargo builds, as `cargo krates` writes them, and what the program that checks them says.

use crate::by_build::answered::{Answered, metadata_of, setting_of};
use krates_build_verdict::judge_bytes;
use krates_samples::table::{Question, Row, hold};
use krates_words::{BuildWords, Rules, check_words_of};
use std::alloc::{AllocError, Global};
use std::test::Fail;

/// Certificates, as they are written.
static CERTIFICATES: &[Row] = &[
    (
        "certify a < a / targets a:bin",
        "{\n  \"machines\": [\n    {\n      \"cfg\": \"unix\",\n      \"triple\": \"linux\"\n    }\n  ],\n  \"setting\": [\n    \"--by=build\",\n    \"--resolver=2\",\n    \"--host=linux\"\n  ],\n  \"steps\": [\n    {\n      \"fact\": [\n        \"compiled\",\n        \"path+file:///w/a#0.1.0\",\n        \"bin\",\n        \"a\",\n        \"build\",\n        \"linux\",\n        \"targets\"\n      ],\n      \"uses\": []\n    }\n  ]\n}\n",
    ),
    (
        "certify --all --resolver 1 --target windows --target linux -p a --bins -F x,y -F y --no-default-features < a;x= y= / targets a:bin",
        "{\n  \"facts\": [\n    [\n      \"met\",\n      \"path+file:///w/a#0.1.0\",\n      \"root\"\n    ],\n    [\n      \"linked reference\",\n      \"path+file:///w/a#0.1.0\",\n      \"root\",\n      \"feature\",\n      \"x\",\n      \"\"\n    ],\n    [\n      \"linked reference\",\n      \"path+file:///w/a#0.1.0\",\n      \"root\",\n      \"feature\",\n      \"y\",\n      \"\"\n    ],\n    [\n      \"linked feature\",\n      \"path+file:///w/a#0.1.0\",\n      \"root\",\n      \"x\"\n    ],\n    [\n      \"linked feature\",\n      \"path+file:///w/a#0.1.0\",\n      \"root\",\n      \"y\"\n    ],\n    [\n      \"activated\",\n      \"path+file:///w/a#0.1.0\",\n      \"targets\"\n    ],\n    [\n      \"activated reference\",\n      \"path+file:///w/a#0.1.0\",\n      \"targets\",\n      \"feature\",\n      \"x\",\n      \"\"\n    ],\n    [\n      \"activated reference\",\n      \"path+file:///w/a#0.1.0\",\n      \"targets\",\n      \"feature\",\n      \"y\",\n      \"\"\n    ],\n    [\n      \"activated feature\",\n      \"path+file:///w/a#0.1.0\",\n      \"targets\",\n      \"x\"\n    ],\n    [\n      \"activated feature\",\n      \"path+file:///w/a#0.1.0\",\n      \"targets\",\n      \"y\"\n    ],\n    [\n      \"compiled\",\n      \"path+file:///w/a#0.1.0\",\n      \"bin\",\n      \"a\",\n      \"build\",\n      \"windows\",\n      \"targets\"\n    ],\n    [\n      \"compiled\",\n      \"path+file:///w/a#0.1.0\",\n      \"bin\",\n      \"a\",\n      \"build\",\n      \"linux\",\n      \"targets\"\n    ]\n  ],\n  \"machines\": [\n    {\n      \"cfg\": \"unix\",\n      \"triple\": \"linux\"\n    },\n    {\n      \"cfg\": \"windows\",\n      \"triple\": \"windows\"\n    },\n    {\n      \"cfg\": \"unix\",\n      \"triple\": \"linux\"\n    }\n  ],\n  \"setting\": [\n    \"--by=build\",\n    \"--resolver=1\",\n    \"--host=linux\",\n    \"--package=a\",\n    \"--bins\",\n    \"--features=x\",\n    \"--features=y\",\n    \"--features=y\",\n    \"--no-default-features\",\n    \"--target=windows\",\n    \"--target=linux\"\n  ]\n}\n",
    ),
    (
        "certify z < a / targets a:bin",
        "refused: no package fits `z`",
    ),
    // an id with the end of a line
    (
        "certify a < a&id=a~0.1.0~(path+file:///w/a#)\\n) / targets a:bin",
        "{\n  \"machines\": [\n    {\n      \"cfg\": \"unix\",\n      \"triple\": \"linux\"\n    }\n  ],\n  \"setting\": [\n    \"--by=build\",\n    \"--resolver=2\",\n    \"--host=linux\"\n  ],\n  \"steps\": [\n    {\n      \"fact\": [\n        \"compiled\",\n        \"a 0.1.0 (path+file:///w/a#)\\n)\",\n        \"bin\",\n        \"a\",\n        \"build\",\n        \"linux\",\n        \"targets\"\n      ],\n      \"uses\": []\n    }\n  ]\n}\n",
    ),
    // two targets that are named alike
    (
        "certify --all < a / targets a:bin,bin",
        "refused: no words name this fact alone: Compiled(UnitPlace { target: TargetPlace { krate: 0, index: 1 }, mode: Build, placement: PlacementNumber { platform: Machine(0), side: Targets } })",
    ),
];

/// Certificates that are made, as the program that checks them judges them.
static HELD: &[Row] = &[
    (
        "certify b < a b|b / targets a:bin b:lib",
        "holds: cargo builds path+file:///w/b#0.1.0 for linux, 5 steps\n",
    ),
    (
        "certify a < a b|b / targets a:bin b:lib",
        "holds: cargo builds path+file:///w/a#0.1.0 for linux, 1 step\n",
    ),
    (
        "certify --all < a b|b / targets a:bin b:lib",
        "holds: cargo builds nothing but these 2 crates\n",
    ),
    (
        "certify --all < a / targets a:bin",
        "holds: cargo builds nothing but this 1 crate\n",
    ),
    // what is built for the host
    (
        "certify c < a b&build|b c|c / targets a:bin,custom-build b:lib c:lib",
        "holds: cargo builds path+file:///w/c#0.1.0 for the host, 11 steps\n",
    ),
    (
        "certify --all --target windows < a b&build|b c|c / targets a:bin,custom-build b:lib c:lib",
        "holds: cargo builds nothing but these 3 crates\n",
    ),
    // of a package that isn't built, all that follows
    (
        "certify c < a b|b|c / targets a:bin b:lib c:lib",
        "holds: cargo builds nothing but these 2 crates\n",
    ),
    // what one side alone asks for isn't built for Windows by the second resolver, but by the first
    (
        "certify openssl --target windows < OPENSSL",
        "holds: cargo builds nothing but these 2 crates\n",
    ),
    (
        "certify --all --resolver 1 --target windows < OPENSSL",
        "holds: cargo builds nothing but these 3 crates\n",
    ),
    // targets that require features, of which none is compiled
    (
        "certify --all < a b&with=f;x=|b;f= / targets a:bin=b/f,lib b:lib",
        "holds: cargo builds nothing but these 2 crates\n",
    ),
    // other words that mean the same
    (
        "certify --all -F x,y < a;x= y= / targets a:bin => -F x --features=y --resolver 2 < a;x= y= / targets a:bin",
        "holds: cargo builds nothing but this 1 crate\n",
    ),
    // a name that would end the line, and the like
    (
        "certify a < a&id=a~0.1.0~(path+file:///w/a#)\\u001b[2K) / targets a:bin",
        "holds: cargo builds a 0.1.0 (path+file:///w/a#)\\u{1b}[2K) for linux, 1 step\n",
    ),
];

/// Certificates that don't hold of what they are judged against.
static REFUSED: &[Row] = &[
    // another build
    (
        "certify b < a b|b / targets a:bin b:lib => --resolver 1 < a b|b / targets a:bin b:lib",
        "refused: the certificate is of another build: --by=build --resolver=2 --host=linux",
    ),
    (
        "certify --all --target windows < a b|b / targets a:bin b:lib => < a b|b / targets a:bin b:lib",
        "refused: the certificate is of another build: --by=build --resolver=2 --host=linux --target=windows",
    ),
    (
        "certify --all < a b|b / targets a:bin b:lib => --all-targets < a b|b / targets a:bin b:lib",
        "refused: the certificate is of another build: --by=build --resolver=2 --host=linux",
    ),
    (
        "certify openssl --target windows < OPENSSL => --resolver 1 --target windows < OPENSSL",
        "refused: the certificate is of another build: --by=build --resolver=2 --host=linux --target=windows",
    ),
    // another document
    (
        "certify b < a b|b / targets a:bin b:lib => < a b&dev|b / targets a:bin b:lib",
        "refused: step 2 says nothing of the document and the build: its word 1, `path+file:///w/a#0.1.0`",
    ),
    (
        "certify --all < a b|b / targets a:bin b:lib => < a b c|b|c / targets a:bin b:lib c:lib",
        "refused: something follows from the facts and isn't among them",
    ),
    (
        "certify b < a b|b / targets a:bin b:lib => < a c|c / targets a:bin c:lib",
        "refused: step 2 says nothing of the document and the build: its word 2, `path+file:///w/b#0.1.0`",
    ),
    (
        "certify a < a / targets a:bin => < a / no graph / targets a:bin",
        "refused: no resolution graph was provided",
    ),
];

/// Certificates of which one text is replaced by another, behind `~` each: why they don't hold.
static CHANGED: &[Row] = &[
    // a machine
    (
        "certify a < a / targets a:bin ~ \"cfg\": \"unix\" ~ \"cfg\": \"windows\"",
        "refused: the certificate describes the machine `linux` in another way",
    ),
    (
        "certify a < a / targets a:bin ~ \"cfg\": \"unix\" ~ \"cfg\": \"unix\\n\\u001b[2K\"",
        "refused: the certificate doesn't describe the machine `linux`: line 2 is no cfg of rustc",
    ),
    (
        "certify a < a / targets a:bin ~ \"triple\": \"linux\" ~ \"triple\": \"windows\"",
        "refused: the certificate describes the machine `linux` in another way",
    ),
    (
        "certify a < a / targets a:bin ~ \"machines\": [ ~ \"machines\": [{\"triple\": \"x\", \"cfg\": \"\"},",
        "refused: the certificate describes 2 machines, and the build has 1",
    ),
    // the words of the build
    (
        "certify a < a / targets a:bin ~ \"--by=build\" ~ \"\\u001b[2K\\nholds: cargo builds nothing but this 1 crate\"",
        "refused: the certificate is of another build: \\u{1b}[2K\\u{a}holds: cargo builds nothing but this 1 crate --resolver=2 --host=linux",
    ),
    // those of the first resolver, by which openssl is built
    (
        "certify openssl --target windows < OPENSSL => --resolver 1 --target windows < OPENSSL ~ --resolver=2 ~ --resolver=1",
        "refused: something follows from the facts and isn't among them",
    ),
    // a request that names nothing
    (
        "certify a < a / targets a:bin => -F zz < a / targets a:bin ~ \"--host=linux\" ~ \"--host=linux\", \"--features=zz\"",
        "refused: no package that is asked for has the feature `zz`",
    ),
    // a step
    (
        "certify b < a b|b / targets a:bin b:lib ~ \"lib\" ~ \"bin\"",
        "refused: step 3 says nothing of the document and the build: its word 7, `path+file:///w/b#0.1.0`",
    ),
    (
        "certify b < a b|b / targets a:bin b:lib ~ \"build\" ~ \"test\"",
        "refused: step 0 does not follow",
    ),
    (
        "certify a < a / targets a:bin ~ \"uses\": [] ~ \"uses\": [0]",
        "refused: step 0 uses step 0, which isn't before it",
    ),
    (
        "certify a < a / targets a:bin ~ \"compiled\" ~ \"\\u001b[2K\"",
        "refused: step 0 says nothing of the document and the build: its word 0, `\\u{1b}[2K`",
    ),
    (
        "certify a < a / targets a:bin ~ \"steps\": [ ~ \"steps\": [{\"fact\": [], \"uses\": []},",
        "refused: step 0 says nothing of the document and the build: its word 0 is missing",
    ),
    // a fact more, or less
    (
        "certify --all < a b|b / targets a:bin b:lib ~ \"dependency\" ~ \"root\"",
        "refused: something follows from the facts and isn't among them",
    ),
    (
        "certify --all < a b|b / targets a:bin b:lib ~ \"facts\": [ ~ \"facts\": [[\"met\", \"path+file:///w/b#0.1.0\", \"root\"],",
        "holds: cargo builds nothing but these 2 crates\n",
    ),
    // what isn't JSON, and no certificate
    (
        "certify a < a / targets a:bin ~ { ~ [",
        "refused: this is no certificate of a build: not JSON, at line 2 column 15",
    ),
    (
        "certify a < a / targets a:bin ~ \"setting\" ~ \"words\"",
        "refused: this is no certificate of a build: missing key: setting",
    ),
];

/// Certificates that someone wrote by hand, about a document after `<`, or about `a`, which declares a dependency on `b` that the document has no edge for.
static BY_HAND: &[Row] = &[
    (
        r#"{"setting":["--by=build","--resolver=2","--host=linux"],"machines":[{"triple":"linux","cfg":"unix"}],"facts":[["met","path+file:///w/a#0.1.0","root"],["lost","path+file:///w/a#0.1.0","normal","*","b"]]}"#,
        "refused: fact 1 says that the document has no edge for a dependency that the build needs",
    ),
    (
        r#"{"setting":["--by=build","--resolver=2","--host=linux"],"machines":[{"triple":"linux","cfg":"unix"}],"facts":[]}"#,
        "refused: something follows from the facts and isn't among them",
    ),
    // words behind those of a fact name nothing, and what is quoted of them ends no line
    (
        r#"{"setting":["--by=build","--resolver=2","--host=linux"],"machines":[{"triple":"linux","cfg":"unix"}],"steps":[{"fact":["met","path+file:///w/a#0.1.0","root","\nholds: cargo builds nothing but this 1 crate"],"uses":[]}]}"#,
        "refused: step 0 says nothing of the document and the build: its word 3, `\\u{a}holds: cargo builds nothing but this 1 crate`",
    ),
    (
        r#"{"setting":["--by=build","--resolver=2","--host=linux"],"machines":[{"triple":"linux","cfg":"unix"}],"steps":[]}"#,
        "refused: the derivation has no step",
    ),
    // a build script, and what is said before anything is built
    (
        r#"{"setting":["--by=build","--resolver=2","--host=linux"],"machines":[{"triple":"linux","cfg":"unix"}],"steps":[{"fact":["compiled","path+file:///w/a#0.1.0","bin","a","build","linux","targets"],"uses":[]},{"fact":["script run","path+file:///w/a#0.1.0","linux","targets"],"uses":[0]},{"fact":["script compiled","path+file:///w/a#0.1.0","targets"],"uses":[1]}]} < a / targets a:bin,custom-build"#,
        "holds: cargo builds the build script of path+file:///w/a#0.1.0, 3 steps\n",
    ),
    ("no text", "refused: the certificate is not UTF-8"),
    (
        "",
        "refused: this is no certificate of a build: not JSON, at line 1 column 0",
    ),
];

/// A document in which `a` declares a dependency on `b` that has no edge.
const LACKING: &str = "a b|b / nodes a|b / targets a:bin b:lib";

/// What the checker says of a certificate under these words, about the document of a line.
fn judged(
    alloc: Global,
    words: &BuildWords,
    document: &str,
    certificate: &[u8],
) -> Result<String, Fail> {
    let setting = setting_of(alloc, words)?;
    let metadata = metadata_of(alloc, document)?;
    let told = match judge_bytes(alloc, &metadata, &setting, certificate) {
        Ok(line) => Ok(line),
        Err(refusal) => format!(in alloc; "refused: {refusal}"),
    };
    metadata.let_go();
    Ok(told?)
}

/// The words of the checker: those of a line, and a file.
fn checker_words(alloc: Global, line: &str) -> Result<Vec<String>, AllocError> {
    let mut words = Vec::new(alloc);
    for word in line.split_whitespace() {
        words.push(String::from_str(alloc, word)?)?;
    }
    words.push(String::from_str(alloc, "--metadata=m")?)?;
    Ok(words)
}

/// What the checker says of a certificate under the words of a line, about the document after `<`.
fn checked(alloc: Global, line: &str, certificate: &[u8]) -> Result<String, Fail> {
    let (words, document) = line.split_once("< ").unwrap_or((line, ""));
    match check_words_of(alloc, &checker_words(alloc, words)?) {
        Ok(asked) => match &asked.rules {
            Rules::Build(words) => judged(alloc, words, document, certificate),
            Rules::Krates(_) => Err(Fail::new("not by build")),
        },
        Err(error) => Ok(format!(in alloc; "{error}")?),
    }
}

/// The options of a line that asks for a certificate, without what it asks for.
fn options_of(line: &str) -> &str {
    match line.strip_prefix("certify ") {
        Some(rest) => rest.split_once(' ').unwrap_or((rest, "")).1,
        None => line,
    }
}

/// The words that ask for a certificate and its document; after `=>` the words and the document by which it is judged, if these are others;
/// and after `~` a text of it, and after another `~` the text that stands in its place.
struct Certified;

impl Question for Certified {
    fn told(alloc: Global, line: &str) -> Result<String, Fail> {
        let (line, change) = line.split_once(" ~ ").unwrap_or((line, ""));
        let (made, by) = line.split_once(" => ").unwrap_or((line, options_of(line)));
        let certificate = Answered::told(alloc, made)?;
        match change.split_once(" ~ ") {
            Some((old, new)) => {
                let changed = certificate.replace(alloc, old, new)?;
                checked(alloc, by, changed.as_bytes())
            }
            None => checked(alloc, by, certificate.as_bytes()),
        }
    }
}

/// A certificate, or `no text`, which isn't UTF-8, and after `<` a document where it isn't the one that lacks an edge: what the checker says of
/// the certificate.
struct ByHand;

impl Question for ByHand {
    fn told(alloc: Global, line: &str) -> Result<String, Fail> {
        let (text, document) = line.split_once(" < ").unwrap_or((line, LACKING));
        let certificate = match text {
            "no text" => b"\xff".as_slice(),
            _ => text.as_bytes(),
        };
        let by = format!(in alloc; "< {document}")?;
        checked(alloc, by.as_str(), certificate)
    }
}

#[test]
fn certificates_are_written(rt: HostRuntime) -> Result<(), Fail> {
    hold::<Answered>(rt.alloc(), CERTIFICATES)
}

#[test]
fn certificates_hold(rt: HostRuntime) -> Result<(), Fail> {
    hold::<Certified>(rt.alloc(), HELD)
}

#[test]
fn certificates_are_refused(rt: HostRuntime) -> Result<(), Fail> {
    hold::<Certified>(rt.alloc(), REFUSED)?;
    hold::<Certified>(rt.alloc(), CHANGED)?;
    hold::<ByHand>(rt.alloc(), BY_HAND)
}
