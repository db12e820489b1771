//! The calls that make up the program, one by one.

use crate::listing::words_of;
use krates::{Builder, Kid, Krates, NoneFilter};
use krates_cli::{Counted, Options, OptionsError, options_of};
use krates_samples::documents::metadata;
use krates_samples::table::{Question, Row, hold};
use std::alloc::{AllocError, Global};
use std::str;
use std::test::Fail;

/// The options, as they are printed.
fn shown(alloc: Global, options: &Options) -> Result<String, AllocError> {
    format!(in alloc;
        "{} {:?} {:?} {} {:?} {}",
        options.workspace,
        options.ignored,
        options.targets,
        options.exclusions.len(),
        options.cargo,
        options
            .why
            .as_ref()
            .map_or("none", |krate: &Kid| krate.repr())
    )
}

/// What the words mean.
struct Read;

impl Question for Read {
    fn told(alloc: Global, line: &str) -> Result<String, Fail> {
        let words = words_of(alloc, line)?;
        let told = match options_of(alloc, words.as_slice()) {
            Ok(options) => shown(alloc, &options),
            Err(OptionsError::Unknown) => String::from_str(alloc, "unknown"),
            Err(OptionsError::Memory) => String::from_str(alloc, "memory"),
        };
        Ok(told?)
    }
}

static OPTIONS: &[Row] = &[
    ("", "false [] [] 0 None none"),
    (
        "--ignore-kind dev --target x --exclude b --workspace --exclude c@1.0.0 --target y --cargo p --cargo q",
        r#"true [Dev] ["x", "y"] 2 Some("q") none"#,
    ),
    (
        "--why x#a@1.0.0 --why y#b@1.0.0",
        "false [] [] 0 None y#b@1.0.0",
    ),
    ("--exclude", "unknown"),
    ("--ignore-kind x", "unknown"),
    ("--why x", "unknown"),
];

/// How many crates of the document of a line a builder keeps for which the options are set.
fn count_kept(alloc: Global, options: &Options, line: &str) -> Result<String, Fail> {
    let builder = Builder::under(alloc, options.setting(alloc)?);
    let metadata = metadata(alloc, line)?;
    let krates: Krates = builder.build_with_metadata(metadata, &mut NoneFilter)?;
    Ok(format!(in alloc; "{}", krates.len())?)
}

/// How many crates a builder keeps for which the words are set; a line has its words, and after `<` the document.
struct Kept;

impl Question for Kept {
    fn told(alloc: Global, line: &str) -> Result<String, Fail> {
        let (words, line) = line.split_once('<').unwrap_or((line, ""));
        let words = words_of(alloc, words)?;
        match options_of(alloc, words.as_slice()) {
            Ok(options) => count_kept(alloc, &options, line),
            Err(_) => Err(Fail::new("no options")),
        }
    }
}

static SET: &[Row] = &[
    ("< a b&dev|b / members a b / root a", "2"),
    ("--ignore-kind dev < a b&dev|b / members a b / root a", "1"),
    ("--workspace < a|b / members a b / root a", "2"),
    ("--exclude b < a b|b", "1"),
    ("--target x < a b&on=cfg(unix)|b", "1"),
];

#[test]
fn options_of_words_and_of_a_builder(rt: HostRuntime) -> Result<(), Fail> {
    hold::<Read>(rt.alloc(), OPTIONS)?;
    hold::<Kept>(rt.alloc(), SET)
}

#[test]
fn all_bytes_of_a_reader(rt: HostRuntime) -> Result<(), Fail> {
    let mut input = Counted::new(b"abc".as_slice());
    let bytes = input.read_to_end(rt.alloc())?;
    assert_eq!(rt; str::from_utf8(bytes.as_slice())?, "abc");
    assert!(rt; input.get_ref().is_empty() && input.failures() == 0);
    Ok(())
}
