//! What is answered to words about what cargo builds of a small document.
//!
//! A line has the words, and after `<` the document, as `krates_samples` reads it or `OPENSSL`, or two with `//` between them, of which the first is
//! that of before. The machine that builds is `linux`, of which rustc says
//! `unix` here; a machine of another name is described by that name. The resolver is the second where the words name none.

use krates_build_report::{BuildReportError, BuildReporter};
use krates_cm::Metadata;
use krates_report::Report;
use krates_samples::table::Question;
use krates_samples::targets::document_of;
use krates_units::{BuildSetting, Machine, Resolver};
use krates_words::{Asked, BuildWords, Rules, asked_of};
use std::alloc::Global;
use std::test::Fail;

/// A document in which `openssl` is only needed where a feature is enabled that one side asks for: the first resolver enables it for both.
static OPENSSL: &str =
    "a net&build&with=tls net|net openssl?;tls=dep:openssl|openssl / nodes a net&normal&build|net openssl;tls|openssl / targets a:bin net:lib openssl:lib";

/// The document of a line; `OPENSSL` stands for that of `openssl`.
pub(crate) fn metadata_of(alloc: Global, line: &str) -> Result<Metadata, Fail> {
    document_of(alloc, if line == "OPENSSL" { OPENSSL } else { line })
}

/// What rustc prints of the machine of this name.
fn cfg_of(name: &str) -> &str {
    if name == "linux" { "unix" } else { name }
}

/// The machine of this name.
fn machine_of(alloc: Global, name: &str) -> Result<Machine, Fail> {
    Ok(Machine::from_rustc(alloc, name, cfg_of(name))?)
}

/// What rustc prints of the machine that builds, and of those that the words name.
fn cfgs_of(alloc: Global, words: &BuildWords) -> Result<Vec<String>, Fail> {
    let mut cfgs = Vec::new(alloc);
    cfgs.push(String::from_str(alloc, cfg_of("linux"))?)?;
    for triple in &words.triples {
        cfgs.push(String::from_str(alloc, cfg_of(triple.as_str()))?)?;
    }
    Ok(cfgs)
}

/// The machines that the words name.
fn machines_of(alloc: Global, words: &BuildWords) -> Result<Vec<Machine>, Fail> {
    let mut machines = Vec::new(alloc);
    for triple in &words.triples {
        machines.push(machine_of(alloc, triple.as_str())?)?;
    }
    Ok(machines)
}

/// What the words ask for.
pub(crate) fn setting_of(alloc: Global, words: &BuildWords) -> Result<BuildSetting, Fail> {
    let targets = machines_of(alloc, words)?;
    let host = machine_of(alloc, "linux")?;
    let resolver = words.resolver.unwrap_or(Resolver::V2);
    Ok(words.setting(alloc, resolver, host, targets)?)
}

/// The text of an answer, with a mark where it is a no; or why there is none.
fn told_of(alloc: Global, answer: Result<Report, BuildReportError>) -> Result<String, Fail> {
    match answer {
        Ok(Report { text, is_yes: true }) => Ok(text),
        Ok(Report { text, .. }) => Ok(format!(in alloc; "no: {text}")?),
        Err(refusal) => Ok(format!(in alloc; "refused: {refusal}")?),
    }
}

/// What is answered about a build of a document, or about those of two, where the first is that of before.
fn answer_of(
    alloc: Global,
    asked: &Asked,
    words: &BuildWords,
    document: &Metadata,
    other: Option<&Metadata>,
) -> Result<String, Fail> {
    let setting = setting_of(alloc, words)?;
    let mut second = setting_of(alloc, words)?;
    second.kinds.all = other.is_none();
    let cfgs = cfgs_of(alloc, words)?;
    let reporter = BuildReporter::new(alloc, asked, &setting, &second, &cfgs);
    match other {
        Some(other) => told_of(alloc, reporter.difference(document, other)),
        None => told_of(alloc, reporter.answer(document)),
    }
}

/// What is answered to words about the document of a line, or about two with `//` between them.
fn told(alloc: Global, asked: &Asked, line: &str) -> Result<String, Fail> {
    let Rules::Build(words) = &asked.rules else {
        return Err(Fail::new("not by build"));
    };
    match line.split_once(" // ") {
        Some((first, second)) => {
            let first = metadata_of(alloc, first)?;
            let second = metadata_of(alloc, second)?;
            answer_of(alloc, asked, words, &first, Some(&second))
        }
        None => answer_of(alloc, asked, words, &metadata_of(alloc, line)?, None),
    }
}

/// The words of a line.
fn words_of(alloc: Global, line: &str) -> Result<Vec<String>, Fail> {
    let mut words = Vec::new(alloc);
    for word in line.split_whitespace() {
        words.push(String::from_str(alloc, word)?)?;
    }
    Ok(words)
}

/// Lines that are words, with the document after `<`.
pub(crate) struct Answered;

impl Question for Answered {
    fn told(alloc: Global, line: &str) -> Result<String, Fail> {
        let (words, document) = line.split_once(" < ").unwrap_or((line, ""));
        match asked_of(alloc, &words_of(alloc, words)?) {
            Ok(asked) => told(alloc, &asked, document),
            Err(error) => Ok(format!(in alloc; "{error}")?),
        }
    }
}
