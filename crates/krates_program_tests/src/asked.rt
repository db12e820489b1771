//! What `cargo krates` answers to its words.

mod documents;
mod kept;
mod names;
mod pictures;
mod reasons;
mod shown;
mod trees;

use crate::listing::words_of;
use crate::versions::VERSIONS;
use krates::Metadata;
use krates::cm::MetadataCommand;
use krates::target::Target;
use krates_report::{Report, ReportError, Reporter};
use krates_samples::documents::{document, metadata};
use krates_samples::table::{Question, Row, hold};
use krates_words::{Asked, Choice, Rules, asked_of};
use std::alloc::{AllocError, Global};
use std::test::Fail;

/// The document of a line, with its workspace in another folder.
fn elsewhere(alloc: Global, line: &str) -> Result<Metadata, Fail> {
    let text = document(alloc, line)?.replace(alloc, "/w", "/home/me/w")?;
    Ok(MetadataCommand::parse(alloc, text.as_str())?)
}

/// The document of a line, or the real one. A line that begins with `elsewhere` has the workspace in another folder.
pub(crate) fn document_of(alloc: Global, line: &str) -> Result<Metadata, Fail> {
    if line == "versions" {
        return Ok(MetadataCommand::parse(alloc, VERSIONS)?);
    }
    match line.strip_prefix("elsewhere ") {
        Some(line) => elsewhere(alloc, line),
        None => metadata(alloc, line),
    }
}

/// The document of before in a line, if there is one.
fn old_of(alloc: Global, line: Option<&str>) -> Result<Option<Metadata>, Fail> {
    match line {
        Some(line) => Ok(Some(document_of(alloc, line)?)),
        None => Ok(None),
    }
}

/// The targets that the words name, of those that are known by their triple.
pub(crate) fn add_targets(alloc: Global, choice: &mut Choice) -> Result<(), Fail> {
    for triple in &choice.triples {
        let target = Target::new(alloc, triple.as_str())?;
        choice.targets.push((target, Vec::new(alloc)))?;
    }
    Ok(())
}

/// What the words say of the rules of krates, by which these examples are answered.
pub(crate) fn choice_of(asked: &Asked) -> Result<&Choice, Fail> {
    match &asked.rules {
        Rules::Krates(choice) => Ok(choice),
        Rules::Build(_) => Err(Fail::new("by build")),
    }
}

/// What is printed of documents, with a mark where it is a no; or why there is nothing.
fn printed_of(alloc: Global, asked: &mut Asked, documents: &str) -> Result<String, Fail> {
    let (old, document) = match documents.split_once(" // ") {
        Some((old, document)) => (Some(old), document),
        None => (None, documents),
    };
    if let Rules::Krates(choice) = &mut asked.rules {
        add_targets(alloc, choice)?;
    }
    let choice = choice_of(asked)?;
    let old = old_of(alloc, old)?;
    let document = document_of(alloc, document)?;
    told_of(
        alloc,
        Reporter::new(alloc, asked, choice).answer(document, old),
    )
}

/// The text of an answer, with a mark where it is a no; or why there is none.
fn told_of(alloc: Global, answer: Result<Report, ReportError>) -> Result<String, Fail> {
    match answer {
        Ok(Report { text, is_yes: true }) => Ok(text),
        Ok(Report { text, .. }) => Ok(format!(in alloc; "no: {text}")?),
        Err(refusal) => Ok(format!(in alloc; "refused: {refusal}")?),
    }
}

/// The words of a line that is about documents: by krates, whose graph these examples are about.
pub(crate) fn words_by_krates(alloc: Global, line: &str) -> Result<Vec<String>, Fail> {
    let mut words = words_of(alloc, line)?;
    words.push(String::from_str(alloc, "--by=krates")?)?;
    Ok(words)
}

/// The words of a line, and the documents after `<`. Where there are none, the words are as they stand there.
fn words_and_documents(alloc: Global, line: &str) -> Result<(Vec<String>, &str), Fail> {
    match line.split_once(" < ") {
        Some((words, documents)) => Ok((words_by_krates(alloc, words)?, documents)),
        None => Ok((words_of(alloc, line)?, "")),
    }
}

/// The answer to the words of a line, about the documents after `<`, with `//` between them.
pub(crate) fn answered_of(alloc: Global, line: &str) -> Result<String, Fail> {
    let (words, documents) = words_and_documents(alloc, line)?;
    match asked_of(alloc, &words) {
        Ok(mut asked) => printed_of(alloc, &mut asked, documents),
        Err(error) => Ok(format!(in alloc; "{error}")?),
    }
}

/// A text with one for the other, for each of these.
pub(crate) fn replaced(
    alloc: Global,
    text: &str,
    pairs: &[(&str, &str)],
) -> Result<String, AllocError> {
    let mut text = String::from_str(alloc, text)?;
    for &(old, new) in pairs {
        text = text.replace(alloc, old, new)?;
    }
    Ok(text)
}

/// Lines that are words, with the documents after `<`.
pub(crate) struct Answered;

impl Question for Answered {
    fn told(alloc: Global, line: &str) -> Result<String, Fail> {
        answered_of(alloc, line)
    }
}

/// The words with which cargo is run for the words of a line.
struct CargoTold;

/// Words, with a space between each two.
fn line_of(alloc: Global, words: &[String]) -> Result<String, Fail> {
    let mut line = String::new(alloc);
    for word in words {
        let blank = if line.is_empty() { "" } else { " " };
        write!(line, "{blank}{word}")?;
    }
    Ok(line)
}

impl Question for CargoTold {
    fn told(alloc: Global, line: &str) -> Result<String, Fail> {
        match asked_of(alloc, &words_of(alloc, line)?) {
            Ok(asked) => line_of(alloc, &asked.cargo.command(alloc)?.args()?),
            Err(error) => Ok(format!(in alloc; "{error}")?),
        }
    }
}
