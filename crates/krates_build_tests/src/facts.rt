//! Facts and steps of the checkers, in the small language of facts (`krates_samples::facts`), and what the checkers answer, in words.
//!
//! A line begins with a document, has the sections of a setting (`krates_samples::settings`) where something is set, and ends with the
//! section `steps` or the section `facts`.

use crate::lists::Sections;
use crate::setting::setting_of;
use krates_checkers::CheckError;
use krates_document::Setting;
use krates_ids::Kid;
use krates_rules::{DepKind, Fact, Step};
use krates_samples::documents::word_of;
use krates_text::text::Text;
use std::alloc::Global;
use std::test::Fail;

/// Adds what follows the child of a kept edge: its kind, where it isn't normal, and its target.
pub(crate) fn push_purpose(text: &mut Text, kind: DepKind, cfg: Option<&str>) {
    let word = match kind {
        DepKind::Normal => "",
        DepKind::Build => "build",
        DepKind::Dev => "dev",
    };
    if let Some(cfg) = cfg {
        write!(text, ":{word}:{cfg}");
    } else if !word.is_empty() {
        write!(text, ":{word}");
    }
}

/// The word for a crate.
fn word(krate: &Kid) -> &str {
    word_of(krate.repr())
}

/// Adds the word of a fact.
fn push_word(text: &mut Text, fact: &Fact) {
    match fact {
        Fact::Crate(krate) => write!(text, "+{}", word(krate)),
        Fact::Feature { krate, name } => write!(text, "{}/{name}", word(krate)),
        Fact::Kept {
            parent,
            child,
            kind,
            cfg,
        } => {
            write!(text, "{}>{}", word(parent), word(child));
            push_purpose(text, *kind, cfg.as_deref())
        }
        Fact::Toggled {
            parent,
            child,
            name,
        } => write!(text, "{}>{}/{name}", word(parent), word(child)),
    }
}

/// Adds a step, with a semicolon after it.
fn push_step(text: &mut Text, step: &Step) {
    write!(text, "{} ", step.rule);
    push_word(text, &step.fact);
    for used in &step.uses {
        write!(text, " {used}");
    }
    text.push_str("; ")
}

/// Adds steps in the words in which they are read.
pub(crate) fn push_steps(text: &mut Text, steps: &[Step]) {
    for step in steps {
        push_step(text, step);
    }
}

impl Sections for Setting {
    fn of_line(alloc: Global, line: &str) -> Result<Setting, Fail> {
        setting_of(alloc, line)
    }
}

/// Adds the word for an answer.
pub(crate) fn push_answer(text: &mut Text, answer: Result<(), CheckError>) {
    match answer {
        Ok(()) => text.push_str("yes"),
        Err(CheckError::Document) => text.push_str("document"),
        Err(CheckError::Empty) => text.push_str("empty"),
        Err(CheckError::Step(number)) => write!(text, "step {number}"),
        Err(CheckError::Memory) => text.push_str("memory"),
        Err(CheckError::Open) => text.push_str("open"),
    }
}
