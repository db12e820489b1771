//! Derivations in plain sentences.

use crate::crate_name::ShortId;
use crate::lines::Lines;
use krates::derive::{Derivation, Fact, Step};
use krates::{DepKind, Kid};
use std::alloc::{AllocError, Global};
use std::fmt;

/// The rule by which roots are kept.
const ROOT: u8 = 1;

/// What a step says, and from what it follows.
#[derive(Clone, Copy)]
struct StepSentence<'a> {
    step: &'a Step,
    /// The first step that it uses.
    from: Option<&'a Step>,
    /// The first step that this one uses.
    before: Option<&'a Step>,
}

/// The first step that a step uses.
fn first_used<'a>(derivation: &'a Derivation, step: Option<&Step>) -> Option<&'a Step> {
    let used = step?.uses.first()?;
    derivation.steps.get(*used)
}

/// The step with a number, with what it uses first.
fn sentence_at(derivation: &Derivation, number: usize) -> Option<StepSentence<'_>> {
    let step = derivation.steps.get(number)?;
    let from = first_used(derivation, Some(step));
    let before = first_used(derivation, from);
    Some(StepSentence { step, from, before })
}

/// The fact of a step.
fn fact_of(step: Option<&Step>) -> Option<&Fact> {
    Some(&step?.fact)
}

/// What follows a dependency that isn't normal.
fn purpose(kind: DepKind) -> &'static str {
    match kind {
        DepKind::Normal => "",
        DepKind::Build => ", to build",
        DepKind::Dev => ", for development",
    }
}

/// What enables a feature of a crate.
#[derive(Clone, Copy)]
struct Enabling<'a> {
    krate: &'a Kid,
    name: &'a str,
    /// The step that says that it is enabled.
    sentence: StepSentence<'a>,
}

impl fmt::Display for Enabling<'_> {
    fn fmt<W: fmt::Write>(&self, f: &mut fmt::Formatter<W>) -> fmt::Result {
        match fact_of(self.sentence.from) {
            None => write!(
                f,
                "{} is a root, for which cargo lists it",
                ShortId(self.krate)
            ),
            Some(Fact::Feature { name: by, .. }) => write!(f, "its feature `{by}` enables it"),
            Some(Fact::Kept { parent, .. }) if self.name == "default" => {
                write!(f, "{} needs it with default features", ShortId(parent))
            }
            Some(Fact::Kept { parent: by, .. } | Fact::Crate(by)) => {
                write!(f, "{} asks for it", ShortId(by))
            }
            Some(Fact::Toggled { parent, .. }) => match fact_of(self.sentence.before) {
                Some(Fact::Feature { name: by, .. }) => {
                    write!(f, "feature `{by}` of {} enables it", ShortId(parent))
                }
                _ => write!(f, "a feature of {} enables it", ShortId(parent)),
            },
        }
    }
}

/// The sentence of a step.
impl fmt::Display for StepSentence<'_> {
    fn fmt<W: fmt::Write>(&self, f: &mut fmt::Formatter<W>) -> fmt::Result {
        let sentence = *self;
        match &self.step.fact {
            Fact::Crate(krate) => write!(f, "{} is a root", ShortId(krate)),
            Fact::Toggled { .. } => Ok(()),
            Fact::Feature { krate, name } => {
                let name = name.as_str();
                let enabling = Enabling {
                    krate,
                    name,
                    sentence,
                };
                write!(
                    f,
                    "feature `{name}` of {} is enabled: {enabling}",
                    ShortId(krate)
                )
            }
            Fact::Kept {
                parent,
                child,
                kind,
                cfg,
            } => {
                write!(
                    f,
                    "{} needs {}{}",
                    ShortId(parent),
                    ShortId(child),
                    purpose(*kind)
                )?;
                if let Some(cfg) = cfg {
                    write!(f, ", on {cfg}")?;
                }
                // the feature that enables an optional dependency
                match fact_of(self.from) {
                    Some(Fact::Feature { name, .. }) => write!(f, ", for its feature `{name}`"),
                    _ => Ok(()),
                }
            }
        }
    }
}

impl StepSentence<'_> {
    /// Whether it says more than the steps before it: that a kept edge keeps its crate, and that a feature of one crate enables one of
    /// another, is said once.
    fn says_more(&self) -> bool {
        match &self.step.fact {
            Fact::Crate(_) => self.step.rule == ROOT,
            Fact::Toggled { .. } => false,
            Fact::Feature { .. } | Fact::Kept { .. } => true,
        }
    }
}

/// Adds a sentence for each step that says more than the others.
pub(crate) fn push_sentences(derivation: &Derivation, lines: &mut Lines) {
    for number in 0..derivation.steps.len() {
        if let Some(sentence) = sentence_at(derivation, number) {
            if sentence.says_more() {
                write!(lines, "  {sentence}");
                lines.end();
            }
        }
    }
}

/// Why the feature of the last step is enabled, or nothing where that step is about no feature.
pub(crate) fn last_reason(alloc: Global, derivation: &Derivation) -> Result<String, AllocError> {
    let last = derivation.steps.len().saturating_sub(1);
    let Some(sentence) = sentence_at(derivation, last) else {
        return Ok(String::new(alloc));
    };
    let Fact::Feature { krate, name } = &sentence.step.fact else {
        return Ok(String::new(alloc));
    };
    let name = name.as_str();
    let enabling = Enabling {
        krate,
        name,
        sentence,
    };
    format!(in alloc; "{enabling}")
}
