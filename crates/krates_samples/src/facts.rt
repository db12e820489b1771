//! A small language of facts, and of lists of them. Crates are written as the words of documents are.
//!
//! - `+a`: the crate is kept.
//! - `a/f`: the feature of the crate is enabled.
//! - `a>b`, `a>b:dev` and `a>b:dev:TARGET`: the edge is kept.
//! - `a>b/f`: a feature of the first crate toggles one of the second.
//!
//! A step is the number of its rule, its fact, and the numbers of the steps that it uses, as `4 a>b 1`; a semicolon separates steps.

use crate::documents::{kid_of, kind_named};
use crate::settings::{FromText, all_of};
use krates_ids::Kid;
use krates_rules::{DepKind, Derivation, Fact, Step};
use std::alloc::{AllocError, Global};
use std::test::Fail;

/// The text that may be there.
fn text_of(alloc: Global, text: Option<&str>) -> Result<Option<String>, AllocError> {
    match text {
        Some(text) => Ok(Some(String::from_str(alloc, text)?)),
        None => Ok(None),
    }
}

/// The ids of the two crates of an edge.
fn ends_of(alloc: Global, parent: &str, child: &str) -> Result<(Kid, Kid), Fail> {
    let parent = kid_of(alloc, parent)?;
    let child = kid_of(alloc, child)?;
    Ok((parent, child))
}

/// The fact that an edge is kept: its child, kind and target come after its parent.
fn kept(alloc: Global, parent: &str, rest: &str) -> Result<Fact, Fail> {
    let mut parts = rest.split(':');
    let child = parts.next().unwrap_or("");
    let kind = DepKind::from(kind_named(parts.next().unwrap_or("")));
    let cfg = text_of(alloc, parts.next())?;
    let (parent, child) = ends_of(alloc, parent, child)?;
    Ok(Fact::Kept {
        parent,
        child,
        kind,
        cfg,
    })
}

/// The fact of an edge, from what comes after its parent.
fn edge_fact(alloc: Global, parent: &str, rest: &str) -> Result<Fact, Fail> {
    let Some((child, name)) = rest.split_once('/') else {
        return kept(alloc, parent, rest);
    };
    let name = String::from_str(alloc, name)?;
    let (parent, child) = ends_of(alloc, parent, child)?;
    Ok(Fact::Toggled {
        parent,
        child,
        name,
    })
}

/// The fact that a feature is enabled: its crate comes before its name.
fn enabled(alloc: Global, word: &str) -> Result<Fact, Fail> {
    let (krate, name) = word.split_once('/').unwrap_or((word, ""));
    let name = String::from_str(alloc, name)?;
    let krate = kid_of(alloc, krate)?;
    Ok(Fact::Feature { krate, name })
}

/// The fact of a word.
impl FromText for Fact {
    fn from_text(alloc: Global, word: &str) -> Result<Fact, Fail> {
        if let Some(krate) = word.strip_prefix("+") {
            return Ok(Fact::Crate(kid_of(alloc, krate)?));
        }
        match word.split_once('>') {
            Some((parent, rest)) => edge_fact(alloc, parent, rest),
            None => enabled(alloc, word),
        }
    }
}

impl FromText for usize {
    fn from_text(_alloc: Global, text: &str) -> Result<usize, Fail> {
        Ok(text.parse()?)
    }
}

/// The step of its words.
impl FromText for Step {
    fn from_text(alloc: Global, text: &str) -> Result<Step, Fail> {
        let (rule, rest) = text.split_once(' ').unwrap_or((text, ""));
        let (word, uses) = rest.split_once(' ').unwrap_or((rest, ""));
        let rule = rule.parse()?;
        let uses = all_of(alloc, uses, ' ')?;
        let fact = Fact::from_text(alloc, word)?;
        Ok(Step { rule, fact, uses })
    }
}

/// The steps of a text.
pub fn steps_of(alloc: Global, text: &str) -> Result<Derivation, Fail> {
    let steps = all_of(alloc, text, ';')?;
    Ok(Derivation { steps })
}

/// Adds the fact of a word.
pub fn push_fact(facts: &mut Vec<Fact>, alloc: Global, word: &str) -> Result<(), Fail> {
    facts.push(Fact::from_text(alloc, word)?)?;
    Ok(())
}

/// The facts of the words.
pub fn facts_of(alloc: Global, text: &str) -> Result<Vec<Fact>, Fail> {
    all_of(alloc, text, ' ')
}
