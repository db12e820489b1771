//! Reads a cfg expression once, from left to right, and keeps the forms that are open on a stack of its own.
ghost use Rattle.std.specs.Prelude.{◌≡◌, string_bytes};
ghost use Rattle.krates_text.specs.CfgGrammar.{is_blank, is_word_start, is_word_part, is_reserved, is_form};
ghost use Rattle.krates_text.specs.CfgReader.{at_predicate, in_word, leaf, opened, divided, closed_after, closed_before, step_after, step_word, step_at, read};
ghost use Rattle.krates_text.specs.CfgView.{tree_of};
ghost use Rattle.krates_text.specs.CfgFrames.{stack};
ghost use Rattle.krates_text.specs.CfgPlaces.{place_of, GivesPlace, GivesString, GivesTree};

use crate::cfg::CfgError;
use crate::cfg::frame::{Frame, depth, frame_for, pop, push, with_last};
use crate::cfg::predicate::{Predicate, all_of, any_of, not_of};
use std::alloc::Global;

/// How many forms may be nested.
const MAX_NESTING: usize = 127;

/// Where the reader is.
#[derive(Drop)]
enum Place {
    /// Where a predicate may begin.
    AtPredicate,
    InWord(String),
    /// In the white space after a word.
    AfterWord(String),
    /// After the `=` that follows this key.
    AtString(String),
    InString { key: String, string: String },
    AfterPredicate(Predicate),
    /// After the last `)`.
    AtEnd(Predicate),
}

/// Reads the text after `cfg(`, up to its end, as a predicate.
pub(crate) fn read(alloc: Global, text: &str) -> Result<Predicate, CfgError>
    ensures { GivesTree result (read text.now) }
{
    let mut frames = Vec::new(alloc);
    let mut place = Place::AtPredicate;
    let mut chars = text.chars();
    while let Some(c) = chars.next() {
        place = step(alloc, &mut frames, place, c)?;
    }
    match place {
        Place::AtEnd(predicate) => Ok(predicate),
        _ => Err(CfgError::Syntax),
    }
}

/// The place after one more character.
#[tactic(auto, unfolding(crate::specs::CfgReader::step))]
fn step(alloc: Global, frames: &mut Vec<Frame>, place: Place, c: char) -> Result<Place, CfgError>
    ensures { GivesPlace frames.new.items result (step_at (stack frames.old.items) (place_of place) c) }
{
    match place {
        Place::AtPredicate => step_predicate(alloc, frames, c),
        Place::InWord(word) => step_letter(alloc, frames, word, c),
        Place::AfterWord(word) => step_word(alloc, frames, word, c),
        Place::AtString(key) => {
            if is_blank(c) {
                Ok(Place::AtString(key))
            } else if c == '"' {
                Ok(Place::InString {
                    key,
                    string: String::new(alloc),
                })
            } else {
                Err(CfgError::Syntax)
            }
        }
        Place::InString { key, string } => step_string(key, string, c),
        Place::AfterPredicate(predicate) => step_after(alloc, frames, predicate, c),
        Place::AtEnd(predicate) => {
            if is_blank(c) {
                Ok(Place::AtEnd(predicate))
            } else {
                Err(CfgError::Syntax)
            }
        }
    }
}

/// A character where a predicate may begin.
#[tactic(auto, unfolding(crate::specs::CfgReader::step))]
fn step_predicate(alloc: Global, frames: &mut Vec<Frame>, c: char) -> Result<Place, CfgError>
    ensures { GivesPlace frames.new.items result (step_at (stack frames.old.items) at_predicate c) }
{
    if is_blank(c) {
        Ok(Place::AtPredicate)
    } else if c == ')' {
        closed_before(frames)
    } else if is_word_start(c) {
        let mut word = String::new(alloc);
        word.push(c)?;
        Ok(Place::InWord(word))
    } else {
        Err(CfgError::Syntax)
    }
}

/// A character in a word.
#[tactic(auto, unfolding(crate::specs::CfgReader::step))]
fn step_letter(
    alloc: Global,
    frames: &mut Vec<Frame>,
    mut word: String,
    c: char,
) -> Result<Place, CfgError>
    ensures { GivesPlace frames.new.items result
        (step_at (stack frames.old.items) (in_word (string_bytes word)) c) }
{
    if is_word_part(c) {
        word.push(c)?;
        Ok(Place::InWord(word))
    } else {
        step_word(alloc, frames, word, c)
    }
}

/// A character after a word.
#[tactic(auto, unfolding(crate::specs::CfgReader::step_word))]
fn step_word(
    alloc: Global,
    frames: &mut Vec<Frame>,
    word: String,
    c: char,
) -> Result<Place, CfgError>
    ensures { GivesPlace frames.new.items result (step_word (stack frames.old.items) (string_bytes word) c) }
{
    if is_blank(c) {
        Ok(Place::AfterWord(word))
    } else if c == '(' {
        opened(alloc, frames, word.as_str())
    } else if c == '=' {
        if is_reserved(word.as_str()) {
            return Err(CfgError::Syntax);
        }
        Ok(Place::AtString(word))
    } else if is_form(word.as_str()) {
        Err(CfgError::Syntax)
    } else {
        step_after(alloc, frames, leaf(word), c)
    }
}

/// A character in the string of a pair.
fn step_string(key: String, mut string: String, c: char) -> Result<Place, CfgError>
    ensures { GivesString (string_bytes key) (string_bytes string) c result }
{
    if c == '"' {
        return Ok(Place::AfterPredicate(Predicate::Pair { key, string }));
    }
    string.push(c)?;
    Ok(Place::InString { key, string })
}

/// A character after a predicate.
#[tactic(auto, unfolding(crate::specs::CfgReader::step_after))]
fn step_after(
    alloc: Global,
    frames: &mut Vec<Frame>,
    predicate: Predicate,
    c: char,
) -> Result<Place, CfgError>
    ensures { GivesPlace frames.new.items result (step_after (stack frames.old.items) (tree_of predicate) c) }
{
    if is_blank(c) {
        Ok(Place::AfterPredicate(predicate))
    } else if c == ',' {
        divided(frames, predicate)
    } else if c == ')' {
        closed_after(alloc, frames, predicate)
    } else {
        Err(CfgError::Syntax)
    }
}

/// A `(` after a word.
fn opened(alloc: Global, frames: &mut Vec<Frame>, word: &str) -> Result<Place, CfgError>
    ensures { GivesPlace frames.new.items result (opened (stack frames.old.items) word.now) }
{
    if !is_form(word) {
        return Err(CfgError::Syntax);
    }
    if depth(frames) >= MAX_NESTING {
        return Err(CfgError::TooDeep);
    }
    push(frames, frame_for(alloc, word))?;
    Ok(Place::AtPredicate)
}

/// A comma after a predicate.
fn divided(frames: &mut Vec<Frame>, predicate: Predicate) -> Result<Place, CfgError>
    ensures { GivesPlace frames.new.items result (divided (stack frames.old.items) (tree_of predicate)) }
{
    let wider = match pop(frames) {
        Some(Frame::All(predicates)) => Frame::All(with_last(predicates, predicate)?),
        Some(Frame::Any(predicates)) => Frame::Any(with_last(predicates, predicate)?),
        Some(Frame::Not) | None => return Err(CfgError::Syntax),
    };
    push(frames, wider)?;
    Ok(Place::AtPredicate)
}

/// A `)` after a predicate.
fn closed_after(
    alloc: Global,
    frames: &mut Vec<Frame>,
    predicate: Predicate,
) -> Result<Place, CfgError>
    ensures { GivesPlace frames.new.items result (closed_after (stack frames.old.items) (tree_of predicate)) }
{
    match pop(frames) {
        Some(Frame::All(predicates)) => {
            let whole = all_of(with_last(predicates, predicate)?);
            Ok(Place::AfterPredicate(whole))
        }
        Some(Frame::Any(predicates)) => {
            let whole = any_of(with_last(predicates, predicate)?);
            Ok(Place::AfterPredicate(whole))
        }
        Some(Frame::Not) => Ok(Place::AfterPredicate(not_of(alloc, predicate)?)),
        None => Ok(Place::AtEnd(predicate)),
    }
}

/// A `)` where a predicate may begin.
fn closed_before(frames: &mut Vec<Frame>) -> Result<Place, CfgError>
    ensures { GivesPlace frames.new.items result (closed_before (stack frames.old.items)) }
{
    match pop(frames) {
        Some(Frame::All(predicates)) => Ok(Place::AfterPredicate(all_of(predicates))),
        Some(Frame::Any(predicates)) => Ok(Place::AfterPredicate(any_of(predicates))),
        Some(Frame::Not) | None => Err(CfgError::Syntax),
    }
}

/// A word without a value.
fn leaf(word: String) -> Predicate
    ensures { tree_of result ≡ leaf (string_bytes word) }
{
    if word.as_str() == "true" {
        Predicate::Constant(true)
    } else if word.as_str() == "false" {
        Predicate::Constant(false)
    } else {
        Predicate::Word(word)
    }
}

/// Whether the word names a form.
fn is_form(word: &str) -> bool
    ensures { result ≡ is_form word.now }
{
    word == "all" || word == "any" || word == "not"
}

/// Whether the word means something in the grammar: a form or a constant.
fn is_reserved(word: &str) -> bool
    ensures { result ≡ is_reserved word.now }
{
    is_form(word) || word == "true" || word == "false"
}

fn is_blank(c: char) -> bool
    ensures { result ≡ is_blank c }
{
    c == ' ' || c == '\t' || c == '\n' || c == '\r'
}

/// An ASCII letter or `_`.
fn is_word_start(c: char) -> bool
    ensures { result ≡ is_word_start c }
{
    ('a' <= c && c <= 'z') || ('A' <= c && c <= 'Z') || c == '_'
}

/// An ASCII letter, `_` or a digit.
fn is_word_part(c: char) -> bool
    ensures { result ≡ is_word_part c }
{
    is_word_start(c) || ('0' <= c && c <= '9')
}
