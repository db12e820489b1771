//! The lines that `rustc --print cfg` prints.
ghost use Rattle.std.specs.Prelude.{◌≡◌, ◌↔◌, IfErr, IfOk, IsTrue, MatchOption, map, string_bytes};
ghost use Rattle.std.specs.List.{AllByRecursion};
ghost use Rattle.std.specs.Str.Lines.{lines};
ghost use Rattle.krates_cm.specs.Document.{Text};
ghost use Rattle.krates_text.specs.CfgGrammar.{IsWord, is_word_start, is_word_part};
ghost use Rattle.krates_text.specs.CfgHolding.{pair_bytes};
ghost use Rattle.krates_units.specs.MachineFaults.{IsFaultOf};
ghost use Rattle.krates_units.specs.RustcLines.{IsPair, LinesSay};

use crate::machine::MachineError;
use std::alloc::{AllocError, Global};

/// The words and the pairs that the lines of a text say, in order.
pub(crate) fn read_lines(
    alloc: Global,
    printed: &str,
) -> Result<(Vec<String>, Vec<(String, String)>), MachineError>
    ensures read { IfOk result (λ said. LinesSay (lines printed.now)
        (map string_bytes said.0.items) (map pair_bytes said.1.items)) }
    ensures refused { IfErr result (λ error. IsFaultOf printed.now error) }
{
    let mut words = Vec::new(alloc);
    let mut pairs = Vec::new(alloc);
    for line in printed.lines() {
        if is_word(line) {
            words.push(String::from_str(alloc, line)?)?;
        } else if let Some((key, string)) = pair_in(line) {
            pairs.push(copied(alloc, key, string)?)?;
        } else {
            return Err(MachineError::BadLine(words.len() + pairs.len() + 1));
        }
    }
    Ok((words, pairs))
}

/// A pair of its own with these texts.
fn copied(alloc: Global, key: &str, string: &str) -> Result<(String, String), AllocError>
    ensures { IfOk result (λ pair. pair_bytes pair ≡ (key.now, string.now)) }
{
    Ok((
        String::from_str(alloc, key)?,
        String::from_str(alloc, string)?,
    ))
}

/// The key and the string of a line, if it is a pair.
pub(crate) fn pair_in(line: &str) -> Option<(&str, &str)>
    ensures { MatchOption result ((key string : Text) → ¬ IsPair line.now key string)
        (λ pair. IsPair line.now pair.0.now pair.1.now) }
{
    let (key, behind) = line.split_once('=')?;
    let quoted = behind.strip_prefix('"')?;
    let (string, rest) = quoted.split_once('"')?;
    if !rest.is_empty() {
        return None;
    }
    if is_word(key) {
        Some((key, string))
    } else {
        None
    }
}

/// Whether a text is a letter of ASCII or `_`, and behind it letters, digits and `_`.
pub(crate) fn is_word(text: &str) -> bool
    ensures { IsTrue result ↔ IsWord text.now }
{
    match text.as_bytes() {
        [] => false,
        [first, rest @ ..] => is_word_start(*first) && are_word_parts(rest),
    }
}

fn are_word_parts(bytes: &[u8]) -> bool
    ensures { IsTrue result ↔ AllByRecursion (λ byte. IsTrue (is_word_part byte)) bytes.now }
{
    bytes.iter().all(|byte| is_word_part(*byte))
}

fn is_word_start(byte: u8) -> bool
    ensures { result ≡ is_word_start byte }
{
    (b'a' <= byte && byte <= b'z') || (b'A' <= byte && byte <= b'Z') || byte == b'_'
}

fn is_word_part(byte: u8) -> bool
    ensures { result ≡ is_word_part byte }
{
    is_word_start(byte) || (b'0' <= byte && byte <= b'9')
}
