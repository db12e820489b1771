//! Escapes in the query of a git source.

ghost use Rattle.std.specs.Prelude.{◌≡◌, ◌<◌, ◌∷◌, ◌++◌, length, IfOk, string_bytes};
ghost use Rattle.percent_encoding.specs.Percent as percent;
ghost use Rattle.krates_ids.specs.Escapes.{AreEscapes, IsEscapable, IsEscape, IsEscapedAt, Tells};
ghost use Rattle.krates_ids.specs.Separators.{hash_sign, question_mark};

use percent_encoding::{DecodeError, percent_decode};
use std::alloc::{AllocError, Global};

/// Whether an escape may encode the byte: the space or ASCII punctuation.
fn is_escapable(byte: u8) -> bool
    ensures { Tells (IsEscapable byte) result }
{
    byte == b' ' || byte.is_ascii_punctuation()
}

/// Whether the two characters after a `%` are the hexadecimal digits of a byte that may be escaped.
fn is_escape(high: u8, low: u8) -> bool
    ensures { Tells (IsEscape high low) result }
{
    let Some(high) = char::from(high).to_digit(16) else {
        return false;
    };
    let Some(low) = char::from(low).to_digit(16) else {
        return false;
    };
    is_escapable((16 * high + low) as u8)
}

/// Whether the byte at `i` isn't a `%`, or begins an escape.
fn is_escaped_at(bytes: &[u8], i: usize) -> bool
    requires { i < length bytes.now }
    ensures { Tells (IsEscapedAt bytes.now i) result }
{
    if bytes[i] != b'%' {
        return true;
    }
    if bytes.len() - i < 3 {
        return false;
    }
    is_escape(bytes[i + 1], bytes[i + 2])
}

/// Whether each `%` of the query begins an escape.
pub(crate) fn are_escapes(query: &str) -> bool
    ensures { Tells (AreEscapes query.now) result }
{
    let bytes = query.as_bytes();
    for i in 0..bytes.len() {
        if !is_escaped_at(bytes, i) {
            return false;
        }
    }
    true
}

/// The text of an id with its query decoded.
pub(crate) fn decoded_text(
    alloc: Global,
    front: &str,
    query: &str,
    fragment: &str,
) -> Result<String, AllocError>
    requires { AreEscapes query.now }
    ensures { IfOk result (λ t. string_bytes t
        ≡ (front.now ++ question_mark ∷ percent.percent_decode query.now) ++ hash_sign ∷ fragment.now) }
{
    match percent_decode(query.as_bytes()).decode_utf8(alloc) {
        Ok(decoded) => {
            let query = decoded.as_str();
            format!(in alloc; "{front}?{query}#{fragment}")
        }
        Err(DecodeError::OutOfMemory) => Err(AllocError),
        Err(DecodeError::Utf8(_)) => unreachable!(),
    }
}
