//! How a document is read from its text.

ghost use Rattle.std.specs.Prelude.{◌≡◌, [], IfOk, IfErr, MatchOption, option_map};
ghost use Rattle.krates_cm.specs.Document.{metadata_view};
ghost use Rattle.krates_cm_json.specs.Parsing.{IsDocument, IsNoDocument, IsRefusal};
ghost use Rattle.krates_cm_json.specs.Tables.{metadata};

use crate::read::from_value::FromValue;
use crate::{JsonRef, Parsed, by_item};
use json::Scratch;
use krates_cm::{Error, Metadata, ReadError};
use serde_json::Value;
use std::alloc::{AllocError, Global};

/// Reads a document from its JSON value; `None` exactly where it is refused. Returns `AllocError` if memory runs out.
fn metadata_of<J: JsonRef>(alloc: Global, value: J) -> Result<Option<Metadata>, AllocError>
    ensures { IfOk result (λ found. option_map metadata_view found ≡ (metadata [] (J.meaning value)).value) }
{
    match Metadata::from_json_at(alloc, value, "") {
        Ok(metadata) => Ok(Some(metadata)),
        Err(ReadError::Memory) => Err(AllocError),
        Err(_) => Ok(None),
    }
}

/// Reads a document whose texts are borrowed until they are copied; `None` exactly where it is refused. Returns
/// `AllocError` if memory runs out.
fn parse_in_place(alloc: Global, text: &str) -> Result<Option<Metadata>, AllocError>
    ensures { IfOk result (λ found. MatchOption found (IsNoDocument text.now)
        (λ m. IsDocument text.now (metadata_view m))) }
{
    let mut scratch = Scratch::new(alloc);
    let Some(parsed) = Parsed::parse(alloc, text, &mut scratch)? else {
        return Ok(None);
    };
    metadata_of(alloc, parsed.root())
}

/// Reads a document: the JSON value of the text (RFC 8259), then the metadata of that value.
///
/// Returns `Json` if the text isn't JSON, and `Value` if its value isn't read. It may instead return `Memory`. Time
/// O(n log n) in the length of the text.
///
/// ```text
/// let metadata = parse(alloc, text)?;
/// for package in &metadata.packages {
///     println!(rt; "{} {}", package.name, package.version)?;
/// }
/// ```
pub fn parse(alloc: Global, text: &str) -> Result<Metadata, Error>
    ensures document { IfOk result (λ m. IsDocument text.now (metadata_view m)) }
    ensures refused { IfErr result (IsRefusal text.now) }
{
    if let Some(metadata) = by_item::document(alloc, text) {
        return Ok(metadata);
    }
    if let Some(metadata) = parse_in_place(alloc, text)? {
        return Ok(metadata);
    }
    // `serde_json` and its values say why it is refused.
    let value = Value::from_str(alloc, text)?;
    Ok(Metadata::from_value(alloc, &value)?)
}
