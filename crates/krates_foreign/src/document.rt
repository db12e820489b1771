//! The document of bytes.

ghost use Rattle.std.specs.Prelude.{IfErr, IfOk};
ghost use Rattle.krates_foreign.specs.Documents.{IsDocumentIn, IsNoDocumentIn};

use crate::refusal::CallRefusal;
use krates::Metadata;
use krates::cm::MetadataCommand;
use std::alloc::Global;
use std::str;

/// The document that the bytes are. It is refused as `Utf8` or `Parse`, each only where that is true of the bytes, or as `Memory`.
pub(crate) fn document_in(alloc: Global, bytes: &[u8]) -> Result<Metadata, CallRefusal>
    ensures read { IfOk result (IsDocumentIn bytes.now) }
    ensures refused { IfErr result (IsNoDocumentIn bytes.now) }
{
    let Ok(text) = str::from_utf8(bytes) else {
        return Err(CallRefusal::Utf8);
    };
    Ok(MetadataCommand::parse(alloc, text)?)
}
