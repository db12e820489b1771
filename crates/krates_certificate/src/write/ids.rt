//! Texts of ids.

ghost use Rattle.std.specs.Prelude.{◌≡◌, ◌↔◌, IsTrue, IfOk, string_bytes};
ghost use Rattle.krates_rules.specs.Resolved.{id_of, ReadsAs};
ghost use Rattle.krates_certificate.specs.CertificateRefusals.{IsOfMemory};
ghost use Rattle.krates_certificate.specs.Written.{parts_text, IsTextFor};

use crate::read::fields::is_of_memory;
use krates_cm::PackageId;
use krates_ids::Kid;
use std::alloc::{AllocError, Global};

/// A text that reads as the id, if any does: its own, or if that reads differently, since the query of a git source was decoded,
/// its parts in the opaque form, in which nothing is decoded.
pub(crate) fn id_text(alloc: Global, id: &Kid) -> Result<String, AllocError>
    ensures { IfOk result (λ s. IsTextFor id.now (string_bytes s)) }
{
    if reads_as_itself(alloc, id)? {
        return String::from_str(alloc, id.repr());
    }
    parts_text(alloc, id)
}

/// The parts of the id in the opaque form, with an empty commit.
fn parts_text(alloc: Global, id: &Kid) -> Result<String, AllocError>
    ensures { IfOk result (λ s. string_bytes s ≡ parts_text id.now) }
{
    let (name, version, source) = (id.name(), id.version(), id.source());
    format!(in alloc; "{name} {version} ({source}#)")
}

/// Whether the text of the id reads as it.
fn reads_as_itself(alloc: Global, id: &Kid) -> Result<bool, AllocError>
    ensures { IfOk result (λ itself. IsTrue itself ↔ ReadsAs id.now.text (id_of id.now)) }
{
    let repr = String::from_str(alloc, id.repr())?;
    match Kid::try_from(PackageId { repr }) {
        Ok(read) => Ok(read == *id),
        Err(error) => {
            if is_of_memory(&error) {
                return Err(AllocError);
            }
            Ok(false)
        }
    }
}
