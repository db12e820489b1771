//! The document as an index corrects it.

ghost use Rattle.std.specs.Prelude.{IfOk};
ghost use Rattle.krates_cm.specs.Document.{metadata_view};
ghost use Rattle.krates_checkers.specs.CheckedDocument.{IsCorrectedBy};
ghost use Rattle.krates_ids.specs.Correction.{index_view};

use krates_cm::Metadata;
use krates_document::corrected_document::corrected;
use krates_ids::CachingIndex;
use std::alloc::{AllocError, Global};

/// A copy of the document with each package corrected.
pub(crate) fn corrected_copy(
    alloc: Global,
    index: &CachingIndex,
    metadata: &Metadata,
) -> Result<Metadata, AllocError>
    ensures { IfOk result
        (λ seen. IsCorrectedBy (index_view index.now.answer) (metadata_view metadata.now)
        (metadata_view seen)) }
{
    let copy = metadata.clone()?;
    corrected(alloc, index, copy)
}
