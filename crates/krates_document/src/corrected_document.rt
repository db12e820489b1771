//! A document with each package corrected by what an index answers.

ghost use Rattle.std.specs.Prelude.{IfOk};
ghost use Rattle.krates_document.specs.CorrectedDocument.{IsCorrectedDocument};

use krates_cm::Metadata;
use krates_ids::CachingIndex;
use std::alloc::{AllocError, Global};

/// The document with each package corrected by what the index has answered, in their order; nothing else is changed.
///
/// No index is asked. The only error is running out of memory. Time: that of a correction of each package.
pub fn corrected(
    alloc: Global,
    index: &CachingIndex,
    mut metadata: Metadata,
) -> Result<Metadata, AllocError>
    ensures { IfOk result (IsCorrectedDocument index.now.answer metadata) }
{
    for pkg in metadata.packages.iter_mut() {
        index.correct(alloc, pkg)?;
    }
    Ok(metadata)
}
