//! Texts that are borrowed.

ghost use Rattle.std.specs.Prelude.{◌≡◌, IfOk, map};
ghost use Rattle.krates_cm.specs.Document.{text_view};

use std::alloc::{AllocError, Global};

/// These texts, borrowed, in their order.
pub(crate) fn borrowed<'a>(alloc: Global, texts: &'a [String]) -> Result<Vec<&'a str>, AllocError>
    ensures { IfOk result (λ lent. map (λ t. t.now) lent.items ≡ map text_view texts.now) }
{
    let mut lent = Vec::new(alloc);
    for text in texts {
        lent.push(text.as_str())?;
    }
    Ok(lent)
}
