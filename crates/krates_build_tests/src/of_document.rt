//! Questions to a document that is admitted.

use krates_cm::Metadata;
use krates_resolve::{Document, Setting, admit};
use krates_text::text::Text;
use std::test::Fail;

/// What is asked of a document that is admitted.
pub(crate) trait ToldOfDocument {
    /// Adds what it answers to these words under a setting.
    fn push(
        told: &mut Text,
        asked: &Document<'_>,
        setting: &Setting,
        words: &str,
    ) -> Result<(), Fail>;
}

/// Adds what a document answers to these words under a setting, once it is admitted.
pub(crate) fn push_told<T: ToldOfDocument>(
    told: &mut Text,
    metadata: &Metadata,
    setting: &Setting,
    words: &str,
) -> Result<(), Fail> {
    let ids = admit(told.allocator(), metadata)?;
    let asked = Document::new(told.allocator(), metadata, &ids)?;
    T::push(told, &asked, setting, words)
}
