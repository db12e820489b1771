//! Questions to what is selected of the document of a line.

use crate::setting::setting_of;
use krates_cm::Metadata;
use krates_ids::Error;
use krates_resolve::{Selection, Setting, admit, select};
use krates_samples::documents::metadata;
use krates_samples::table::Tell;
use krates_text::text::Text;
use std::marker::PhantomData;
use std::test::Fail;

/// What is reported of a selection.
pub(crate) trait ToldOfSelection {
    /// Adds what is reported of this one.
    fn push(told: &mut Text, selection: &Selection);
}

/// What is reported of the selection of the document of each line of a table under its setting, or the text of the refusal.
pub(crate) struct OfSelection<T: ToldOfSelection> {
    of: PhantomData<T>,
}

/// Adds what is reported of the selection of a document under this setting, or the text of the refusal.
fn push_selected<T: ToldOfSelection>(
    told: &mut Text,
    metadata: &Metadata,
    setting: &Setting,
) -> Result<(), Error> {
    let ids = admit(told.allocator(), metadata)?;
    match select(told.allocator(), metadata, &ids, setting) {
        Ok(selection) => T::push(told, &selection),
        Err(error) => write!(told, "{error}"),
    }
    Ok(())
}

impl<T: ToldOfSelection> Tell for OfSelection<T> {
    fn tell(told: &mut Text, line: &str) -> Result<(), Fail> {
        let setting = setting_of(told.allocator(), line)?;
        let metadata = metadata(told.allocator(), line)?;
        let selected = push_selected::<T>(told, &metadata, &setting);
        metadata.let_go();
        Ok(selected?)
    }
}
