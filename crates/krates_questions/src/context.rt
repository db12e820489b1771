//! What a search goes by.

use crate::questions::Document;
use krates_document::setting::Setting;
use std::alloc::Global;

/// What a search goes by: a document and a setting.
#[derive(Clone, Copy)]
pub struct Context<'a, 's> {
    /// What memory comes from.
    pub alloc: Global,
    /// The document.
    pub document: &'s Document<'a>,
    /// What the caller asks for.
    pub setting: &'s Setting,
}
