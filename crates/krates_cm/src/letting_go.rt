//! Dropping documents.
//!
//! How each part of a document is dropped is proved here, once. A crate that drops each of its documents by this call, and none at
//! the end of a block or at a `?`, needs no such proof of its own.

use crate::metadata::Metadata;

impl Metadata {
    /// Drops the document. Time O(size of the document).
    pub fn let_go(self) {
        drop(self);
    }
}
