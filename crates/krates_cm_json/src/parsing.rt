//! Reading JSON texts.

ghost use Rattle.std.specs.Prelude.{◌≡◌, IfOk, option_map};
ghost use Rattle.serde_json.specs.Read.{read};
ghost use Rattle.krates_cm_json.specs.JsonViews.{parsed_data, borrowed_data};

use crate::borrowed::Borrowed;
use crate::parsed::Parsed;
use crate::range::is_in_range;
use json::{Reader, Scratch, Value as Tree};
use std::alloc::{AllocError, Global};

/// How deep arrays and objects may nest, as in `serde_json`.
const MAX_DEPTH: usize = 127;

impl<'t> Parsed<'t> {
    /// Reads a text as `serde_json` does: the same data, and `None` exactly where it reads none. Returns `AllocError` if memory
    /// runs out. Time O(n) in the length of the text.
    pub fn parse(
        alloc: Global,
        text: &'t str,
        scratch: &'t mut Scratch,
    ) -> Result<Option<Parsed<'t>>, AllocError>
        ensures { IfOk result (λ found. option_map parsed_data found ≡ read text.now) }
    {
        let mut reader = Reader::new(text, scratch)?;
        let tree = match Tree::read(alloc, &mut reader, MAX_DEPTH) {
            Ok(tree) => tree,
            Err(json::Error::OutOfMemory) => return Err(AllocError),
            Err(_) => return Ok(None),
        };
        if reader.next().is_some() || !is_in_range(&tree) {
            return Ok(None);
        }
        Ok(Some(Parsed { tree }))
    }

    /// The whole value. Time O(1).
    pub fn root(&self) -> Borrowed<'_, 't>
        ensures { borrowed_data result ≡ parsed_data self.now }
    {
        Borrowed { tree: &self.tree }
    }
}
