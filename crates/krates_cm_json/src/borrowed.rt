//! Values that borrow their texts from the text that was parsed.

ghost use Rattle.std.specs.Prelude.{◌≡◌, option_map};
ghost use Rattle.json.specs.Find.{as_array};
ghost use Rattle.json.specs.Value.{value_view};
ghost use Rattle.krates_cm_json.specs.Readable.{IsReadable, IsReadable-prop, data_in};

use crate::json_ref::JsonRef;
use json::Value as Tree;
use serde_json::Value;
use std::alloc::{AllocError, Global};
use std::collections::BTreeMap;

/// A value within a text that was read: it lasts as long as the text and what was read from it.
#[derive(Clone, Copy, Drop)]
pub struct Borrowed<'v, 't> {
    pub(crate) tree: &'v Tree<'t>,
    ghost readable: { IsReadable (value_view tree.now) } by { IsReadable-prop _ },
}

impl<'v, 't> JsonRef for Borrowed<'v, 't> {
    ghost meaning = { λ j. data_in (value_view j.tree.now) };

    fn is_null(&self) -> bool {
        self.tree.is_null()
    }

    fn is_object(&self) -> bool {
        matches!(self.tree, Tree::Object(_))
    }

    fn as_bool(&self) -> Option<bool> {
        self.tree.as_bool()
    }

    fn as_str(&self) -> Option<&str> {
        self.tree.as_str()
    }

    fn len(&self) -> Option<usize> {
        match self.tree {
            Tree::Array(items) => Some(items.len()),
            _ => None,
        }
    }

    fn item(&self, index: usize) -> Option<Borrowed<'v, 't>> {
        let tree = self.tree.at(index)?;
        Some(Borrowed { tree })
    }

    fn get(&self, key: &str) -> Option<Borrowed<'v, 't>> {
        let tree = self.tree.get(key)?;
        Some(Borrowed { tree })
    }

    fn members(
        &self,
        alloc: Global,
    ) -> Result<Option<BTreeMap<&str, Borrowed<'v, 't>>>, AllocError> {
        let Tree::Object(members) = self.tree else {
            return Ok(None);
        };
        let mut found = BTreeMap::new(alloc);
        for member in members {
            found.insert(member.0, Borrowed { tree: &member.1 })?;
        }
        Ok(Some(found))
    }

    /// Made from its text, which `serde_json` reads unless memory runs out; null, the most common value, is made directly.
    fn to_value(&self, alloc: Global) -> Result<Value, AllocError> {
        if self.tree.is_null() {
            return Ok(Value::Null);
        }
        let text = json::to_vec(alloc, self.tree)?;
        match Value::from_slice(alloc, text.as_slice()) {
            Ok(value) => Ok(value),
            Err(_) => Err(AllocError),
        }
    }
}
