//! Values of `serde_json`.

ghost use Rattle.serde_json.specs.View.{view as data_of};

use crate::json_ref::JsonRef;
use serde_json::Value;
use std::alloc::{AllocError, Global};
use std::collections::BTreeMap;

/// A value of `serde_json`.
#[derive(Clone, Copy, Drop)]
pub struct Owned<'t> {
    /// The value.
    pub value: &'t Value,
}

impl<'t> JsonRef for Owned<'t> {
    ghost meaning = { λ j. data_of j.value.now };

    fn is_null(&self) -> bool {
        self.value.is_null()
    }

    fn is_object(&self) -> bool {
        self.value.is_object()
    }

    fn as_bool(&self) -> Option<bool> {
        self.value.as_bool()
    }

    fn as_str(&self) -> Option<&str> {
        self.value.as_str()
    }

    fn len(&self) -> Option<usize> {
        Some(self.value.as_array()?.len())
    }

    fn item(&self, index: usize) -> Option<Owned<'t>> {
        let value = self.value.get(index)?;
        Some(Owned { value })
    }

    fn get(&self, key: &str) -> Option<Owned<'t>> {
        let value = self.value.get(key)?;
        Some(Owned { value })
    }

    fn members(&self, alloc: Global) -> Result<Option<BTreeMap<&str, Owned<'t>>>, AllocError> {
        let Some(members) = self.value.as_object() else {
            return Ok(None);
        };
        let mut found = BTreeMap::new(alloc);
        for (name, value) in members.iter() {
            found.insert(name.as_str(), Owned { value })?;
        }
        Ok(Some(found))
    }

    fn to_value(&self, _alloc: Global) -> Result<Value, AllocError> {
        self.value.clone()
    }
}
