//! Objects.

ghost use Rattle.std.specs.Prelude.{◌≡◌, IfOk, is_some, not, ◌==◌, length, option_map, map};
ghost use Rattle.serde_json.specs.Data.{object, no_members, put as put_in};
ghost use Rattle.serde_json.specs.View.{view as data_of};
ghost use Rattle.krates_cm_json.specs.Objects.{OptionWritten, ListWritten};
ghost use Rattle.krates_cm_json.specs.Fields.{members_of, Added, AddedWhere};

use crate::write::to_value::ToValue;
use serde_json::{Map, Value, put};
use std::alloc::{AllocError, Global};

/// The fields of an object.
#[derive(Drop)]
pub(crate) struct Fields {
    members: Map<String, Value>,
    alloc: Global,
}

impl Fields {
    /// No field.
    pub(crate) fn new(alloc: Global) -> Fields
        ensures { members_of result ≡ no_members }
    {
        Fields {
            members: Map::new(alloc),
            alloc,
        }
    }

    /// These, and one more.
    pub(crate) fn with_value(self, key: &'static str, value: Value) -> Result<Fields, AllocError>
        ensures { IfOk result (λ fields. members_of fields
            ≡ put_in key.now (data_of value) (members_of self)) }
    {
        let Fields { mut members, alloc } = self;
        put(&mut members, alloc, key, value)?;
        Ok(Fields { members, alloc })
    }

    /// These, and one with what is written for the value.
    pub(crate) fn with<T: ToValue>(self, key: &'static str, value: &T) -> Result<Fields, AllocError>
        ensures { IfOk result (λ fields. Added key.now (T.Writes (T.view value.now))
            (members_of self) (members_of fields)) }
    {
        let value = value.to_value(self.alloc)?;
        self.with_value(key, value)
    }

    /// These, and one with what is written for the value if there is one.
    pub(crate) fn with_some<T: ToValue>(
        self,
        key: &'static str,
        value: &Option<T>,
    ) -> Result<Fields, AllocError>
        ensures { IfOk result (λ fields. AddedWhere (is_some (option_map T.view value.now)) key.now
            (OptionWritten T.Writes (option_map T.view value.now)) (members_of self) (members_of fields)) }
    {
        match value {
            Some(value) => self.with(key, value),
            None => Ok(self),
        }
    }

    /// These, and one with what is written for the items if there are any.
    pub(crate) fn with_items<T: ToValue>(
        self,
        key: &'static str,
        items: &Vec<T>,
    ) -> Result<Fields, AllocError>
        ensures { IfOk result (λ fields. AddedWhere (not (length (map T.view items.now.items) == 0)) key.now
            (ListWritten T.Writes (map T.view items.now.items)) (members_of self) (members_of fields)) }
    {
        if items.is_empty() {
            Ok(self)
        } else {
            self.with(key, items)
        }
    }

    /// The object of these fields, in the order of their keys.
    pub(crate) fn object(self) -> Value
        ensures { data_of result ≡ object (members_of self) }
    {
        Value::Object(self.members)
    }
}
