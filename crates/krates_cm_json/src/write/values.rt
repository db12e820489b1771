//! Texts, numbers, lists and maps, written as JSON values.

ghost use Rattle.std.specs.Prelude.{ℕ, List, Bool, Option, string_bytes, map, option_map};
ghost use Rattle.serde_json.specs.Data.{Data};
ghost use Rattle.serde_json.specs.View.{view as data_of};
ghost use Rattle.krates_cm.specs.Document.{Text, id_view, source_view};
ghost use Rattle.krates_cm_json.specs.Objects.{TextWritten, BooleanWritten, WholeWritten, AnyWritten, OptionWritten, ListWritten, MapWritten};

use crate::write::to_value::ToValue;
use krates_cm::{PackageId, Source};
use serde_json::{Map, Value};
use std::alloc::{AllocError, Global};
use std::collections::BTreeMap;

impl ToValue for String {
    ghost Model = { Text };

    ghost view = { string_bytes };

    ghost Writes = { TextWritten };

    fn to_value(&self, alloc: Global) -> Result<Value, AllocError> {
        Value::try_from_str(alloc, self.as_str())
    }
}

impl ToValue for PackageId {
    ghost Model = { Text };

    ghost view = { id_view };

    ghost Writes = { TextWritten };

    fn to_value(&self, alloc: Global) -> Result<Value, AllocError> {
        self.repr.to_value(alloc)
    }
}

impl ToValue for Source {
    ghost Model = { Text };

    ghost view = { source_view };

    ghost Writes = { TextWritten };

    fn to_value(&self, alloc: Global) -> Result<Value, AllocError> {
        self.repr.to_value(alloc)
    }
}

impl ToValue for bool {
    ghost Model = { Bool };

    ghost view = { λ b. b };

    ghost Writes = { BooleanWritten };

    fn to_value(&self, _alloc: Global) -> Result<Value, AllocError> {
        Ok(Value::Bool(*self))
    }
}

impl ToValue for usize {
    ghost Model = { ℕ };

    ghost view = { λ n. n };

    ghost Writes = { WholeWritten };

    fn to_value(&self, _alloc: Global) -> Result<Value, AllocError> {
        let number = *self;
        Ok(Value::from(number))
    }
}

impl ToValue for Value {
    ghost Model = { Data };

    ghost view = { data_of };

    ghost Writes = { AnyWritten };

    fn to_value(&self, _alloc: Global) -> Result<Value, AllocError> {
        self.clone()
    }
}

/// `None` is null.
impl<T: ToValue> ToValue for Option<T> {
    ghost Model = { Option T.Model };

    ghost view = { option_map T.view };

    ghost Writes = { OptionWritten T.Writes };

    fn to_value(&self, alloc: Global) -> Result<Value, AllocError> {
        match self {
            Some(value) => value.to_value(alloc),
            None => Ok(Value::Null),
        }
    }
}

impl<T: ToValue> ToValue for Vec<T> {
    ghost Model = { List T.Model };

    ghost view = { λ v. map T.view v.items };

    ghost Writes = { ListWritten T.Writes };

    fn to_value(&self, alloc: Global) -> Result<Value, AllocError> {
        let mut values = Vec::with_capacity(alloc, self.len())?;
        for item in self {
            values.push(item.to_value(alloc)?)?;
        }
        Ok(Value::Array(values))
    }
}

impl<T: ToValue> ToValue for BTreeMap<String, T> {
    ghost Model = { List (Text × T.Model) };

    ghost view = { λ m. map (λ e. (string_bytes e.0, T.view e.1)) m.entries };

    ghost Writes = { MapWritten T.Writes };

    fn to_value(&self, alloc: Global) -> Result<Value, AllocError> {
        let mut members = Map::new(alloc);
        for (name, item) in self.iter() {
            let copy = name.clone()?;
            let value = item.to_value(alloc)?;
            drop(members.insert(copy, value)?);
        }
        Ok(Value::Object(members))
    }
}
