//! Texts, numbers, lists and maps, read from JSON values.

ghost use Rattle.std.specs.Prelude.{ℕ, List, Bool, Option, string_bytes, map, option_map};
ghost use Rattle.serde_json.specs.Data.{Data};
ghost use Rattle.serde_json.specs.View.{view as data_of};
ghost use Rattle.krates_cm_json.specs.Entries.{entries_data};
ghost use Rattle.krates_cm.specs.Document.{Text, id_view};
ghost use Rattle.krates_cm_json.specs.Reading.{Gives, text, boolean, whole, any, nullable, list, map_of, map_items};

use crate::JsonRef;
use crate::read::from_value::FromValue;
use krates_cm::{PackageId, ReadError};
use serde_json::Value;
use std::alloc::Global;
use std::collections::BTreeMap;

impl FromValue for String {
    ghost Model = { Text };

    ghost view = { string_bytes };

    ghost reads = { text };

    fn from_json_at<J: JsonRef>(
        alloc: Global,
        value: J,
        key: &'static str,
    ) -> Result<String, ReadError> {
        let text = value.as_str().ok_or(ReadError::WrongType(key))?;
        Ok(String::from_str(alloc, text)?)
    }
}

impl FromValue for PackageId {
    ghost Model = { Text };

    ghost view = { id_view };

    ghost reads = { text };

    fn from_json_at<J: JsonRef>(
        alloc: Global,
        value: J,
        key: &'static str,
    ) -> Result<PackageId, ReadError> {
        let repr = String::from_json_at(alloc, value, key)?;
        Ok(PackageId { repr })
    }
}

impl FromValue for bool {
    ghost Model = { Bool };

    ghost view = { λ b. b };

    ghost reads = { boolean };

    fn from_json_at<J: JsonRef>(
        _alloc: Global,
        value: J,
        key: &'static str,
    ) -> Result<bool, ReadError> {
        value.as_bool().ok_or(ReadError::WrongType(key))
    }
}

impl FromValue for usize {
    ghost Model = { ℕ };

    ghost view = { λ n. n };

    ghost reads = { whole };

    fn from_json_at<J: JsonRef>(
        alloc: Global,
        value: J,
        key: &'static str,
    ) -> Result<usize, ReadError> {
        let number = value.to_value(alloc)?.as_u64();
        Ok(number.ok_or(ReadError::WrongType(key))? as usize)
    }
}

impl FromValue for Value {
    ghost Model = { Data };

    ghost view = { data_of };

    ghost reads = { any };

    fn from_json_at<J: JsonRef>(
        alloc: Global,
        value: J,
        _key: &'static str,
    ) -> Result<Value, ReadError> {
        Ok(value.to_value(alloc)?)
    }
}

/// Null is `None`.
impl<T: FromValue> FromValue for Option<T> {
    ghost Model = { Option T.Model };

    ghost view = { option_map T.view };

    ghost reads = { nullable T.reads };

    fn from_json_at<J: JsonRef>(
        alloc: Global,
        value: J,
        key: &'static str,
    ) -> Result<Option<T>, ReadError> {
        if value.is_null() {
            return Ok(None);
        }
        Ok(Some(T::from_json_at(alloc, value, key)?))
    }
}

impl<T: FromValue> FromValue for Vec<T> {
    ghost Model = { List T.Model };

    ghost view = { λ v. map T.view v.items };

    ghost reads = { list T.reads };

    fn from_json_at<J: JsonRef>(
        alloc: Global,
        value: J,
        key: &'static str,
    ) -> Result<Vec<T>, ReadError> {
        let len = value.len().ok_or(ReadError::WrongType(key))?;
        let mut items = Vec::with_capacity(alloc, len)?;
        while let Some(item) = value.item(items.len()) {
            items.push(T::from_json_at(alloc, item, key)?)?;
        }
        Ok(items)
    }
}

impl<T: FromValue> FromValue for BTreeMap<String, T> {
    ghost Model = { List (Text × T.Model) };

    ghost view = { λ m. map (λ e. (string_bytes e.0, T.view e.1)) m.entries };

    ghost reads = { map_of T.reads };

    fn from_json_at<J: JsonRef>(
        alloc: Global,
        value: J,
        key: &'static str,
    ) -> Result<BTreeMap<String, T>, ReadError> {
        let members = value.members(alloc)?.ok_or(ReadError::WrongType(key))?;
        map_from(alloc, &members, key)
    }
}

/// Reads the value under each name of an object.
fn map_from<T: FromValue, J: JsonRef>(
    alloc: Global,
    members: &BTreeMap<&str, J>,
    key: &'static str,
) -> Result<BTreeMap<String, T>, ReadError>
    ensures { Gives (λ m. map (λ e. (string_bytes e.0, T.view e.1)) m.entries) result
        (map_items (T.reads key.now) (entries_data J.meaning members.now.entries)) }
{
    let mut entries = BTreeMap::new(alloc);
    for (name, member) in members.iter() {
        let copy = String::from_str(alloc, name)?;
        let item = T::from_json_at(alloc, *member, key)?;
        drop(entries.insert(copy, item)?);
    }
    Ok(entries)
}
