//! The fields of a JSON object.

ghost use Rattle.std.specs.Prelude.{◌≡◌, [], map, option_map};
ghost use Rattle.serde_json.specs.Data.{null};
ghost use Rattle.serde_json.specs.View.{view as data_of};
ghost use Rattle.krates_cm_json.specs.Reading.{Gives, object, required, or_default, optional, list, any};
ghost use Rattle.krates_cm_json.specs.Zipped.{zip_three, zip_four};

use crate::JsonRef;
use crate::read::from_value::FromValue;
use krates_cm::ReadError;
use serde_json::Value;
use std::alloc::Global;

/// Refuses what isn't an object, as `WrongType` of its key.
pub(crate) fn expect_object<J: JsonRef>(value: J, key: &'static str) -> Result<(), ReadError>
    ensures { Gives (λ u. u) result (object key.now (J.meaning value)) }
{
    if value.is_object() {
        Ok(())
    } else {
        Err(ReadError::WrongType(key))
    }
}

/// Reads a field that must be there.
pub(crate) fn required<T: FromValue, J: JsonRef>(
    alloc: Global,
    object: J,
    key: &'static str,
) -> Result<T, ReadError>
    ensures { Gives T.view result (required T.reads key.now (J.meaning object)) }
{
    match object.get(key) {
        Some(value) => T::from_json_at(alloc, value, key),
        None => Err(ReadError::Missing(key)),
    }
}

/// Reads a field that may be absent.
pub(crate) fn or_default<T: FromValue, J: JsonRef>(
    alloc: Global,
    object: J,
    key: &'static str,
    default: T,
) -> Result<T, ReadError>
    ensures { Gives T.view result (or_default T.reads (T.view default) key.now (J.meaning object)) }
{
    match object.get(key) {
        Some(value) => T::from_json_at(alloc, value, key),
        None => Ok(default),
    }
}

/// Reads a field that may be absent or null.
pub(crate) fn optional<T: FromValue, J: JsonRef>(
    alloc: Global,
    object: J,
    key: &'static str,
) -> Result<Option<T>, ReadError>
    ensures { Gives (option_map T.view) result (optional T.reads key.now (J.meaning object)) }
{
    or_default(alloc, object, key, None)
}

/// Reads a list that may be absent, and is then empty.
pub(crate) fn list_or_empty<T: FromValue, J: JsonRef>(
    alloc: Global,
    object: J,
    key: &'static str,
) -> Result<Vec<T>, ReadError>
    ensures { Gives (λ v. map T.view v.items) result (or_default (list T.reads) [] key.now (J.meaning object)) }
{
    or_default(alloc, object, key, Vec::new(alloc))
}

/// Reads any value of a field; null, if the field is absent.
pub(crate) fn any_or_null<J: JsonRef>(
    alloc: Global,
    object: J,
    key: &'static str,
) -> Result<Value, ReadError>
    ensures { Gives data_of result (or_default any null key.now (J.meaning object)) }
{
    or_default(alloc, object, key, Value::Null)
}

/// Three values, where each of them was read, or else the first refusal.
///
/// A struct of many fields is read in groups: each `?` in a body has to drop all that was read before it.
pub(crate) fn zip_three<A: Drop, B: Drop, C: Drop>(
    first: Result<A, ReadError>,
    second: Result<B, ReadError>,
    third: Result<C, ReadError>,
) -> Result<(A, B, C), ReadError>
    ensures { result ≡ zip_three first second third }
{
    Ok((first?, second?, third?))
}

/// The same of four.
pub(crate) fn zip_four<A: Drop, B: Drop, C: Drop, D: Drop>(
    first: Result<A, ReadError>,
    second: Result<B, ReadError>,
    third: Result<C, ReadError>,
    fourth: Result<D, ReadError>,
) -> Result<(A, B, C, D), ReadError>
    ensures { result ≡ zip_four first second third fourth }
{
    Ok((first?, second?, third?, fourth?))
}
