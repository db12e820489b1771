//! The fields of a JSON object.

ghost use Rattle.krates_cm_json.specs.Reading.{Gives, required};

use krates_cm::ReadError;
use krates_cm_json::{FromValue, JsonRef};
use std::alloc::Global;

/// Reads a field that must be there.
pub(crate) fn required<T: FromValue, J: JsonRef>(
    alloc: Global,
    object: J,
    key: &'static str,
) -> Result<T, ReadError>
    ensures { Gives T.view result (required T.reads key.now (J.meaning object)) }
{
    match object.get(key) {
        Some(value) => T::from_json_at(alloc, value, key),
        None => Err(ReadError::Missing(key)),
    }
}
