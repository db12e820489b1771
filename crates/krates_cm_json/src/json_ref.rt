//! What types are read from.

ghost use Rattle.std.specs.Prelude.{◌≡◌, Some, IfOk, is_some, option_map};
ghost use Rattle.serde_json.specs.Data.{Data};
ghost use Rattle.serde_json.specs.Events.{items_len};
ghost use Rattle.serde_json.specs.Find.{as_null, as_bool, as_str, as_array, as_object, get, at};
ghost use Rattle.serde_json.specs.View.{view as data_of};
ghost use Rattle.krates_cm_json.specs.Entries.{entries_data};

use serde_json::Value;
use std::alloc::{AllocError, Global};
use std::collections::BTreeMap;

/// A JSON value (RFC 8259), wherever it is kept. It is passed by value, as a reference is.
///
/// Each look-up that doesn't say otherwise takes O(1), and answers `None` where the value is of another kind.
pub trait JsonRef: Copy + Drop {
    /// The data that the value is.
    ghost meaning: { Self → Data };

    /// Whether this is null.
    fn is_null(&self) -> bool
        ensures { result ≡ is_some (as_null (meaning self.now)) };

    /// Whether this is an object.
    fn is_object(&self) -> bool
        ensures { result ≡ is_some (as_object (meaning self.now)) };

    /// The boolean that this is.
    fn as_bool(&self) -> Option<bool>
        ensures { result ≡ as_bool (meaning self.now) };

    /// The text that this is.
    fn as_str(&self) -> Option<&str>
        ensures { option_map (λ s. s.now) result ≡ as_str (meaning self.now) };

    /// How many items this array has.
    fn len(&self) -> Option<usize>
        ensures { result ≡ option_map items_len (as_array (meaning self.now)) };

    /// The item of this array at an index.
    fn item(&self, index: usize) -> Option<Self>
        ensures { option_map meaning result ≡ at index (meaning self.now) };

    /// The value under a key of this object: the last one, where the key occurs twice. Time O(m) in the number of
    /// members for a value in a text, and O(log m) for one of `serde_json`.
    fn get(&self, key: &str) -> Option<Self>
        ensures { option_map meaning result ≡ get key.now (meaning self.now) };

    /// The members of this object, in the order of their names, each name once and with its last value. Returns `AllocError`
    /// if memory runs out. Time O(m log m).
    fn members(&self, alloc: Global) -> Result<Option<BTreeMap<&str, Self>>, AllocError>
        ensures { IfOk result (λ found. option_map (λ m. entries_data meaning m.entries) found
            ≡ as_object (meaning self.now)) };

    /// The whole value, as `serde_json` keeps it. Returns `AllocError` if memory runs out. Time O(n log n) in the length of its
    /// text.
    fn to_value(&self, alloc: Global) -> Result<Value, AllocError>
        ensures { IfOk result (λ value. data_of value ≡ meaning self.now) };
}
