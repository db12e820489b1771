//! JSON objects and lists, value by value, and what JSON says of crates.
//!
//! That memory ran out for a value is reported when the object or the list is finished, not at each value, so a long object can be built
//! without an exit for each key.

use krates::semver::Version;
use krates::{KrateMatch, NodeId, Package};
use serde_json::{Map, Value, push, put};
use std::alloc::{AllocError, Global};

/// The version of the form that JSON answers have.
const VERSION: u64 = 1;

/// A part of an answer that JSON shows as one value. The only error is running out of memory.
pub trait InJson {
    /// The value.
    fn json(&self, alloc: Global) -> Result<Value, AllocError>;
}

/// The list of the values of these.
pub fn list_json<T: InJson>(alloc: Global, items: &[T]) -> Result<Value, AllocError> {
    let mut values = Values::new(alloc);
    for item in items {
        values.add(item.json(alloc));
    }
    values.list()
}

impl InJson for Package {
    /// `id`, `name`, `version` and `source`; the source is null where the package is of this machine.
    fn json(&self, alloc: Global) -> Result<Value, AllocError> {
        let source = match &self.source {
            Some(source) => Value::try_from_str(alloc, source.repr.as_str()),
            None => Ok(Value::Null),
        };
        JsonObject::new(alloc)
            .text("id", self.id.repr.as_str())
            .text("name", self.name.as_str())
            .put("version", string(self.version.to_string(alloc)))
            .put("source", source)
            .object()
    }
}

impl InJson for KrateMatch<'_, Package> {
    fn json(&self, alloc: Global) -> Result<Value, AllocError> {
        self.krate.json(alloc)
    }
}

impl InJson for &Version {
    fn json(&self, alloc: Global) -> Result<Value, AllocError> {
        string(self.to_string(alloc))
    }
}

impl InJson for usize {
    fn json(&self, _alloc: Global) -> Result<Value, AllocError> {
        Ok(Value::from(*self as u64))
    }
}

/// The ids of those of the crates that are at these numbers.
pub fn ids_json(
    alloc: Global,
    crates: &[KrateMatch<'_, Package>],
    numbers: &[NodeId],
) -> Result<Value, AllocError> {
    let mut values = Values::new(alloc);
    for number in numbers {
        if let Some(found) = crates.get(number.index()) {
            let id = found.krate.id.repr.as_str();
            values.add(Value::try_from_str(alloc, id));
        }
    }
    values.list()
}

/// A text as a value.
pub fn string(text: Result<String, AllocError>) -> Result<Value, AllocError> {
    Ok(Value::String(text?))
}

/// The members of an object that is being made.
#[derive(Drop)]
pub struct JsonObject {
    alloc: Global,
    members: Map<String, Value>,
    /// Whether there was memory for all of them.
    is_whole: bool,
}

impl JsonObject {
    /// None.
    pub fn new(alloc: Global) -> JsonObject {
        JsonObject {
            alloc,
            members: Map::new(alloc),
            is_whole: true,
        }
    }

    /// The `version` of the form alone, as each answer has it at its top. A later one may have more members; where one is taken away or means something
    /// else, the version is another.
    pub fn versioned(alloc: Global) -> JsonObject {
        JsonObject::new(alloc).put("version", Ok(Value::from(VERSION)))
    }

    /// These, and a value.
    pub fn put(mut self, key: &'static str, value: Result<Value, AllocError>) -> JsonObject {
        let is_put = match value {
            Ok(value) => put(&mut self.members, self.alloc, key, value).is_ok(),
            Err(AllocError) => false,
        };
        self.is_whole = is_put && self.is_whole;
        self
    }

    /// These, and a text.
    pub fn text(self, key: &'static str, text: &str) -> JsonObject {
        let value = Value::try_from_str(self.alloc, text);
        self.put(key, value)
    }

    /// The object of these members.
    pub fn object(self) -> Result<Value, AllocError> {
        if self.is_whole {
            Ok(Value::Object(self.members))
        } else {
            Err(AllocError)
        }
    }
}

/// The values of a list that is being made.
#[derive(Drop)]
pub struct Values {
    values: Vec<Value>,
    /// Whether there was memory for all of them.
    is_whole: bool,
}

impl Values {
    /// None.
    pub fn new(alloc: Global) -> Values {
        Values {
            values: Vec::new(alloc),
            is_whole: true,
        }
    }

    /// Adds a value.
    pub fn add(&mut self, value: Result<Value, AllocError>) {
        let is_added = match value {
            Ok(value) => push(&mut self.values, value).is_ok(),
            Err(AllocError) => false,
        };
        self.is_whole = is_added && self.is_whole;
    }

    /// The list of these values.
    pub fn list(self) -> Result<Value, AllocError> {
        if self.is_whole {
            Ok(Value::Array(self.values))
        } else {
            Err(AllocError)
        }
    }
}
