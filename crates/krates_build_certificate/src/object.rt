//! An object that is being written.

ghost use Rattle.std.specs.Prelude.{◌≡◌, IfOk};
ghost use Rattle.serde_json.specs.Data.{object, no_members};
ghost use Rattle.serde_json.specs.View.{view as data_of};
ghost use Rattle.krates_cm_json.specs.Fields.{Added};
ghost use Rattle.krates_build_certificate.specs.BuildCertificateWritten.{members_of};

use krates_cm_json::ToValue;
use serde_json::{Map, Value, put};
use std::alloc::{AllocError, Global};

/// The members of an object.
#[derive(Drop)]
pub(crate) struct Object {
    members: Map<String, Value>,
    alloc: Global,
}

impl Object {
    /// No member.
    pub(crate) fn new(alloc: Global) -> Object
        ensures { members_of result ≡ no_members }
    {
        Object {
            members: Map::new(alloc),
            alloc,
        }
    }

    /// These, and one with what is written for the value.
    pub(crate) fn with<T: ToValue>(self, key: &'static str, value: &T) -> Result<Object, AllocError>
        ensures { IfOk result (λ more. Added key.now (T.Writes (T.view value.now))
            (members_of self) (members_of more)) }
    {
        let Object { mut members, alloc } = self;
        put(&mut members, alloc, key, value.to_value(alloc)?)?;
        Ok(Object { members, alloc })
    }

    /// The object of these members, in the order of their keys.
    pub(crate) fn value(self) -> Value
        ensures { data_of result ≡ object (members_of self) }
    {
        Value::Object(self.members)
    }
}
