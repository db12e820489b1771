//! An object that is being written.

ghost use Rattle.std.specs.Prelude.{◌≡◌, IfOk};
ghost use Rattle.serde_json.specs.Data.{object, string, no_members, put as put_in};
ghost use Rattle.serde_json.specs.View.{view as data_of};
ghost use Rattle.krates_cm_json.specs.Fields.{Added};
ghost use Rattle.krates_certificate.specs.Written.{members_of, IdWritten};

use crate::write::ids::id_text;
use krates_ids::Kid;
use serde_json::{Map, Value, put};
use std::alloc::{AllocError, Global};

/// The members of an object.
#[derive(Drop)]
pub(crate) struct Object {
    members: Map<String, Value>,
    alloc: Global,
}

impl Object {
    /// No member.
    pub(crate) fn new(alloc: Global) -> Object
        ensures { members_of result ≡ no_members }
    {
        Object {
            members: Map::new(alloc),
            alloc,
        }
    }

    /// These, and one more.
    pub(crate) fn with(self, key: &'static str, value: Value) -> Result<Object, AllocError>
        ensures { IfOk result (λ more. members_of more ≡ put_in key.now (data_of value) (members_of self)) }
    {
        let Object { mut members, alloc } = self;
        put(&mut members, alloc, key, value)?;
        Ok(Object { members, alloc })
    }

    /// These, and one text more.
    pub(crate) fn with_text(self, key: &'static str, text: &str) -> Result<Object, AllocError>
        ensures { IfOk result (λ more. members_of more ≡ put_in key.now (string text.now) (members_of self)) }
    {
        let value = Value::try_from_str(self.alloc, text)?;
        self.with(key, value)
    }

    /// These, and one id more.
    pub(crate) fn with_id(self, key: &'static str, id: &Kid) -> Result<Object, AllocError>
        ensures { IfOk result (λ more. Added key.now (IdWritten id.now) (members_of self) (members_of more)) }
    {
        let value = Value::String(id_text(self.alloc, id)?);
        self.with(key, value)
    }

    /// The object of these members.
    pub(crate) fn value(self) -> Value
        ensures { data_of result ≡ object (members_of self) }
    {
        Value::Object(self.members)
    }
}
