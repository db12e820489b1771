//! What can be read from a JSON value.

ghost use Rattle.std.specs.Prelude.{ℕ, List, []};
ghost use Rattle.serde_json.specs.Data.{Data};
ghost use Rattle.serde_json.specs.View.{view as data_of};
ghost use Rattle.krates_cm_json.specs.Reading.{Reading, Gives};

use crate::{JsonRef, Owned};
use krates_cm::ReadError;
use serde_json::Value;
use std::alloc::Global;

/// A type that is read from a JSON value.
pub trait FromValue: Sized + Drop {
    /// What clauses see of the type.
    ghost Model: { Type 0 };

    ghost view: { Self → Model };

    /// What is read from the data under a key, and which faults are true of it.
    ghost reads: { List ℕ → Data → Reading Model };

    /// Reads the value under `key`, which a refusal may name.
    fn from_json_at<J: JsonRef>(
        alloc: Global,
        value: J,
        key: &'static str,
    ) -> Result<Self, ReadError>
        ensures { Gives view result (reads key.now (J.meaning value)) };

    /// Reads a whole value.
    ///
    /// A refusal is true of the value; if several are, it isn't specified which one is returned.
    final fn from_value(alloc: Global, value: &Value) -> Result<Self, ReadError>
        ensures { Gives view result (reads [] (data_of value.now)) }
    {
        Self::from_json_at(alloc, Owned { value }, "")
    }
}
