//! What can be written as a JSON value.

ghost use Rattle.std.specs.Prelude.{IfOk};
ghost use Rattle.serde_json.specs.Data.{Data};
ghost use Rattle.serde_json.specs.View.{view as data_of};

use serde_json::Value;
use std::alloc::{AllocError, Global};

/// A type that is written as a JSON value.
pub trait ToValue {
    /// What clauses see of the type.
    ghost Model: { Type 0 };

    ghost view: { Self → Model };

    /// Which data may be written for a value.
    ghost Writes: { Model → Data → Type 0 };

    /// Writes the value. The only error is running out of memory. Time `O(size of the value)`.
    ///
    /// ```text
    /// let text = metadata.to_value(alloc)?.to_string(alloc)?;
    /// ```
    fn to_value(&self, alloc: Global) -> Result<Value, AllocError>
        ensures { IfOk result (λ v. Writes (view self.now) (data_of v)) };
}
