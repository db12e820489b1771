//! Lists of parts, written as JSON values.

ghost use Rattle.std.specs.Prelude.{IfOk, map};
ghost use Rattle.serde_json.specs.View.{view as data_of};
ghost use Rattle.krates_cm_json.specs.Objects.{ListWritten};

use crate::part::CertificatePart;
use serde_json::Value;
use std::alloc::{AllocError, Global};

/// The array of what is written for each item.
pub(crate) fn array<T: CertificatePart>(alloc: Global, items: &Vec<T>) -> Result<Value, AllocError>
    ensures { IfOk result (λ v. ListWritten T.Writes (map T.view items.now.items) (data_of v)) }
{
    let mut values = Vec::with_capacity(alloc, items.len())?;
    for item in items {
        values.push(item.to_value(alloc)?)?;
    }
    Ok(Value::Array(values))
}
