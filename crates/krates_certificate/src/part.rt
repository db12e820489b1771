//! The parts of a certificate.

ghost use Rattle.std.specs.Prelude.{IfOk};
ghost use Rattle.serde_json.specs.Data.{Data};
ghost use Rattle.serde_json.specs.View.{view as data_of};
ghost use Rattle.krates_certificate.specs.CertificateRefusals.{Fault, Gives};

use crate::certificate_error::CertificateError;
use krates_cm_json::{JsonRef, Owned};
use serde_json::Value;
use std::alloc::{AllocError, Global};

/// A part of a certificate, which is read from a JSON value and written as one.
pub trait CertificatePart: Sized + Drop {
    /// What clauses see of the part.
    ghost Model: { Type 0 };

    ghost view: { Self → Model };

    /// Which data is read as the part.
    ghost Is: { Model → Data → Type 0 };

    /// Which faults data has that isn't read as a part.
    ghost IsFault: { Data → Fault → Type 0 };

    /// Which data may be written for the part.
    ghost Writes: { Model → Data → Type 0 };

    /// Reads the part, wherever the JSON value is kept. A key that occurs twice has its last value; other keys are skipped.
    /// Time O(n) in the size of the value.
    ///
    /// A refusal is true of the value; if several are, it isn't specified which one is returned.
    fn from_json<J: JsonRef>(alloc: Global, value: J) -> Result<Self, CertificateError>
        ensures { Gives view (λ m. Is m (J.meaning value)) (IsFault (J.meaning value)) result };

    /// Reads the part from a value of `serde_json`, as `from_json` does.
    final fn from_value(alloc: Global, value: &Value) -> Result<Self, CertificateError>
        ensures { Gives view (λ m. Is m (data_of value.now)) (IsFault (data_of value.now)) result }
    {
        Self::from_json(alloc, Owned { value })
    }

    /// Writes the part. The only error is running out of memory. Time O(n log n) in the size of the part.
    ///
    /// ```text
    /// let text = certificate.to_value(alloc)?.to_string(alloc)?;
    /// ```
    fn to_value(&self, alloc: Global) -> Result<Value, AllocError>
        ensures { IfOk result (λ v. Writes (view self.now) (data_of v)) };
}
