//! Steps as JSON.

ghost use Rattle.krates_certificate.specs.CertificateTables.{IsStep, StepFault};
ghost use Rattle.krates_certificate.specs.CertificateViews.{ToldStep, step_told};
ghost use Rattle.krates_certificate.specs.Written.{StepWritten};

use crate::certificate_error::CertificateError;
use crate::part::CertificatePart;
use crate::read::fields::{field, part, rule};
use crate::write::object::Object;
use krates_cm_json::{JsonRef, ToValue};
use krates_rules::Step;
use serde_json::Value;
use std::alloc::{AllocError, Global};

impl CertificatePart for Step {
    ghost Model = { ToldStep };

    ghost view = { step_told };

    ghost Is = { IsStep };

    ghost IsFault = { StepFault };

    ghost Writes = { StepWritten };

    fn from_json<J: JsonRef>(alloc: Global, value: J) -> Result<Step, CertificateError> {
        let rule = rule(alloc, value)?;
        let fact = part(alloc, value, "fact")?;
        let uses = field(alloc, value, "uses")?;
        Ok(Step { rule, fact, uses })
    }

    fn to_value(&self, alloc: Global) -> Result<Value, AllocError> {
        let object = Object::new(alloc)
            .with("fact", self.fact.to_value(alloc)?)?
            .with("rule", Value::from(self.rule))?
            .with("uses", self.uses.to_value(alloc)?)?;
        Ok(object.value())
    }
}
