//! Steps as a certificate has them.

ghost use Rattle.krates_build_certificate.specs.BuildCertificateTables.{step};
ghost use Rattle.krates_build_certificate.specs.BuildCertificateViews.{ToldStep, step_told};
ghost use Rattle.krates_build_certificate.specs.BuildCertificateWritten.{StepWritten};

use crate::fields::required;
use crate::object::Object;
use krates_cm::ReadError;
use krates_cm_json::{FromValue, JsonRef, ToValue};
use serde_json::Value;
use std::alloc::{AllocError, Global};

/// A step of a derivation: a fact, and the earlier steps whose facts it follows from by one rule.
#[derive(Debug, Drop)]
pub struct NamedStep {
    /// The words of the fact.
    pub fact: Vec<String>,
    /// The numbers of the earlier steps, in the order of the rule.
    pub uses: Vec<usize>,
}

impl FromValue for NamedStep {
    ghost Model = { ToldStep };

    ghost view = { step_told };

    ghost reads = { step };

    #[tactic(auto, unfolding(crate::specs::BuildCertificateTables::step))]
    fn from_json_at<J: JsonRef>(
        alloc: Global,
        value: J,
        _key: &'static str,
    ) -> Result<NamedStep, ReadError> {
        Ok(NamedStep {
            fact: required(alloc, value, "fact")?,
            uses: required(alloc, value, "uses")?,
        })
    }
}

impl ToValue for NamedStep {
    ghost Model = { ToldStep };

    ghost view = { step_told };

    ghost Writes = { StepWritten };

    fn to_value(&self, alloc: Global) -> Result<Value, AllocError> {
        let object = Object::new(alloc)
            .with("fact", &self.fact)?
            .with("uses", &self.uses)?;
        Ok(object.value())
    }
}
