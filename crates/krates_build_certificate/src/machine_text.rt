//! Machines as a certificate has them.

ghost use Rattle.krates_build_certificate.specs.BuildCertificateTables.{machine};
ghost use Rattle.krates_build_certificate.specs.BuildCertificateViews.{ToldMachine, machine_told};
ghost use Rattle.krates_build_certificate.specs.BuildCertificateWritten.{MachineWritten};

use crate::fields::required;
use crate::object::Object;
use krates_cm::ReadError;
use krates_cm_json::{FromValue, JsonRef, ToValue};
use serde_json::Value;
use std::alloc::{AllocError, Global};

/// A machine of a build, by its texts.
#[derive(Debug, Drop)]
pub struct MachineText {
    /// The triple.
    pub triple: String,
    /// What `rustc --print cfg` prints of it.
    pub cfg: String,
}

impl FromValue for MachineText {
    ghost Model = { ToldMachine };

    ghost view = { machine_told };

    ghost reads = { machine };

    #[tactic(auto, unfolding(crate::specs::BuildCertificateTables::machine))]
    fn from_json_at<J: JsonRef>(
        alloc: Global,
        value: J,
        _key: &'static str,
    ) -> Result<MachineText, ReadError> {
        Ok(MachineText {
            triple: required(alloc, value, "triple")?,
            cfg: required(alloc, value, "cfg")?,
        })
    }
}

impl ToValue for MachineText {
    ghost Model = { ToldMachine };

    ghost view = { machine_told };

    ghost Writes = { MachineWritten };

    fn to_value(&self, alloc: Global) -> Result<Value, AllocError> {
        let object = Object::new(alloc)
            .with("cfg", &self.cfg)?
            .with("triple", &self.triple)?;
        Ok(object.value())
    }
}
