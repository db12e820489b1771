//! Certificates, and how they are read from their texts.

ghost use Rattle.std.specs.Prelude.{IfErr, IfOk, map};
ghost use Rattle.serde_json.specs.View.{view as data_of};
ghost use Rattle.krates_cm.specs.Document.{texts_view};
ghost use Rattle.krates_cm_json.specs.Reading.{Gives};
ghost use Rattle.krates_build_certificate.specs.BuildCertificateTables.{certificate, claim};
ghost use Rattle.krates_build_certificate.specs.BuildCertificateTexts.{IsCertificateText, IsTextRefusal};
ghost use Rattle.krates_build_certificate.specs.BuildCertificateViews.{ToldCertificate, told_closed, told_steps, certificate_told, claim_told, machine_told, step_told};
ghost use Rattle.krates_build_certificate.specs.BuildCertificateWritten.{CertificateWritten};

use crate::certificate_error::BuildCertificateError;
use crate::fields::required;
use crate::machine_text::MachineText;
use crate::object::Object;
use crate::step::NamedStep;
use krates_cm::ReadError;
use krates_cm_json::{FromValue, JsonRef, ToValue};
use serde_json::Value;
use std::alloc::{AllocError, Global};

/// What one party gives to another, who trusts no search, to be checked against a document.
#[derive(Debug, Drop)]
pub struct BuildCertificate {
    /// The words of the command line under which it was made.
    pub setting: Vec<String>,
    /// The machines of the build: that which builds, and then each that it is for.
    pub machines: Vec<MachineText>,
    /// What it claims.
    pub claim: BuildClaim,
}

/// What a certificate claims of the facts about a build.
#[derive(Debug, Drop)]
pub enum BuildClaim {
    /// Each step follows by a rule from earlier ones.
    Steps(Vec<NamedStep>),
    /// These facts, each by its words, are all that follow by a rule from facts among them.
    Closed(Vec<Vec<String>>),
}

impl BuildCertificate {
    /// Reads a certificate: the JSON value of the text (RFC 8259), then the certificate of that value. A key that occurs twice has its last
    /// value; other keys are skipped.
    ///
    /// Returns `NotJson` if the text isn't JSON, and `Read` if its value isn't read or memory runs out. Time O(n log n) in the length of
    /// the text.
    ///
    /// ```text
    /// let certificate = BuildCertificate::parse(alloc, text)?;
    /// match certificate.claim {
    ///     BuildClaim::Steps(steps) => println!(rt; "{} steps", steps.len())?,
    ///     BuildClaim::Closed(facts) => println!(rt; "{} facts", facts.len())?,
    /// }
    /// ```
    pub fn parse(alloc: Global, text: &str) -> Result<BuildCertificate, BuildCertificateError>
        ensures read { IfOk result (λ c. IsCertificateText text.now (certificate_told c)) }
        ensures refused { IfErr result (IsTextRefusal text.now) }
    {
        let value = Value::from_str(alloc, text)?;
        Ok(BuildCertificate::from_value(alloc, &value)?)
    }
}

impl FromValue for BuildCertificate {
    ghost Model = { ToldCertificate };

    ghost view = { certificate_told };

    ghost reads = { certificate };

    #[tactic(auto, unfolding(crate::specs::BuildCertificateTables::certificate))]
    fn from_json_at<J: JsonRef>(
        alloc: Global,
        value: J,
        _key: &'static str,
    ) -> Result<BuildCertificate, ReadError> {
        Ok(BuildCertificate {
            setting: required(alloc, value, "setting")?,
            machines: required(alloc, value, "machines")?,
            claim: claim_in(alloc, value)?,
        })
    }
}

impl ToValue for BuildCertificate {
    ghost Model = { ToldCertificate };

    ghost view = { certificate_told };

    ghost Writes = { CertificateWritten };

    fn to_value(&self, alloc: Global) -> Result<Value, AllocError> {
        match &self.claim {
            BuildClaim::Steps(steps) => steps_value(alloc, &self.setting, &self.machines, steps),
            BuildClaim::Closed(facts) => closed_value(alloc, &self.setting, &self.machines, facts),
        }
    }
}

/// Reads what a certificate claims.
fn claim_in<J: JsonRef>(alloc: Global, object: J) -> Result<BuildClaim, ReadError>
    ensures { Gives claim_told result (claim (J.meaning object)) }
{
    match object.get("steps") {
        Some(steps) => Ok(BuildClaim::Steps(Vec::from_json_at(alloc, steps, "steps")?)),
        None => Ok(BuildClaim::Closed(required(alloc, object, "facts")?)),
    }
}

/// What is written for a list of steps.
fn steps_value(
    alloc: Global,
    setting: &Vec<String>,
    machines: &Vec<MachineText>,
    steps: &Vec<NamedStep>,
) -> Result<Value, AllocError>
    ensures { IfOk result (λ v. CertificateWritten record {
      setting = texts_view setting.now;
      machines = map machine_told machines.now.items;
      claim = told_steps (map step_told steps.now.items);
    } (data_of v)) }
{
    let object = Object::new(alloc)
        .with("machines", machines)?
        .with("setting", setting)?
        .with("steps", steps)?;
    Ok(object.value())
}

/// What is written for a list of facts that is closed.
fn closed_value(
    alloc: Global,
    setting: &Vec<String>,
    machines: &Vec<MachineText>,
    facts: &Vec<Vec<String>>,
) -> Result<Value, AllocError>
    ensures { IfOk result (λ v. CertificateWritten record {
      setting = texts_view setting.now;
      machines = map machine_told machines.now.items;
      claim = told_closed (map texts_view facts.now.items);
    } (data_of v)) }
{
    let object = Object::new(alloc)
        .with("facts", facts)?
        .with("machines", machines)?
        .with("setting", setting)?;
    Ok(object.value())
}
