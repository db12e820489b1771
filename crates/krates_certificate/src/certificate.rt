//! Certificates, and how they are read from their texts.

ghost use Rattle.std.specs.Prelude.{IfOk, MatchOption, map};
ghost use Rattle.serde_json.specs.View.{view as data_of};
ghost use Rattle.krates_cm.specs.Document.{texts_view};
ghost use Rattle.krates_certificate.specs.CertificateRefusals.{Gives};
ghost use Rattle.krates_certificate.specs.CertificateTables.{IsCertificate, IsNoCertificate, CertificateFault, IsCertificateText, IsNoCertificateText, TextFault};
ghost use Rattle.krates_certificate.specs.CertificateViews.{ToldCertificate, told_derivation, told_closed, certificate_told, step_told, fact_told};
ghost use Rattle.krates_certificate.specs.Written.{CertificateWritten};

use crate::certificate_error::CertificateError;
use crate::part::CertificatePart;
use crate::read::fields::{field, list};
use crate::write::list::array;
use crate::write::object::Object;
use json::Scratch;
use krates_cm_json::{JsonRef, Parsed, ToValue};
use krates_rules::{Derivation, Fact, Step};
use serde_json::Value;
use std::alloc::{AllocError, Global};

/// What one party gives to another, who trusts no search, to be checked against a document.
#[derive(Debug, Drop)]
pub enum Certificate {
    /// A list of steps, each of which follows by a rule from earlier ones.
    Derivation {
        /// The words of the command line under which it was made.
        setting: Vec<String>,
        /// The steps.
        derivation: Derivation,
    },
    /// A list of facts that has each fact that follows by a rule from facts in it.
    Closed {
        /// The words of the command line under which it was made.
        setting: Vec<String>,
        /// The facts.
        facts: Vec<Fact>,
    },
}

impl Certificate {
    /// Reads a certificate: the JSON value of the text (RFC 8259), then the certificate of that value. Texts are borrowed
    /// until they are copied.
    ///
    /// Returns `NotJson` if the text isn't JSON, and otherwise what is wrong with its value. It may instead report that memory ran
    /// out. Time O(n) in the length of the text.
    ///
    /// ```text
    /// match Certificate::parse(alloc, text)? {
    ///     Certificate::Derivation { derivation, .. } => check(alloc, &builder, &derivation)?,
    ///     Certificate::Closed { facts, .. } => check_closed(alloc, &builder, &facts)?,
    /// }
    /// ```
    pub fn parse(alloc: Global, text: &str) -> Result<Certificate, CertificateError>
        ensures { Gives certificate_told (IsCertificateText text.now) (TextFault text.now) result }
    {
        if let Some(certificate) = parse_in_place(alloc, text)? {
            return Ok(certificate);
        }
        // `serde_json` and its values say why it is refused.
        let value = Value::from_str(alloc, text)?;
        Certificate::from_value(alloc, &value)
    }
}

impl CertificatePart for Certificate {
    ghost Model = { ToldCertificate };

    ghost view = { certificate_told };

    ghost Is = { IsCertificate };

    ghost IsFault = { CertificateFault };

    ghost Writes = { CertificateWritten };

    fn from_json<J: JsonRef>(alloc: Global, value: J) -> Result<Certificate, CertificateError> {
        let kind: String = field(alloc, value, "kind")?;
        let setting = field(alloc, value, "setting")?;
        match kind.as_str() {
            "derivation" => {
                let steps = list(alloc, value, "steps")?;
                let derivation = Derivation { steps };
                Ok(Certificate::Derivation {
                    setting,
                    derivation,
                })
            }
            "closed" => {
                let facts = list(alloc, value, "facts")?;
                Ok(Certificate::Closed { setting, facts })
            }
            _ => Err(CertificateError::UnknownName("kind")),
        }
    }

    fn to_value(&self, alloc: Global) -> Result<Value, AllocError> {
        match self {
            Certificate::Derivation {
                setting,
                derivation,
            } => derivation_value(alloc, setting, &derivation.steps),
            Certificate::Closed { setting, facts } => closed_value(alloc, setting, facts),
        }
    }
}

/// Reads a certificate from its JSON value; `None` exactly where it is refused. Returns `AllocError` if memory runs out.
fn certificate_of<J: JsonRef>(alloc: Global, value: J) -> Result<Option<Certificate>, AllocError>
    ensures { IfOk result (λ found. MatchOption found (IsNoCertificate (J.meaning value))
        (λ c. IsCertificate (certificate_told c) (J.meaning value))) }
{
    match Certificate::from_json(alloc, value) {
        Ok(certificate) => Ok(Some(certificate)),
        Err(error) => {
            if error.is_memory() {
                return Err(AllocError);
            }
            Ok(None)
        }
    }
}

/// Reads a certificate whose texts are borrowed until they are copied; `None` exactly where it is refused. Returns
/// `AllocError` if memory runs out.
fn parse_in_place(alloc: Global, text: &str) -> Result<Option<Certificate>, AllocError>
    ensures { IfOk result (λ found. MatchOption found (IsNoCertificateText text.now)
        (λ c. IsCertificateText text.now (certificate_told c))) }
{
    let mut scratch = Scratch::new(alloc);
    let Some(parsed) = Parsed::parse(alloc, text, &mut scratch)? else {
        return Ok(None);
    };
    certificate_of(alloc, parsed.root())
}

/// What is written for a list of steps.
fn derivation_value(
    alloc: Global,
    setting: &Vec<String>,
    steps: &Vec<Step>,
) -> Result<Value, AllocError>
    ensures { IfOk result (λ v. CertificateWritten
        (told_derivation (texts_view setting.now) (map step_told steps.now.items)) (data_of v)) }
{
    let object = Object::new(alloc)
        .with_text("kind", "derivation")?
        .with("setting", setting.to_value(alloc)?)?
        .with("steps", array(alloc, steps)?)?;
    Ok(object.value())
}

/// What is written for a list of facts that is closed.
fn closed_value(
    alloc: Global,
    setting: &Vec<String>,
    facts: &Vec<Fact>,
) -> Result<Value, AllocError>
    ensures { IfOk result (λ v. CertificateWritten
        (told_closed (texts_view setting.now) (map fact_told facts.now.items)) (data_of v)) }
{
    let object = Object::new(alloc)
        .with("facts", array(alloc, facts)?)?
        .with_text("kind", "closed")?
        .with("setting", setting.to_value(alloc)?)?;
    Ok(object.value())
}
