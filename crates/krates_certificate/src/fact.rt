//! Facts as JSON.

ghost use Rattle.krates_certificate.specs.CertificateTables.{IsFact, FactFault};
ghost use Rattle.krates_certificate.specs.CertificateViews.{ToldFact, fact_told};
ghost use Rattle.krates_certificate.specs.Written.{FactWritten};

use crate::certificate_error::CertificateError;
use crate::part::CertificatePart;
use crate::read::facts as reading;
use crate::read::fields::field;
use crate::write::facts as writing;
use krates_cm_json::JsonRef;
use krates_rules::Fact;
use serde_json::Value;
use std::alloc::{AllocError, Global};

impl CertificatePart for Fact {
    ghost Model = { ToldFact };

    ghost view = { fact_told };

    ghost Is = { IsFact };

    ghost IsFault = { FactFault };

    ghost Writes = { FactWritten };

    fn from_json<J: JsonRef>(alloc: Global, value: J) -> Result<Fact, CertificateError> {
        let name: String = field(alloc, value, "fact")?;
        match name.as_str() {
            "crate" => reading::kept_crate(alloc, value),
            "feature" => reading::feature(alloc, value),
            "kept" => reading::kept_edge(alloc, value),
            "toggled" => reading::toggled(alloc, value),
            _ => Err(CertificateError::UnknownName("fact")),
        }
    }

    fn to_value(&self, alloc: Global) -> Result<Value, AllocError> {
        match self {
            Fact::Crate(krate) => writing::kept_crate(alloc, krate),
            Fact::Feature { krate, name } => writing::feature(alloc, krate, name.as_str()),
            Fact::Kept {
                parent,
                child,
                kind,
                cfg,
            } => writing::kept_edge(alloc, parent, child, *kind, cfg),
            Fact::Toggled {
                parent,
                child,
                name,
            } => writing::toggled(alloc, parent, child, name.as_str()),
        }
    }
}
