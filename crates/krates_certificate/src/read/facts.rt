//! Facts, by the names of their forms.

ghost use Rattle.std.specs.Prelude.{codes};
ghost use Rattle.krates_certificate.specs.CertificateFields.{NameField};
ghost use Rattle.krates_certificate.specs.CertificateRefusals.{Gives};
ghost use Rattle.krates_certificate.specs.CertificateTables.{IsFact, FactFault};
ghost use Rattle.krates_certificate.specs.CertificateViews.{fact_told};

use crate::certificate_error::CertificateError;
use crate::read::fields::{field, id, kind};
use krates_cm_json::JsonRef;
use krates_rules::Fact;
use std::alloc::Global;

/// Reads that a crate is kept.
pub(crate) fn kept_crate<J: JsonRef>(alloc: Global, value: J) -> Result<Fact, CertificateError>
    requires { NameField (codes "fact") (codes "crate") (J.meaning value) }
    ensures { Gives fact_told (λ m. IsFact m (J.meaning value)) (FactFault (J.meaning value)) result }
{
    Ok(Fact::Crate(id(alloc, value, "krate")?))
}

/// Reads that a feature is enabled.
pub(crate) fn feature<J: JsonRef>(alloc: Global, value: J) -> Result<Fact, CertificateError>
    requires { NameField (codes "fact") (codes "feature") (J.meaning value) }
    ensures { Gives fact_told (λ m. IsFact m (J.meaning value)) (FactFault (J.meaning value)) result }
{
    let krate = id(alloc, value, "krate")?;
    let name = field(alloc, value, "name")?;
    Ok(Fact::Feature { krate, name })
}

/// Reads that an edge is kept.
pub(crate) fn kept_edge<J: JsonRef>(alloc: Global, value: J) -> Result<Fact, CertificateError>
    requires { NameField (codes "fact") (codes "kept") (J.meaning value) }
    ensures { Gives fact_told (λ m. IsFact m (J.meaning value)) (FactFault (J.meaning value)) result }
{
    let kind = kind(alloc, value)?;
    let parent = id(alloc, value, "parent")?;
    let child = id(alloc, value, "child")?;
    let cfg = field(alloc, value, "cfg")?;
    Ok(Fact::Kept {
        parent,
        child,
        kind,
        cfg,
    })
}

/// Reads that a feature enables a feature.
pub(crate) fn toggled<J: JsonRef>(alloc: Global, value: J) -> Result<Fact, CertificateError>
    requires { NameField (codes "fact") (codes "toggled") (J.meaning value) }
    ensures { Gives fact_told (λ m. IsFact m (J.meaning value)) (FactFault (J.meaning value)) result }
{
    let parent = id(alloc, value, "parent")?;
    let child = id(alloc, value, "child")?;
    let name = field(alloc, value, "name")?;
    Ok(Fact::Toggled {
        parent,
        child,
        name,
    })
}
