//! Facts, each as an object that has the name of its form.

ghost use Rattle.std.specs.Prelude.{IfOk, option_map, string_bytes};
ghost use Rattle.serde_json.specs.View.{view as data_of};
ghost use Rattle.krates_certificate.specs.CertificateViews.{told_crate, told_feature, told_kept, told_toggled};
ghost use Rattle.krates_certificate.specs.Written.{FactWritten};

use crate::write::names::kind_name;
use crate::write::object::Object;
use krates_cm_json::ToValue;
use krates_ids::Kid;
use krates_rules::DepKind;
use serde_json::Value;
use std::alloc::{AllocError, Global};

/// What is written where a crate is kept.
pub(crate) fn kept_crate(alloc: Global, krate: &Kid) -> Result<Value, AllocError>
    ensures { IfOk result (λ v. FactWritten (told_crate krate.now) (data_of v)) }
{
    let object = Object::new(alloc)
        .with_text("fact", "crate")?
        .with_id("krate", krate)?;
    Ok(object.value())
}

/// What is written where a feature is enabled.
pub(crate) fn feature(alloc: Global, krate: &Kid, name: &str) -> Result<Value, AllocError>
    ensures { IfOk result (λ v. FactWritten (told_feature krate.now name.now) (data_of v)) }
{
    let object = Object::new(alloc)
        .with_text("fact", "feature")?
        .with_id("krate", krate)?
        .with_text("name", name)?;
    Ok(object.value())
}

/// What is written where an edge is kept.
pub(crate) fn kept_edge(
    alloc: Global,
    parent: &Kid,
    child: &Kid,
    kind: DepKind,
    cfg: &Option<String>,
) -> Result<Value, AllocError>
    ensures { IfOk result (λ v. FactWritten
        (told_kept parent.now child.now kind (option_map string_bytes cfg.now)) (data_of v)) }
{
    let object = Object::new(alloc)
        .with("cfg", cfg.to_value(alloc)?)?
        .with_id("child", child)?
        .with_text("fact", "kept")?
        .with_text("kind", kind_name(kind))?
        .with_id("parent", parent)?;
    Ok(object.value())
}

/// What is written where a feature enables a feature.
pub(crate) fn toggled(
    alloc: Global,
    parent: &Kid,
    child: &Kid,
    name: &str,
) -> Result<Value, AllocError>
    ensures { IfOk result (λ v. FactWritten (told_toggled parent.now child.now name.now) (data_of v)) }
{
    let object = Object::new(alloc)
        .with_id("child", child)?
        .with_text("fact", "toggled")?
        .with_text("name", name)?
        .with_id("parent", parent)?;
    Ok(object.value())
}
