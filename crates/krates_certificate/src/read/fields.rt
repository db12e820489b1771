//! The values under the keys of an object.

ghost use Rattle.std.specs.Prelude.{◌↔◌, IsTrue, codes, map};
ghost use Rattle.krates_cm_json.specs.Objects.{ListWritten};
ghost use Rattle.krates_certificate.specs.CertificateFields.{Field, IdField, NameField, RuleField, PartField, ListField, FieldFault, IdFault, NameFault, RuleFault, PartFault, ListFault, ItemsFault};
ghost use Rattle.krates_certificate.specs.CertificateRefusals.{Gives, IsOfMemory};
ghost use Rattle.krates_certificate.specs.CertificateViews.{kind_name};

use crate::certificate_error::CertificateError;
use crate::part::CertificatePart;
use krates_cm::{PackageId, ReadError};
use krates_cm_json::{FromValue, JsonRef};
use krates_ids::{IdError, Kid};
use krates_rules::DepKind;
use std::alloc::Global;

/// Reads a field, as the document's types are read.
pub(crate) fn field<T: FromValue, J: JsonRef>(
    alloc: Global,
    object: J,
    key: &'static str,
) -> Result<T, CertificateError>
    ensures { Gives T.view (λ x. Field T.reads key.now x (J.meaning object))
        (FieldFault T.reads key.now (J.meaning object)) result }
{
    match object.get(key) {
        Some(value) => Ok(T::from_json_at(alloc, value, key)?),
        None => Err(CertificateError::Read(ReadError::Missing(key))),
    }
}

/// Reads an id.
pub(crate) fn id<J: JsonRef>(
    alloc: Global,
    object: J,
    key: &'static str,
) -> Result<Kid, CertificateError>
    ensures { Gives (λ id. id) (λ id. IdField key.now id (J.meaning object))
        (IdFault key.now (J.meaning object)) result }
{
    let id: PackageId = field(alloc, object, key)?;
    match Kid::try_from(id) {
        Ok(kid) => Ok(kid),
        Err(error) => {
            if is_of_memory(&error) {
                return Err(CertificateError::Read(ReadError::Memory));
            }
            Err(CertificateError::BadId(key))
        }
    }
}

/// Whether an id wasn't read because memory ran out.
pub(crate) fn is_of_memory(error: &IdError) -> bool
    ensures { IsTrue result ↔ IsOfMemory error.now }
{
    matches!(error, IdError::Memory(_))
}

/// Reads the kind of a dependency.
pub(crate) fn kind<J: JsonRef>(alloc: Global, object: J) -> Result<DepKind, CertificateError>
    ensures { Gives (λ kind. kind) (λ kind. NameField (codes "kind") (kind_name kind) (J.meaning object))
        (NameFault kind_name (codes "kind") (J.meaning object)) result }
{
    let name: String = field(alloc, object, "kind")?;
    match name.as_str() {
        "normal" => Ok(DepKind::Normal),
        "build" => Ok(DepKind::Build),
        "dev" => Ok(DepKind::Dev),
        _ => Err(CertificateError::UnknownName("kind")),
    }
}

/// Reads the number of a rule.
pub(crate) fn rule<J: JsonRef>(alloc: Global, object: J) -> Result<u8, CertificateError>
    ensures { Gives (λ rule. rule) (λ rule. RuleField rule (J.meaning object))
        (RuleFault (J.meaning object)) result }
{
    let number: usize = field(alloc, object, "rule")?;
    if number > 255 {
        return Err(CertificateError::TooLarge("rule"));
    }
    Ok(number as u8)
}

/// Reads the part under a key.
pub(crate) fn part<T: CertificatePart, J: JsonRef>(
    alloc: Global,
    object: J,
    key: &'static str,
) -> Result<T, CertificateError>
    ensures { Gives T.view (λ m. PartField (T.Is m) key.now (J.meaning object))
        (PartFault T.IsFault key.now (J.meaning object)) result }
{
    match object.get(key) {
        Some(value) => T::from_json(alloc, value),
        None => Err(CertificateError::Read(ReadError::Missing(key))),
    }
}

/// Reads the list of parts under a key.
pub(crate) fn list<T: CertificatePart, J: JsonRef>(
    alloc: Global,
    object: J,
    key: &'static str,
) -> Result<Vec<T>, CertificateError>
    ensures { Gives (λ v. map T.view v.items) (λ xs. ListField T.Is key.now xs (J.meaning object))
        (ListFault T.IsFault key.now (J.meaning object)) result }
{
    match object.get(key) {
        Some(value) => items(alloc, value, key),
        None => Err(CertificateError::Read(ReadError::Missing(key))),
    }
}

/// Reads the items of an array.
fn items<T: CertificatePart, J: JsonRef>(
    alloc: Global,
    value: J,
    key: &'static str,
) -> Result<Vec<T>, CertificateError>
    ensures { Gives (λ v. map T.view v.items) (λ xs. ListWritten T.Is xs (J.meaning value))
        (ItemsFault T.IsFault key.now (J.meaning value)) result }
{
    let Some(len) = value.len() else {
        return Err(CertificateError::Read(ReadError::WrongType(key)));
    };
    let mut parts = Vec::with_capacity(alloc, len)?;
    while let Some(item) = value.item(parts.len()) {
        parts.push(T::from_json(alloc, item)?)?;
    }
    Ok(parts)
}
