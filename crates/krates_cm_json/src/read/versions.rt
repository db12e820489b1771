//! Versions and version requirements, read from JSON values by the crate `semver`.

ghost use Rattle.std.specs.Prelude.{◌≡◌, IfOk, string_bytes};
ghost use Rattle.semver.specs.Identifiers.{parts_of};
ghost use Rattle.krates_cm.specs.Document.{VersionModel, RequirementModel, requirement_view};
ghost use Rattle.krates_cm.specs.Names.{has_extra, with_patch};
ghost use Rattle.krates_cm_json.specs.Tables.{version, requirement, rust_version};

use crate::JsonRef;
use crate::read::from_value::FromValue;
use krates_cm::ReadError;
use semver::{Version, VersionReq};
use std::alloc::{AllocError, Global};

impl FromValue for Version {
    ghost Model = { VersionModel };

    ghost view = { parts_of };

    ghost reads = { version };

    fn from_json_at<J: JsonRef>(
        alloc: Global,
        value: J,
        key: &'static str,
    ) -> Result<Version, ReadError> {
        let text = value.as_str().ok_or(ReadError::WrongType(key))?;
        match Version::parse(alloc, text) {
            Ok(version) => Ok(version),
            Err(error) if error == semver::Error::from(AllocError) => Err(ReadError::Memory),
            Err(_) => Err(ReadError::BadVersion),
        }
    }
}

impl FromValue for VersionReq {
    ghost Model = { RequirementModel };

    ghost view = { requirement_view };

    ghost reads = { requirement };

    fn from_json_at<J: JsonRef>(
        alloc: Global,
        value: J,
        key: &'static str,
    ) -> Result<VersionReq, ReadError> {
        let text = value.as_str().ok_or(ReadError::WrongType(key))?;
        match VersionReq::parse(alloc, text) {
            Ok(req) => Ok(req),
            Err(error) if error == semver::Error::from(AllocError) => Err(ReadError::Memory),
            Err(_) => Err(ReadError::BadReq),
        }
    }
}

/// The least version of Rust that a package needs: major and minor, and the patch where it is given
/// (Cargo Book, "The `rust-version` field").
#[derive(Drop)]
pub(crate) struct RustVersion(pub Version);

/// Whether a text has a pre-release or build metadata.
fn has_extra(text: &str) -> bool
    ensures { result ≡ has_extra text.now }
{
    text.bytes().any(|b| b == b'-' || b == b'+')
}

/// The text with the patch 0, if it has only a major and a minor.
fn with_patch(alloc: Global, text: &str) -> Result<String, AllocError>
    ensures { IfOk result (λ s. string_bytes s ≡ with_patch text.now) }
{
    let mut version = String::from_str(alloc, text)?;
    if text.bytes().filter(|b| *b == b'.').count() == 1 {
        version.push_str(".0")?;
    }
    Ok(version)
}

impl FromValue for RustVersion {
    ghost Model = { VersionModel };

    ghost view = { λ v. parts_of v.0 };

    ghost reads = { rust_version };

    fn from_json_at<J: JsonRef>(
        alloc: Global,
        value: J,
        key: &'static str,
    ) -> Result<RustVersion, ReadError> {
        let text = value.as_str().ok_or(ReadError::WrongType(key))?;
        if has_extra(text) {
            return Err(ReadError::BadRustVersion);
        }
        let text = with_patch(alloc, text)?;
        match Version::parse(alloc, text.as_str()) {
            Ok(version) => Ok(RustVersion(version)),
            Err(error) if error == semver::Error::from(AllocError) => Err(ReadError::Memory),
            Err(_) => Err(ReadError::BadRustVersion),
        }
    }
}
