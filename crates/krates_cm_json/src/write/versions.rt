//! Versions and version requirements, written as JSON values.

ghost use Rattle.std.specs.Prelude.{◌≡◌, IfOk, option_map, string_bytes};
ghost use Rattle.serde_json.specs.View.{view as data_of};
ghost use Rattle.semver.specs.Identifiers.{parts_of};
ghost use Rattle.krates_cm.specs.Document.{VersionModel, RequirementModel, requirement_view};
ghost use Rattle.krates_cm_json.specs.Objects.{OptionWritten};
ghost use Rattle.krates_cm_json.specs.WrittenTexts.{VersionWritten, RustVersionWritten, RequirementWritten, rust_version_text};

use crate::write::to_value::ToValue;
use semver::{Version, VersionReq};
use serde_json::Value;
use std::alloc::{AllocError, Global};

impl ToValue for Version {
    ghost Model = { VersionModel };

    ghost view = { parts_of };

    ghost Writes = { VersionWritten };

    fn to_value(&self, alloc: Global) -> Result<Value, AllocError> {
        Ok(Value::String(self.to_string(alloc)?))
    }
}

impl ToValue for VersionReq {
    ghost Model = { RequirementModel };

    ghost view = { requirement_view };

    ghost Writes = { RequirementWritten };

    fn to_value(&self, alloc: Global) -> Result<Value, AllocError> {
        Ok(Value::String(self.to_string(alloc)?))
    }
}

/// The version of Rust that a package needs, or null.
pub(crate) fn rust_version(alloc: Global, version: &Option<Version>) -> Result<Value, AllocError>
    ensures { IfOk result (λ v. OptionWritten RustVersionWritten
        (option_map parts_of version.now) (data_of v)) }
{
    match version {
        Some(version) => Ok(Value::String(rust_version_text(alloc, version)?)),
        None => Ok(Value::Null),
    }
}

/// Major and minor, and the patch where it isn't 0.
fn rust_version_text(alloc: Global, version: &Version) -> Result<String, AllocError>
    ensures { IfOk result (λ s. string_bytes s ≡ rust_version_text (parts_of version.now)) }
{
    let (major, minor, patch) = (version.major, version.minor, version.patch);
    if patch == 0 {
        format!(in alloc; "{major}.{minor}")
    } else {
        format!(in alloc; "{major}.{minor}.{patch}")
    }
}
