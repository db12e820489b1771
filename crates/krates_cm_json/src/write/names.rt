//! Kinds and editions, written as JSON values.

ghost use Rattle.std.specs.Prelude.{◌≡◌};
ghost use Rattle.krates_cm.specs.declared.dependency.DependencyKind.{DependencyKind};
ghost use Rattle.krates_cm.specs.declared.target.TargetKind.{TargetKind};
ghost use Rattle.krates_cm.specs.declared.target.CrateType.{CrateType};
ghost use Rattle.krates_cm.specs.declared.target.Edition.{Edition};
ghost use Rattle.krates_cm_json.specs.WrittenTexts.{KindWritten, TargetKindWritten, CrateTypeWritten, EditionWritten, target_kind_text, crate_type_text};

use crate::write::to_value::ToValue;
use krates_cm::{CrateType, DependencyKind, Edition, TargetKind};
use serde_json::Value;
use std::alloc::{AllocError, Global};

/// The normal kind is null.
impl ToValue for DependencyKind {
    ghost Model = { DependencyKind };

    ghost view = { λ kind. kind };

    ghost Writes = { KindWritten };

    fn to_value(&self, alloc: Global) -> Result<Value, AllocError> {
        match self {
            DependencyKind::Normal => Ok(Value::Null),
            DependencyKind::Development => Value::try_from_str(alloc, "dev"),
            DependencyKind::Build => Value::try_from_str(alloc, "build"),
        }
    }
}

impl ToValue for TargetKind {
    ghost Model = { TargetKind };

    ghost view = { λ kind. kind };

    ghost Writes = { TargetKindWritten };

    fn to_value(&self, alloc: Global) -> Result<Value, AllocError> {
        Value::try_from_str(alloc, kind_text(*self))
    }
}

impl ToValue for CrateType {
    ghost Model = { CrateType };

    ghost view = { λ form. form };

    ghost Writes = { CrateTypeWritten };

    fn to_value(&self, alloc: Global) -> Result<Value, AllocError> {
        Value::try_from_str(alloc, form_text(*self))
    }
}

impl ToValue for Edition {
    ghost Model = { Edition };

    ghost view = { λ edition. edition };

    ghost Writes = { EditionWritten };

    fn to_value(&self, alloc: Global) -> Result<Value, AllocError> {
        Value::try_from_str(alloc, self.as_str())
    }
}

/// The text of a target kind.
fn kind_text(kind: TargetKind) -> &'static str
    ensures { result.now ≡ target_kind_text kind }
{
    match kind {
        TargetKind::Bench => "bench",
        TargetKind::Bin => "bin",
        TargetKind::CustomBuild => "custom-build",
        TargetKind::CDyLib => "cdylib",
        TargetKind::DyLib => "dylib",
        TargetKind::Example => "example",
        TargetKind::Lib => "lib",
        TargetKind::ProcMacro => "proc-macro",
        TargetKind::RLib => "rlib",
        TargetKind::StaticLib => "staticlib",
        TargetKind::Test => "test",
    }
}

/// The text of a crate type.
fn form_text(form: CrateType) -> &'static str
    ensures { result.now ≡ crate_type_text form }
{
    match form {
        CrateType::Bin => "bin",
        CrateType::CDyLib => "cdylib",
        CrateType::DyLib => "dylib",
        CrateType::Lib => "lib",
        CrateType::ProcMacro => "proc-macro",
        CrateType::RLib => "rlib",
        CrateType::StaticLib => "staticlib",
    }
}
