//! What a package builds, read from JSON values.

ghost use Rattle.krates_cm.specs.Document.{TargetModel, target_view};
ghost use Rattle.krates_cm.specs.declared.target.TargetKind.{TargetKind};
ghost use Rattle.krates_cm.specs.declared.target.CrateType.{CrateType};
ghost use Rattle.krates_cm.specs.declared.target.Edition.{Edition};
ghost use Rattle.krates_cm_json.specs.Tables.{target, target_kind, crate_type, edition};

use crate::JsonRef;
use crate::read::fields::{expect_object, list_or_empty, or_default, required, zip_three};
use crate::read::from_value::FromValue;
use krates_cm::{CrateType, Edition, ReadError, Target, TargetKind};
use std::alloc::Global;

impl FromValue for TargetKind {
    ghost Model = { TargetKind };

    ghost view = { λ x. x };

    ghost reads = { target_kind };

    fn from_json_at<J: JsonRef>(
        _alloc: Global,
        value: J,
        key: &'static str,
    ) -> Result<TargetKind, ReadError> {
        let text = value.as_str().ok_or(ReadError::WrongType(key))?;
        text.parse::<TargetKind>()
            .map_err(|_| ReadError::BadTargetKind)
    }
}

impl FromValue for CrateType {
    ghost Model = { CrateType };

    ghost view = { λ x. x };

    ghost reads = { crate_type };

    fn from_json_at<J: JsonRef>(
        _alloc: Global,
        value: J,
        key: &'static str,
    ) -> Result<CrateType, ReadError> {
        let text = value.as_str().ok_or(ReadError::WrongType(key))?;
        text.parse::<CrateType>()
            .map_err(|_| ReadError::BadCrateType)
    }
}

impl FromValue for Edition {
    ghost Model = { Edition };

    ghost view = { λ x. x };

    ghost reads = { edition };

    fn from_json_at<J: JsonRef>(
        _alloc: Global,
        value: J,
        key: &'static str,
    ) -> Result<Edition, ReadError> {
        let text = value.as_str().ok_or(ReadError::WrongType(key))?;
        text.parse::<Edition>().map_err(|_| ReadError::BadEdition)
    }
}

impl FromValue for Target {
    ghost Model = { TargetModel };

    ghost view = { target_view };

    ghost reads = { target };

    #[tactic(auto, unfolding(crate::specs::Tables::target))]
    fn from_json_at<J: JsonRef>(
        alloc: Global,
        value: J,
        key: &'static str,
    ) -> Result<Target, ReadError> {
        expect_object(value, key)?;
        let kinds = zip_three(
            required(alloc, value, "name"),
            required(alloc, value, "kind"),
            list_or_empty(alloc, value, "crate_types"),
        );
        let source = zip_three(
            list_or_empty(alloc, value, "required-features"),
            required(alloc, value, "src_path"),
            or_default(alloc, value, "edition", Edition::E2015),
        );
        let uses = zip_three(
            or_default(alloc, value, "doctest", true),
            or_default(alloc, value, "test", true),
            or_default(alloc, value, "doc", true),
        );
        let (kinds, source, uses) = zip_three(kinds, source, uses)?;
        Ok(Target {
            name: kinds.0,
            kind: kinds.1,
            crate_types: kinds.2,
            required_features: source.0,
            src_path: source.1,
            edition: source.2,
            doctest: uses.0,
            test: uses.1,
            doc: uses.2,
        })
    }
}
