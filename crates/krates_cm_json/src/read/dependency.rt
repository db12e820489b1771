//! Declared dependencies, read from JSON values.

ghost use Rattle.krates_cm.specs.Document.{DependencyModel, dependency_view};
ghost use Rattle.krates_cm.specs.declared.dependency.DependencyKind.{DependencyKind};
ghost use Rattle.krates_cm_json.specs.Tables.{dependency, dependency_kind};

use crate::JsonRef;
use crate::read::fields::{expect_object, optional, or_default, required, zip_four, zip_three};
use crate::read::from_value::FromValue;
use krates_cm::{Dependency, DependencyKind, ReadError};
use std::alloc::Global;

/// Null is the normal kind.
impl FromValue for DependencyKind {
    ghost Model = { DependencyKind };

    ghost view = { λ kind. kind };

    ghost reads = { dependency_kind };

    fn from_json_at<J: JsonRef>(
        _alloc: Global,
        value: J,
        key: &'static str,
    ) -> Result<DependencyKind, ReadError> {
        if value.is_null() {
            return Ok(DependencyKind::Normal);
        }
        match value.as_str() {
            Some("normal") => Ok(DependencyKind::Normal),
            Some("dev") => Ok(DependencyKind::Development),
            Some("build") => Ok(DependencyKind::Build),
            Some(_) => Err(ReadError::BadKind),
            None => Err(ReadError::WrongType(key)),
        }
    }
}

impl FromValue for Dependency {
    ghost Model = { DependencyModel };

    ghost view = { dependency_view };

    ghost reads = { dependency };

    #[tactic(auto, unfolding(crate::specs::Tables::dependency))]
    fn from_json_at<J: JsonRef>(
        alloc: Global,
        value: J,
        key: &'static str,
    ) -> Result<Dependency, ReadError> {
        expect_object(value, key)?;
        let named = zip_four(
            required(alloc, value, "name"),
            optional(alloc, value, "source"),
            required(alloc, value, "req"),
            or_default(alloc, value, "kind", DependencyKind::Normal),
        );
        let asked = zip_four(
            required(alloc, value, "optional"),
            required(alloc, value, "uses_default_features"),
            required(alloc, value, "features"),
            optional(alloc, value, "target"),
        );
        let found = zip_three(
            optional(alloc, value, "rename"),
            optional(alloc, value, "registry"),
            optional(alloc, value, "path"),
        );
        let (named, asked, found) = zip_three(named, asked, found)?;
        Ok(Dependency {
            name: named.0,
            source: named.1,
            req: named.2,
            kind: named.3,
            optional: asked.0,
            uses_default_features: asked.1,
            features: asked.2,
            target: asked.3,
            rename: found.0,
            registry: found.1,
            path: found.2,
        })
    }
}
