//! Packages, written as JSON values.

ghost use Rattle.krates_cm.specs.Document.{DependencyModel, dependency_view, TargetModel, target_view, PackageModel, package_view};
ghost use Rattle.krates_cm_json.specs.WrittenTables.{DependencyWritten, TargetWritten, PackageWritten};

use crate::write::object::Fields;
use crate::write::to_value::ToValue;
use crate::write::versions::rust_version;
use krates_cm::{Dependency, Package, Target};
use serde_json::Value;
use std::alloc::{AllocError, Global};

impl ToValue for Dependency {
    ghost Model = { DependencyModel };

    ghost view = { dependency_view };

    ghost Writes = { DependencyWritten };

    fn to_value(&self, alloc: Global) -> Result<Value, AllocError> {
        let fields = Fields::new(alloc)
            .with("features", &self.features)?
            .with("kind", &self.kind)?
            .with("name", &self.name)?
            .with("optional", &self.optional)?
            .with_some("path", &self.path)?
            .with("registry", &self.registry)?
            .with("rename", &self.rename)?
            .with("req", &self.req)?
            .with("source", &self.source)?
            .with("target", &self.target)?
            .with("uses_default_features", &self.uses_default_features)?;
        Ok(fields.object())
    }
}

impl ToValue for Target {
    ghost Model = { TargetModel };

    ghost view = { target_view };

    ghost Writes = { TargetWritten };

    fn to_value(&self, alloc: Global) -> Result<Value, AllocError> {
        let fields = Fields::new(alloc)
            .with("crate_types", &self.crate_types)?
            .with("doc", &self.doc)?
            .with("doctest", &self.doctest)?
            .with("edition", &self.edition)?
            .with("kind", &self.kind)?
            .with("name", &self.name)?
            .with_items("required-features", &self.required_features)?
            .with("src_path", &self.src_path)?
            .with("test", &self.test)?;
        Ok(fields.object())
    }
}

impl ToValue for Package {
    ghost Model = { PackageModel };

    ghost view = { package_view };

    ghost Writes = { PackageWritten };

    fn to_value(&self, alloc: Global) -> Result<Value, AllocError> {
        let fields = Fields::new(alloc)
            .with("authors", &self.authors)?
            .with("categories", &self.categories)?
            .with("default_run", &self.default_run)?
            .with("dependencies", &self.dependencies)?
            .with("description", &self.description)?
            .with("documentation", &self.documentation)?
            .with("edition", &self.edition)?
            .with("features", &self.features)?
            .with("homepage", &self.homepage)?
            .with("id", &self.id)?
            .with("keywords", &self.keywords)?
            .with("license", &self.license)?
            .with("license_file", &self.license_file)?
            .with("links", &self.links)?
            .with("manifest_path", &self.manifest_path)?
            .with("metadata", &self.metadata)?
            .with("name", &self.name)?
            .with("publish", &self.publish)?
            .with("readme", &self.readme)?
            .with("repository", &self.repository)?
            .with_value("rust_version", rust_version(alloc, &self.rust_version)?)?
            .with("source", &self.source)?
            .with("targets", &self.targets)?
            .with("version", &self.version)?;
        Ok(fields.object())
    }
}
