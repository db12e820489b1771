//! Packages, read from JSON values.

ghost use Rattle.krates_cm.specs.Document.{Text, source_view, PackageModel, package_view};
ghost use Rattle.krates_cm.specs.PackageParts.{AboutModel, about_view, SettingsModel, settings_view};
ghost use Rattle.krates_cm_json.specs.Reading.{text};
ghost use Rattle.krates_cm_json.specs.Tables.{about, settings, package_reader};

use crate::JsonRef;
use crate::read::fields::{
    any_or_null, expect_object, list_or_empty, optional, or_default, required, zip_four, zip_three,
};
use crate::read::from_value::FromValue;
use crate::read::versions::RustVersion;
use krates_cm::package_parts::{About, Settings};
use krates_cm::{Edition, Package, ReadError, Source};
use semver::Version;
use serde_json::Value;
use std::alloc::Global;

impl FromValue for Source {
    ghost Model = { Text };

    ghost view = { source_view };

    ghost reads = { text };

    fn from_json_at<J: JsonRef>(
        alloc: Global,
        value: J,
        key: &'static str,
    ) -> Result<Source, ReadError> {
        let repr = String::from_json_at(alloc, value, key)?;
        Ok(Source { repr })
    }
}

impl FromValue for About {
    ghost Model = { AboutModel };

    ghost view = { about_view };

    ghost reads = { about };

    #[tactic(auto, unfolding(crate::specs::Tables::about))]
    fn from_json_at<J: JsonRef>(
        alloc: Global,
        value: J,
        _key: &'static str,
    ) -> Result<About, ReadError> {
        let terms = zip_four(
            list_or_empty(alloc, value, "authors"),
            optional(alloc, value, "description"),
            optional(alloc, value, "license"),
            optional(alloc, value, "license_file"),
        );
        let index = zip_three(
            list_or_empty(alloc, value, "categories"),
            list_or_empty(alloc, value, "keywords"),
            optional(alloc, value, "readme"),
        );
        let links = zip_three(
            optional(alloc, value, "repository"),
            optional(alloc, value, "homepage"),
            optional(alloc, value, "documentation"),
        );
        let (terms, index, links) = zip_three(terms, index, links)?;
        Ok(About {
            authors: terms.0,
            description: terms.1,
            license: terms.2,
            license_file: terms.3,
            categories: index.0,
            keywords: index.1,
            readme: index.2,
            repository: links.0,
            homepage: links.1,
            documentation: links.2,
        })
    }
}

impl FromValue for Settings {
    ghost Model = { SettingsModel };

    ghost view = { settings_view };

    ghost reads = { settings };

    #[tactic(auto, unfolding(crate::specs::Tables::settings))]
    fn from_json_at<J: JsonRef>(
        alloc: Global,
        value: J,
        _key: &'static str,
    ) -> Result<Settings, ReadError> {
        let build = zip_three(
            or_default(alloc, value, "edition", Edition::E2015),
            any_or_null(alloc, value, "metadata"),
            optional(alloc, value, "links"),
        );
        let publish = optional(alloc, value, "publish");
        let default_run = optional(alloc, value, "default_run");
        let rust_version = optional::<RustVersion, J>(alloc, value, "rust_version");
        let (build, publish, default_run, rust_version) = zip_four(
            build,
            publish,
            default_run,
            rust_version,
        )?;
        Ok(Settings {
            edition: build.0,
            metadata: build.1,
            links: build.2,
            publish,
            default_run,
            rust_version: rust_version.map(|v| v.0),
        })
    }
}

impl FromValue for Package {
    ghost Model = { PackageModel };

    ghost view = { package_view };

    ghost reads = { package_reader };

    #[tactic(auto, unfolding(crate::specs::Tables::package_reader))]
    fn from_json_at<J: JsonRef>(
        alloc: Global,
        value: J,
        key: &'static str,
    ) -> Result<Package, ReadError> {
        expect_object(value, key)?;
        let named = zip_four(
            required(alloc, value, "name"),
            required(alloc, value, "version"),
            required(alloc, value, "id"),
            optional(alloc, value, "source"),
        );
        let parts = zip_three(
            required(alloc, value, "dependencies"),
            required(alloc, value, "targets"),
            required(alloc, value, "features"),
        );
        let rest = zip_three(
            required(alloc, value, "manifest_path"),
            About::from_json_at(alloc, value, key),
            Settings::from_json_at(alloc, value, key),
        );
        let (named, parts, rest) = zip_three(named, parts, rest)?;
        let (manifest_path, about, settings) = rest;
        Ok(Package {
            name: named.0,
            version: named.1,
            authors: about.authors,
            id: named.2,
            source: named.3,
            description: about.description,
            dependencies: parts.0,
            license: about.license,
            license_file: about.license_file,
            targets: parts.1,
            features: parts.2,
            manifest_path,
            categories: about.categories,
            keywords: about.keywords,
            readme: about.readme,
            repository: about.repository,
            homepage: about.homepage,
            documentation: about.documentation,
            edition: settings.edition,
            metadata: settings.metadata,
            links: settings.links,
            publish: settings.publish,
            default_run: settings.default_run,
            rust_version: settings.rust_version,
        })
    }
}
