//! What the crates that are built are used for, as they are shown.

use crate::build::Build;
use krates::Package;
use krates_build_answers::{BuildUse, UsedCrate};
use krates_report::answer::Answer;
use krates_report::crate_name::ShortName;
use krates_report::json::{InJson, JsonObject, Values};
use krates_report::lines::Lines;
use serde_json::Value;
use std::alloc::{AllocError, Global};

/// The crates of a build of all targets, each with what it is used for.
#[derive(Drop)]
pub(crate) struct UsedCrates<'d, 'a> {
    /// The build, with all targets.
    pub(crate) build: &'d Build<'a>,
    /// The uses, by number.
    pub(crate) used: Vec<UsedCrate>,
}

impl<'d> UsedCrates<'d, '_> {
    /// How many are used for this.
    fn count(&self, usage: BuildUse) -> usize {
        self.used.iter().filter(|used| used.usage == usage).count()
    }

    /// The package of a crate, if it is used for this.
    fn package_for(&self, used: &UsedCrate, usage: BuildUse) -> Option<&'d Package> {
        if used.usage == usage {
            self.build.package(used.krate)
        } else {
            None
        }
    }

    /// Adds a use with the number of its crates, and below it the crates.
    fn push(&self, usage: BuildUse, title: &str, lines: &mut Lines) {
        write!(lines, "{title} ({})", self.count(usage));
        lines.end();
        for used in &self.used {
            if let Some(package) = self.package_for(used, usage) {
                write!(lines, "    {}", ShortName(package));
                lines.end();
            }
        }
    }

    /// The crates that are used for this.
    fn json_of(&self, alloc: Global, usage: BuildUse) -> Result<Value, AllocError> {
        let mut values = Values::new(alloc);
        for used in &self.used {
            if let Some(package) = self.package_for(used, usage) {
                values.add(package.json(alloc));
            }
        }
        values.list()
    }
}

impl Answer for UsedCrates<'_, '_> {
    /// `shipped`, `build only` and `tests only`, each with the number of its crates, and below it the crates.
    fn push_lines(&self, lines: &mut Lines) -> Result<(), AllocError> {
        self.push(BuildUse::Shipped, "shipped", lines);
        self.push(BuildUse::Build, "build only", lines);
        self.push(BuildUse::Tests, "tests only", lines);
        Ok(())
    }

    /// An object with the crates of `shipped`, `build` and `tests`.
    fn json(&self, alloc: Global) -> Result<Value, AllocError> {
        JsonObject::new(alloc)
            .put("shipped", self.json_of(alloc, BuildUse::Shipped))
            .put("build", self.json_of(alloc, BuildUse::Build))
            .put("tests", self.json_of(alloc, BuildUse::Tests))
            .object()
    }
}
