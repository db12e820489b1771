//! The crates that are built, as they are shown.

use crate::build::Build;
use crate::places::{UnitName, kind_name, target_of, triple_of};
use krates::{KrateMatch, Package};
use krates_build_facts::{PlatformNumber, UnitPlace};
use krates_report::answer::Answer;
use krates_report::crate_name::ShortName;
use krates_report::json::{InJson, JsonObject, Values};
use krates_report::lines::Lines;
use krates_units::Mode;
use krates_words::BuildSide;
use serde_json::Value;
use std::alloc::{AllocError, Global};

/// The crates that are built, in the order of their ids.
#[derive(Drop)]
pub(crate) struct BuiltList<'d, 'a> {
    /// What is built.
    pub(crate) build: &'d Build<'a>,
    /// The crates, each at its position.
    pub(crate) crates: Vec<KrateMatch<'d, Package>>,
    /// Only what is built for this, if anything is said.
    pub(crate) side: Option<BuildSide>,
    /// Whether the text has their ids instead of their names.
    pub(crate) has_ids: bool,
    /// Whether the text has the units of each.
    pub(crate) has_units: bool,
}

impl BuiltList<'_, '_> {
    /// Whether a platform is one of those that are shown.
    fn shows(&self, platform: PlatformNumber) -> bool {
        match (self.side, platform) {
            (None, _) => true,
            (Some(BuildSide::Host), PlatformNumber::Host) => true,
            (Some(BuildSide::Target), PlatformNumber::Machine(_)) => true,
            (Some(_), _) => false,
        }
    }

    /// Whether the crate with that number is shown.
    fn shows_crate(&self, number: usize) -> bool {
        self.build.is_for(number, self.side)
    }

    /// Whether a unit of the crate with that number is shown.
    fn shows_unit(&self, number: usize, unit: &UnitPlace) -> bool {
        unit.target.krate == number && self.shows(unit.placement.platform)
    }

    /// Adds a line for each unit of the crate with that number, and one for its build script.
    fn push_units(&self, number: usize, lines: &mut Lines) {
        let tables = self.build.tables();
        for unit in self.build.units.units() {
            if self.shows_unit(number, unit) {
                write!(
                    lines,
                    "    {}",
                    UnitName {
                        tables,
                        unit: *unit
                    }
                );
                lines.end();
            }
        }
        if self.has_script(number) {
            lines.push_str("    build script, for the host");
            lines.end();
        }
    }

    /// Whether the build script of the crate with that number is compiled, and shown.
    fn has_script(&self, number: usize) -> bool {
        self.shows(PlatformNumber::Host)
            && self
                .build
                .units
                .scripts()
                .iter()
                .any(|script| script.krate == number)
    }

    /// Adds the lines of a crate.
    fn push_crate(&self, number: usize, found: &KrateMatch<'_, Package>, lines: &mut Lines) {
        if !self.shows_crate(number) {
            return;
        }
        if self.has_ids {
            lines.push_str(found.krate.id.repr.as_str());
        } else {
            write!(lines, "{}", ShortName(found.krate));
        }
        lines.end();
        if self.has_units {
            self.push_units(number, lines);
        }
    }

    /// What JSON says of the units of the crate with that number.
    fn units_json(&self, alloc: Global, number: usize) -> Result<Value, AllocError> {
        let mut values = Values::new(alloc);
        for unit in self.build.units.units() {
            if self.shows_unit(number, unit) {
                values.add(self.unit_json(alloc, unit));
            }
        }
        values.list()
    }

    /// What JSON says of a unit.
    fn unit_json(&self, alloc: Global, unit: &UnitPlace) -> Result<Value, AllocError> {
        let tables = self.build.tables();
        let (kind, name) = match target_of(tables, unit) {
            Some(target) => (kind_name(target), target.target.name.as_str()),
            None => ("", ""),
        };
        let mode = match unit.mode {
            Mode::Build => "build",
            Mode::Test => "test",
        };
        JsonObject::new(alloc)
            .text("kind", kind)
            .text("name", name)
            .text("mode", mode)
            .text(
                "platform",
                triple_of(tables, unit.placement.platform).unwrap_or("host"),
            )
            .object()
    }

    /// What JSON says of a crate.
    fn crate_json(
        &self,
        alloc: Global,
        number: usize,
        found: &KrateMatch<'_, Package>,
    ) -> Result<Value, AllocError> {
        let for_targets = self.build.built.is_for_targets(number);
        let for_host = self.build.built.is_for_host(number);
        JsonObject::new(alloc)
            .put("crate", found.json(alloc))
            .put("for_targets", Ok(Value::Bool(for_targets)))
            .put("for_host", Ok(Value::Bool(for_host)))
            .put("build_script", Ok(Value::Bool(self.has_script(number))))
            .put("units", self.units_json(alloc, number))
            .object()
    }
}

impl Answer for BuiltList<'_, '_> {
    /// A line for each: its short name, or its id; below it its units, where they are asked for.
    fn push_lines(&self, lines: &mut Lines) -> Result<(), AllocError> {
        for (number, found) in self.build.numbers.iter().zip(&self.crates) {
            self.push_crate(*number, found, lines);
        }
        Ok(())
    }

    /// A list of objects: `crate`, whether it is built `for_targets` and `for_host`, whether its `build_script` is compiled, and its `units`, each
    /// with `kind`, `name`, `mode` and `platform`.
    fn json(&self, alloc: Global) -> Result<Value, AllocError> {
        let mut values = Values::new(alloc);
        for (number, found) in self.build.numbers.iter().zip(&self.crates) {
            if self.shows_crate(*number) {
                values.add(self.crate_json(alloc, *number, found));
            }
        }
        values.list()
    }
}
