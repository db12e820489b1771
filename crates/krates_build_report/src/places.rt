//! How what a build is made of is named for people: platforms, sides, targets and units.

use krates::cm::TargetKind;
use krates_build_facts::{PlatformNumber, UnitPlace};
use krates_build_tables::{Tables, TargetEntry};
use krates_units::{Mode, Side};
use std::fmt;

/// What something is compiled for: `the host`, or the triple of a machine.
#[derive(Clone, Copy)]
pub(crate) struct PlatformName<'b, 'a> {
    pub(crate) tables: &'b Tables<'a>,
    pub(crate) platform: PlatformNumber,
}

impl fmt::Display for PlatformName<'_, '_> {
    fn fmt<W: fmt::Write>(&self, f: &mut fmt::Formatter<W>) -> fmt::Result {
        f.write_str(triple_of(self.tables, self.platform).unwrap_or("the host"))
    }
}

/// The triple of the machine that something is compiled for; none for the host, which the tables don't name.
pub(crate) fn triple_of<'a>(tables: &Tables<'a>, platform: PlatformNumber) -> Option<&'a str> {
    match platform {
        PlatformNumber::Host => None,
        PlatformNumber::Machine(number) => Some(tables.machine(number)?.triple()),
    }
}

/// A side, as an answer names it.
pub(crate) fn side_name(side: Side) -> &'static str {
    match side {
        Side::Targets => "targets",
        Side::Host => "host",
    }
}

/// The kind of a target, as cargo names it.
pub(crate) fn kind_name(target: &TargetEntry<'_>) -> &'static str {
    if target.is_script {
        "build script"
    } else if target.target.kind.contains(&TargetKind::ProcMacro) {
        "proc-macro"
    } else if target.is_library {
        "library"
    } else if target.is_program {
        "program"
    } else if target.target.is_example() {
        "example"
    } else if target.target.is_bench() {
        "benchmark"
    } else {
        "test"
    }
}

/// The target of a unit.
pub(crate) fn target_of<'b, 'a>(
    tables: &'b Tables<'a>,
    unit: &UnitPlace,
) -> Option<&'b TargetEntry<'a>> {
    tables.entry(unit.target.krate)?.target(unit.target.index)
}

/// A unit: the kind and the name of its target, whether it is compiled with its tests, and what for.
#[derive(Clone, Copy)]
pub(crate) struct UnitName<'b, 'a> {
    pub(crate) tables: &'b Tables<'a>,
    pub(crate) unit: UnitPlace,
}

impl fmt::Display for UnitName<'_, '_> {
    fn fmt<W: fmt::Write>(&self, f: &mut fmt::Formatter<W>) -> fmt::Result {
        let platform = PlatformName {
            tables: self.tables,
            platform: self.unit.placement.platform,
        };
        if let Some(target) = target_of(self.tables, &self.unit) {
            let kind = kind_name(target);
            let name = target.target.name.as_str();
            write!(f, "{kind} `{name}`")?;
        }
        match self.unit.mode {
            Mode::Build => {}
            Mode::Test => f.write_str(", with its tests")?,
        }
        write!(f, ", for {platform}")
    }
}
