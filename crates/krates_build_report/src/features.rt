//! The features of a crate that is built, as they are shown.

use crate::build::Build;
use crate::places::side_name;
use crate::sentences::last_reason;
use krates::Package;
use krates_build_facts::BuildFact;
use krates_report::answer::Answer;
use krates_report::crate_name::ShortName;
use krates_report::json::{InJson, JsonObject, list_json};
use krates_report::lines::Lines;
use krates_units::Side;
use serde_json::Value;
use std::alloc::{AllocError, Global};

/// A feature that is enabled, and why.
#[derive(Drop)]
struct ExplainedFeature<'a> {
    name: &'a str,
    reason: String,
}

/// The features of a crate on a side.
#[derive(Drop)]
struct SideFeatures<'a> {
    side: Side,
    features: Vec<ExplainedFeature<'a>>,
}

/// The features of a crate that is built, side by side.
#[derive(Drop)]
pub(crate) struct BuiltFeatures<'d, 'a> {
    package: &'d Package,
    sides: Vec<SideFeatures<'a>>,
}

impl<'d, 'a> BuiltFeatures<'d, 'a> {
    /// Those of the crate with that number, each with one reason. The only error is running out of memory.
    pub(crate) fn of(
        alloc: Global,
        build: &'d Build<'a>,
        number: usize,
        package: &'d Package,
    ) -> Result<BuiltFeatures<'d, 'a>, AllocError> {
        let mut sides = Vec::new(alloc);
        for side in [Side::Targets, Side::Host] {
            if build
                .units
                .derived()
                .holds(&BuildFact::Activated(number, side))
            {
                sides.push(side_features(alloc, build, number, side)?)?;
            }
        }
        Ok(BuiltFeatures { package, sides })
    }
}

/// The features of the crate with that number on a side.
fn side_features<'a>(
    alloc: Global,
    build: &Build<'a>,
    number: usize,
    side: Side,
) -> Result<SideFeatures<'a>, AllocError> {
    let mut features = Vec::new(alloc);
    for name in build.units.features_of(alloc, number, side)? {
        let fact = BuildFact::ActivatedFeature(number, side, name);
        let reason = last_reason(alloc, build, &fact)?;
        features.push(ExplainedFeature { name, reason })?;
    }
    Ok(SideFeatures { side, features })
}

impl InJson for ExplainedFeature<'_> {
    /// `name` and `reason`.
    fn json(&self, alloc: Global) -> Result<Value, AllocError> {
        JsonObject::new(alloc)
            .text("name", self.name)
            .text("reason", self.reason.as_str())
            .object()
    }
}

impl InJson for SideFeatures<'_> {
    /// `side` and `features`, each with `name` and `reason`.
    fn json(&self, alloc: Global) -> Result<Value, AllocError> {
        JsonObject::new(alloc)
            .text("side", side_name(self.side))
            .put("features", list_json(alloc, &self.features))
            .object()
    }
}

impl SideFeatures<'_> {
    /// Adds the crate with the side, and below it the features.
    fn push(&self, package: &Package, lines: &mut Lines) {
        let side = match self.side {
            Side::Targets => "",
            Side::Host => ", for what the build itself runs",
        };
        write!(lines, "{}{side}", ShortName(package));
        lines.end();
        for feature in &self.features {
            write!(lines, "  {}: {}", feature.name, feature.reason);
            lines.end();
        }
    }
}

impl Answer for BuiltFeatures<'_, '_> {
    /// The crate, once for each side on which it takes part, and below it a line for each feature: its name, and why it is enabled.
    fn push_lines(&self, lines: &mut Lines) -> Result<(), AllocError> {
        for side in &self.sides {
            side.push(self.package, lines);
        }
        Ok(())
    }

    /// `id` and `sides`, each with `side` and `features`, each of these with `name` and `reason`.
    fn json(&self, alloc: Global) -> Result<Value, AllocError> {
        JsonObject::new(alloc)
            .text("id", self.package.id.repr.as_str())
            .put("sides", list_json(alloc, &self.sides))
            .object()
    }
}
