//! The facts about a build, by the numbers and places of the tables.

use krates_build_tables::{FeatureReference, LinkPlace, TargetPlace};
use krates_units::{Meeting, Mode, Side};

/// What a unit is compiled for.
#[derive(Clone, Copy, Debug, PartialEq, Eq, PartialOrd, Ord)]
pub enum PlatformNumber {
    /// The host.
    Host,
    /// The machine of this number, among those that the build is for.
    Machine(usize),
}

/// What a unit is compiled for, and the side of its features.
#[derive(Clone, Copy, Debug, PartialEq, Eq, PartialOrd, Ord)]
pub struct PlacementNumber {
    /// What it is compiled for.
    pub platform: PlatformNumber,
    /// The side of its features.
    pub side: Side,
}

/// A unit: a target of a crate, compiled once, in a mode.
#[derive(Clone, Copy, Debug, PartialEq, Eq, PartialOrd, Ord)]
pub struct UnitPlace {
    /// The target.
    pub target: TargetPlace,
    /// How it is compiled.
    pub mode: Mode,
    /// What for.
    pub placement: PlacementNumber,
}

/// What may have a derivation. Crates are named by their numbers, links and targets by their places.
#[derive(Clone, Copy, Debug, PartialEq, Eq, PartialOrd, Ord)]
pub enum BuildFact<'a> {
    /// The crate is met.
    Met(usize, Meeting),
    /// The reference counts at the crate, before sides and target texts.
    LinkedReference(usize, Meeting, FeatureReference<'a>),
    /// The feature of the crate is enabled, before sides and target texts.
    LinkedFeature(usize, Meeting, &'a str),
    /// The crate's dependencies of this name are turned on, before sides and target texts.
    LinkedName(usize, Meeting, &'a str),
    /// The dependency exists.
    Linked(LinkPlace),
    /// The dependency would exist, and the document lacks its edge: that of the crate at the place among those that are lacking.
    Lost(usize, usize),
    /// The crate takes part, on a side.
    Activated(usize, Side),
    /// The reference counts at the crate, on a side.
    ActivatedReference(usize, Side, FeatureReference<'a>),
    /// The feature of the crate is enabled, on a side.
    ActivatedFeature(usize, Side, &'a str),
    /// The crate's dependencies of this name are turned on, on a side.
    ActivatedName(usize, Side, &'a str),
    /// From this side, the dependency counts.
    Used(LinkPlace, Side),
    /// The text is an enabled feature, for a target of the crate that requires it.
    Available(usize, &'a str),
    /// The unit is compiled.
    Compiled(UnitPlace),
    /// What is compiled for this platform needs the library over the link.
    Needed(LinkPlace, PlatformNumber, UnitPlace),
    /// The crate's build script is run for what is placed so.
    ScriptRun(usize, PlacementNumber),
    /// The crate's build script is compiled, with the features of this side.
    ScriptCompiled(usize, Side),
    /// Over the link, the run of a build script for what is placed so needs the other crate's for what is placed so.
    RunNeeded(LinkPlace, PlacementNumber, PlacementNumber),
}
