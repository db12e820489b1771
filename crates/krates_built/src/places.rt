//! The places of what a build is made of, by the numbers of tables. Each compares field by field.

use krates_build_facts::{PlacementNumber, PlatformNumber, UnitPlace};
use krates_build_tables::LinkPlace;
use krates_units::Side;

/// A build script that is compiled.
#[derive(Clone, Copy, Debug, PartialEq, Eq, PartialOrd, Ord)]
pub struct ScriptPlace {
    /// The number of its crate.
    pub krate: usize,
    /// The side of its features.
    pub side: Side,
}

/// A run of a build script.
#[derive(Clone, Copy, Debug, PartialEq, Eq, PartialOrd, Ord)]
pub struct RunPlace {
    /// The number of its crate.
    pub krate: usize,
    /// What is placed so that it is run for.
    pub placement: PlacementNumber,
}

/// A library that is needed.
#[derive(Clone, Copy, Debug, PartialEq, Eq, PartialOrd, Ord)]
pub struct NeedPlace {
    /// The link over which it is needed.
    pub link: LinkPlace,
    /// What that is compiled for which needs it.
    pub from: PlatformNumber,
    /// The library, as it is compiled.
    pub library: UnitPlace,
}

/// A run of a build script that another needs.
#[derive(Clone, Copy, Debug, PartialEq, Eq, PartialOrd, Ord)]
pub struct RunNeedPlace {
    /// The link over which it is needed.
    pub link: LinkPlace,
    /// What is placed so that the run is for which needs it.
    pub from: PlacementNumber,
    /// What is placed so that it is run for.
    pub run: PlacementNumber,
}

/// An enabled feature of a crate.
#[derive(Clone, Copy, Debug, PartialEq, Eq, PartialOrd, Ord)]
pub struct FeaturePlace<'a> {
    /// The number of the crate.
    pub krate: usize,
    /// The side for which it is enabled.
    pub side: Side,
    /// Its name.
    pub name: &'a str,
}

/// A declared dependency that a build needs and that the document has no edge for.
#[derive(Clone, Copy, Debug, PartialEq, Eq, PartialOrd, Ord)]
pub struct LostPlace {
    /// The number of the crate that declares it.
    pub krate: usize,
    /// The place among those of the crate that are lacking.
    pub index: usize,
}
