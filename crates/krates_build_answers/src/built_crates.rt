//! The crates that a build compiles, each with what for.
ghost use Rattle.std.specs.Prelude.{◌≡◌, ◌↔◌, ◌++◌, ℕ, Contains, IfOk, IsTrue, MatchOption, Some, map, slice_get};
ghost use Rattle.std.specs.List.Sorted.{IsStrictlySortedBy};
ghost use Rattle.std.specs.Ordering.{nat_cmp};
ghost use Rattle.krates_build_answers.specs.BuiltCrates.{AreBuiltIn, IsAmong, IsForHost, IsForMachine, IsForTargets, of_script, of_unit};
ghost use Rattle.krates_build_answers.specs.Orders.{built_cmp};

use crate::each_once::each_once;
use krates_build_facts::{PlatformNumber, UnitPlace};
use krates_built::{ScriptPlace, Units};
use std::alloc::{AllocError, Global};
use std::marker::Model;

/// A crate that is built, and what for. They compare field by field.
#[derive(Clone, Copy, Debug, PartialEq, Eq, PartialOrd, Ord)]
pub struct BuiltCrate {
    /// The number of the crate.
    pub krate: usize,
    /// What it is built for.
    pub platform: PlatformNumber,
}

/// The crates that are built, each with what for, in ascending order and each once.
#[derive(Debug, Drop)]
pub struct BuiltCrates {
    places: Vec<BuiltCrate>,
}

impl Model for BuiltCrates {
    ghost use Rattle.std.specs.Prelude.{List};
    ghost use Rattle.std.specs.Coded.{codes};
    ghost use Rattle.std.specs.List.Sorted.{IsStrictlySortedBy};
    ghost use Rattle.krates_build_answers.specs.Orders.{built_cmp};
    ghost use Rattle.krates_build_answers.specs.contracts.built_crates.BuiltCrate as told;
    ghost use Rattle.krates_build_answers.specs.declared.built_crates.BuiltCrate.{BuiltCrate};

    ghost Value = { List BuiltCrate };

    ghost coded = { Prim.hlevel (codes, told.the_row.coded) };

    ghost view = { λ b. b.places.items };

    ghost invariant = { λ b. IsStrictlySortedBy built_cmp b.places.items };
}

impl BuiltCrates {
    /// The crates of which a build compiles a unit, by what it compiles that for, and those of which it compiles the build script, for the
    /// host. The only error is running out of memory. Time O(n log n) for n units and build scripts.
    ///
    /// ```text
    /// let built = BuiltCrates::of(alloc, &units)?;
    /// ```
    pub fn of(alloc: Global, units: &Units<'_>) -> Result<BuiltCrates, AllocError>
        ensures { IfOk result (AreBuiltIn units.now.derived) }
    {
        units.agrees();
        let all = places_of(alloc, units.units(), units.scripts())?;
        let places = each_once(all)?;
        Ok(BuiltCrates { places })
    }

    /// What always holds: they ascend.
    pub fn agrees(&self)
        ensures { IsStrictlySortedBy built_cmp self.now }
    {
        let _ = &self.places;
    }

    /// The crates that are built, by number, and for each first the host and then the machines by number. Time O(1).
    pub fn as_slice(&self) -> &[BuiltCrate]
        ensures { result.now ≡ self.now }
    {
        &self.places
    }

    /// Where the crate stands that is built for that; `None` where it isn't built for that. Takes no memory. Time O(log n) for n crates that
    /// are built.
    pub fn position(&self, place: BuiltCrate) -> Option<usize>
        ensures { MatchOption result (¬ Contains self.now place)
            (λ n. slice_get self.now n ≡ Some place) }
    {
        found(&self.places, place)
    }

    /// The numbers of the crates that are built, whatever for, ascending and each once. The only error is running out of memory. Time
    /// O(n log n) for n crates that are built.
    pub fn krates(&self, alloc: Global) -> Result<Vec<usize>, AllocError>
        ensures exact { IfOk result (λ krates. (krate : ℕ) → Contains krates.items krate
            ↔ IsAmong krate self.now) }
        ensures ascending { IfOk result (λ krates. IsStrictlySortedBy nat_cmp krates.items) }
    {
        let all = krates_of(alloc, &self.places)?;
        let krates = each_once(all)?;
        Ok(krates)
    }

    /// Whether the crate with that number is built, whatever for. Takes no memory. Time O(n) for n crates that are built.
    pub fn is_built(&self, krate: usize) -> bool
        ensures { IsTrue result ↔ IsAmong krate self.now }
    {
        has_crate(&self.places, krate)
    }

    /// Whether the crate with that number is built for the host. Takes no memory. Time O(log n) for n crates that are built.
    pub fn is_for_host(&self, krate: usize) -> bool
        ensures { IsTrue result ↔ IsForHost krate self.now }
    {
        let place = BuiltCrate {
            krate,
            platform: PlatformNumber::Host,
        };
        self.position(place).is_some()
    }

    /// Whether the crate with that number is built for some machine that the build is for. Takes no memory. Time O(n) for n crates that are
    /// built.
    pub fn is_for_targets(&self, krate: usize) -> bool
        ensures { IsTrue result ↔ IsForTargets krate self.now }
    {
        has_machine(&self.places, krate)
    }
}

/// Where the place stands in a list in ascending order.
fn found(places: &[BuiltCrate], place: BuiltCrate) -> Option<usize>
    requires { IsStrictlySortedBy built_cmp places.now }
    ensures { MatchOption result (¬ Contains places.now place)
        (λ n. slice_get places.now n ≡ Some place) }
{
    places.binary_search(&place).ok()
}

/// The numbers of the crates.
fn krates_of(alloc: Global, places: &[BuiltCrate]) -> Result<Vec<usize>, AllocError>
    ensures { IfOk result (λ krates. krates.items ≡ map (λ x. x.krate) places.now) }
{
    let mut krates = Vec::new(alloc);
    for place in places {
        krates.push(place.krate)?;
    }
    Ok(krates)
}

/// Whether one of these is the crate with that number.
fn has_crate(places: &[BuiltCrate], krate: usize) -> bool
    ensures { IsTrue result ↔ IsAmong krate places.now }
{
    for place in places {
        if place.krate == krate {
            return true;
        }
    }
    false
}

/// Whether one of these is the crate with that number, for a machine that the build is for.
fn has_machine(places: &[BuiltCrate], krate: usize) -> bool
    ensures { IsTrue result ↔ IsForTargets krate places.now }
{
    for place in places {
        if is_for_machine(place, krate) {
            return true;
        }
    }
    false
}

/// Whether it is the crate with that number, for a machine that the build is for.
fn is_for_machine(place: &BuiltCrate, krate: usize) -> bool
    ensures { IsTrue result ↔ IsForMachine krate place.now }
{
    match place.platform {
        PlatformNumber::Host => false,
        PlatformNumber::Machine(_) => place.krate == krate,
    }
}

/// The crates of these units and build scripts.
fn places_of(
    alloc: Global,
    units: &[UnitPlace],
    scripts: &[ScriptPlace],
) -> Result<Vec<BuiltCrate>, AllocError>
    ensures { IfOk result (λ places. places.items ≡ map of_unit units.now ++ map of_script scripts.now) }
{
    let mut places = places_of_units(alloc, units)?;
    for script in scripts {
        places.push(BuiltCrate {
            krate: script.krate,
            platform: PlatformNumber::Host,
        })?;
    }
    Ok(places)
}

/// The crates of these units.
fn places_of_units(alloc: Global, units: &[UnitPlace]) -> Result<Vec<BuiltCrate>, AllocError>
    ensures { IfOk result (λ places. places.items ≡ map of_unit units.now) }
{
    let mut places = Vec::new(alloc);
    for unit in units {
        places.push(BuiltCrate {
            krate: unit.target.krate,
            platform: unit.placement.platform,
        })?;
    }
    Ok(places)
}
