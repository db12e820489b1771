//! Crates, platforms and targets that words name.

ghost use Rattle.std.specs.Prelude.{◌≡◌, ◌<◌, bytes_eq, map, position, string_bytes};
ghost use Rattle.krates_build_naming.specs.NamedParts.{crate_at, placement_at, platform_at, target_at, target_words, unit_at};
ghost use Rattle.krates_build_naming.specs.NamedPlaces.{crate_named, fits_target, platform_named, target_named, target_names};
ghost use Rattle.krates_build_naming.specs.Naming.{Gives};
ghost use Rattle.krates_units.specs.Machines.{machine_view};

use crate::names::{FactNames, NameFault};
use crate::parts::{mode_at, side_at};
use crate::reading::{word_at, word_in};
use crate::texts::target_kinds_text;
use krates_build_facts::{PlacementNumber, PlatformNumber, UnitPlace};
use krates_build_tables::{CrateEntry, TargetEntry, TargetPlace};
use krates_units::Machine;

/// A crate, by its id text.
#[tactic(auto, unfolding(crate::specs::NamedParts::crate_at))]
pub(crate) fn crate_at(
    names: &FactNames<'_, '_>,
    words: &[String],
    place: usize,
) -> Result<usize, NameFault>
    ensures { Gives (λ c. c) result (crate_at names.now place (map string_bytes words.now)) }
{
    let word = word_in(words, place).ok_or(NameFault::Missing(place))?;
    crate_named(names, word).ok_or(NameFault::Crate(place))
}

#[tactic(auto, unfolding(crate::specs::NamedPlaces::crate_named))]
fn crate_named(names: &FactNames<'_, '_>, word: &str) -> Option<usize>
    ensures { result ≡ crate_named names.now word.now }
{
    names.ids.iter().position(|id| id.repr() == word)
}

/// A platform: the host, or a machine by its triple.
#[tactic(auto, unfolding(crate::specs::NamedParts::platform_at))]
pub(crate) fn platform_at(
    names: &FactNames<'_, '_>,
    words: &[String],
    place: usize,
) -> Result<PlatformNumber, NameFault>
    ensures { Gives (λ k. k) result (platform_at names.now place (map string_bytes words.now)) }
{
    let word = word_in(words, place).ok_or(NameFault::Missing(place))?;
    platform_named(names, word).ok_or(NameFault::Platform(place))
}

#[tactic(auto, unfolding(crate::specs::NamedPlaces::platform_named))]
fn platform_named(names: &FactNames<'_, '_>, word: &str) -> Option<PlatformNumber>
    ensures { result ≡ platform_named names.now word.now }
{
    if word == "host" {
        return Some(PlatformNumber::Host);
    }
    let number = machine_named(&names.tables.machines, word)?;
    Some(PlatformNumber::Machine(number))
}

/// The first of the machines with this triple.
fn machine_named(machines: &[&Machine], word: &str) -> Option<usize>
    ensures { result ≡ position (λ m. bytes_eq (machine_view m.now).triple word.now) machines.now }
{
    machines.iter().position(|machine| machine.triple() == word)
}

/// A placement, of two words.
#[tactic(auto, unfolding(crate::specs::NamedParts::placement_at))]
pub(crate) fn placement_at(
    names: &FactNames<'_, '_>,
    words: &[String],
    place: usize,
) -> Result<PlacementNumber, NameFault>
    requires { place < 16 }
    ensures { Gives (λ at. at) result (placement_at names.now place (map string_bytes words.now)) }
{
    Ok(PlacementNumber {
        platform: platform_at(names, words, place)?,
        side: side_at(words, place + 1)?,
    })
}

/// What words say of a target.
#[derive(Clone, Copy)]
pub(crate) struct CalledTarget<'a> {
    /// The number of its crate.
    pub krate: usize,
    /// The word for its kinds.
    pub kind: &'a str,
    /// Its name.
    pub name: &'a str,
}

/// A target, of three words.
#[tactic(auto, unfolding(crate::specs::NamedParts::target_at))]
fn target_at(
    names: &FactNames<'_, '_>,
    words: &[String],
    place: usize,
) -> Result<TargetPlace, NameFault>
    requires { place < 16 }
    ensures { Gives (λ x. x) result (target_at names.now place (map string_bytes words.now)) }
{
    let called = called_target(names, words, place)?;
    target_named(names, &called).ok_or(NameFault::Target(place))
}

#[tactic(auto, unfolding(crate::specs::NamedParts::target_words))]
fn called_target<'a>(
    names: &FactNames<'_, '_>,
    words: &'a [String],
    place: usize,
) -> Result<CalledTarget<'a>, NameFault>
    requires { place < 16 }
    ensures { Gives target_names result (target_words names.now place (map string_bytes words.now)) }
{
    Ok(CalledTarget {
        krate: crate_at(names, words, place)?,
        kind: word_at(words, place + 1)?,
        name: word_at(words, place + 2)?,
    })
}

#[tactic(auto, unfolding(crate::specs::NamedPlaces::target_named))]
fn target_named(names: &FactNames<'_, '_>, called: &CalledTarget<'_>) -> Option<TargetPlace>
    ensures { result ≡ target_named names.now (target_names called.now) }
{
    let entry = names.tables.entry(called.krate)?;
    let index = target_index(entry, called)?;
    Some(TargetPlace {
        krate: called.krate,
        index,
    })
}

fn target_index(entry: &CrateEntry<'_>, called: &CalledTarget<'_>) -> Option<usize>
    ensures { result ≡ position (fits_target (target_names called.now)) entry.now.targets.items }
{
    entry
        .targets
        .iter()
        .position(|target| fits_target(target, called))
}

fn fits_target(target: &TargetEntry<'_>, called: &CalledTarget<'_>) -> bool
    ensures { result ≡ fits_target (target_names called.now) target.now }
{
    target_kinds_text(&target.target.kind) == called.kind
        && target.target.name.as_str() == called.name
}

/// A unit, of six words.
#[tactic(auto, unfolding(crate::specs::NamedParts::unit_at))]
pub(crate) fn unit_at(
    names: &FactNames<'_, '_>,
    words: &[String],
    place: usize,
) -> Result<UnitPlace, NameFault>
    requires { place < 8 }
    ensures { Gives (λ u. u) result (unit_at names.now place (map string_bytes words.now)) }
{
    Ok(UnitPlace {
        target: target_at(names, words, place)?,
        mode: mode_at(words, place + 3)?,
        placement: placement_at(names, words, place + 4)?,
    })
}
