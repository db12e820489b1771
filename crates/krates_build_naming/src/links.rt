//! Dependencies that words name: those that have an edge, and those that lack one.

ghost use Rattle.std.specs.Prelude.{◌≡◌, ◌<◌, ◌&&◌, map, position, string_bytes};
ghost use Rattle.krates_build_naming.specs.NamedParts.{lacking_at, lacking_words, link_at, link_words};
ghost use Rattle.krates_build_naming.specs.NamedPlaces.{fits_lacking, fits_link, lacking_named, lacking_names, link_named, link_names};
ghost use Rattle.krates_build_naming.specs.Naming.{Gives};

use crate::names::{FactNames, NameFault};
use crate::places::crate_at;
use crate::reading::word_at;
use crate::texts::{kind_text, target_text};
use krates_build_tables::{CrateEntry, Lacking, Link, LinkPlace};

/// What words say of a link.
#[derive(Clone, Copy)]
pub(crate) struct CalledLink<'a> {
    /// The number of the crate that has the dependency.
    pub parent: usize,
    /// The number of the other crate.
    pub child: usize,
    /// The word for its kind.
    pub kind: &'a str,
    /// The word for its target text.
    pub target: &'a str,
    /// Its name.
    pub name: &'a str,
}

/// A link, of five words.
#[tactic(auto, unfolding(crate::specs::NamedParts::link_at))]
pub(crate) fn link_at(
    names: &FactNames<'_, '_>,
    words: &[String],
    place: usize,
) -> Result<LinkPlace, NameFault>
    requires { place < 16 }
    ensures { Gives (λ l. l) result (link_at names.now place (map string_bytes words.now)) }
{
    let called = called_link(names, words, place)?;
    link_named(names, &called).ok_or(NameFault::Link(place))
}

#[tactic(auto, unfolding(crate::specs::NamedParts::link_words))]
fn called_link<'a>(
    names: &FactNames<'_, '_>,
    words: &'a [String],
    place: usize,
) -> Result<CalledLink<'a>, NameFault>
    requires { place < 16 }
    ensures { Gives link_names result (link_words names.now place (map string_bytes words.now)) }
{
    Ok(CalledLink {
        parent: crate_at(names, words, place)?,
        child: crate_at(names, words, place + 1)?,
        kind: word_at(words, place + 2)?,
        target: word_at(words, place + 3)?,
        name: word_at(words, place + 4)?,
    })
}

#[tactic(auto, unfolding(crate::specs::NamedPlaces::link_named))]
fn link_named(names: &FactNames<'_, '_>, called: &CalledLink<'_>) -> Option<LinkPlace>
    ensures { result ≡ link_named names.now (link_names called.now) }
{
    let entry = names.tables.entry(called.parent)?;
    let index = link_index(entry, called)?;
    Some(LinkPlace {
        krate: called.parent,
        index,
    })
}

fn link_index(entry: &CrateEntry<'_>, called: &CalledLink<'_>) -> Option<usize>
    ensures { result ≡ position (fits_link (link_names called.now)) entry.now.links.items }
{
    entry.links.iter().position(|link| fits_link(link, called))
}

fn fits_link(link: &Link<'_>, called: &CalledLink<'_>) -> bool
    ensures { result ≡ fits_link (link_names called.now) link.now }
{
    let child = link.child == called.child;
    let kind = kind_text(link.kind) == called.kind;
    let target = target_text(link.cfg) == called.target;
    let name = link.name == called.name;
    child && are_all(kind, target, name)
}

/// What words say of a dependency that is lacking.
#[derive(Clone, Copy)]
pub(crate) struct CalledLacking<'a> {
    /// The number of the crate that declares it.
    pub krate: usize,
    /// The word for its kind.
    pub kind: &'a str,
    /// The word for its target text.
    pub target: &'a str,
    /// Its name.
    pub name: &'a str,
}

/// A dependency that is lacking, of four words: the number of its crate, and its place among those of the crate that are.
#[tactic(auto, unfolding(crate::specs::NamedParts::lacking_at))]
pub(crate) fn lacking_at(
    names: &FactNames<'_, '_>,
    words: &[String],
    place: usize,
) -> Result<(usize, usize), NameFault>
    requires { place < 16 }
    ensures { Gives (λ x. x) result (lacking_at names.now place (map string_bytes words.now)) }
{
    let called = called_lacking(names, words, place)?;
    let index = lacking_named(names, &called).ok_or(NameFault::Lacking(place))?;
    Ok((called.krate, index))
}

#[tactic(auto, unfolding(crate::specs::NamedParts::lacking_words))]
fn called_lacking<'a>(
    names: &FactNames<'_, '_>,
    words: &'a [String],
    place: usize,
) -> Result<CalledLacking<'a>, NameFault>
    requires { place < 16 }
    ensures { Gives lacking_names result (lacking_words names.now place (map string_bytes words.now)) }
{
    Ok(CalledLacking {
        krate: crate_at(names, words, place)?,
        kind: word_at(words, place + 1)?,
        target: word_at(words, place + 2)?,
        name: word_at(words, place + 3)?,
    })
}

#[tactic(auto, unfolding(crate::specs::NamedPlaces::lacking_named))]
fn lacking_named(names: &FactNames<'_, '_>, called: &CalledLacking<'_>) -> Option<usize>
    ensures { result ≡ lacking_named names.now (lacking_names called.now) }
{
    let entry = names.tables.entry(called.krate)?;
    lacking_index(entry, called)
}

fn lacking_index(entry: &CrateEntry<'_>, called: &CalledLacking<'_>) -> Option<usize>
    ensures { result ≡ position (fits_lacking (lacking_names called.now)) entry.now.lacking.items }
{
    entry
        .lacking
        .iter()
        .position(|lacking| fits_lacking(lacking, called))
}

fn fits_lacking(lacking: &Lacking<'_>, called: &CalledLacking<'_>) -> bool
    ensures { result ≡ fits_lacking (lacking_names called.now) lacking.now }
{
    let kind = kind_text(lacking.kind) == called.kind;
    let target = target_text(lacking.declared.target.as_deref()) == called.target;
    let name = lacking.name == called.name;
    are_all(kind, target, name)
}

/// Whether all three hold.
fn are_all(kind: bool, target: bool, name: bool) -> bool
    ensures { result ≡ (kind && target && name) }
{
    kind && target && name
}
