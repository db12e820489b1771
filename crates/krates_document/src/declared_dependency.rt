//! The declared dependency of a listed edge.

ghost use Rattle.std.specs.Prelude.{◌≡◌, ◌<◌, ◌≤◌, ◌↔◌, [], length, IsTrue, IsOk, IfOk, IfSome, Some, MatchOption, map, option_map};
ghost use Rattle.semver.specs.Identifiers.{parts_of};
ghost use Rattle.krates_cm.specs.Document.{VersionModel, DependencyModel, node_dep_view, dependency_view, requirement_view, text_view};
ghost use Rattle.krates_cm.specs.Names.{version_named};
ghost use Rattle.krates_document.specs.DeclaredPlaces.{AreCandidates, AreDeclaredPlaces, FitsAs, FitsAt, FitsBySource, HasItsVersion, IsBelow, IsLeast, IsWantedAmong, among, entry_in, kind_in, lesser, target_key};
ghost use Rattle.krates_document.specs.NamedPlaces.{AreInOrder, places_in};
ghost use Rattle.krates_rules.specs.DeclaredDependency.{declared_name, dependency_entry, NameFits, VersionMatches, Fits, IsDeclared, IsUndeclared};
ghost use Rattle.krates_rules.specs.Resolved.{id_of};

use crate::declared_source::has_source;
use crate::dependency_name::is_name_of;
use crate::folded_name::folded_order;
use crate::named_places::{HasName, NamedPlace, places_under};
use krates_cm::{DepKindInfo, Dependency, NodeDep};
use krates_ids::Kid;
use semver::{Version, VersionReq};
use std::alloc::{AllocError, Global};

/// The semantic version of an id, or `None` where its version isn't semantic (SemVer 2.0.0).
///
/// The only error is running out of memory; a version without pre-release and build metadata takes none. Time O(length).
pub fn version_of(alloc: Global, kid: &Kid) -> Result<Option<Version>, AllocError>
    ensures read { IfOk result (λ version. version_named kid.now.version ≡ option_map parts_of version) }
    ensures plain { (v : VersionModel) → version_named kid.now.version ≡ Some v → v.3 ≡ [] → v.4 ≡ []
        → IsOk result }
{
    match Version::parse(alloc, kid.version()) {
        Ok(version) => Ok(Some(version)),
        Err(error) if error == semver::Error::from(AllocError) => Err(AllocError),
        Err(_) => Ok(None),
    }
}

/// A dependency of a node, of one kind and for one target, whose declared dependency is looked for.
#[derive(Clone, Copy)]
pub struct Sought<'s> {
    /// The dependency.
    pub dep: &'s NodeDep,
    /// Its id.
    pub kid: &'s Kid,
    /// The version of its id.
    pub version: &'s Version,
    /// The kind and target.
    pub info: &'s DepKindInfo,
}

impl HasName for Dependency {
    ghost name = { λ d. declared_name (dependency_view d) };

    ghost target = { λ d. target_key (dependency_view d).target };

    fn known_name(&self) -> &str {
        declared_name(self)
    }

    fn known_target(&self) -> &str {
        target_text(&self.target)
    }
}

/// The place of the declared dependency of a node's dependency, of one kind and for one target, among those that the node's
/// package declares: the one that fits; where several fit, the first of them whose source is that of the dependency's
/// id. `None` where none fits, and where several fit but none of them has the source.
///
/// Only those under one of the dependency's two names are looked at, which are found by binary search. Time: O(log n + k) for k of
/// them.
pub fn declared_of(
    declared: &[Dependency],
    places: &[NamedPlace<'_>],
    sought: &Sought<'_>,
) -> Option<usize>
    requires version { HasItsVersion sought.now }
    requires places { AreDeclaredPlaces (map dependency_view declared.now) places.now }
    ensures within { IfSome result (λ place. place < length declared.now) }
    ensures first { let all = map dependency_view declared.now in let entry = entry_in sought.now in
        MatchOption result (IsUndeclared all entry (kind_in sought.now)) (λ place. (d : DependencyModel)
        × IsDeclared all entry (kind_in sought.now) place d) }
{
    let candidates = candidates_of(places, sought);
    let mut wanted = Wanted {
        declared,
        sought,
        from: 0,
        by_source: false,
    };
    let first = least_fitting(&candidates, &wanted)?;
    wanted.from = first + 1;
    if least_fitting(&candidates, &wanted).is_none() {
        return Some(first);
    }
    least_fitting(
        &candidates,
        &Wanted {
            declared,
            sought,
            from: 0,
            by_source: true,
        },
    )
}

/// Places of declared dependencies that may fit.
#[derive(Clone, Copy)]
struct Candidates<'a, 's> {
    /// Those under the node's name for the dependency.
    of_dep: &'s [NamedPlace<'a>],
    /// Those under the name of its package, where that is another name.
    of_package: &'s [NamedPlace<'a>],
}

/// The places of declared dependencies that may fit, by their name and target: each that fits is among them.
fn candidates_of<'a, 's>(places: &'s [NamedPlace<'a>], sought: &Sought<'_>) -> Candidates<'a, 's>
    requires { AreInOrder places.now }
    ensures { AreCandidates places.now sought.now result }
{
    let target = target_text(&sought.info.target);
    let name = sought.dep.name.as_str();
    let of_dep = places_under(places, name, target);
    if folded_order(name, sought.kid.name()).is_eq() {
        let of_package = &places[..0];
        return Candidates { of_dep, of_package };
    }
    let of_package = places_under(places, sought.kid.name(), target);
    Candidates { of_dep, of_package }
}

/// Which declared dependency is wanted.
#[derive(Clone, Copy)]
struct Wanted<'s> {
    /// Those that are declared.
    declared: &'s [Dependency],
    /// What has to fit.
    sought: &'s Sought<'s>,
    /// The least place.
    from: usize,
    /// Whether it has to have the source of the dependency's id.
    by_source: bool,
}

/// The least place of the candidates whose declared dependency is wanted.
fn least_fitting(candidates: &Candidates<'_, '_>, wanted: &Wanted<'_>) -> Option<usize>
    requires { HasItsVersion wanted.now.sought.now }
    ensures least { IsLeast (IsWantedAmong wanted.now (among candidates.now)) result }
    ensures within { IfSome result (λ place. place < length wanted.now.declared.now) }
{
    let of_dep = least_of(candidates.of_dep, wanted);
    let of_package = least_of(candidates.of_package, wanted);
    lesser(of_dep, of_package)
}

/// The lesser of two numbers, or the only one, where there is any.
fn lesser(one: Option<usize>, other: Option<usize>) -> Option<usize>
    ensures { result ≡ lesser one other }
{
    match (one, other) {
        (Some(one), Some(other)) => Some(if one < other { one } else { other }),
        (None, other) => other,
        (one, None) => one,
    }
}

/// The least of these places whose declared dependency is wanted.
fn least_of(places: &[NamedPlace<'_>], wanted: &Wanted<'_>) -> Option<usize>
    requires { HasItsVersion wanted.now.sought.now }
    ensures { IsLeast (IsWantedAmong wanted.now (places_in places.now)) result }
{
    let mut least: Option<usize> = None;
    for there in places {
        if is_lesser(wanted, there.place, least) {
            least = Some(there.place);
        }
    }
    least
}

/// Whether the declared dependency at the place is wanted, and the place is below another, or there is no other.
fn is_lesser(wanted: &Wanted<'_>, place: usize, other: Option<usize>) -> bool
    requires { HasItsVersion wanted.now.sought.now }
    ensures { IsTrue result ↔ (IsBelow place other × (wanted.now.from ≤ place) × FitsAt wanted.now place) }
{
    is_below(place, other) && wanted.from <= place && fits_at(wanted, place)
}

/// Whether the number is below another, or there is no other.
fn is_below(number: usize, other: Option<usize>) -> bool
    ensures { IsTrue result ↔ IsBelow number other }
{
    match other {
        Some(other) => number < other,
        None => true,
    }
}

/// Whether a declared dependency is at the place and fits as it is wanted.
fn fits_at(wanted: &Wanted<'_>, place: usize) -> bool
    requires { HasItsVersion wanted.now.sought.now }
    ensures { IsTrue result ↔ FitsAt wanted.now place }
{
    if place < wanted.declared.len() {
        return fits_as(wanted, &wanted.declared[place]);
    }
    false
}

/// Whether the declared dependency fits; where its source is wanted, whether it has that too.
fn fits_as(wanted: &Wanted<'_>, declared: &Dependency) -> bool
    requires { HasItsVersion wanted.now.sought.now }
    ensures { IsTrue result ↔ FitsAs wanted.now (dependency_view declared.now) }
{
    if wanted.by_source {
        fits_by_source(wanted.sought, declared)
    } else {
        fits(wanted.sought, declared)
    }
}

/// Whether the declared dependency fits, and its source is that of the dependency's id.
fn fits_by_source(sought: &Sought<'_>, declared: &Dependency) -> bool
    requires { HasItsVersion sought.now }
    ensures { IsTrue result
        ↔ FitsBySource (entry_in sought.now) (kind_in sought.now) (dependency_view declared.now) }
{
    fits(sought, declared)
        && has_source(declared, sought.dep.pkg.repr.as_str(), sought.kid.source())
}

/// Whether the declared dependency fits this dependency of a node, of this kind and for this target: the kind and the text
/// of the target are equal, its name fits, and its requirement allows the version
/// (Cargo Book, "cargo metadata", `dependencies` and `resolve`).
fn fits(sought: &Sought<'_>, declared: &Dependency) -> bool
    requires { HasItsVersion sought.now }
    ensures { IsTrue result ↔ Fits (entry_in sought.now) (kind_in sought.now) (dependency_view declared.now) }
{
    declared.kind == sought.info.kind
        && name_fits(sought.dep, sought.kid, declared)
        && version_matches(sought.version, &declared.req)
        && declared.target == sought.info.target
}

/// The text of a target, or an empty one where there is none.
fn target_text(target: &Option<String>) -> &str
    ensures { result.now ≡ target_key (option_map text_view target.now) }
{
    match target {
        Some(text) => text.as_str(),
        None => "",
    }
}

/// Whether the declared name is the node's name for the dependency, or that of its package.
fn name_fits(dep: &NodeDep, kid: &Kid, declared: &Dependency) -> bool
    ensures { let entry = dependency_entry (id_of kid.now) (node_dep_view dep.now) in
        IsTrue result ↔ NameFits entry (dependency_view declared.now) }
{
    let name = declared_name(declared);
    is_name_of(dep.name.as_str(), name) || is_name_of(kid.name(), name)
}

/// The name under which the manifest knows the dependency.
fn declared_name(declared: &Dependency) -> &str
    ensures { result.now ≡ declared_name (dependency_view declared.now) }
{
    match &declared.rename {
        Some(rename) => rename.as_str(),
        None => declared.name.as_str(),
    }
}

/// Whether the requirement allows the version: it matches, or it has no comparator and the version is a pre-release,
/// which the requirement `*` doesn't match.
fn version_matches(version: &Version, req: &VersionReq) -> bool
    ensures { IsTrue result ↔ VersionMatches (parts_of version.now) (requirement_view req.now) }
{
    req.matches(version) || !version.pre.is_empty() && req.comparators.is_empty()
}
