//! When the source that a package declares for a dependency is that of the dependency's id.

ghost use Rattle.std.specs.Prelude.{◌≡◌, ◌≢◌, ◌∷◌, ◌↔◌, IsTrue, List, ℕ};
ghost use Rattle.std.specs.Path.{components_remaining};
ghost use Rattle.krates_cm.specs.Document.{dependency_view};
ghost use Rattle.krates_text.specs.Path.{components};
ghost use Rattle.krates_text.specs.Text.{BeginsWith};
ghost use Rattle.krates_ids.specs.Identity.{git};
ghost use Rattle.krates_rules.specs.DeclaredSource.{between_backslashes, HasNamesOf, LeadsTo, IsPathOf, IsWithoutCommit, IsSameSource, HasSource};

use krates_cm::Dependency;
use krates_text::path::{components, same};
use std::path::Components;

/// Whether a source is the directory to which a declared path leads.
///
/// The source must begin with `path+file://`, and what follows is the directory (Cargo Book, "Package ID
/// Specifications"). A path that begins with `/` leads there where both have equal components. Any other is a path of
/// Windows: its names between `\`, empty ones too, must be the components of the directory without its first
/// character, which must be ASCII, as in `path+file:///D:/a` for `D:\a`. Time O(length of both).
pub fn is_path_of(path: &str, source: &str) -> bool
    ensures { IsTrue result ↔ IsPathOf path.now source.now }
{
    match source.strip_prefix("path+file://") {
        Some(directory) => leads_to(path, directory),
        None => false,
    }
}

/// Whether a declared path leads to the directory.
fn leads_to(path: &str, directory: &str) -> bool
    ensures { IsTrue result ↔ LeadsTo path.now directory.now }
{
    if path.starts_with('/') {
        same(path, directory)
    } else {
        has_names_of(path, directory)
    }
}

/// Whether the names of a path of Windows are those of the directory.
fn has_names_of(path: &str, directory: &str) -> bool
    ensures { IsTrue result ↔ HasNamesOf path.now directory.now }
{
    let mut rest = directory.chars();
    match rest.next() {
        Some(first) if first.is_ascii() => are_names(path, rest.as_str()),
        _ => false,
    }
}

/// Whether the names between backslashes are the components of the directory.
fn are_names(path: &str, directory: &str) -> bool
    ensures { IsTrue result ↔ (between_backslashes path.now ≡ components directory.now) }
{
    let mut left = components(directory);
    for name in path.split('\\') {
        if !next_is(&mut left, name) {
            return false;
        }
    }
    left.next().is_none()
}

/// Whether the next component is this name.
fn next_is(left: &mut Components<'_>, name: &str) -> bool
    ensures matches { IsTrue result
        → components_remaining left.old ≡ name.now ∷ components_remaining left.new }
    ensures differs { (rest : List (List ℕ))
        → components_remaining left.old ≡ name.now ∷ rest → IsTrue result }
{
    match left.next() {
        Some(component) => component.as_os_str() == name,
        None => false,
    }
}

/// Whether the declared dependency has the source of an id with this text: by its source where it declares one, and else
/// by its path. If it declares neither, it doesn't have it.
pub(crate) fn has_source(declared: &Dependency, id: &str, source: &str) -> bool
    ensures { IsTrue result ↔ HasSource id.now source.now (dependency_view declared.now) }
{
    match &declared.source {
        Some(given) => is_same_source(given.as_str(), id, source),
        None => match &declared.path {
            Some(path) => is_path_of(path.as_str(), source),
            None => false,
        },
    }
}

/// Whether a declared source is the source of an id with this text: what is compared of it is that source, as a text.
fn is_same_source(declared: &str, id: &str, source: &str) -> bool
    ensures { IsTrue result ↔ IsSameSource id.now declared.now source.now }
{
    compared(id, declared) == source
}

/// The part of a declared source that is compared: all of it, but of a git source what `compared_of_git` answers.
fn compared<'a>(id: &str, declared: &'a str) -> &'a str
    ensures { IsSameSource id.now declared.now result.now }
{
    match declared.strip_prefix("git+") {
        Some(_) => compared_of_git(id, declared),
        None => declared,
    }
}

/// The part of a declared git source that is compared: all of it, but without its commit where the id is opaque, and so has none in
/// its source.
fn compared_of_git<'a>(id: &str, declared: &'a str) -> &'a str
    requires { BeginsWith git declared.now }
    ensures { IsSameSource id.now declared.now result.now }
{
    if id.contains(' ') {
        without_commit(declared)
    } else {
        declared
    }
}

/// The part before the last `#`, or all of a text without one.
fn without_commit(text: &str) -> &str
    ensures { IsWithoutCommit text.now result.now }
{
    match text.rsplit_once('#') {
        Some((front, _)) => front,
        None => text,
    }
}
