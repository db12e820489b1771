//! Paths as texts, with `/` as the separator. They are compared by their components, as written: nothing is
//! looked up, and `..` is a name like any other.
ghost use Rattle.std.specs.Prelude.{◌≡◌, ◌↔◌, ◌<◌, MatchOption, IfOk, IsTrue, string_bytes};
ghost use Rattle.std.specs.Path.{components_remaining, is_name, path_join, slash};
ghost use Rattle.krates_text.specs.Cuts.{CutsLast};
ghost use Rattle.krates_text.specs.Path.{components, HasNoParent, IsParent, EndsWithPath, SplitsLast, or_root};

use std::alloc::{AllocError, Global};
use std::path::{Components, Path};

/// The components of a path, in order: `/` where it begins with one, and then its pieces between `/`, without empty
/// ones and without `.`, except a `.` that comes first in a path that doesn't begin with `/`. Time O(length) for all of them.
///
/// ```text
/// assert_eq!(rt; components("/w//a/./b").count(), 4); // `/`, `w`, `a`, `b`
/// ```
pub fn components(path: &str) -> Components<'_>
    ensures { components_remaining result ≡ components path.now }
{
    Path::new(path).components()
}

/// The path up to the end of its second-last component: `/` where only the root is before the last, the empty
/// text where nothing does. `None` for a path without a component and for the root alone. Time O(length).
///
/// ```text
/// assert_eq!(rt; parent("/w/a/Cargo.toml"), Some("/w/a"));
/// ```
pub fn parent(path: &str) -> Option<&str>
    ensures { MatchOption result (HasNoParent path.now) (λ p. IsParent path.now p.now) }
{
    let (before, whole) = split_last(path);
    if whole.is_empty() || whole == "/" {
        return None;
    }
    let (_, parent) = split_last(before);
    Some(parent)
}

/// The path `path` as seen from `base`: itself if it begins with `/`, otherwise the two with a `/` between, unless the base is
/// empty or ends with one. The only error is running out of memory. Time O(length of both).
///
/// ```text
/// assert_eq!(rt; join(alloc, "/w/a", "../b")?.as_str(), "/w/a/../b");
/// ```
pub fn join(alloc: Global, base: &str, path: &str) -> Result<String, AllocError>
    ensures { IfOk result (λ s. string_bytes s ≡ path_join base.now path.now) }
{
    Ok(Path::new(base).join(alloc, path)?.into_string())
}

/// Whether the components of `end` are the last ones of `path`. Time O(length of both).
///
/// ```text
/// assert!(rt; ends_with("/w/a/Cargo.toml", "a/Cargo.toml"));
/// assert!(rt; !ends_with("/w/aa/Cargo.toml", "a/Cargo.toml"));
/// ```
pub fn ends_with(path: &str, end: &str) -> bool
    ensures { IsTrue result ↔ EndsWithPath path.now end.now }
{
    Path::new(path).ends_with(end)
}

/// Whether two paths have equal components. Time O(length of both).
///
/// ```text
/// assert!(rt; same("/w/a/", "/w//a"));
/// ```
pub fn same(a: &str, b: &str) -> bool
    ensures { IsTrue result ↔ (components a.now ≡ components b.now) }
{
    ends_with(a, b) && ends_with(b, a)
}

/// The path without what follows its last component, and, first, the part before that component.
fn split_last(path: &str) -> (&str, &str)
    ensures { SplitsLast path.now result.0.now result.1.now }
{
    let mut rest = path;
    while let Some((before, piece)) = cut_at_last_slash(rest) {
        if is_name(piece) {
            return (or_root(before), rest);
        }
        if before.is_empty() {
            return ("", "/");
        }
        rest = before;
    }
    ("", rest)
}

/// The two sides of the last `/`.
fn cut_at_last_slash(text: &str) -> Option<(&str, &str)>
    ensures { CutsLast slash text.now result }
{
    text.rsplit_once('/')
}

/// Whether a piece names something.
fn is_name(piece: &str) -> bool
    ensures { result ≡ is_name piece.now }
{
    !(piece.is_empty() || piece == ".")
}

/// The part before a last component: the root where only the `/` is left of it.
fn or_root(before: &str) -> &str
    ensures { result.now ≡ or_root before.now }
{
    if before.is_empty() { "/" } else { before }
}
