//! When packages mean the same, each in its checkout of a workspace.

ghost use Rattle.std.specs.Prelude.{◌≡◌, ◌↔◌, IsTrue, MatchOption};
ghost use Rattle.krates_answers.specs.SamePackage.{HaveSameHome, IsBelow, IsElsewhere, IsSamePlace, MeanSame, begins_with_separator};

use krates::Package;

/// Whether a text begins with what separates the parts of a path, here or on Windows.
fn has_separator(text: &str) -> bool
    ensures { result ≡ begins_with_separator text.now }
{
    matches!(text.as_bytes().first(), Some(b'/' | b'\\'))
}

/// What comes behind the root of a workspace in the path of something below it.
fn rest_below<'p>(root: &str, path: &'p str) -> Option<&'p str>
    ensures { MatchOption result (IsElsewhere root.now path.now) (λ rest. IsBelow root.now path.now rest.now) }
{
    match path.strip_prefix(root) {
        Some(rest) if has_separator(rest) => Some(rest),
        _ => None,
    }
}

/// Whether two paths, each with the root of its workspace, are the same place.
fn is_same_place(root: &str, path: &str, other_root: &str, other: &str) -> bool
    ensures { IsTrue result ↔ IsSamePlace root.now path.now other_root.now other.now }
{
    match (rest_below(root, path), rest_below(other_root, other)) {
        (Some(rest), Some(other_rest)) => rest == other_rest,
        (None, None) => path == other,
        _ => false,
    }
}

/// Whether two packages are of one source, or both of this machine and there at the same place.
fn have_same_home(root: &str, pkg: &Package, other_root: &str, other: &Package) -> bool
    ensures { IsTrue result ↔ HaveSameHome root.now pkg.now other_root.now other.now }
{
    match (&pkg.source, &other.source) {
        (Some(source), Some(other_source)) => source.repr == other_source.repr,
        (None, None) => is_same_place(
            root,
            pkg.manifest_path.as_str(),
            other_root,
            other.manifest_path.as_str(),
        ),
        _ => false,
    }
}

/// Whether two packages mean the same, each in a checkout of a workspace with this root: they have one name, one version, and one source;
/// or no source, and their manifests are at the same place below the roots, or at the same path elsewhere. Takes no memory. Time O(length of the
/// texts that are compared).
pub fn mean_same(root: &str, pkg: &Package, other_root: &str, other: &Package) -> bool
    ensures { IsTrue result ↔ MeanSame root.now pkg.now other_root.now other.now }
{
    pkg.name == other.name
        && pkg.version == other.version
        && have_same_home(root, pkg, other_root, other)
}
