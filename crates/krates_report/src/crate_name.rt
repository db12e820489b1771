//! How a crate is named for people.

use krates::cm::{Source, SourceKind, TargetKind};
use krates::path::parent;
use krates::{Kid, Package};
use std::fmt;

/// `NAME vVERSION`, as `cargo tree` writes it, with ` (proc-macro)` after a library of procedural macros, and after a package that
/// isn't from a registry where it is: its directory or the url of its git repository, in brackets.
#[derive(Clone, Copy)]
pub struct ShortName<'a>(pub &'a Package);

impl fmt::Display for ShortName<'_> {
    fn fmt<W: fmt::Write>(&self, f: &mut fmt::Formatter<W>) -> fmt::Result {
        let krate = self.0;
        write!(f, "{} v{}", krate.name, krate.version)?;
        if has_target(krate, TargetKind::ProcMacro) {
            f.write_str(" (proc-macro)")?;
        }
        match place_of(krate) {
            Some(place) => write!(f, " ({place})"),
            None => Ok(()),
        }
    }
}

/// `NAME vVERSION` of an id.
#[derive(Clone, Copy)]
pub struct ShortId<'a>(pub &'a Kid);

impl fmt::Display for ShortId<'_> {
    fn fmt<W: fmt::Write>(&self, f: &mut fmt::Formatter<W>) -> fmt::Result {
        write!(f, "{} v{}", self.0.name(), self.0.version())
    }
}

/// Whether a target of a package is of this kind.
pub(crate) fn has_target(krate: &Package, kind: TargetKind) -> bool {
    krate
        .targets
        .iter()
        .any(|target| target.kind.contains(&kind))
}

/// The directory of a package of this machine.
pub(crate) fn directory_of(krate: &Package) -> &str {
    parent(krate.manifest_path.as_str()).unwrap_or(".")
}

/// Where a package is that isn't from a registry.
fn place_of(krate: &Package) -> Option<&str> {
    if krate.is_local() {
        return Some(directory_of(krate));
    }
    match &krate.source {
        Some(source) if source.kind() == SourceKind::Git => Some(url_of(source)),
        _ => None,
    }
}

/// The url of a source: the part after its kind.
pub(crate) fn url_of(source: &Source) -> &str {
    match source.repr.as_str().split_once('+') {
        Some((_, url)) => url,
        None => source.repr.as_str(),
    }
}
