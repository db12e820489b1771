//! Package urls and references of packages in a bill of materials.

use crate::crate_name::{directory_of, url_of};
use krates::Package;
use krates::cm::{Source, SourceKind};
use krates_text::text::Text;
use percent_encoding::{AsciiSet, NON_ALPHANUMERIC, utf8_percent_encode};
use std::alloc::{AllocError, Global};

/// What a package url escapes: all except letters, digits and `-._~` (purl specification, "Character encoding").
fn escaped() -> AsciiSet {
    NON_ALPHANUMERIC
        .remove(b'-')
        .remove(b'.')
        .remove(b'_')
        .remove(b'~')
}

/// The source of crates.io, as cargo writes it.
static CRATES_IO: &str = "registry+https://github.com/rust-lang/crates.io-index";

/// The same where its index is read by HTTP.
static SPARSE_CRATES_IO: &str = "sparse+https://index.crates.io/";

/// Adds a qualifier of a package url: a key, and a text with its escapes.
fn push_qualifier(url: &mut Text, key: &str, text: &str) {
    write!(url, "?{key}={}", utf8_percent_encode(text, escaped()));
}

/// Adds the qualifier of a package that isn't from crates.io.
fn push_source(url: &mut Text, source: &Source) {
    let text = source.repr.as_str();
    if text == CRATES_IO || text == SPARSE_CRATES_IO {
        return;
    }
    match source.kind() {
        SourceKind::Git => push_qualifier(url, "vcs_url", text),
        _ => push_qualifier(url, "repository_url", url_of(source)),
    }
}

/// Adds where a package is that isn't from crates.io.
fn push_place(url: &mut Text, krate: &Package, root: &str) {
    match &krate.source {
        Some(source) if !krate.is_local() => push_source(url, source),
        _ => {
            let place = utf8_percent_encode(place_below(root, krate), escaped());
            push_qualifier(url, "download_url", "file://");
            write!(url, "{place}");
        }
    }
}

/// Where a package of this machine is below the root of the workspace: `.` for the root itself; and the whole path where it is elsewhere.
fn place_below<'k>(root: &str, krate: &'k Package) -> &'k str {
    let directory = directory_of(krate);
    match directory.strip_prefix(root) {
        Some("") => ".",
        Some(rest) => rest.strip_prefix(['/', '\\']).unwrap_or(directory),
        None => directory,
    }
}

/// The package url of a crate (purl specification, type `cargo`): its name and version; where it isn't from crates.io, also the registry,
/// the git repository, or the directory below the root of the workspace, so that it isn't taken for the one of that name on crates.io. Each part is
/// escaped, so that none can be read as another.
pub(crate) fn package_url(
    alloc: Global,
    krate: &Package,
    root: &str,
) -> Result<String, AllocError> {
    let name = utf8_percent_encode(krate.name.as_str(), escaped());
    let version = krate.version.to_string(alloc)?;
    let version = utf8_percent_encode(version.as_str(), escaped());
    let mut url = Text::new(alloc);
    write!(url, "pkg:cargo/{name}@{version}");
    push_place(&mut url, krate, root);
    url.whole()
}

/// What a package is called in references of a bill: its id, or where it is of this machine its package url, so that two machines write the same.
pub(crate) fn reference(alloc: Global, krate: &Package, root: &str) -> Result<String, AllocError> {
    if krate.is_local() {
        package_url(alloc, krate, root)
    } else {
        krate.id.repr.clone()
    }
}
