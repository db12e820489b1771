//! Features of packages, corrected by what an index answers.

use crate::packages::{package, read};
use krates_cm::Package;
use krates_ids::{
    BuildIndexCache, CachingIndex, IndexAnswer, IndexKrate, IndexKrateVersion, PackageNames,
};
use krates_samples::table::{Row, Tell, hold};
use krates_text::text::Text;
use semver::Version;
use std::alloc::{AllocError, Global};
use std::collections::{BTreeMap, BTreeSet};
use std::test::Fail;

/// What the package has of itself, after one correction and after two.
const PLAIN: &str = r#"{"default": ["std", "foo"]}, then {"default": ["std", "foo"]}"#;

/// The same with what the index has, and with the feature that an optional dependency is.
const WHOLE: &str =
    r#"{"default": ["std", "foo"], "foo": ["dep:foo"], "std": []}, then {"default": ["std", "foo"], "foo": ["dep:foo"], "std": []}"#;

/// The source of the package `p` of version 1.0.0 as JSON; after bars the versions that the index has of it, in order, each with its features as
/// JSON, or that the index lacks it, or that the answer doesn't name it; and what the features of the package are then.
static CORRECTED: &[Row] = &[
    (
        r#""registry+https://github.com/rust-lang/crates.io-index" | 1.0.0 {"default":["x"],"std":[]}"#,
        WHOLE,
    ),
    (
        r#""registry+https://github.com/rust-lang/crates.io-index" | 1.0.0+b {"default":["x"],"std":[]}"#,
        PLAIN,
    ),
    (
        r#""registry+https://github.com/rust-lang/crates.io-index" | lacked"#,
        PLAIN,
    ),
    (r#"null | 1.0.0 {"default":["x"],"std":[]}"#, PLAIN),
    (
        r#""registry+https://github.com/rust-lang/crates.io-index" | unnamed"#,
        PLAIN,
    ),
    (
        r#""registry+https://github.com/rust-lang/crates.io-index" | 1.0.0-rc.1 {"default":["x"],"std":[]}"#,
        PLAIN,
    ),
    // packages of other sources stay as they are: of another registry, of crates.io by its other protocol and from a git repository
    (
        r#""registry+https://example.org/index" | 1.0.0 {"default":["x"],"std":[]}"#,
        PLAIN,
    ),
    (
        r#""registry+https://github.com/rust-lang/crates.io-index/" | 1.0.0 {"default":["x"],"std":[]}"#,
        PLAIN,
    ),
    (
        r#""sparse+https://index.crates.io/" | 1.0.0 {"default":["x"],"std":[]}"#,
        PLAIN,
    ),
    (
        r#""git+https://github.com/rust-lang/crates.io-index" | 1.0.0 {"default":["x"],"std":[]}"#,
        PLAIN,
    ),
    // the version that is equal, wherever it is among others
    (
        r#""registry+https://github.com/rust-lang/crates.io-index" | 0.9.0 {"old":[]} | 1.0.0 {"std":["dep:a","foo"]} | 1.0.1 {"new":[]}"#,
        r#"{"default": ["std", "foo"], "foo": ["dep:foo"], "std": ["dep:a", "foo"]}, then {"default": ["std", "foo"], "foo": ["dep:foo"], "std": ["dep:a", "foo"]}"#,
    ),
    // of several that are equal the first
    (
        r#""registry+https://github.com/rust-lang/crates.io-index" | 1.0.0 {"std":["dep:a"],"foo":["dep:b","dep:c"]} | 1.0.0 {"std":["dep:d"],"more":[]}"#,
        r#"{"default": ["std", "foo"], "foo": ["dep:b", "dep:c"], "std": ["dep:a"]}, then {"default": ["std", "foo"], "foo": ["dep:b", "dep:c"], "std": ["dep:a"]}"#,
    ),
];

/// What an index knows of one version of a crate, which a line names before its features as JSON.
fn known_version(alloc: Global, line: &str) -> Result<IndexKrateVersion, Fail> {
    let (version, features) = line.split_once(' ').unwrap_or((line, "{}"));
    let version = Version::parse(alloc, version)?;
    let features = read(alloc, features)?;
    Ok(IndexKrateVersion { version, features })
}

/// What an index knows of a crate of these versions, or nothing where it lacks the crate.
fn known(alloc: Global, line: &str) -> Result<Option<IndexKrate>, Fail> {
    if line == "lacked" {
        return Ok(None);
    }
    let mut versions = Vec::new(alloc);
    for version in line.split(" | ") {
        versions.push(known_version(alloc, version)?)?;
    }
    Ok(Some(IndexKrate { versions }))
}

/// The answer that has a copy of what is known of the package, or doesn't name it.
fn answer_of(alloc: Global, line: &str) -> Result<IndexAnswer, Fail> {
    let mut krates = BTreeMap::new(alloc);
    if line != "unnamed" {
        let known = known(alloc, line)?;
        drop(krates.insert(String::from_str(alloc, "p")?, known.clone()?)?);
    }
    Ok(IndexAnswer { krates })
}

/// The index that gives the answer of a line.
fn index(alloc: Global, line: &str) -> Result<CachingIndex, Fail> {
    let answer = answer_of(alloc, line)?;
    let build: BuildIndexCache = Box::new(alloc, move |names: PackageNames| {
        drop(names);
        answer
    })?;
    let names = PackageNames {
        names: BTreeSet::new(alloc),
    };
    Ok(CachingIndex::new(build, names))
}

/// Adds the features of a package after a correction.
fn push_features(
    told: &mut Text,
    index: &CachingIndex,
    package: &mut Package,
) -> Result<(), AllocError> {
    index.correct(told.allocator(), package)?;
    write!(told, "{:?}", package.features);
    Ok(())
}

/// Adds the features of the package with this source as JSON, after one correction and after two.
fn push_corrected(told: &mut Text, index: &CachingIndex, source: &str) -> Result<(), Fail> {
    let features = r#"{"default":["std","foo"]}"#;
    let mut package = package(told.allocator(), "p", "1.0.0", source, features)?;
    push_features(told, index, &mut package)?;
    told.push_str(", then ");
    Ok(push_features(told, index, &mut package)?)
}

/// The features of the package after one correction and after two.
struct Corrected;

impl Tell for Corrected {
    fn tell(told: &mut Text, line: &str) -> Result<(), Fail> {
        let (source, known) = line.split_once(" | ").unwrap_or((line, "unnamed"));
        let index = index(told.allocator(), known)?;
        push_corrected(told, &index, source)
    }
}

#[test]
fn features_by_an_index(rt: HostRuntime) -> Result<(), Fail> {
    hold::<Corrected>(rt.alloc(), CORRECTED)
}
