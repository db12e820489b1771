//! Builds with an index: whether and for what it is asked, and which packages the filter is given.

use crate::builders::builder_of;
use crate::building::{Reported, push_built, push_count};
use krates::index::{
    BuildIndexCache, FeaturesMap, IndexAnswer, IndexKrate, IndexKrateVersion, PackageNames,
};
use krates::{Error, FilterFn, Krates, Package};
use krates_samples::documents::{metadata, section};
use krates_samples::table::{Tell, hold_lines};
use krates_text::text::Text;
use semver::Version;
use std::alloc::Global;
use std::cell::Cell;
use std::collections::BTreeMap;
use std::rc::Rc;
use std::test::Fail;

/// What a call of an index is counted as: one for exactly the names `a` and `b`, and ten for any others.
fn tally_of(names: &PackageNames) -> u8 {
    let both = names.names.contains("a") && names.names.contains("b");
    if both && names.names.len() == 2 {
        1
    } else {
        10
    }
}

/// An index without crates, a call of which counts a hundred.
fn first_index(alloc: Global, calls: &Rc<Cell<u8>>) -> Result<BuildIndexCache, Fail> {
    let counted = calls.clone()?;
    let build: BuildIndexCache = Box::new(alloc, move |names: PackageNames| {
        drop(names);
        counted.set(counted.get().wrapping_add(100));
        IndexAnswer {
            krates: BTreeMap::new(alloc),
        }
    })?;
    Ok(build)
}

/// What a build reports, and how often its indexes were asked: of the two that are set, the second takes the place of the first.
struct AskedFor;

impl Tell for AskedFor {
    fn tell(told: &mut Text, line: &str) -> Result<(), Fail> {
        let alloc = told.allocator();
        let calls = Rc::new(alloc, Cell::new(0u8))?;
        let first = first_index(alloc, &calls)?;
        let counted = calls.clone()?;
        let build: BuildIndexCache = Box::new(alloc, move |names: PackageNames| {
            counted.set(counted.get().wrapping_add(tally_of(&names)));
            IndexAnswer {
                krates: BTreeMap::new(alloc),
            }
        })?;
        let metadata = metadata(alloc, line)?;
        let mut builder = builder_of(alloc, line)?;
        builder.with_crates_io_index(first);
        builder.with_crates_io_index(build);
        let text = Text::new(alloc);
        let mut reported = Reported { text };
        let built: Result<Krates, Error> = builder.build_with_metadata(metadata, &mut reported);
        push_built(told, &built, &reported);
        write!(told, ", asked {}", calls.get());
        Ok(())
    }
}

static ASKED_FOR: &str = "
// it is asked once
a b|b => +a+b, asked 1
// even where a package is lost, or no crate is kept
a b|b / nodes a b => lost node: path+file:///w/b#0.1.0, asked 1
a|b / members => no root crates available, asked 1
// it isn't asked where the document is refused as it was given
a b|b / no graph => no resolution graph was provided, asked 0
a b|b / null graph => no resolution graph was provided, asked 0
a b|b / members a &id=x => invalid package id: x, asked 0
a|a|b / nodes a|b => doubled id: path+file:///w/a#0.1.0, asked 0
a b|b|b / nodes a b|b => doubled id: path+file:///w/b#0.1.0, asked 0
";

/// The one feature that `NAME=REFERENCE` says.
fn features_of(alloc: Global, feature: &str) -> Result<FeaturesMap, Fail> {
    let (name, reference) = feature.split_once('=').unwrap_or((feature, ""));
    let mut references = Vec::new(alloc);
    if !reference.is_empty() {
        references.push(String::from_str(alloc, reference)?)?;
    }
    let mut features = BTreeMap::new(alloc);
    drop(features.insert(String::from_str(alloc, name)?, references)?);
    Ok(features)
}

/// The answer of an index that knows one version of one crate.
pub(crate) fn answer_with(
    alloc: Global,
    name: &str,
    known: IndexKrateVersion,
) -> Result<IndexAnswer, Fail> {
    let krate = IndexKrate {
        versions: vec![in alloc; known]?,
    };
    let mut krates = BTreeMap::new(alloc);
    drop(krates.insert(String::from_str(alloc, name)?, Some(krate))?);
    Ok(IndexAnswer { krates })
}

/// The answer of an index that has one crate, as `NAME@VERSION NAME=REFERENCE` says, and none of a second name.
pub(crate) fn answer_of(alloc: Global, text: &str) -> Result<IndexAnswer, Fail> {
    let (name, rest) = text.split_once('@').unwrap_or((text, ""));
    let (version, feature) = rest.split_once(' ').unwrap_or((rest, ""));
    let version = Version::parse(alloc, version)?;
    let features = features_of(alloc, feature)?;
    let mut answer = answer_with(alloc, name, IndexKrateVersion { version, features })?;
    drop(answer.krates.insert(String::from_str(alloc, "q")?, None)?);
    Ok(answer)
}

/// Adds a package that isn't kept, with the number of its features, and drops it.
fn push_reported(names: &mut Text, pkg: Package) {
    write!(names, " {}:{}", pkg.name, pkg.features.len());
    drop(pkg);
}

/// How many crates are kept, or the refusal, and what a closure is handed, with the index of the line.
struct Corrected;

impl Tell for Corrected {
    fn tell(told: &mut Text, line: &str) -> Result<(), Fail> {
        let alloc = told.allocator();
        let answer = answer_of(alloc, section(line, "index ").unwrap_or(""))?;
        let build: BuildIndexCache = Box::new(alloc, move |names: PackageNames| {
            drop(names);
            answer
        })?;
        let metadata = metadata(alloc, line)?;
        let mut builder = builder_of(alloc, line)?;
        builder.with_crates_io_index(build);
        let mut names = Text::new(alloc);
        let built: Result<Krates, Error> = {
            let mut filter = FilterFn(|pkg: Package| push_reported(&mut names, pkg));
            builder.build_with_metadata(metadata, &mut filter)
        };
        push_count(told, &built);
        write!(told, ", closure{}", names.as_str());
        Ok(())
    }
}

static CORRECTED: &str = "
// a package of crates.io that isn't kept, whose manifest has one feature
a|p@1.0.0&crates.io;default=std / nodes a / index p@1.0.0 std => 1 kept, closure p:2
a|p@1.0.0&crates.io;default=std / nodes a / index p@1.0.1 std => 1 kept, closure p:1
// of two versions the index knows one
a|p@0.9.0&crates.io|p@1.0.0&crates.io / nodes a / index p@1.0.0 std => 1 kept, closure p:0 p:1
// the index lets the default features of the crate, or of one that the document lacks, name one that no node lists
a b!|b@1.0.0&crates.io|p;x= / nodes a b@1.0.0&crates.io|b@1.0.0&crates.io;default / index b@1.0.0 default=std => lost feature: std of registry+https://github.com/rust-lang/crates.io-index#b@1.0.0, closure
a b!|b@1.0.0&crates.io|p;x= / nodes a b@1.0.0&crates.io|b@1.0.0&crates.io;default / index z@1.0.0 default=std => 2 kept, closure p:1
";

#[test]
fn asked_once_and_reported_or_lost_as_corrected(rt: HostRuntime) -> Result<(), Fail> {
    hold_lines::<AskedFor>(rt.alloc(), ASKED_FOR)?;
    hold_lines::<Corrected>(rt.alloc(), CORRECTED)
}
