//! Builds, with an index and without one.

use crate::builds_by_cargo::Count;
use crate::starved_ids::answer;
use krates::index::{BuildIndexCache, IndexAnswer, PackageNames};
use krates::{Builder, Error, Krates, Metadata};
use krates_samples::documents::metadata;
use krates_samples::starving::{Call, granted, other_refusal, refused, starved};
use std::alloc::Global;
use std::collections::BTreeMap;
use std::mem::replace;
use std::test::Fail;

/// The first crate needs the second where a feature of its own is enabled, and a reference that is no reason to need it enables a
/// feature of that; nobody needs the third.
pub(crate) const FEATURES: &str = "a b?;b=dep:b w=b?/j|b;j=|c / nodes a b;b w|b;j|c";

/// Whether the edges of a graph lead to these nodes.
fn leads_to(krates: &Krates, targets: &[usize]) -> bool {
    krates
        .graph()
        .raw_edges()
        .iter()
        .map(|edge| edge.target.index())
        .eq(targets.iter().copied())
}

/// A document, until its graph is built; what the index answers of it, and how many packages aren't kept.
#[derive(Drop)]
struct Building {
    metadata: Option<Metadata>,
    answer: IndexAnswer,
    count: Count,
}

/// A build of the document of a line, with or without the index, and where the edges of its graph lead, one after the other.
#[derive(Debug)]
struct Build {
    line: &'static str,
    is_indexed: bool,
    targets: &'static [usize],
}

/// The build without an index, and the one with an index, which gives the package a feature.
static BUILT: &[Build] = &[
    Build {
        line: FEATURES,
        is_indexed: false,
        targets: &[1, 4, 0, 1, 0, 4, 1],
    },
    Build {
        line: "p@1.0.0&crates.io;default=foo foo=std|c / nodes p@1.0.0&crates.io;default foo std|c / members p@1.0.0&crates.io",
        is_indexed: true,
        targets: &[0, 2, 0, 3, 0],
    },
];

/// Builds with an index that gives this answer.
fn built_indexed(
    alloc: Global,
    metadata: Metadata,
    answer: IndexAnswer,
    count: &mut Count,
) -> Result<Krates, Error> {
    let Ok(boxed) = Box::new(alloc, move |names: PackageNames| {
        drop(names);
        answer
    }) else {
        return Err(Error::Memory);
    };
    let build: BuildIndexCache = boxed;
    let mut builder = Builder::new(alloc);
    builder.with_crates_io_index(build);
    builder.build_with_metadata(metadata, count)
}

impl Call for Build {
    type Given = Building;

    type Answer = Result<Krates, Error>;

    fn given(&self, alloc: Global) -> Result<Building, Fail> {
        let answer = answer(alloc)?;
        let metadata = metadata(alloc, self.line)?;
        Ok(Building {
            metadata: Some(metadata),
            answer,
            count: Count { packages: 0 },
        })
    }

    fn answer(&self, alloc: Global, given: &mut Building) -> Result<Krates, Error> {
        let Some(metadata) = given.metadata.take() else {
            return Err(Error::NoResolveGraph);
        };
        if !self.is_indexed {
            return Builder::new(alloc).build_with_metadata(metadata, &mut given.count);
        }
        let krates = BTreeMap::new(alloc);
        let answer = replace(&mut given.answer, IndexAnswer { krates });
        built_indexed(alloc, metadata, answer, &mut given.count)
    }

    fn is_granted(
        &self,
        _alloc: Global,
        given: &mut Building,
        answer: &Result<Krates, Error>,
    ) -> Result<bool, Fail> {
        match answer {
            Ok(krates) => granted(given.count.packages == 1 && leads_to(krates, self.targets)),
            Err(Error::Memory) => refused(given.count.packages == 0),
            Err(_) => other_refusal(),
        }
    }
}

#[test]
fn builds(rt: HostRuntime) -> Result<(), Fail> {
    starved(&rt, BUILT)
}
