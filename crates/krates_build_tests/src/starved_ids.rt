//! Ids, and the correction of a package by an index.

use crate::indexed::answer_with;
use crate::real_documents::metadata_of;
use crate::starved_commands::parts;
use krates_cm::{Metadata, PackageId};
use krates_ids::{CachingIndex, IdError, IndexAnswer, IndexKrateVersion, Kid};
use krates_samples::starving::{Call, granted, other_refusal, refused, starved};
use semver::Version;
use std::alloc::{AllocError, Global};
use std::collections::BTreeMap;
use std::mem::replace;
use std::test::Fail;

/// An id with an escape, which is read by decoding it.
static ESCAPED: &str = "git+https://github.com/a/b?branch=c%2Fd#0.1.0";

/// Reads that id.
#[derive(Debug)]
struct ReadId;

/// The id is read.
static READ: &[ReadId] = &[ReadId];

impl Call for ReadId {
    type Given = PackageId;

    type Answer = Result<Kid, IdError>;

    fn given(&self, alloc: Global) -> Result<PackageId, Fail> {
        let repr = String::from_str(alloc, ESCAPED)?;
        Ok(PackageId { repr })
    }

    fn answer(&self, alloc: Global, given: &mut PackageId) -> Result<Kid, IdError> {
        let repr = String::new(alloc);
        Kid::try_from(replace(given, PackageId { repr }))
    }

    fn is_granted(
        &self,
        _alloc: Global,
        _given: &mut PackageId,
        answer: &Result<Kid, IdError>,
    ) -> Result<bool, Fail> {
        match answer {
            Ok(kid) => granted(kid.source() == "git+https://github.com/a/b?branch=c/d"),
            Err(IdError::Memory(id)) => refused(id.repr.as_str() == ESCAPED),
            Err(_) => other_refusal(),
        }
    }
}

#[test]
fn an_id_with_an_escape(rt: HostRuntime) -> Result<(), Fail> {
    starved(&rt, READ)
}

/// The answer of an index about the version 1.0.0 of `p`, which has a default feature with a reference, and one without.
pub(crate) fn answer(alloc: Global) -> Result<IndexAnswer, Fail> {
    let references = parts(alloc, "x", ',')?;
    let mut features = BTreeMap::new(alloc);
    drop(features.insert(String::from_str(alloc, "default")?, references)?);
    drop(features.insert(String::from_str(alloc, "std")?, Vec::new(alloc))?);
    let version = Version::parse(alloc, "1.0.0")?;
    answer_with(alloc, "p", IndexKrateVersion { version, features })
}

/// A package that the index has, alone in its document.
#[derive(Drop)]
struct Indexed {
    index: CachingIndex,
    metadata: Box<Metadata>,
}

/// Corrects the package.
#[derive(Debug)]
struct Correct;

/// The package is corrected.
static CORRECTED: &[Correct] = &[Correct];

impl Call for Correct {
    type Given = Indexed;

    type Answer = Result<(), AllocError>;

    fn given(&self, alloc: Global) -> Result<Indexed, Fail> {
        let metadata = metadata_of(alloc, "p@1.0.0&crates.io;default=std,foo")?;
        let answer = answer(alloc)?;
        let index = CachingIndex { answer };
        Ok(Indexed { index, metadata })
    }

    fn answer(&self, alloc: Global, given: &mut Indexed) -> Result<(), AllocError> {
        match given.metadata.packages.first_mut() {
            Some(pkg) => given.index.correct(alloc, pkg),
            None => Ok(()),
        }
    }

    fn is_granted(
        &self,
        alloc: Global,
        given: &mut Indexed,
        answer: &Result<(), AllocError>,
    ) -> Result<bool, Fail> {
        let Some(pkg) = given.metadata.packages.first() else {
            return Err(Fail::new("no package"));
        };
        let told = format!(in alloc; "{:?}", pkg.features)?;
        match answer {
            Ok(()) => granted(
                told.as_str() == r#"{"default": ["std", "foo"], "foo": ["dep:foo"], "std": []}"#,
            ),
            Err(AllocError) => refused(told.as_str() == r#"{"default": ["std", "foo"]}"#),
        }
    }
}

#[test]
fn a_correction(rt: HostRuntime) -> Result<(), Fail> {
    starved(&rt, CORRECTED)
}
