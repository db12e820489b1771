//! The document: reading it, and its own small questions.

use crate::real_documents::metadata_of;
use krates_cm::{Error, Metadata, Package, PackageId, WorkspaceDefaultMembers};
use krates_cm_json::parse;
use krates_samples::stand_in::DOCUMENT;
use krates_samples::starving::{Call, answered, granted, other_refusal, refused, starved};
use std::alloc::{AllocError, Global};
use std::test::Fail;

/// Two members, of which the first has a feature and needs the second.
static LINE: &str = "a b&dev;f=g|b|c / members b a";

/// Reads a document of two packages and a graph.
#[derive(Debug)]
struct Parse;

/// The document is read.
static PARSED: &[Parse] = &[Parse];

impl Call for Parse {
    type Given = String;

    type Answer = Result<Metadata, Error>;

    fn given(&self, alloc: Global) -> Result<String, Fail> {
        Ok(String::from_str(alloc, DOCUMENT)?)
    }

    fn answer(&self, alloc: Global, given: &mut String) -> Result<Metadata, Error> {
        parse(alloc, given.as_str())
    }

    fn is_granted(
        &self,
        alloc: Global,
        given: &mut String,
        answer: &Result<Metadata, Error>,
    ) -> Result<bool, Fail> {
        match answer {
            Ok(_) => {
                let ample = format!(in alloc; "{:?}", parse(alloc, given.as_str()))?;
                granted(format!(in alloc; "{answer:?}")? == ample)
            }
            Err(Error::Memory) => refused(true),
            Err(_) => other_refusal(),
        }
    }
}

#[test]
fn reading_a_document(rt: HostRuntime) -> Result<(), Fail> {
    starved(&rt, PARSED)
}

/// Whether the packages are `a` and `b`, in this order.
pub(crate) fn are_a_and_b(packages: &[&Package]) -> bool {
    match packages {
        [first, second] => first.name.as_str() == "a" && second.name.as_str() == "b",
        _ => false,
    }
}

/// What a document is asked that has default members.
#[derive(Debug)]
enum Asked {
    Members,
    DefaultMembers,
}

/// All that it is asked.
static ASKED: &[Asked] = &[Asked::Members, Asked::DefaultMembers];

impl Call for Asked {
    type Given = Box<Metadata>;

    type Answer = Result<bool, AllocError>;

    fn given(&self, alloc: Global) -> Result<Box<Metadata>, Fail> {
        let mut given = metadata_of(alloc, LINE)?;
        let ids = given.workspace_members.clone()?;
        given.workspace_default_members = WorkspaceDefaultMembers(Some(ids));
        Ok(given)
    }

    fn answer(&self, alloc: Global, given: &mut Box<Metadata>) -> Result<bool, AllocError> {
        let metadata: &Metadata = given;
        let packages = match self {
            Asked::Members => Some(metadata.workspace_packages(alloc)?),
            Asked::DefaultMembers => metadata.workspace_default_packages(alloc)?,
        };
        match &packages {
            Some(packages) => Ok(are_a_and_b(packages)),
            None => Ok(false),
        }
    }

    fn is_granted(
        &self,
        _alloc: Global,
        _given: &mut Box<Metadata>,
        answer: &Result<bool, AllocError>,
    ) -> Result<bool, Fail> {
        answered(answer)
    }
}

#[test]
fn packages_of_members(rt: HostRuntime) -> Result<(), Fail> {
    starved(&rt, ASKED)
}
