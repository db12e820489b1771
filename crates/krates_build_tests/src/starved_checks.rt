//! The two checkers, with an index.

use crate::real_documents::metadata_of;
use crate::starved_ids::answer;
use krates::derive::{CheckError, Derivation, Fact, check, check_closed};
use krates::index::CachingIndex;
use krates::{Builder, Metadata};
use krates_samples::facts::{facts_of, steps_of};
use krates_samples::starving::{Call, granted, other_refusal, refused, starved};
use std::alloc::Global;
use std::test::Fail;

/// What is checked, and what it is checked by.
#[derive(Drop)]
struct Checked {
    metadata: Box<Metadata>,
    index: CachingIndex,
    steps: Derivation,
    facts: Vec<Fact>,
}

/// A checker: of lists of steps, or of closed lists of facts.
#[derive(Debug)]
enum Checker {
    Steps,
    Facts,
}

/// Both checkers. The index gives the package a third feature.
static CHECKERS: &[Checker] = &[Checker::Steps, Checker::Facts];

impl Call for Checker {
    type Given = Checked;

    type Answer = Result<(), CheckError>;

    fn given(&self, alloc: Global) -> Result<Checked, Fail> {
        let metadata = metadata_of(
            alloc,
            "p@1.0.0&crates.io;default=foo / nodes p@1.0.0&crates.io;default foo / members p@1.0.0&crates.io",
        )?;
        let answer = answer(alloc)?;
        let steps = steps_of(
            alloc,
            "1 p@1.0.0&crates.io/default; 3 p@1.0.0&crates.io/foo 0; 2 +p@1.0.0&crates.io 1",
        )?;
        let facts = facts_of(
            alloc,
            "+p@1.0.0&crates.io p@1.0.0&crates.io/default p@1.0.0&crates.io/foo",
        )?;
        Ok(Checked {
            metadata,
            index: CachingIndex { answer },
            steps,
            facts,
        })
    }

    fn answer(&self, alloc: Global, given: &mut Checked) -> Result<(), CheckError> {
        let builder = Builder::new(alloc);
        match self {
            Checker::Steps => check(&given.metadata, &builder, Some(&given.index), &given.steps),
            Checker::Facts => {
                check_closed(&given.metadata, &builder, Some(&given.index), &given.facts)
            }
        }
    }

    fn is_granted(
        &self,
        _alloc: Global,
        _given: &mut Checked,
        answer: &Result<(), CheckError>,
    ) -> Result<bool, Fail> {
        match answer {
            Ok(()) => granted(true),
            Err(CheckError::Memory) => refused(true),
            Err(_) => other_refusal(),
        }
    }
}

#[test]
fn both_checkers(rt: HostRuntime) -> Result<(), Fail> {
    starved(&rt, CHECKERS)
}
