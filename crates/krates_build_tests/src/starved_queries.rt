//! The questions to the graph that make a list.

use crate::starved_builds::FEATURES;
use crate::starved_documents::are_a_and_b;
use krates::{Builder, DepKind, Krates, NodeId, NoneFilter};
use krates_samples::documents::metadata;
use krates_samples::starving::{Call, answered, starved};
use std::alloc::{AllocError, Global};
use std::test::Fail;

/// What the graph of a document is asked in which the first crate needs the second.
#[derive(Debug)]
enum Asked {
    Dependencies,
    Dependents,
    AllDependents,
    Reaches,
    Filtered,
    Why,
    Facts,
}

/// All that it is asked.
static ASKED: &[Asked] = &[
    Asked::Dependencies,
    Asked::Dependents,
    Asked::AllDependents,
    Asked::Reaches,
    Asked::Filtered,
    Asked::Why,
    Asked::Facts,
];

/// Whether the first crate depends directly on the second alone, by the first edge.
fn is_dependency(krates: &Krates) -> Result<bool, AllocError> {
    if krates.graph().node_count() == 0 {
        return Ok(false);
    }
    match krates.direct_dependencies(NodeId::new(0))?.as_slice() {
        [found] => Ok(found.node_id.index() == 1 && found.edge_id.index() == 0),
        _ => Ok(false),
    }
}

impl Call for Asked {
    type Given = Krates;

    type Answer = Result<bool, AllocError>;

    fn given(&self, alloc: Global) -> Result<Krates, Fail> {
        let metadata = metadata(alloc, FEATURES)?;
        Ok(Builder::new(alloc).build_with_metadata(metadata, &mut NoneFilter)?)
    }

    fn answer(&self, _alloc: Global, given: &mut Krates) -> Result<bool, AllocError> {
        match self {
            Asked::Dependencies => is_dependency(given),
            // the first crate alone depends directly on the second, by the first edge
            Asked::Dependents => match given.direct_dependents(NodeId::new(1))?.as_slice() {
                [found] => Ok(found.node_id.index() == 0 && found.edge_id.index() == 0),
                _ => Ok(false),
            },
            Asked::AllDependents => match given.all_dependents(NodeId::new(1))?.as_slice() {
                [first, second] => Ok(first.node_id.index() == 0 && second.node_id.index() == 1),
                _ => Ok(false),
            },
            Asked::Reaches => given.reaches(NodeId::new(0), NodeId::new(1)),
            // without dependencies for tests
            Asked::Filtered => Ok(are_a_and_b(&given.krates_filtered(DepKind::Dev)?)),
            Asked::Why => match given.why(NodeId::new(1))? {
                Some(derivation) => Ok(derivation.steps.len() == 3),
                None => Ok(false),
            },
            Asked::Facts => Ok(given.facts()?.len() == 7),
        }
    }

    fn is_granted(
        &self,
        _alloc: Global,
        _given: &mut Krates,
        answer: &Result<bool, AllocError>,
    ) -> Result<bool, Fail> {
        answered(answer)
    }
}

#[test]
fn questions_to_the_graph(rt: HostRuntime) -> Result<(), Fail> {
    starved(&rt, ASKED)
}
