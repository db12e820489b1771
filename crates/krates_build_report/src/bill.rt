//! The bill of materials of what cargo builds with all targets.

use crate::build::{Build, push};
use krates::{KrateMatch, NodeId, Package};
use krates_answers::crate_uses::Use;
use krates_answers::materials::Material;
use krates_build_answers::{BuildUse, UsedCrate};
use krates_report::bill::{Bill, BillSubject, BuiltFor};
use krates_words::BillWords;
use std::alloc::{AllocError, Global};

/// The bill of the crates that are built, of which these are the uses, in the same order. The only error is running out of memory. Time
/// O(n e) for n crates and e links.
pub(crate) fn bill_of<'d>(
    alloc: Global,
    build: &'d Build<'_>,
    used: &[UsedCrate],
    words: &'d BillWords,
) -> Result<Bill<'d>, AllocError> {
    let subject = BillSubject {
        root: build.document.metadata().workspace_root.as_str(),
        asked: build.asked(alloc)?,
        words,
    };
    let crates = build.crates(alloc)?;
    let uses = uses_of(alloc, used)?;
    let sides = sides_of(alloc, build)?;
    let materials = materials(alloc, build)?;
    Ok(Bill {
        crates,
        uses,
        sides,
        materials,
        subject,
    })
}

/// What each crate is used for.
fn uses_of(alloc: Global, used: &[UsedCrate]) -> Result<Vec<Use>, AllocError> {
    let mut uses = Vec::new(alloc);
    for used in used {
        uses.push(match used.usage {
            BuildUse::Shipped => Use::Shipped,
            BuildUse::Build => Use::Build,
            BuildUse::Tests => Use::Dev,
        })?;
    }
    Ok(uses)
}

/// For which sides each crate is built.
fn sides_of(alloc: Global, build: &Build<'_>) -> Result<Vec<BuiltFor>, AllocError> {
    let mut sides = Vec::new(alloc);
    for number in &build.numbers {
        sides.push(BuiltFor {
            targets: build.built.is_for_targets(*number),
            host: build.built.is_for_host(*number),
        })?;
    }
    Ok(sides)
}

/// Each crate with those that it needs.
fn materials<'d>(alloc: Global, build: &'d Build<'_>) -> Result<Vec<Material<'d>>, AllocError> {
    let links = build.dependencies(alloc)?;
    let mut materials = Vec::new(alloc);
    for krate in build.crates(alloc)? {
        let depends_on = copied(alloc, links.of(krate.node_id))?;
        push(&mut materials, Material { krate, depends_on })?;
    }
    Ok(materials)
}

/// A copy of a list, if there is one.
fn copied(alloc: Global, list: Option<&[NodeId]>) -> Result<Vec<NodeId>, AllocError> {
    let mut copy = Vec::new(alloc);
    if let Some(list) = list {
        copy.extend_from_slice(list)?;
    }
    Ok(copy)
}
