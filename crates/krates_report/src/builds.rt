//! The builds from which answers are made.

ghost use Rattle.std.specs.Prelude.{IfOk};
ghost use Rattle.krates_cm.specs.Document.{metadata_view};
ghost use Rattle.krates_report.specs.Builds.{AreBuildsOf, IsBuildOf};

use crate::error::ReportError;
use krates::{Builder, DepKind, Krates, Metadata, NoneFilter};
use krates_answers::builds::Builds;
use krates_answers::three_graphs::ThreeGraphs;
use krates_words::Choice;
use std::alloc::{AllocError, Global};

/// The graph of a document under a choice, with dependencies of these kinds ignored too. It is refused as `Build` where the
/// document can't be built; it may instead return `Memory`. Time: that of `build_with_metadata`.
pub fn built(
    alloc: Global,
    choice: &Choice,
    also_ignored: &[DepKind],
    metadata: Metadata,
) -> Result<Krates, ReportError>
    ensures { IfOk result (IsBuildOf (metadata_view metadata) choice.now also_ignored.now) }
{
    match choice.setting(alloc, also_ignored) {
        Ok(setting) => {
            let builder = Builder::under(alloc, setting);
            let krates: Krates = builder.build_with_metadata(metadata, &mut NoneFilter)?;
            Ok(krates)
        }
        Err(AllocError) => {
            metadata.let_go();
            Err(ReportError::Memory)
        }
    }
}

/// The same for a copy of the document.
fn copy_built(
    alloc: Global,
    choice: &Choice,
    also_ignored: &[DepKind],
    metadata: &Metadata,
) -> Result<Krates, ReportError>
    ensures { IfOk result (IsBuildOf (metadata_view metadata.now) choice.now also_ignored.now) }
{
    let copy = metadata.clone()?;
    built(alloc, choice, also_ignored, copy)
}

/// The three builds of a document that show what its crates are used for. It is refused as `built` is. Time: three times that of `built`.
pub fn builds(alloc: Global, choice: &Choice, metadata: Metadata) -> Result<Builds, ReportError>
    ensures { IfOk result (AreBuildsOf (metadata_view metadata) choice.now) }
{
    let builds = builds_of_copies(alloc, choice, &metadata);
    metadata.let_go();
    builds
}

/// The same for copies of the document.
fn builds_of_copies(
    alloc: Global,
    choice: &Choice,
    metadata: &Metadata,
) -> Result<Builds, ReportError>
    ensures { IfOk result (AreBuildsOf (metadata_view metadata.now) choice.now) }
{
    let all = copy_built(alloc, choice, &[], metadata)?;
    let without_dev = copy_built(alloc, choice, &[DepKind::Dev], metadata)?;
    let shipped = copy_built(alloc, choice, &[DepKind::Dev, DepKind::Build], metadata)?;
    let graphs = ThreeGraphs {
        all,
        without_dev,
        shipped,
    };
    Ok(Builds::of(graphs))
}
