//! Inputs that no cargo writes: documents that end too early, and values that nest too deep; and builds without a program.

ghost use Rattle.std.specs.Prelude.{⊤};

use crate::listing::outcome;
use crate::no_programs::NoPrograms;
use krates::cm::{Error as MetadataError, MetadataCommand};
use krates::{Builder, Error, Krates, OnFilter, Package};
use krates_cli::{Counted, Options, RunError, run};
use krates_samples::documents::document;
use krates_samples::stand_in::DOCUMENT;
use std::alloc::Global;
use std::test::Fail;

/// Whether a run over these bytes is refused since they aren't JSON.
fn is_no_json(alloc: Global, bytes: &[u8]) -> bool {
    let mut input = Counted::new(bytes);
    let mut output = Counted::new(Vec::new(alloc));
    let result = run(alloc, &Options::new(alloc), &mut input, &mut output);
    matches!(result, Err(RunError::Parse(MetadataError::Json(_))))
}

/// Whether the program refuses these bytes because they aren't JSON, with status 1 and nothing listed.
fn is_refused(alloc: Global, bytes: &[u8]) -> Result<bool, Fail> {
    let told = outcome(alloc, &[], bytes)?;
    Ok(
        told.starts_with("1 refused: failed to interpret `cargo metadata`'s json: ")
            && told.ends_with("\n|")
            && is_no_json(alloc, bytes),
    )
}

/// The number of the first byte before which a text ends so that it isn't refused.
fn first_read(alloc: Global, text: &[u8]) -> Result<Option<usize>, Fail> {
    for end in 0..text.len() {
        if !is_refused(alloc, &text[..end])? {
            return Ok(Some(end));
        }
    }
    Ok(None)
}

#[test]
fn refuses_a_document_that_ends_too_early(rt: HostRuntime) -> Result<(), Fail> {
    assert_eq!(rt; first_read(rt.alloc(), DOCUMENT.as_bytes())?, None);
    Ok(())
}

/// A document whose free-form metadata is this many lists, each in the one before it.
fn nested(alloc: Global, depth: usize) -> Result<String, Fail> {
    let (opened, closed) = ("[".repeat(alloc, depth)?, "]".repeat(alloc, depth)?);
    let json = document(alloc, "a")?;
    let rest = json.as_str().strip_prefix("{").unwrap_or("no object");
    Ok(format!(in alloc; "{{\"metadata\":{opened}{closed},{rest}")?)
}

#[test]
fn reads_metadata_that_nests_and_refuses_what_nests_too_deep(rt: HostRuntime) -> Result<(), Fail> {
    let json = nested(rt.alloc(), 100)?;
    let told = outcome(rt.alloc(), &[], json.as_bytes())?;
    assert_eq!(rt; told.as_str(), "0 |+ path+file:///w/a#0.1.0\n");
    let deeper = nested(rt.alloc(), 200)?;
    assert!(rt; is_refused(rt.alloc(), deeper.as_bytes())?);
    Ok(())
}

/// Counts the packages that aren't kept.
#[derive(Drop)]
pub(crate) struct Count {
    pub(crate) packages: u32,
}

impl OnFilter for Count {
    ghost filters = { λ _ _ _. ⊤ };

    fn filtered(&mut self, pkg: Package) {
        self.packages = self.packages.saturating_add(1);
        drop(pkg);
    }
}

#[test]
fn builds_nothing_without_a_program(rt: HostRuntime) -> Result<(), Fail> {
    let alloc = rt.alloc();
    let mut count = Count { packages: 0 };
    let command = MetadataCommand::new(alloc);
    let built: Result<Krates, Error> = Builder::new(alloc).build(
        command,
        Some("x"),
        &(NoPrograms, alloc),
        &mut count,
    );
    assert!(rt; matches!(built, Err(Error::Metadata(MetadataError::Io(_)))));
    assert_eq!(rt; count.packages, 0);
    Ok(())
}
