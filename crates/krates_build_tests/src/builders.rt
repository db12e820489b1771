//! A builder on which the setters were called that a line says, what it builds of the document of the line, and both checks by it.

ghost use Rattle.std.specs.Prelude.{◌≡◌, IfOk, None, OnOk};

use crate::lists::{Ask, Given, List, Sections, list_in};
use crate::real_documents::metadata_of;
use crate::setting::{SetterCall, setter_call};
use krates::{Builder, FromPackage, Krates, NoneFilter};
use krates_text::text::Text;
use std::alloc::{AllocError, Global};
use std::test::Fail;

impl SetterCall<'_> {
    /// Calls the setter of a builder.
    fn set_in_builder(self, builder: &mut Builder) -> Result<(), AllocError>
        ensures index { OnOk result (builder.new.index ≡ builder.old.index) }
    {
        match self {
            SetterCall::Workspace(is_on) => {
                builder.workspace(is_on);
            }
            SetterCall::AllNamed(is_on) => {
                builder.all_named(is_on);
            }
            SetterCall::Crates(paths) => {
                builder.include_workspace_crates(&paths)?;
            }
            SetterCall::Ignored(kind, scope) => {
                builder.ignore_kind(kind, scope);
            }
            SetterCall::Excluded(specs) => {
                builder.exclude(specs)?;
            }
            SetterCall::Targets(targets) => {
                builder.include_targets(targets)?;
            }
            SetterCall::Nothing => {}
        }
        Ok(())
    }
}

/// Calls, in turn, the setters of a builder that the sections of the line name.
fn set_in_turn(alloc: Global, builder: &mut Builder, line: &str) -> Result<(), Fail>
    ensures index { OnOk result (builder.new.index ≡ builder.old.index) }
{
    for section in line.split(" / ") {
        setter_call(alloc, section)?.set_in_builder(builder)?;
    }
    Ok(())
}

/// A builder on which each section of the line has called the setter that it names, without an index.
pub(crate) fn builder_of(alloc: Global, line: &str) -> Result<Builder, Fail>
    ensures no_index { IfOk result (λ builder. builder.index ≡ None) }
{
    let mut builder = Builder::new(alloc);
    set_in_turn(alloc, &mut builder, line)?;
    Ok(builder)
}

impl Sections for Builder {
    fn of_line(alloc: Global, line: &str) -> Result<Builder, Fail> {
        builder_of(alloc, line)
    }
}

/// What is built from the document of a line under what its sections set.
pub(crate) fn krates_of<N: FromPackage + Drop>(
    alloc: Global,
    line: &str,
) -> Result<Box<Krates<N>>, Fail> {
    let metadata = metadata_of(alloc, line)?;
    let builder = builder_of(alloc, line)?;
    let krates: Krates<N> = builder.build_with_metadata(
        Box::into_inner(metadata),
        &mut NoneFilter,
    )?;
    Ok(Box::new(alloc, krates)?)
}

/// What the check of the list of a line answers by a builder.
pub(crate) struct ByBuilder<L> {
    list: L,
}

impl<L: List> Ask for ByBuilder<L> {
    type Set = Builder;

    fn push(told: &mut Text, given: &Given<'_, Builder>, line: &str) -> Result<(), Fail> {
        L::push_by_builder(told, given, None, list_in::<L>(line))
    }
}
