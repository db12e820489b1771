//! The calls of setters that the sections of a line say (`krates_samples::settings`), and a setting on which they were made.

use krates_ids::PkgSpec;
use krates_resolve::{DepKind, Scope, Setting};
use krates_samples::documents::kind_named;
use krates_samples::settings::{package_specs, scope_of, targets_of, words_of};
use krates_text::target::Target;
use std::alloc::{AllocError, Global};
use std::test::Fail;

/// A setter, and what it is called with.
#[derive(Drop)]
pub(crate) enum SetterCall<'a> {
    Workspace(bool),
    AllNamed(bool),
    Crates(Vec<&'a str>),
    Ignored(DepKind, Scope),
    Excluded(Vec<PkgSpec>),
    Targets(Vec<(Target, Vec<String>)>),
    Nothing,
}

/// The call of the setter that a section names, with what it says.
pub(crate) fn setter_call(alloc: Global, section: &str) -> Result<SetterCall<'_>, Fail> {
    let (setter, text) = section.split_once(' ').unwrap_or((section, ""));
    let (first, second) = text.split_once(' ').unwrap_or((text, ""));
    Ok(match setter {
        "workspace" => SetterCall::Workspace(first == "on"),
        "names" => SetterCall::AllNamed(first == "all"),
        "include" => SetterCall::Crates(words_of(alloc, text)?),
        "ignore" => SetterCall::Ignored(DepKind::from(kind_named(first)), scope_of(second)),
        "without" => SetterCall::Excluded(package_specs(alloc, text)?),
        "for" => SetterCall::Targets(targets_of(alloc, text)?),
        _ => SetterCall::Nothing,
    })
}

impl SetterCall<'_> {
    /// Calls the setter of a setting.
    fn set_in_setting(self, alloc: Global, setting: &mut Setting) -> Result<(), AllocError> {
        match self {
            SetterCall::Workspace(is_on) => setting.workspace(is_on),
            SetterCall::AllNamed(is_on) => setting.all_named(is_on),
            SetterCall::Crates(paths) => setting.include_workspace_crates(alloc, &paths)?,
            SetterCall::Ignored(kind, scope) => setting.ignore_kind(kind, scope),
            SetterCall::Excluded(specs) => setting.exclude(specs)?,
            SetterCall::Targets(targets) => setting.include_targets(targets)?,
            SetterCall::Nothing => {}
        }
        Ok(())
    }
}

/// The setting on which each section of the line has called, in turn, the setter that it names.
pub(crate) fn setting_of(alloc: Global, line: &str) -> Result<Setting, Fail> {
    let mut setting = Setting::new(alloc);
    for section in line.split(" / ") {
        setter_call(alloc, section)?.set_in_setting(alloc, &mut setting)?;
    }
    Ok(setting)
}
