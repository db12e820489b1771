//! Which part of a document counts.

ghost use Rattle.std.specs.Prelude.{◌≡◌, IfOk, map, string_bytes};
ghost use Rattle.krates_text.specs.AskedTargets.{asked_of};
ghost use Rattle.krates_words.specs.Choice.{IgnoresToo, IsSettingOf};

use krates_document::Setting;
use krates_ids::PkgSpec;
use krates_rules::kind::{DepKind, Scope};
use krates_text::target::Target;
use std::alloc::{AllocError, Global};

/// Which part of a document counts.
#[derive(Debug, Drop)]
pub struct Choice {
    /// Whether every member of the workspace is a root, even where the graph has a root of its own: `--workspace`.
    pub workspace: bool,
    /// Whether a name in a feature reference means all dependencies that match it: `--all-named`.
    pub all_named: bool,
    /// The dependencies of these kinds are ignored, whichever crate has them: `--edges` and `--ignore-kind`.
    pub ignored: Vec<DepKind>,
    /// The packages that one of these fits are left out: `--exclude`.
    pub exclusions: Vec<PkgSpec>,
    /// The directories of the members that are roots, as the document writes them: `--package`. Where none is given, `workspace`
    /// counts.
    pub packages: Vec<String>,
    /// The triples of the targets: `--target`.
    pub triples: Vec<String>,
    /// The files that describe the first of these targets, in their order: `--cfg`. There are at most as many as triples.
    pub cfgs: Vec<String>,
    /// The targets, each with its features. Words have only their triples; whoever runs rustc or reads its descriptions adds
    /// them. Where there are none, every target is meant.
    pub targets: Vec<(Target, Vec<String>)>,
}

impl Choice {
    /// The setting that is chosen, with dependencies of these kinds ignored too. The only error is running out of memory.
    /// Time O(length of what is chosen).
    ///
    /// ```text
    /// let without_dev = choice.setting(alloc, &[DepKind::Dev])?;
    /// ```
    pub fn setting(&self, alloc: Global, also_ignored: &[DepKind]) -> Result<Setting, AllocError>
        ensures { IfOk result (IsSettingOf self.now also_ignored.now) }
    {
        let mut setting = Setting::new(alloc);
        setting.workspace(self.workspace);
        setting.all_named(self.all_named);
        ignore_kinds(&mut setting, &self.ignored);
        ignore_kinds(&mut setting, also_ignored);
        setting.exclude(self.exclusions.clone()?)?;
        setting.include_workspace_crates(alloc, &paths_of(alloc, &self.packages)?)?;
        setting.include_targets(copies_of(alloc, &self.targets)?)?;
        Ok(setting)
    }
}

/// Ignores dependencies of these kinds, whichever crate has them.
fn ignore_kinds(setting: &mut Setting, kinds: &[DepKind])
    ensures ignored { IgnoresToo setting.old.ignored setting.new.ignored kinds.now }
    ensures rest { setting.new ≡ record setting.old { ignored = setting.new.ignored } }
{
    for kind in kinds {
        setting.ignore_kind(*kind, Scope::All);
    }
}

/// The texts, borrowed.
fn paths_of(alloc: Global, texts: &[String]) -> Result<Vec<&str>, AllocError>
    ensures { IfOk result (λ paths. map (λ path. path.now) paths.items ≡ map string_bytes texts.now) }
{
    let mut paths = Vec::new(alloc);
    for text in texts {
        paths.push(text.as_str())?;
    }
    Ok(paths)
}

/// Copies of targets, each with its features.
fn copies_of(
    alloc: Global,
    targets: &[(Target, Vec<String>)],
) -> Result<Vec<(Target, Vec<String>)>, AllocError>
    ensures { IfOk result (λ copies. map asked_of copies.items ≡ map asked_of targets.now) }
{
    let mut copies = Vec::new(alloc);
    for target in targets {
        copies.push(copy_of(target)?)?;
    }
    Ok(copies)
}

/// A copy of a target with its features.
#[tactic(auto, using(krates_text::proofs::CopiedTexts::texts_copied))]
fn copy_of(target: &(Target, Vec<String>)) -> Result<(Target, Vec<String>), AllocError>
    ensures { IfOk result (λ copy. asked_of copy ≡ asked_of target.now) }
{
    Ok((target.0.clone()?, target.1.clone()?))
}
