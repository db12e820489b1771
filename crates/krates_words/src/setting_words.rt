//! The words that mean a choice.

ghost use Rattle.std.specs.Prelude.{◌≡◌, ◌++◌, IfOk, codes, map};
ghost use Rattle.krates_cm.specs.Document.{text_view, texts_view};
ghost use Rattle.krates_words.specs.SettingWords.{exclusion_word, flag_words, kind_word, package_word, target_word, words_of};

use crate::choice::Choice;
use crate::edges::name_of;
use krates_ids::PkgSpec;
use krates_rules::kind::DepKind;
use krates_text::target::Target;
use std::alloc::{AllocError, Global};

impl Choice {
    /// The words that mean this choice, one for each option and value, always in the same order. A target is given by its triple,
    /// however it was described. The only error is running out of memory. Time O(length of what is chosen).
    ///
    /// ```text
    /// // --workspace --ignore-kind=dev --target=x86_64-unknown-linux-gnu
    /// let words = choice.words(alloc)?;
    /// ```
    pub fn words(&self, alloc: Global) -> Result<Vec<String>, AllocError>
        ensures { IfOk result (λ words. texts_view words ≡ words_of self.now) }
    {
        let mut words = flag(alloc, "--workspace", self.workspace)?;
        words.append(&mut flag(alloc, "--all-named", self.all_named)?)?;
        words.append(&mut packages(alloc, &self.packages)?)?;
        words.append(&mut kinds(alloc, &self.ignored)?)?;
        words.append(&mut exclusions(alloc, &self.exclusions)?)?;
        words.append(&mut targets(alloc, &self.targets)?)?;
        Ok(words)
    }
}

/// An option without a value, where it is set.
pub(crate) fn flag(alloc: Global, option: &str, is_set: bool) -> Result<Vec<String>, AllocError>
    ensures { IfOk result (λ words. texts_view words ≡ flag_words option.now is_set) }
{
    let mut words = Vec::new(alloc);
    if is_set {
        words.push(String::from_str(alloc, option)?)?;
    }
    Ok(words)
}

/// The directories of members.
fn packages(alloc: Global, paths: &[String]) -> Result<Vec<String>, AllocError>
    ensures { IfOk result (λ words. texts_view words ≡ map package_word paths.now) }
{
    let mut words = Vec::new(alloc);
    for path in paths {
        words.push(package(alloc, path.as_str())?)?;
    }
    Ok(words)
}

/// The directory of a member.
fn package(alloc: Global, path: &str) -> Result<String, AllocError>
    ensures { IfOk result (λ word. text_view word ≡ codes "--package=" ++ path.now) }
{
    format!(in alloc; "--package={path}")
}

/// The kinds that are ignored.
fn kinds(alloc: Global, ignored: &[DepKind]) -> Result<Vec<String>, AllocError>
    ensures { IfOk result (λ words. texts_view words ≡ map kind_word ignored.now) }
{
    let mut words = Vec::new(alloc);
    for kind in ignored {
        words.push(ignored_kind(alloc, *kind)?)?;
    }
    Ok(words)
}

/// A kind that is ignored.
fn ignored_kind(alloc: Global, kind: DepKind) -> Result<String, AllocError>
    ensures { IfOk result (λ word. text_view word ≡ kind_word kind) }
{
    let name = name_of(kind);
    format!(in alloc; "--ignore-kind={name}")
}

/// What is left out.
fn exclusions(alloc: Global, specs: &[PkgSpec]) -> Result<Vec<String>, AllocError>
    ensures { IfOk result (λ words. texts_view words ≡ map exclusion_word specs.now) }
{
    let mut words = Vec::new(alloc);
    for spec in specs {
        words.push(excluded(alloc, spec)?)?;
    }
    Ok(words)
}

/// A specification of what is left out.
fn excluded(alloc: Global, spec: &PkgSpec) -> Result<String, AllocError>
    ensures { IfOk result (λ word. text_view word ≡ exclusion_word spec.now) }
{
    format!(in alloc; "--exclude={spec}")
}

/// The triples of the targets.
fn targets(alloc: Global, targets: &[(Target, Vec<String>)]) -> Result<Vec<String>, AllocError>
    ensures { IfOk result (λ words. texts_view words ≡ map target_word targets.now) }
{
    let mut words = Vec::new(alloc);
    for target in targets {
        let triple = &target.0;
        words.push(format!(in alloc; "--target={triple}")?)?;
    }
    Ok(words)
}
