//! What the sections of a line set in a builder or a setting.
//!
//! - `workspace on` and `workspace off`: whether every member is a root.
//! - `names all` and `names least`: whether a name in a feature reference means all dependencies that match it.
//! - `include PATHS`: the crates with these manifests are roots.
//! - `ignore KIND SCOPE`: this kind of dependency is ignored for the crates of the scope.
//! - `without SPECS`: the packages that one of these fits are left out.
//! - `for TARGETS`: the targets, each a triple, and after plus signs the features that it has; or after it, each after a
//!   semicolon, the lines by which rustc describes it.
//!
//! Any other section sets nothing. Here the words after the names are read; whoever has a builder or a setting sets them.

use krates_ids::PkgSpec;
use krates_rules::Scope;
use krates_text::target::{Target, TargetInfo};
use std::alloc::Global;
use std::test::Fail;

/// The texts between spaces.
pub fn words_of(alloc: Global, text: &str) -> Result<Vec<&str>, Fail> {
    let mut words = Vec::new(alloc);
    for word in text.split_whitespace() {
        words.push(word)?;
    }
    Ok(words)
}

/// The scope of this name.
pub fn scope_of(name: &str) -> Scope {
    match name {
        "workspace" => Scope::Workspace,
        "non-workspace" => Scope::NonWorkspace,
        _ => Scope::All,
    }
}

/// A value that a text is read as.
pub trait FromText: Sized + Drop {
    /// What is read of this text.
    fn from_text(alloc: Global, text: &str) -> Result<Self, Fail>;
}

/// What is read of each text between these characters that isn't blank.
pub fn all_of<T: FromText>(alloc: Global, text: &str, between: char) -> Result<Vec<T>, Fail> {
    let mut all = Vec::new(alloc);
    for part in text.split(between) {
        if !part.trim().is_empty() {
            all.push(T::from_text(alloc, part.trim())?)?;
        }
    }
    Ok(all)
}

impl FromText for String {
    fn from_text(alloc: Global, text: &str) -> Result<String, Fail> {
        Ok(String::from_str(alloc, text)?)
    }
}

impl FromText for PkgSpec {
    fn from_text(alloc: Global, text: &str) -> Result<PkgSpec, Fail> {
        Ok(PkgSpec::from_str(alloc, text)?)
    }
}

/// The specifications between spaces.
pub fn package_specs(alloc: Global, text: &str) -> Result<Vec<PkgSpec>, Fail> {
    all_of(alloc, text, ' ')
}

/// The target of a triple that these lines of rustc's describe.
fn described(alloc: Global, triple: &str, lines: &str) -> Result<(Target, Vec<String>), Fail> {
    let text = lines.replace(alloc, ";", "\n")?;
    let (info, features) = TargetInfo::from_rustc(alloc, triple, text.as_str())?;
    Ok((Target::Builtin(info), features))
}

/// The target of a word, with its feature.
impl FromText for (Target, Vec<String>) {
    fn from_text(alloc: Global, word: &str) -> Result<(Target, Vec<String>), Fail> {
        if let Some((triple, lines)) = word.split_once(';') {
            return described(alloc, triple, lines);
        }
        let (triple, feature) = word.split_once('+').unwrap_or((word, ""));
        let features = all_of(alloc, feature, '+')?;
        Ok((Target::new(alloc, triple)?, features))
    }
}

/// The targets between spaces.
pub fn targets_of(alloc: Global, text: &str) -> Result<Vec<(Target, Vec<String>)>, Fail> {
    all_of(alloc, text, ' ')
}
