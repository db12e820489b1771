//! Targets of packages, in the small language of documents: the section `targets` of a line.
//!
//! It has a word for each package that has some, as `a:lib,bin`. A target is a kind, by the word that cargo has for it, and
//! `macro-example` is an example that is a procedural macro. Behind the kind there is `!` if the target has tests, as one of the kind
//! `test` always has, and `=` and the feature that it requires. The word `links` says that the package is for a native library.

use crate::documents;
use krates_cm::{
    CrateType, Edition, Metadata, Package, Target, TargetKind, WorkspaceDefaultMembers,
};
use std::alloc::{AllocError, Global};
use std::test::Fail;

/// The kind of a target of this name.
fn kind_named(name: &str) -> TargetKind {
    match name {
        "bench" => TargetKind::Bench,
        "bin" => TargetKind::Bin,
        "cdylib" => TargetKind::CDyLib,
        "custom-build" => TargetKind::CustomBuild,
        "example" => TargetKind::Example,
        "macro-example" => TargetKind::Example,
        "proc-macro" => TargetKind::ProcMacro,
        "test" => TargetKind::Test,
        _ => TargetKind::Lib,
    }
}

/// The forms of a target of this name, of which rules look at one alone.
fn forms_named(alloc: Global, name: &str) -> Result<Vec<CrateType>, AllocError> {
    let mut forms = Vec::new(alloc);
    if name == "macro-example" {
        forms.push(CrateType::ProcMacro)?;
    }
    Ok(forms)
}

/// The features that are required, which are one at most.
fn features_named(alloc: Global, feature: &str) -> Result<Vec<String>, AllocError> {
    let mut features = Vec::new(alloc);
    if !feature.is_empty() {
        features.push(String::from_str(alloc, feature)?)?;
    }
    Ok(features)
}

/// The target of a package of this name that a word says.
fn target_of(alloc: Global, name: &str, word: &str) -> Result<Target, AllocError> {
    let (word, feature) = word.split_once('=').unwrap_or((word, ""));
    let kind_name = word.trim_end_matches('!');
    let kind = kind_named(kind_name);
    let mut kinds = Vec::new(alloc);
    kinds.push(kind)?;
    Ok(Target {
        name: String::from_str(alloc, name)?,
        kind: kinds,
        crate_types: forms_named(alloc, kind_name)?,
        required_features: features_named(alloc, feature)?,
        src_path: String::new(alloc),
        edition: Edition::E2021,
        doctest: false,
        test: kind == TargetKind::Test || word.ends_with('!'),
        doc: false,
    })
}

/// Adds what a word says to a package of this name: a target, or that it is for a native library.
fn add_word(alloc: Global, pkg: &mut Package, name: &str, word: &str) -> Result<(), AllocError> {
    if word == "links" {
        pkg.links = Some(String::from_str(alloc, name)?);
    } else {
        pkg.targets.push(target_of(alloc, name, word)?)?;
    }
    Ok(())
}

/// Adds what words say to the package of this name.
fn add_targets(
    alloc: Global,
    metadata: &mut Metadata,
    name: &str,
    words: &str,
) -> Result<(), AllocError> {
    for pkg in metadata.packages.iter_mut() {
        if pkg.name.as_str() == name {
            for word in words.split(',') {
                add_word(alloc, pkg, name, word)?;
            }
        }
    }
    Ok(())
}

/// Adds the targets that the section `targets` of a line says.
fn add_all_targets(alloc: Global, metadata: &mut Metadata, line: &str) -> Result<(), AllocError> {
    let targets = documents::section(line, "targets ").unwrap_or("");
    for word in targets.split_whitespace() {
        let (name, words) = word.split_once(':').unwrap_or((word, "lib"));
        add_targets(alloc, metadata, name, words)?;
    }
    Ok(())
}

/// The document of a line, with the targets of its packages; its default members are those that cargo chooses by itself.
pub fn document_of(alloc: Global, line: &str) -> Result<Metadata, Fail> {
    let mut metadata = documents::metadata(alloc, line)?;
    metadata.workspace_default_members = WorkspaceDefaultMembers(None);
    match add_all_targets(alloc, &mut metadata, line) {
        Ok(()) => Ok(metadata),
        Err(error) => {
            metadata.let_go();
            Err(Fail::from(error))
        }
    }
}
