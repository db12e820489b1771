//! What the words say of the rules, from what `clap` found in them.

use crate::error::WordsError;
use crate::values::{text, texts, values};
use crate::{BuildWords, Choice, edges};
use clap::ArgMatches;
use krates_ids::{Error, PkgSpec};
use krates_units::{Resolver, TargetFlags};
use std::alloc::Global;

/// Which part of the document counts, without targets.
pub(crate) fn choice(alloc: Global, found: &ArgMatches<'_>) -> Result<Choice, WordsError> {
    let ignored = edges::ignored(alloc, values(found, "edges"), values(found, "ignore-kind"))?;
    let exclusions = specs(alloc, "--exclude <SPEC>", values(found, "exclude"))?;
    let packages = texts(alloc, found, "package")?;
    let triples = texts(alloc, found, "target")?;
    let cfgs = texts(alloc, found, "cfg")?;
    Ok(Choice {
        workspace: found.get_flag("workspace"),
        all_named: found.get_flag("all-named"),
        ignored,
        exclusions,
        packages,
        triples,
        cfgs,
        targets: Vec::new(alloc),
    })
}

/// What the words say of a build.
pub(crate) fn build_words(alloc: Global, found: &ArgMatches<'_>) -> Result<BuildWords, WordsError> {
    let packages = specs(alloc, "--package <SPEC>", values(found, "package"))?;
    let features = texts(alloc, found, "features")?;
    let triples = texts(alloc, found, "target")?;
    let cfgs = texts(alloc, found, "cfg")?;
    let host = text(alloc, found, "host")?;
    let host_cfg = text(alloc, found, "host-cfg")?;
    Ok(BuildWords {
        workspace: found.get_flag("workspace"),
        packages,
        kinds: kinds(found),
        features,
        all_features: found.get_flag("all-features"),
        no_default_features: found.get_flag("no-default-features"),
        triples,
        cfgs,
        host,
        host_cfg,
        resolver: resolver(found.get_str("resolver")),
    })
}

/// Which kinds of targets are asked for.
fn kinds(found: &ArgMatches<'_>) -> TargetFlags {
    TargetFlags {
        lib: found.get_flag("lib"),
        bins: found.get_flag("bins"),
        examples: found.get_flag("examples"),
        tests: found.get_flag("tests"),
        benches: found.get_flag("benches"),
        all: found.get_flag("all-targets"),
    }
}

/// The resolver of this version. `clap` lets no other through.
fn resolver(version: Option<&str>) -> Option<Resolver> {
    match version {
        Some("1") => Some(Resolver::V1),
        Some("2") => Some(Resolver::V2),
        Some("3") => Some(Resolver::V3),
        _ => None,
    }
}

/// The package specifications that these texts are, which this option has.
fn specs(alloc: Global, option: &'static str, texts: &[&str]) -> Result<Vec<PkgSpec>, WordsError> {
    let mut specs = Vec::new(alloc);
    for text in texts {
        specs.push(spec(alloc, option, text)?)?;
    }
    Ok(specs)
}

/// The package specification that a text is.
fn spec(alloc: Global, option: &'static str, text: &str) -> Result<PkgSpec, WordsError> {
    match PkgSpec::from_str(alloc, text) {
        Ok(spec) => Ok(spec),
        Err(Error::InvalidPkgSpec(reason)) => {
            Err(WordsError::invalid(alloc, text, option, reason))
        }
        Err(_) => Err(WordsError::Memory),
    }
}
