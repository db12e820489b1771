//! The targets of a run, each with its features.

use crate::failure::Failure;
use crate::inputs::Inputs;
use crate::rustc;
use krates_text::target::{Target, TargetInfo, builtin};
use krates_words::Choice;
use std::alloc::{AllocError, Global};

/// The targets that are chosen, in their order. One that is neither in the table nor described by a file is described by rustc; one that rustc
/// doesn't know is refused by its name. Time: that of running rustc for each of these.
pub fn targets_of(
    inputs: &Inputs<'_>,
    choice: &Choice,
) -> Result<Vec<(Target, Vec<String>)>, Failure> {
    let mut targets = Vec::new(inputs.alloc());
    for (place, triple) in choice.triples.iter().enumerate() {
        targets.push(target_of(inputs, triple, choice.cfgs.get(place))?)?;
    }
    Ok(targets)
}

/// The target of a triple: as a file describes it where there is one, else as the table has it, or as rustc describes it.
fn target_of(
    inputs: &Inputs<'_>,
    triple: &str,
    file: Option<&String>,
) -> Result<(Target, Vec<String>), Failure> {
    if let Some(file) = file {
        return in_file(inputs, triple, file.as_str());
    }
    let target = Target::new(inputs.alloc(), triple)?;
    if target.is_known() {
        return Ok((target, Vec::new(inputs.alloc())));
    }
    by_rustc(inputs, triple)
}

/// The target as rustc describes it.
fn by_rustc(inputs: &Inputs<'_>, triple: &str) -> Result<(Target, Vec<String>), Failure> {
    let text = rustc::description(inputs, triple, &[])?;
    let (info, features) = printed(inputs.alloc(), triple, text.as_str())?;
    Ok((Target::Builtin(info), features))
}

/// What rustc printed of a target, which it may not describe.
pub(crate) fn printed(
    alloc: Global,
    triple: &str,
    text: &str,
) -> Result<(TargetInfo, Vec<String>), Failure> {
    let (info, features) = TargetInfo::from_rustc(alloc, triple, text)?;
    if info.arch.is_empty() {
        return Err(Failure::UnknownTarget {
            triple: info.triple,
            reason: String::from_str(alloc, "rustc doesn't describe it")?,
        });
    }
    Ok((info, features))
}

/// The target as a file describes it.
fn in_file(
    inputs: &Inputs<'_>,
    triple: &str,
    file: &str,
) -> Result<(Target, Vec<String>), Failure> {
    let text = inputs.text_in(file)?;
    let (info, features) = written(inputs.alloc(), triple, file, text.as_str())?;
    Ok((Target::Builtin(info), features))
}

/// What a file with this text says of a target, which may be another one.
pub(crate) fn written(
    alloc: Global,
    triple: &str,
    file: &str,
    text: &str,
) -> Result<(TargetInfo, Vec<String>), Failure> {
    let (info, features) = TargetInfo::from_rustc(alloc, triple, text)?;
    if !describes(alloc, triple, &info)? {
        return Err(Failure::NoDescription {
            file: String::from_str(alloc, file)?,
            triple: info.triple,
        });
    }
    Ok((info, features))
}

/// Whether this describes a target, and not another one where the table has that of the triple.
fn describes(alloc: Global, triple: &str, info: &TargetInfo) -> Result<bool, AllocError> {
    if info.arch.is_empty() {
        return Ok(false);
    }
    match builtin(alloc, triple)? {
        Some(known) => Ok(known.arch == info.arch && known.os == info.os),
        None => Ok(true),
    }
}
