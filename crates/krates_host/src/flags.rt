//! The flags that the environment has for rustc (Cargo Book, "Configuration", "build.rustflags").

ghost use Rattle.std.specs.Prelude.{◌≡◌, ◌++◌, IfOk, OnOk, map, string_bytes};
ghost use Rattle.krates_host.specs.Flags.{encoded_flags, encoded_parts, flags_in};
ghost use Rattle.krates_words.specs.FeatureNames.{word_in};

use crate::failure::Failure;
use crate::inputs::{set_variable, variable};
use std::alloc::{AllocError, Global};

/// The flags that cargo takes of the environment: of `CARGO_ENCODED_RUSTFLAGS` where that is set, and else of `RUSTFLAGS`.
pub(crate) fn of_environment(rt: &HostRuntime) -> Result<Vec<String>, Failure> {
    match set_variable(rt, "CARGO_ENCODED_RUSTFLAGS")? {
        Some(text) => Ok(encoded(rt.alloc(), text.as_str())?),
        None => plain_of_environment(rt),
    }
}

/// The flags of `RUSTFLAGS`.
fn plain_of_environment(rt: &HostRuntime) -> Result<Vec<String>, Failure> {
    match variable(rt, "RUSTFLAGS")? {
        Some(text) => Ok(plain(rt.alloc(), text.as_str())?),
        None => Ok(Vec::new(rt.alloc())),
    }
}

/// The flags in a text of `CARGO_ENCODED_RUSTFLAGS`.
fn encoded(alloc: Global, text: &str) -> Result<Vec<String>, AllocError>
    ensures { IfOk result (λ flags. map string_bytes flags.items ≡ encoded_flags text.now) }
{
    if text.is_empty() {
        Ok(Vec::new(alloc))
    } else {
        between_separators(alloc, text)
    }
}

/// What stands between the unit separators of a text.
fn between_separators(alloc: Global, text: &str) -> Result<Vec<String>, AllocError>
    ensures { IfOk result (λ flags. map string_bytes flags.items ≡ encoded_parts text.now) }
{
    let mut flags = Vec::new(alloc);
    for flag in text.split('\u{1f}') {
        flags.push(String::from_str(alloc, flag)?)?;
    }
    Ok(flags)
}

/// The flags in a text of `RUSTFLAGS`.
fn plain(alloc: Global, text: &str) -> Result<Vec<String>, AllocError>
    ensures { IfOk result (λ flags. map string_bytes flags.items ≡ flags_in text.now) }
{
    let mut flags = Vec::new(alloc);
    for part in text.split(' ') {
        push_flag(&mut flags, part.trim())?;
    }
    Ok(flags)
}

/// Adds a flag, unless it is empty.
fn push_flag(flags: &mut Vec<String>, flag: &str) -> Result<(), AllocError>
    ensures { OnOk result (map string_bytes flags.new.items
        ≡ map string_bytes flags.old.items ++ word_in flag.now) }
{
    if !flag.is_empty() {
        flags.push(String::from_str(*flags.allocator(), flag)?)?;
    }
    Ok(())
}
