//! Files of cargo's configuration, of which a build may have more than its words say.

use crate::failure::Failure;
use crate::inputs::{Inputs, variable};
use krates_shown::Shown;
use std::alloc::AllocError;
use std::{env, fs};

/// The names of such a file in a folder. Cargo reads the first that is there.
static NAMES: [&str; 2] = ["config", "config.toml"];

/// What begins a line of such a file that changes what is built, behind the bracket of a table or `build.` (Cargo Book, "Configuration").
static CHANGING: [&str; 7] = [
    "rustflags",
    "rustc",
    "target",
    "host",
    "env",
    "unstable",
    "include",
];

/// Says of each file of configuration that cargo would read for a build here, and that may change what is built, that it isn't looked at: of those
/// in the folder that this process is run in and in the folders above it, and of the one in cargo's own (Cargo Book, "Configuration", "Hierarchical
/// structure"). It is refused as `Variable`; it may instead return `Memory`. Time O(folders), and O(n) for n bytes of the files.
pub fn note_files(inputs: &Inputs<'_>) -> Result<(), Failure> {
    for file in &files(inputs.shell.rt)? {
        if changes_build(inputs, file.as_str()) {
            inputs.shell.note(format_args!(
                "{}: flags and overrides of cargo's configuration aren't looked at",
                Shown(file.as_str())
            ));
        }
    }
    Ok(())
}

/// Whether a file may change what is built. One that can't be read may.
fn changes_build(inputs: &Inputs<'_>, file: &str) -> bool {
    match inputs.text_in(file) {
        Ok(text) => text.lines().any(changes),
        Err(_) => true,
    }
}

/// Whether a line of such a file may change what is built.
fn changes(line: &str) -> bool {
    let key = line.trim_start().trim_start_matches('[');
    let key = key.strip_prefix("build.").unwrap_or(key);
    !key.starts_with("target-dir") && CHANGING.iter().any(|word| key.starts_with(word))
}

/// The paths of the files of configuration that cargo would read here, from the topmost folder down, and then of the one in cargo's own folder.
fn files(rt: &HostRuntime) -> Result<Vec<String>, Failure> {
    let mut files = Vec::new(rt.alloc());
    // in a folder that can't be named there is nothing to be said
    if let Ok(here) = env::current_dir(rt) {
        push_files(rt, &mut files, here.as_str())?;
    }
    if let Some(home) = cargo_home(rt)? {
        push_file(rt, &mut files, home.as_str())?;
    }
    Ok(files)
}

/// Cargo's own folder.
fn cargo_home(rt: &HostRuntime) -> Result<Option<String>, Failure> {
    if let Some(home) = variable(rt, "CARGO_HOME")? {
        return Ok(Some(home));
    }
    match variable(rt, "HOME")? {
        Some(home) => Ok(Some(format!(in rt.alloc(); "{home}/.cargo")?)),
        None => Ok(None),
    }
}

/// Adds the files of the folders above this one, and of this one.
fn push_files(rt: &HostRuntime, files: &mut Vec<String>, here: &str) -> Result<(), AllocError> {
    for (place, _) in here.match_indices('/') {
        push_file_below(rt, files, here.get(..place).unwrap_or(""))?;
    }
    push_file_below(rt, files, here.trim_end_matches('/'))
}

/// Adds the file for a folder.
fn push_file_below(
    rt: &HostRuntime,
    files: &mut Vec<String>,
    folder: &str,
) -> Result<(), AllocError> {
    let folder = format!(in rt.alloc(); "{folder}/.cargo")?;
    push_file(rt, files, folder.as_str())
}

/// Adds the file in a folder of configuration that cargo reads, if there is one and it isn't among the files yet.
fn push_file(rt: &HostRuntime, files: &mut Vec<String>, folder: &str) -> Result<(), AllocError> {
    for name in &NAMES {
        let file = format!(in rt.alloc(); "{folder}/{name}")?;
        if fs::exists(rt, file.as_str()).unwrap_or(false) {
            return push_new(files, file);
        }
    }
    Ok(())
}

/// Adds a file, unless it is there.
fn push_new(files: &mut Vec<String>, file: String) -> Result<(), AllocError> {
    if !files.contains(&file) {
        files.push(file)?;
    }
    Ok(())
}
