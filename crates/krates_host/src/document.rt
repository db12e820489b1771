//! The documents: those of cargo, of files and of standard input.

use crate::failure::Failure;
use crate::inputs::{Inputs, STANDARD_INPUT, variable};
use crate::printed::Errors;
use krates_cargo::MetadataCommand;
use krates_cm::{Error, Metadata};
use krates_words::{Asked, CargoWords, Input, Word};
use std::alloc::Global;
use std::process::Output;

static WITHOUT_CARGO: &str = "; install Rust, or read a document by --metadata FILE";

/// The document that is asked about: that of cargo, of a file, or of standard input. It is refused where there is no document. Time: that
/// of cargo, and O(n) in the length of the text.
pub fn document(inputs: &Inputs<'_>, asked: &Asked) -> Result<Metadata, Failure> {
    match &asked.input {
        Input::Cargo => of_cargo(inputs, &asked.cargo),
        Input::File(path) => in_file(inputs, path),
        Input::Stdin => in_standard_input(inputs),
    }
}

/// The document of before, where the word compares with one. It is refused, and takes time, as `document` does.
pub fn old(inputs: &Inputs<'_>, word: &Word) -> Result<Option<Metadata>, Failure> {
    match word {
        Word::Diff { old, .. } if old.as_str() == "-" => Ok(Some(in_standard_input(inputs)?)),
        Word::Diff { old, .. } => Ok(Some(in_file(inputs, old)?)),
        _ => Ok(None),
    }
}

/// The document in a file. It is refused as `Unread`, `TooLong`, `NoText`, `Marked` or `NoDocument`, each with the file; it may instead
/// return `Memory`. Time O(n) in the length of the text.
pub fn in_file(inputs: &Inputs<'_>, path: &str) -> Result<Metadata, Failure> {
    let text = inputs.text_in(path)?;
    parsed(inputs.alloc(), path, text.as_str())
}

/// The document in standard input.
fn in_standard_input(inputs: &Inputs<'_>) -> Result<Metadata, Failure> {
    let text = inputs.text_in_standard_input("a document")?;
    parsed(inputs.alloc(), STANDARD_INPUT, text.as_str())
}

/// The document in the text of this file.
fn parsed(alloc: Global, file: &str, text: &str) -> Result<Metadata, Failure> {
    match MetadataCommand::parse(alloc, text) {
        Ok(document) => Ok(document),
        Err(Error::Memory) => Err(Failure::Memory),
        Err(cause) => Err(Failure::NoDocument {
            file: String::from_str(alloc, file)?,
            cause,
        }),
    }
}

/// The document that cargo writes.
fn of_cargo(inputs: &Inputs<'_>, words: &CargoWords) -> Result<Metadata, Failure> {
    let program = variable(inputs.shell.rt, "CARGO")?;
    let mut command = words
        .command(inputs.alloc())?
        .cargo_command(program.as_deref())?;
    let output = inputs.printed_by(&mut command, WITHOUT_CARGO, Errors::Said)?;
    read(inputs.alloc(), &output)
}

/// The document in what cargo printed.
fn read(alloc: Global, output: &Output) -> Result<Metadata, Failure> {
    if !output.status.success() {
        // it has said why
        return Err(Failure::of_program(alloc, "cargo metadata", output.status, &[])?);
    }
    let found = MetadataCommand::interpret(alloc, true, &output.stdout, &output.stderr);
    Ok(found?)
}
