//! What is read from cargo's output.

ghost use Rattle.std.specs.Prelude.{◌≡◌, [], IfOk, IfErr, false};
ghost use Rattle.std.specs.Option.{option_map};
ghost use Rattle.krates_cm.specs.Document.{metadata_view};
ghost use Rattle.krates_cargo.specs.Output.{IsAnswer, IsNoAnswer};
ghost use Rattle.krates_text.specs.JsonLine.{json_line};

use crate::command::MetadataCommand;
use krates_cm::{Error, Metadata};
use krates_text::json_line::first_object_line;
use std::alloc::Global;

impl MetadataCommand {
    /// The first line that begins with `{`, without the `\n` or `\r\n` that ends it. Cargo may write warnings before
    /// it. Time O(length).
    ///
    /// ```text
    /// let line = MetadataCommand::json_line("a warning\n{}\n");
    /// ```
    pub fn json_line(output: &str) -> Option<&str>
        ensures { option_map (λ line. line.now) result ≡ json_line output.now }
    {
        first_object_line(output)
    }

    /// The metadata in what cargo wrote, given whether cargo succeeded.
    ///
    /// If it failed, this is refused as `CargoMetadata` with what it wrote to standard error, or as `ErrUtf8` if that isn't UTF-8.
    /// If it succeeded, this is refused as `Utf8` if standard output isn't UTF-8, and as `NoJson` if no line of it begins with
    /// `{`; otherwise it returns what `parse` returns for the first such line. It may instead return `Memory`. Time O(length of what was written), and
    /// the time of `parse`.
    pub fn interpret(
        alloc: Global,
        success: bool,
        stdout: &[u8],
        stderr: &[u8],
    ) -> Result<Metadata, Error>
        ensures answer { IfOk result (λ m. IsAnswer success stdout.now (metadata_view m)) }
        ensures refused { IfErr result (IsNoAnswer success stdout.now stderr.now) }
    {
        if !success {
            return Err(failure(alloc, stderr));
        }
        let output = str::from_utf8(stdout)?;
        let Some(line) = MetadataCommand::json_line(output) else {
            return Err(Error::NoJson);
        };
        MetadataCommand::parse(alloc, line)
    }
}

/// The refusal for a cargo that failed and wrote this to standard error.
fn failure(alloc: Global, stderr: &[u8]) -> Error
    ensures { IsNoAnswer false [] stderr.now result }
{
    let text = match str::from_utf8(stderr) {
        Ok(text) => text,
        Err(cause) => return Error::ErrUtf8(cause),
    };
    match String::from_str(alloc, text) {
        Ok(stderr) => Error::CargoMetadata { stderr },
        Err(_) => Error::Memory,
    }
}
