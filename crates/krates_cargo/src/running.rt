//! How cargo is run.

ghost use Rattle.std.specs.Prelude.{◌≡◌, ◌++◌, [], IfOk, IfErr, OnOk, map};
ghost use Rattle.std.specs.Process.{SameDir, SameEnv, SameProgramAndArgs, clears_env, command_args, command_dir, command_program, command_var};
ghost use Rattle.krates_cm.specs.Document.{Text, metadata_view, text_view};
ghost use Rattle.krates_cm.specs.declared.error.Error.TheVariants as errors;
ghost use Rattle.krates_cargo.specs.Command.{variables_view, words};
ghost use Rattle.krates_cargo.specs.Running.{IsSomeAnswer, IsUnrun, SetsJust, program};

use crate::command::MetadataCommand;
use krates_cm::{Error, Metadata};
use std::alloc::AllocError;
use std::collections::BTreeMap;
use std::io;
use std::process::{Command, Processes, Stdio};

impl MetadataCommand {
    /// The process that runs this command: of the program that is set, or the one that is passed, for example from the variable `CARGO`,
    /// or `cargo`; with the words of `args`, in the directory that is set, with the variables that are set added to
    /// those of this process. The only error is `Memory`. Time O(length of the words and variables).
    pub fn cargo_command(&self, cargo: Option<&str>) -> Result<Command, Error>
        ensures program { IfOk result (λ c. command_program c ≡ program self.now.cargo_path cargo.entry) }
        ensures words { IfOk result (λ c. command_args c ≡ words self.now) }
        ensures directory { IfOk result (λ c. command_dir c ≡ self.now.current_dir) }
        ensures variables { IfOk result (SetsJust self.now.variables) }
        ensures refused { IfErr result (λ e. e ≡ errors.Memory) }
    {
        let mut command = Command::new(self.alloc, self.program(cargo))?;
        add_words(&mut command, &self.args()?)?;
        set_variables(&mut command, &self.variables)?;
        if let Some(dir) = &self.current_dir {
            command.current_dir(dir.as_str())?;
        }
        if self.is_verbose {
            command.stderr(Stdio::inherit());
        }
        Ok(command)
    }

    /// The program that is run.
    fn program<'a>(&'a self, cargo: Option<&'a str>) -> &'a str
        ensures { result.now ≡ program self.now.cargo_path cargo.entry }
    {
        match &self.cargo_path {
            Some(path) => path.as_str(),
            None => cargo.unwrap_or("cargo"),
        }
    }

    /// Runs cargo and reads the document that it writes. Standard output is collected, and so is standard error if the command
    /// isn't verbose. The program is the one that is set, or the one that is passed, for example from the variable `CARGO`, or `cargo`.
    ///
    /// It is refused as `Io` if cargo couldn't be run, and otherwise as `interpret` refuses what it wrote. It may
    /// instead return `Memory`. The command can be run again. Time: that of the run, and of `interpret`.
    ///
    /// ```text
    /// let metadata = command.exec(Some("cargo"), rt)?;
    /// ```
    pub fn exec(&self, cargo: Option<&str>, rt: &impl Processes) -> Result<Metadata, Error>
        ensures answer { IfOk result (λ m. IsSomeAnswer (metadata_view m)) }
        ensures refused { IfErr result IsUnrun }
    {
        let output = match self.cargo_command(cargo)?.output(rt) {
            Ok(output) => output,
            Err(cause) => return Err(unrun(cause)),
        };
        MetadataCommand::interpret(
            self.alloc,
            output.status.success(),
            &output.stdout,
            &output.stderr,
        )
    }
}

/// The refusal for a program that couldn't be run.
fn unrun(cause: io::Error) -> Error
    ensures { IsUnrun result }
{
    if cause.kind() == io::ErrorKind::OutOfMemory {
        Error::Memory
    } else {
        Error::Io(cause)
    }
}

/// Adds words to the command.
fn add_words(command: &mut Command, words: &[String]) -> Result<(), AllocError>
    ensures words { OnOk result
        (command_args command.new ≡ command_args command.old ++ map text_view words.now) }
    ensures program { OnOk result (command_program command.new ≡ command_program command.old) }
    ensures environment { OnOk result (SameEnv command.old command.new) }
    ensures directory { OnOk result (SameDir command.old command.new) }
{
    for word in words {
        command.arg(word.as_str())?;
    }
    Ok(())
}

/// Sets variables of a command that sets none.
fn set_variables(
    command: &mut Command,
    variables: &BTreeMap<String, String>,
) -> Result<(), AllocError>
    requires { SetsJust [] command.old }
    ensures variables { OnOk result (SetsJust (variables_view variables.now) command.new) }
    ensures words { OnOk result (SameProgramAndArgs command.old command.new) }
    ensures directory { OnOk result (SameDir command.old command.new) }
{
    for (name, value) in variables {
        command.env(name.as_str(), value.as_str())?;
    }
    Ok(())
}
