//! What rustc says of targets.

ghost use Rattle.std.specs.Prelude.{◌≡◌, ◌∷◌, ◌++◌, [], IfOk, None, OnOk, codes, map, string_bytes};
ghost use Rattle.std.specs.Process.{command_args, command_dir, command_program};

use crate::failure::Failure;
use crate::inputs::{Inputs, text_of, variable};
use crate::printed::Errors;
use std::alloc::{AllocError, Global};
use std::process::{Command, Output};

static WITHOUT_RUSTC: &str =
    "; install Rust, set RUSTC to a rustc, or describe the target by --cfg FILE";

/// What `rustc --print cfg` prints for a target, under these flags. One that rustc doesn't know is refused with the reason that it gives.
pub(crate) fn description(
    inputs: &Inputs<'_>,
    triple: &str,
    flags: &[String],
) -> Result<String, Failure> {
    let rustc = program(inputs.shell.rt)?;
    description_by(inputs, rustc.as_str(), triple, flags)
}

/// What this rustc prints for a target, under these flags.
fn description_by(
    inputs: &Inputs<'_>,
    rustc: &str,
    triple: &str,
    flags: &[String],
) -> Result<String, Failure> {
    let mut command = description_command(inputs.alloc(), rustc, triple, flags)?;
    let output = inputs.printed_by(&mut command, WITHOUT_RUSTC, Errors::Kept)?;
    if output.status.success() {
        text_of(inputs.alloc(), rustc, output.stdout)
    } else {
        Err(refusal(inputs.alloc(), rustc, triple, &output)?)
    }
}

/// The triple of the machine for which rustc itself is built.
pub(crate) fn host(inputs: &Inputs<'_>) -> Result<String, Failure> {
    let rustc = program(inputs.shell.rt)?;
    let text = version(inputs, rustc.as_str())?;
    host_in(inputs.alloc(), rustc.as_str(), text.as_str())
}

/// What this rustc prints about itself.
fn version(inputs: &Inputs<'_>, rustc: &str) -> Result<String, Failure> {
    let mut command = version_command(inputs.alloc(), rustc)?;
    let output = inputs.printed_by(&mut command, WITHOUT_RUSTC, Errors::Kept)?;
    if output.status.success() {
        text_of(inputs.alloc(), rustc, output.stdout)
    } else {
        Err(Failure::of_program(inputs.alloc(), rustc, output.status, &output.stderr)?)
    }
}

/// The triple in what this rustc prints about itself.
fn host_in(alloc: Global, rustc: &str, text: &str) -> Result<String, Failure> {
    match text.lines().find_map(|line| line.strip_prefix("host: ")) {
        Some(triple) => Ok(String::from_str(alloc, triple)?),
        None => Err(Failure::NoHost {
            program: String::from_str(alloc, rustc)?,
        }),
    }
}

/// The program that is run as rustc.
fn program(rt: &HostRuntime) -> Result<String, Failure> {
    match variable(rt, "RUSTC")? {
        Some(program) => Ok(program),
        None => Ok(String::from_str(rt.alloc(), "rustc")?),
    }
}

/// The question how rustc describes a target under flags. The triple stands in one word with its option, so that rustc takes it for nothing
/// else: a word that begins with `@` would be a file of words (rustc book, "Command-line Arguments", "@path"). The flags are passed as they
/// are, as cargo passes them.
fn description_command(
    alloc: Global,
    program: &str,
    triple: &str,
    flags: &[String],
) -> Result<Command, AllocError>
    ensures program { IfOk result (λ c. command_program c ≡ program.now) }
    ensures words { IfOk result (λ c. command_args c ≡ codes "--print" ∷ codes "cfg"
        ∷ (codes "--target=" ++ triple.now) ∷ map string_bytes flags.now) }
    ensures here { IfOk result (λ c. command_dir c ≡ None) }
{
    let target = format!(in alloc; "--target={triple}")?;
    let mut command = Command::new(alloc, program)?;
    command.arg("--print")?;
    command.arg("cfg")?;
    command.arg(target.as_str())?;
    add_flags(&mut command, flags)?;
    Ok(command)
}

/// Adds flags, each as a word of its own.
fn add_flags(command: &mut Command, flags: &[String]) -> Result<(), AllocError>
    ensures program { OnOk result (command_program command.new ≡ command_program command.old) }
    ensures words { OnOk result
        (command_args command.new ≡ command_args command.old ++ map string_bytes flags.now) }
    ensures here { OnOk result (command_dir command.new ≡ command_dir command.old) }
{
    for flag in flags {
        command.arg(flag.as_str())?;
    }
    Ok(())
}

/// The question which rustc it is.
fn version_command(alloc: Global, program: &str) -> Result<Command, AllocError>
    ensures program { IfOk result (λ c. command_program c ≡ program.now) }
    ensures words { IfOk result (λ c. command_args c ≡ codes "-vV" ∷ []) }
    ensures here { IfOk result (λ c. command_dir c ≡ None) }
{
    let mut command = Command::new(alloc, program)?;
    command.arg("-vV")?;
    Ok(command)
}

/// Why rustc didn't describe a target: it doesn't know it, as its first error says; or it failed in another way.
fn refusal(
    alloc: Global,
    program: &str,
    triple: &str,
    output: &Output,
) -> Result<Failure, AllocError> {
    match (output.status.code(), first_error(&output.stderr)) {
        (Some(_), Some(reason)) => Ok(Failure::UnknownTarget {
            triple: String::from_str(alloc, triple)?,
            reason: String::from_str(alloc, reason)?,
        }),
        _ => Failure::of_program(alloc, program, output.status, &output.stderr),
    }
}

/// The first line that begins with `error: `, without that.
fn first_error(errors: &[u8]) -> Option<&str> {
    let errors = str::from_utf8(errors).unwrap_or("");
    errors.lines().find_map(|line| line.strip_prefix("error: "))
}
