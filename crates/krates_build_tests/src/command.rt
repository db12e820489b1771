//! The command: the words that cargo is run with, the command of a tool's options, and what is read from cargo's output.

use crate::starved_commands::parts;
use krates_cargo::{Cmd, Features, LockOptions, MetadataCommand};
use krates_cm::{Error, Metadata};
use krates_samples::stand_in::DOCUMENT;
use krates_samples::table::{Row, Tell, compare, hold, hold_lines};
use krates_text::text::Text;
use std::alloc::{AllocError, Global};
use std::process::Command;
use std::test::Fail;

/// Settings of a command, in order, and, after the refusals of its setters, its variables in the order of their names, its program, its
/// directory and its words.
static COMMANDS: &str = "
 => cargo in none: metadata|--format-version|1
no-deps selected=x,y all no-default manifest=p other=--z => cargo in none: metadata|--format-version|1|--no-deps|--features|x,y|--all-features|--no-default-features|--manifest-path|p|--z
// names are added, other options replaced
selected=x selected=y,x other=--a other=--b,--c => cargo in none: metadata|--format-version|1|--features|x,y,x|--b|--c
all all => features given twice! cargo in none: metadata|--format-version|1|--all-features
no-default all no-default => features given twice! cargo in none: metadata|--format-version|1|--all-features|--no-default-features
no-deps selected=x,y all no-default manifest=p other=--z all => features given twice! cargo in none: metadata|--format-version|1|--no-deps|--features|x,y|--all-features|--no-default-features|--manifest-path|p|--z
// of several values the last counts
cargo=q cargo=p dir=/c dir=/d manifest=a manifest=b => p in /d: metadata|--format-version|1|--manifest-path|b
env=B,1 env=A,2 env=B,3 => A=2 B=3 cargo in none: metadata|--format-version|1
";

/// Settings of a tool's options, in order, and the command that they become: its program, its directory and its words.
static BECOMES: &str = "
 => cargo in none: metadata|--format-version|1
feature=b,a feature=b manifest=x/Other.toml => cargo in x: metadata|--format-version|1|--manifest-path|Cargo.toml|--features|a b
manifest=Cargo.toml dir=/d => cargo in .: metadata|--format-version|1|--manifest-path|Cargo.toml
manifest=/ => manifest path without parent
manifest= => manifest path without parent
dir= => cargo in .: metadata|--format-version|1
no-default all feature=c lock other=--z => cargo in none: metadata|--format-version|1|--no-default-features|--all-features|--features|c|--frozen|--locked|--offline|--z
lock other=--y other=--z no-default all feature=c => cargo in none: metadata|--format-version|1|--no-default-features|--all-features|--features|c|--frozen|--locked|--offline|--y|--z
cargo=p dir=/d => p in /d: metadata|--format-version|1
";

/// Texts, and their first line that begins with `{`.
static JSON_LINES: &[Row] = &[
    ("a\n {\n{}\r\n{", "{}"),
    ("{\n{}", "{"),
    ("x{\n\n {", "none"),
    ("", "none"),
];

/// Texts; or what cargo wrote, to standard output where it succeeded and else to standard error, where `\xff` is a byte that isn't UTF-8;
/// and what is read of that, or the refusal.
static READ: &[Row] = &[
    (DOCUMENT, "2 packages"),
    (
        "{",
        "failed to interpret `cargo metadata`'s json: EOF while parsing at line 1 column 1",
    ),
    (
        r#"{"packages":[],"workspace_members":[],"workspace_root":"/w"}"#,
        "failed to interpret `cargo metadata`'s json: missing key: target_directory",
    ),
    (
        "out: hello\n",
        "could not find any json in the output of `cargo metadata`",
    ),
    (
        "err: no manifest\n",
        "`cargo metadata` exited with an error: no manifest\n",
    ),
    (
        "out: {\n{}",
        "failed to interpret `cargo metadata`'s json: EOF while parsing at line 1 column 1",
    ),
    (
        "out: a warning\n{\"packages\":[],\"workspace_members\":[],\"workspace_root\":\"/w\"}\n",
        "failed to interpret `cargo metadata`'s json: missing key: target_directory",
    ),
    (
        "out: \\xff",
        "cannot convert the stdout of `cargo metadata`: invalid utf-8 sequence of 1 bytes from index 0",
    ),
    (
        "err: \\xff",
        "cannot convert the stderr of `cargo metadata`: invalid utf-8 sequence of 1 bytes from index 0",
    ),
];

/// Sets what a word says.
fn set(alloc: Global, command: &mut MetadataCommand, word: &str) -> Result<(), Error> {
    let (setter, value) = word.split_once('=').unwrap_or((word, ""));
    match setter {
        "no-deps" => {
            command.no_deps();
        }
        "all" => {
            command.features(Features::All)?;
        }
        "no-default" => {
            command.features(Features::NoDefault)?;
        }
        "selected" => {
            command.features(Features::Selected(parts(alloc, value, ',')?))?;
        }
        "env" => {
            let (name, value) = value.split_once(',').unwrap_or((value, ""));
            command.env(name, value)?;
        }
        "other" => {
            command.other_options(parts(alloc, value, ',')?);
        }
        "manifest" => {
            command.manifest_path(String::from_str(alloc, value)?);
        }
        "cargo" => {
            command.cargo_path(String::from_str(alloc, value)?);
        }
        _ => {
            command.current_dir(String::from_str(alloc, value)?);
        }
    }
    Ok(())
}

/// Sets what each word says, and adds why setters refuse some of them.
pub(crate) fn set_all(told: &mut Text, command: &mut MetadataCommand, line: &str) {
    for word in line.split_whitespace() {
        if let Err(error) = set(told.allocator(), command, word) {
            write!(told, "{error}! ");
        }
    }
}

/// Adds the variables of a process, its program and its directory.
fn push_process(text: &mut Text, process: &Command) {
    for (name, value) in process.get_envs() {
        write!(text, "{name}={} ", value.unwrap_or(""));
    }
    let dir = match process.get_current_dir() {
        Some(dir) => dir.as_str(),
        None => "none",
    };
    write!(text, "{} in {dir}: ", process.get_program())
}

/// Adds the variables, the program, the directory and the words of a command.
pub(crate) fn push_command(text: &mut Text, command: &MetadataCommand) -> Result<(), Error> {
    let words = command.args()?;
    let barred = words.as_slice().join(text.allocator(), "|")?;
    let process = command.cargo_command(None)?;
    push_process(text, &process);
    text.push_str(barred.as_str());
    Ok(())
}

/// Adds what is reported of a command. Fails where a copy of it is reported otherwise.
fn push_copied(told: &mut Text, command: &MetadataCommand) -> Result<(), Fail> {
    let mut own = Text::new(told.allocator());
    push_command(&mut own, command)?;
    let mut copied = Text::new(told.allocator());
    push_command(&mut copied, &command.clone()?)?;
    told.push_str(own.as_str());
    compare("the copy", copied.as_str(), own.as_str())
}

/// What is reported of a command with these settings, after the refusals of its setters.
struct OfCommand;

impl Tell for OfCommand {
    fn tell(told: &mut Text, line: &str) -> Result<(), Fail> {
        let mut command = MetadataCommand::new(told.allocator());
        set_all(told, &mut command, line);
        push_copied(told, &command)
    }
}

/// Settings of a command, after a bar and the program that is handed in, if there is one; and the program that it runs.
static PROGRAMS: &str = "
| => cargo
q| => q
|cargo=p => p
// its own before the one that is handed in
q|cargo=p => p
";

/// The program that a command runs.
struct Program;

impl Tell for Program {
    fn tell(told: &mut Text, line: &str) -> Result<(), Fail> {
        let (handed_in, settings) = line.split_once('|').unwrap_or((line, ""));
        let cargo = if handed_in.is_empty() {
            None
        } else {
            Some(handed_in)
        };
        let mut command = MetadataCommand::new(told.allocator());
        set_all(told, &mut command, settings);
        let process = command.cargo_command(cargo)?;
        write!(told, "{}", process.get_program());
        Ok(())
    }
}

/// Sets what a word says.
fn ask(alloc: Global, cmd: &mut Cmd, word: &str) -> Result<(), AllocError> {
    let (setter, value) = word.split_once('=').unwrap_or((word, ""));
    match setter {
        "no-default" => {
            cmd.no_default_features();
        }
        "all" => {
            cmd.all_features();
        }
        "lock" => {
            cmd.lock_opts(LockOptions {
                frozen: true,
                locked: true,
                offline: true,
            });
        }
        "feature" => {
            cmd.features(parts(alloc, value, ',')?)?;
        }
        "other" => {
            cmd.other_options(parts(alloc, value, ',')?)?;
        }
        "cargo" => {
            cmd.cargo_path(String::from_str(alloc, value)?);
        }
        "manifest" => {
            cmd.manifest_path(String::from_str(alloc, value)?);
        }
        _ => {
            cmd.current_dir(String::from_str(alloc, value)?);
        }
    }
    Ok(())
}

/// Sets what each word says.
pub(crate) fn ask_all(alloc: Global, cmd: &mut Cmd, line: &str) -> Result<(), AllocError> {
    for word in line.split_whitespace() {
        ask(alloc, cmd, word)?;
    }
    Ok(())
}

/// Adds what is reported of the command that options become, or why they become none.
fn push_becomes(told: &mut Text, command: &Result<MetadataCommand, Error>) -> Result<(), Fail> {
    match command {
        Ok(command) => push_command(told, command)?,
        Err(error) => write!(told, "{error}"),
    }
    Ok(())
}

/// What is reported of the command that the settings of a tool's options become.
struct OfOptions;

impl Tell for OfOptions {
    fn tell(told: &mut Text, line: &str) -> Result<(), Fail> {
        let mut cmd = Cmd::new(told.allocator());
        ask_all(told.allocator(), &mut cmd, line)?;
        push_becomes(told, &cmd.into_command())
    }
}

/// The first line of a text that begins with `{`.
struct JsonLine;

impl Tell for JsonLine {
    fn tell(told: &mut Text, text: &str) -> Result<(), Fail> {
        told.push_str(MetadataCommand::json_line(text).unwrap_or("none"));
        Ok(())
    }
}

/// Adds how many packages are read, or why nothing is.
pub(crate) fn push_read(told: &mut Text, parsed: Result<Metadata, Error>) {
    match parsed {
        Ok(metadata) => write!(told, "{} packages", metadata.packages.len()),
        Err(error) => write!(told, "{error}"),
    }
}

/// What is read of a text, or of what cargo wrote.
struct Read;

impl Tell for Read {
    fn tell(told: &mut Text, line: &str) -> Result<(), Fail> {
        let alloc = told.allocator();
        let (to, text) = line.split_once(": ").unwrap_or(("", line));
        let bytes = match text {
            "\\xff" => b"\xff",
            _ => text.as_bytes(),
        };
        let parsed = match to {
            "out" => MetadataCommand::interpret(alloc, true, bytes, b""),
            "err" => MetadataCommand::interpret(alloc, false, b"", bytes),
            _ => MetadataCommand::parse(alloc, line),
        };
        push_read(told, parsed);
        Ok(())
    }
}

#[test]
fn commands_options_and_what_is_read(rt: HostRuntime) -> Result<(), Fail> {
    hold_lines::<OfCommand>(rt.alloc(), COMMANDS)?;
    hold_lines::<OfOptions>(rt.alloc(), BECOMES)?;
    hold_lines::<Program>(rt.alloc(), PROGRAMS)?;
    hold::<JsonLine>(rt.alloc(), JSON_LINES)?;
    hold::<Read>(rt.alloc(), READ)
}

#[test]
fn a_copy_of_features_holds_the_same(rt: HostRuntime) -> Result<(), Fail> {
    let features = Features::Selected(parts(rt.alloc(), "x", ',')?);
    let copy = format!(in rt.alloc(); "{:?}", features.clone()?)?;
    compare("x", copy.as_str(), r#"Selected(["x"])"#)
}
