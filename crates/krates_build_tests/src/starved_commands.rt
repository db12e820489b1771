//! Commands: what grows in them, their words, and the command that a tool's options mean.

use crate::command::{ask_all, push_command, set_all};
use krates_cargo::{Cmd, Features, MetadataCommand};
use krates_cm::Error;
use krates_samples::starving::{Call, granted, other_refusal, refused, starved};
use krates_text::text::Text;
use std::alloc::{AllocError, Global};
use std::mem::replace;
use std::test::Fail;

/// Names for which a list that has one has to grow.
static MORE: &str = "b,c,d,e,f,g,h,i,j";

/// The texts between these characters.
pub(crate) fn parts(alloc: Global, text: &str, between: char) -> Result<Vec<String>, AllocError> {
    let mut parts = Vec::new(alloc);
    for part in text.split(between) {
        parts.push(String::from_str(alloc, part)?)?;
    }
    Ok(parts)
}

/// Compares what is reported of a command with what is known.
fn is_told(alloc: Global, command: &MetadataCommand, expected: &str) -> Result<bool, Fail> {
    let mut text = Text::new(alloc);
    push_command(&mut text, command)?;
    Ok(text.whole()?.as_str() == expected)
}

/// A call on a command that has a feature, a variable and other settings.
#[derive(Debug)]
enum OfCommand {
    Features,
    Env,
    Args,
}

/// All calls on the command.
static OF_COMMAND: &[OfCommand] = &[OfCommand::Features, OfCommand::Env, OfCommand::Args];

/// The words of the command.
const WORDS: &str = "metadata|--format-version|1|--no-deps|--features|a|--manifest-path|p|--z";

/// What is reported of the command.
const COMMAND: &str =
    "A=1 cargo in none: metadata|--format-version|1|--no-deps|--features|a|--manifest-path|p|--z";

/// The command, and features to be chosen.
#[derive(Drop)]
struct Named {
    command: MetadataCommand,
    names: Vec<String>,
}

impl Call for OfCommand {
    type Given = Named;

    type Answer = Result<Option<Vec<String>>, Error>;

    fn given(&self, alloc: Global) -> Result<Named, Fail> {
        let names = parts(alloc, MORE, ',')?;
        let mut command = MetadataCommand::new(alloc);
        let settings = "no-deps manifest=p other=--z selected=a env=A,1";
        set_all(&mut Text::new(alloc), &mut command, settings);
        Ok(Named { command, names })
    }

    fn answer(&self, alloc: Global, given: &mut Named) -> Result<Option<Vec<String>>, Error> {
        match self {
            OfCommand::Features => {
                let names = replace(&mut given.names, Vec::new(alloc));
                given.command.features(Features::Selected(names))?;
            }
            OfCommand::Env => {
                given.command.env("B", "2")?;
            }
            OfCommand::Args => return Ok(Some(given.command.args()?)),
        }
        Ok(None)
    }

    fn is_granted(
        &self,
        alloc: Global,
        given: &mut Named,
        answer: &Result<Option<Vec<String>>, Error>,
    ) -> Result<bool, Fail> {
        let ample = match self {
            OfCommand::Features => {
                "A=1 cargo in none: metadata|--format-version|1|--no-deps|--features|a,b,c,d,e,f,g,h,i,j|--manifest-path|p|--z"
            }
            _ => {
                "A=1 B=2 cargo in none: metadata|--format-version|1|--no-deps|--features|a|--manifest-path|p|--z"
            }
        };
        match answer {
            Ok(None) => granted(is_told(alloc, &given.command, ample)?),
            Ok(Some(words)) => granted(words.as_slice().join(alloc, "|")?.as_str() == WORDS),
            Err(Error::Memory) => refused(is_told(alloc, &given.command, COMMAND)?),
            Err(_) => other_refusal(),
        }
    }
}

#[test]
fn calls_on_a_command(rt: HostRuntime) -> Result<(), Fail> {
    starved(&rt, OF_COMMAND)
}

/// A call on a tool's options that have one name of each list, and other settings.
#[derive(Debug)]
enum OfOptions {
    Features,
    OtherOptions,
    IntoCommand,
}

/// All calls on the options.
static OF_OPTIONS: &[OfOptions] = &[
    OfOptions::Features,
    OfOptions::OtherOptions,
    OfOptions::IntoCommand,
];

/// What is reported of the command that the options mean.
static OPTIONS: &str =
    "cargo in x: metadata|--format-version|1|--manifest-path|Cargo.toml|--all-features|--features|a|--a";

/// A tool's options, and more names.
#[derive(Drop)]
struct Options {
    cmd: Cmd,
    names: Vec<String>,
}

/// Compares what is reported of the command that the options mean with what is known.
fn means(alloc: Global, given: &mut Options, expected: &str) -> Result<bool, Fail> {
    let cmd = replace(&mut given.cmd, Cmd::new(alloc));
    let command = cmd.into_command()?;
    is_told(alloc, &command, expected)
}

impl Call for OfOptions {
    type Given = Options;

    type Answer = Result<Option<MetadataCommand>, Error>;

    fn given(&self, alloc: Global) -> Result<Options, Fail> {
        let names = parts(alloc, MORE, ',')?;
        let mut cmd = Cmd::new(alloc);
        let settings = "feature=a other=--a all manifest=x/Cargo.toml";
        ask_all(alloc, &mut cmd, settings)?;
        Ok(Options { cmd, names })
    }

    fn answer(&self, alloc: Global, given: &mut Options) -> Result<Option<MetadataCommand>, Error> {
        match self {
            OfOptions::Features => {
                let names = replace(&mut given.names, Vec::new(alloc));
                given.cmd.features(names)?;
            }
            OfOptions::OtherOptions => {
                let names = replace(&mut given.names, Vec::new(alloc));
                given.cmd.other_options(names)?;
            }
            OfOptions::IntoCommand => {
                let cmd = replace(&mut given.cmd, Cmd::new(alloc));
                return Ok(Some(cmd.into_command()?));
            }
        }
        Ok(None)
    }

    fn is_granted(
        &self,
        alloc: Global,
        given: &mut Options,
        answer: &Result<Option<MetadataCommand>, Error>,
    ) -> Result<bool, Fail> {
        let ample = match self {
            OfOptions::Features => {
                "cargo in x: metadata|--format-version|1|--manifest-path|Cargo.toml|--all-features|--features|a b c d e f g h i j|--a"
            }
            _ => {
                "cargo in x: metadata|--format-version|1|--manifest-path|Cargo.toml|--all-features|--features|a|--a|b|c|d|e|f|g|h|i|j"
            }
        };
        match answer {
            Ok(None) => granted(means(alloc, given, ample)?),
            Ok(Some(command)) => granted(is_told(alloc, command, OPTIONS)?),
            Err(Error::Memory) if matches!(self, OfOptions::IntoCommand) => refused(true),
            Err(Error::Memory) => refused(means(alloc, given, OPTIONS)?),
            Err(_) => other_refusal(),
        }
    }
}

#[test]
fn calls_on_options(rt: HostRuntime) -> Result<(), Fail> {
    starved(&rt, OF_OPTIONS)
}
