//! The command line, as `clap` reads it.

use crate::known::{KnownWord, WORDS};
use crate::known_options::{CARGO_OPTIONS, FOR_ANSWERS, Group, KnownOption, Takes};
use crate::rules;
use clap::builder::ValueParser;
use clap::{Arg, ArgAction, Command};
use std::alloc::{AllocError, Global};

static EXPLANATION: &str = "\
Without options it is about what `cargo build` would build here; --by krates answers for the graph of the Rust crate krates.
SPEC names a package as cargo's -p does: serde, serde@1.0.152, or its id.
`cargo krates WORD --help` lists the options of a word.";

/// What `--version` prints behind the name of each program. `scripts/install.sh` changes it in a copy, so that what was compiled without
/// a proof says so.
pub(crate) static VERSION: &str = "0.22.0";

/// What `--ignore-kind` takes.
pub(crate) const KINDS: [&str; 3] = ["normal", "build", "dev"];

/// What `--edges` takes.
pub(crate) const EDGES: [&str; 7] = [
    "normal",
    "build",
    "dev",
    "all",
    "no-normal",
    "no-build",
    "no-dev",
];

/// The command, with its words.
pub(crate) fn command_line<'w>(alloc: Global) -> Result<Command<'w>, AllocError> {
    let words = subcommands(alloc)?;
    program(alloc)?.subcommands(words)
}

/// The words, each a command of its own.
fn subcommands<'w>(alloc: Global) -> Result<Vec<Command<'w>>, AllocError> {
    let mut commands = Vec::new(alloc);
    for word in &WORDS {
        commands.push(word.subcommand(alloc)?)?;
    }
    Ok(commands)
}

/// The command without words.
fn program<'w>(alloc: Global) -> Result<Command<'w>, AllocError> {
    let named = Command::new(alloc, "cargo-krates").bin_name("cargo krates")?;
    Ok(
        named
            .version(VERSION)
            .about("Which crates cargo builds in a workspace, and why")
            .after_help(EXPLANATION)
            .no_binary_name(true)
            .subcommand_required(true)
            .arg_required_else_help(true)
            .subcommand_value_name("WORD")
            .subcommand_help_heading("Words"),
    )
}

impl KnownWord {
    /// The word as a command of its own.
    fn subcommand<'w>(&self, alloc: Global) -> Result<Command<'w>, AllocError> {
        let args = self.args(alloc)?;
        self.command(alloc)?.args(args)
    }

    /// The same without what it takes.
    fn command<'w>(&self, alloc: Global) -> Result<Command<'w>, AllocError> {
        let command = Command::new(alloc, self.name).about(self.about);
        match self.alias {
            Some(alias) => command.visible_alias(alias),
            None => Ok(command),
        }
    }

    /// What it takes, in the order of its help.
    fn args<'w>(&self, alloc: Global) -> Result<Vec<Arg<'w>>, AllocError> {
        let mut args = Vec::new(alloc);
        let own = Group {
            heading: None,
            options: self.own,
        };
        own.push_args(alloc, &mut args)?;
        if self.is_answer {
            push_groups(alloc, &mut args, &FOR_ANSWERS)?;
        }
        Ok(args)
    }
}

/// Adds the options of these groups, in their order.
pub(crate) fn push_groups<'w>(
    alloc: Global,
    args: &mut Vec<Arg<'w>>,
    groups: &[Group],
) -> Result<(), AllocError> {
    for group in groups {
        group.push_args(alloc, args)?;
    }
    Ok(())
}

impl Group {
    /// Adds its options, in their order.
    fn push_args<'w>(&self, alloc: Global, args: &mut Vec<Arg<'w>>) -> Result<(), AllocError> {
        for option in self.options {
            args.push(self.under_heading(option.arg(alloc)?))?;
        }
        Ok(())
    }

    /// The argument under the heading.
    fn under_heading<'w>(&self, arg: Arg<'w>) -> Arg<'w> {
        match self.heading {
            Some(heading) => arg.help_heading(heading),
            None => arg,
        }
    }
}

impl KnownOption {
    /// The option as an argument.
    fn arg<'w>(&self, alloc: Global) -> Result<Arg<'w>, AllocError> {
        let arg = Arg::new(alloc, self.name).help(self.help);
        match self.takes {
            Takes::Argument { is_required } => {
                Ok(arg.action(ArgAction::Set).required(is_required))
            }
            Takes::ArgumentOf(values) => Ok(
                arg.action(ArgAction::Set)
                    .required(true)
                    .value_parser(ValueParser::Names(values))
                    .hide_possible_values(true),
            ),
            Takes::Document => self
                .taking(arg)
                .conflicts_with_all(&CARGO_OPTIONS.map(|option| option.name)),
            _ => Ok(self.taking(arg)),
        }
    }

    /// The argument, as an option that takes what it says.
    fn taking<'w>(&self, arg: Arg<'w>) -> Arg<'w> {
        let arg = self.named(arg);
        match self.takes {
            Takes::Nothing => arg.action(ArgAction::SetTrue),
            Takes::One(value) => one(arg, value),
            Takes::Each(value) => arg.action(ArgAction::Append).value_name(value),
            Takes::OneOf(name, values) => one_of(arg, name, values),
            Takes::Rules => one_of(arg, "RULES", &rules::NAMES).default_value(rules::DEFAULT),
            Takes::Edges => among(arg, "KINDS", &EDGES).value_delimiter(','),
            Takes::Kind => among(arg, "KIND", &KINDS),
            Takes::Number(name) => one(arg, name).value_parser(ValueParser::Unsigned(0, u64::MAX)),
            Takes::Certified => one(arg, "FILE").required(true),
            Takes::Document | Takes::Argument { .. } | Takes::ArgumentOf(_) => one(arg, "FILE"),
        }
    }

    /// The argument, as an option of this name.
    fn named<'w>(&self, arg: Arg<'w>) -> Arg<'w> {
        let arg = arg.long(self.name);
        match self.short {
            Some(short) => arg.short(short),
            None => arg,
        }
    }
}

/// The argument with one value.
fn one<'w>(arg: Arg<'w>, name: &'static str) -> Arg<'w> {
    arg.action(ArgAction::Set).value_name(name)
}

/// The argument with one of these values at each of its uses. Help names them in its own words.
fn among<'w>(arg: Arg<'w>, name: &'static str, values: &'static [&'static str]) -> Arg<'w> {
    one_of(arg, name, values).action(ArgAction::Append)
}

/// The argument with one of these values.
fn one_of<'w>(arg: Arg<'w>, name: &'static str, values: &'static [&'static str]) -> Arg<'w> {
    one(arg, name)
        .value_parser(ValueParser::Names(values))
        .hide_possible_values(true)
}
