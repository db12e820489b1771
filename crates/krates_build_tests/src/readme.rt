//! The examples of the README and the guide, which the gate compares with this file, and what they answer.

use crate::lists::{Ask, Given, OfLine};
use krates::cm::MetadataCommand;
use krates::derive::{CheckError, Derivation, Fact, Step, check, check_closed};
use krates::{Builder, Cmd, Error, Kid, Krates, Metadata, NoneFilter};
use krates_samples::documents::kid_of;
use krates_samples::table::hold_lines;
use krates_text::text::Text;
use std::alloc::{AllocError, Global};
use std::test::Fail;

/// Whether one step shows that a crate is kept: that it is a root.
fn shown(
    alloc: Global,
    metadata: &Metadata,
    builder: &Builder,
    krate: Kid,
) -> Result<&'static str, AllocError> {
    let fact = Fact::Crate(krate);
    let uses = Vec::new(alloc);
    let steps = vec![in alloc;
        Step {
            rule: 1,
            fact,
            uses
        },
    ]?;
    match check(metadata, builder, None, &Derivation { steps }) {
        Ok(()) => Ok("it is kept, since it is a root"),
        Err(CheckError::Memory) => Err(AllocError),
        Err(_) => Ok("that it is a root doesn't follow"),
    }
}

/// Whether nothing but this crate can be reached, in a document that can be resolved.
fn bounded(
    alloc: Global,
    metadata: &Metadata,
    builder: &Builder,
    only: Kid,
) -> Result<&'static str, AllocError> {
    let facts = vec![in alloc; Fact::Crate(only)]?;
    match check_closed(metadata, builder, None, &facts) {
        Ok(()) => Ok("nothing else can be reached"),
        Err(CheckError::Memory) => Err(AllocError),
        Err(_) => Ok("something else follows"),
    }
}

/// What the example reports of the document and the builder of a line.
struct Example;

impl Ask for Example {
    type Set = Builder;

    fn push(told: &mut Text, given: &Given<'_, Builder>, _: &str) -> Result<(), Fail> {
        let alloc = given.alloc;
        let shown = shown(alloc, given.metadata, given.set, kid_of(alloc, "a")?)?;
        let bounded = bounded(alloc, given.metadata, given.set, kid_of(alloc, "a")?)?;
        write!(told, "{shown}; {bounded}");
        Ok(())
    }
}

static TOLD: &str = "
a b&dev|b => it is kept, since it is a root; something else follows
a b&dev|b / ignore dev => it is kept, since it is a root; nothing else can be reached
a b&dev|b / members b => that it is a root doesn't follow; something else follows
";

#[test]
fn the_example_of_the_readme(rt: HostRuntime) -> Result<(), Fail> {
    hold_lines::<OfLine<Example>>(rt.alloc(), TOLD)
}

/// The packages that the workspace of a manifest needs, with all its features, one a line.
fn needed(rt: &HostRuntime, cargo: &str, manifest: &str) -> Result<String, Error> {
    let alloc = rt.alloc();
    let mut cmd = Cmd::new(alloc);
    cmd.manifest_path(String::from_str(alloc, manifest)?)
        .all_features();
    let command = cmd.into_command()?;
    let krates: Krates = Builder::new(alloc).build(command, Some(cargo), rt, &mut NoneFilter)?;
    let mut lines = String::new(alloc);
    for pkg in krates.krates() {
        lines.push_str(format!(in alloc; "{} {}\n", pkg.name, pkg.version)?.as_str())?;
    }
    Ok(lines)
}

fn main(rt: HostRuntime) -> Result<(), anyhow::Error> {
    let lines = needed(&rt, "cargo", "Cargo.toml")?;
    print!(rt; "{lines}")?;
    Ok(())
}

/// The number of members of the workspace in a directory, by a command with settings of its own.
fn members(rt: &HostRuntime, cargo: &str, directory: &str) -> Result<usize, Error> {
    let alloc = rt.alloc();
    let mut command = MetadataCommand::new(alloc);
    command
        .no_deps()
        .current_dir(String::from_str(alloc, directory)?);
    command.env("RUSTC", "rustc")?;
    Ok(command.exec(Some(cargo), rt)?.workspace_members.len())
}

#[test]
fn packages_of_a_workspace(rt: HostRuntime) -> Result<(), Fail> {
    let cargo = std::env::current_exe(&rt)?;
    let lines = needed(&rt, cargo.as_str(), "Cargo.toml")?;
    assert_eq!(rt; lines.as_str(), "a 0.1.0\nb 0.1.0\n");
    Ok(())
}

#[test]
fn no_packages_of_no_workspace(rt: HostRuntime) -> Result<(), Fail> {
    match main(rt) {
        Ok(()) => Err(Fail::new("packages were found without a workspace")),
        Err(_) => Ok(()),
    }
}

#[test]
fn members_of_a_workspace(rt: HostRuntime) -> Result<(), Fail> {
    let cargo = std::env::current_exe(&rt)?;
    assert_eq!(rt; members(&rt, cargo.as_str(), ".")?, 1);
    Ok(())
}
