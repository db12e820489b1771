//! Long lists that are set of builders and commands, and long texts, as in `large`.

ghost use Rattle.std.specs.Prelude.{◌≡◌, OnOk};

use crate::builds_by_cargo::Count;
use crate::indexed::answer_of;
use crate::large::built;
use crate::real_documents::metadata_of;
use crate::starved_commands::parts;
use krates::cm::{Features, MetadataCommand};
use krates::index::CachingIndex;
use krates::{Builder, Cmd, Kid, Metadata, PackageId};
use krates_samples::large::{large_document, push_features, push_names};
use krates_samples::settings;
use krates_samples::settings::{package_specs, targets_of};
use krates_text::text::Text;
use std::alloc::Global;
use std::test::Fail;

/// The names of many packages, each after this text, with spaces between them.
fn named(alloc: Global, before: &str) -> Result<String, Fail> {
    let mut names = Text::new(alloc);
    push_names(&mut names, before, " ");
    Ok(names.whole()?)
}

/// The same names, each by itself.
fn names(alloc: Global, before: &str) -> Result<Vec<String>, Fail> {
    let names = named(alloc, before)?;
    Ok(parts(alloc, names.as_str().trim_end(), ' ')?)
}

/// Excludes the packages of many names, includes the targets of these names, and makes roots of the crates at many paths, of which none is
/// there, and of the member's.
fn set_lists(builder: &mut Builder, alloc: Global) -> Result<(), Fail>
    ensures index { OnOk result (builder.new.index ≡ builder.old.index) }
{
    let names = named(alloc, "")?;
    builder
        .exclude(package_specs(alloc, names.as_str())?)?
        .include_targets(targets_of(alloc, names.as_str())?)?;
    let names = named(alloc, "/w/")?;
    let paths = settings::words_of(alloc, names.as_str())?;
    builder
        .include_workspace_crates(paths.as_slice())?
        .include_workspace_crates(&["/w/a"])?;
    Ok(())
}

#[test]
fn a_large_setting(rt: HostRuntime) -> Result<(), Fail> {
    let alloc = rt.alloc();
    let json = large_document(alloc)?;
    let mut builder = Builder::new(alloc);
    set_lists(&mut builder, alloc)?;
    let mut count = Count { packages: 0 };
    let krates = built(alloc, builder, json.as_str(), &mut count)?;
    assert_eq!(rt; (krates.len(), count.packages), (2, 2_001));
    Ok(())
}

/// How many words a command has, and how long the longest of them is.
fn sizes(command: &MetadataCommand) -> Result<(usize, usize), Fail> {
    let words = command.args()?;
    let longest = words.iter().map(|word| word.len()).max();
    Ok((words.len(), longest.unwrap_or(0)))
}

/// Requests features of many names, and other options of these names.
fn set_words(cmd: &mut Cmd, alloc: Global) -> Result<(), Fail> {
    cmd.features(names(alloc, "")?)?
        .other_options(names(alloc, "--")?)?;
    Ok(())
}

#[test]
fn large_options(rt: HostRuntime) -> Result<(), Fail> {
    let alloc = rt.alloc();
    let mut cmd = Cmd::new(alloc);
    set_words(&mut cmd, alloc)?;
    let command = cmd.into_command()?;
    assert_eq!(rt; sizes(&command)?, (2_005, 11_999));
    Ok(())
}

/// Requests features of many names, and sets a variable of a long name.
fn set_command(command: &mut MetadataCommand, alloc: Global) -> Result<(), Fail> {
    let long = "x".repeat(alloc, 70_000)?;
    command
        .features(Features::Selected(names(alloc, "")?))?
        .env(long.as_str(), "y")?;
    Ok(())
}

#[test]
fn a_large_command(rt: HostRuntime) -> Result<(), Fail> {
    let alloc = rt.alloc();
    let mut command = MetadataCommand::new(alloc);
    set_command(&mut command, alloc)?;
    assert_eq!(rt; sizes(&command)?, (5, 11_999));
    Ok(())
}

/// The document of a package with the many features.
fn featured(alloc: Global) -> Result<Box<Metadata>, Fail> {
    let mut line = Text::new(alloc);
    line.push_str("p@1.0.0&crates.io;");
    push_features(&mut line);
    metadata_of(alloc, line.whole()?.as_str())
}

#[test]
fn a_large_package(rt: HostRuntime) -> Result<(), Fail> {
    let answer = answer_of(rt.alloc(), "p@1.0.0 std")?;
    let mut metadata = featured(rt.alloc())?;
    let Some(pkg) = metadata.packages.first_mut() else {
        return Err(Fail::new("no package"));
    };
    CachingIndex { answer }.correct(rt.alloc(), pkg)?;
    assert_eq!(rt; pkg.features.len(), 5_002);
    Ok(())
}

#[test]
fn a_large_id(rt: HostRuntime) -> Result<(), Fail> {
    let alloc = rt.alloc();
    let escapes = "%2F".repeat(alloc, 30_000)?;
    let repr = format!(in alloc; "git+https://github.com/a/b?branch={escapes}#0.1.0")?;
    let kid = Kid::try_from(PackageId { repr })?;
    assert_eq!(rt; kid.source().len(), 30_034);
    Ok(())
}
