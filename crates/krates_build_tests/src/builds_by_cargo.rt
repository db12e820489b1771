//! Builds from the document that a substitute for cargo writes.

ghost use Rattle.std.specs.Prelude.{⊤};

use crate::builders::builder_of;
use crate::building::push_count;
use crate::stand_in::command;
use crate::table::{Question, hold_runs};
use krates::cm::MetadataCommand;
use krates::{Error, Krates, OnFilter, Package};
use krates_samples::table::Row;
use krates_text::text::Text;
use std::test::Fail;

/// Counts the packages that aren't kept.
#[derive(Drop)]
pub(crate) struct Count {
    pub(crate) packages: u32,
}

impl OnFilter for Count {
    ghost filters = { λ _ _ _. ⊤ };

    fn filtered(&mut self, pkg: Package) {
        self.packages = self.packages.saturating_add(1);
        drop(pkg);
    }
}

/// The last word of a run of cargo, with `/ ignore dev` after it where the build ignores what is needed for tests, and the answer
/// of that build, after how many packages the filter was handed. Where it is ignored, a build that isn't refused reports one.
static BUILDS: &[Row] = &[
    ("x", "0 reported, 2 kept"),
    ("x / ignore dev", "1 reported, 1 kept"),
    (
        "--fake=fail / ignore dev",
        "0 reported, `cargo metadata` exited with an error: no manifest\n",
    ),
    (
        "--fake=badout / ignore dev",
        "0 reported, cannot convert the stdout of `cargo metadata`: invalid utf-8 sequence of 1 bytes from index 0",
    ),
    (
        "--fake=baderr / ignore dev",
        "0 reported, cannot convert the stderr of `cargo metadata`: invalid utf-8 sequence of 1 bytes from index 0",
    ),
    (
        "--fake=nojson / ignore dev",
        "0 reported, could not find any json in the output of `cargo metadata`",
    ),
    // a program that isn't there: after the colon the operating system's words
    (
        "/no/such/program / ignore dev",
        "0 reported, failed to start `cargo metadata`: No such file or directory (os error 2)",
    ),
];

/// The command with this last word, or with this program.
fn command_of(rt: &HostRuntime, last: &str) -> Result<MetadataCommand, Fail> {
    let mut command = command(rt, last)?;
    if last.starts_with('/') {
        command.cargo_path(String::from_str(rt.alloc(), last)?);
    }
    Ok(command)
}

/// The answer of a build by a command with this last word, or with this program, under the setting after it.
struct Built;

impl Question for Built {
    fn tell(told: &mut Text, rt: &HostRuntime, line: &str) -> Result<(), Fail> {
        let (last, _) = line.split_once(" / ").unwrap_or((line, ""));
        let builder = builder_of(rt.alloc(), line)?;
        let command = command_of(rt, last)?;
        let mut count = Count { packages: 0 };
        let built: Result<Krates, Error> = builder.build(command, None, rt, &mut count);
        write!(told, "{} reported, ", count.packages);
        push_count(told, &built);
        Ok(())
    }
}

#[test]
fn builds(rt: HostRuntime) -> Result<(), Fail> {
    hold_runs::<Built>(&rt, BUILDS)
}
