//! What a build is asked for: the words, with the resolver and the machines that they don't describe.

ghost use Rattle.std.specs.Prelude.{IfOk};
ghost use Rattle.krates_host.specs.AskedBuild.{IsAskedBy, IsFoundFor};
ghost use Rattle.krates_units.specs.BuildSetting.{build_setting_view};

use crate::failure::Failure;
use crate::inputs::Inputs;
use crate::machines::{DescribedMachine, DescribedMachines, host_of, targets_of};
use crate::resolver::{ResolverSource, resolver_of};
use crate::shell::Shell;
use krates_cm::Metadata;
use krates_shown::Shown;
use krates_text::text::Text;
use krates_units::BuildSetting;
use krates_words::{BuildWords, build_setting_words, resolver_name};
use std::alloc::{AllocError, Global};

/// What a build is asked for, and what says which resolver it has.
#[derive(Debug, Drop)]
pub struct AskedBuild {
    /// What it is asked for.
    pub setting: BuildSetting,
    /// What says which resolver it has.
    pub resolver_source: ResolverSource,
    /// What `rustc --print cfg` prints of its machines: of the one that builds, and then of each that it is for.
    pub cfgs: Vec<String>,
}

/// What a build of a workspace with this document is asked for by these words: what they say, with the resolver of the workspace where they
/// name none, and with the machines as files or rustc describe them. Where the words name no machine that it is for, the build is for the one
/// that builds. It is refused as `resolver_of`, `host_of` and `targets_of` are, in this order; it may instead return `Memory`. Time: theirs.
pub fn build_setting(
    inputs: &Inputs<'_>,
    words: &BuildWords,
    metadata: &Metadata,
) -> Result<AskedBuild, Failure>
    ensures asked { IfOk result (λ build. IsAskedBy words.now (build_setting_view build.setting)) }
    ensures resolver { IfOk result (λ build. IsFoundFor words.now.resolver build.setting.resolver
        build.resolver_source) }
{
    let (resolver, resolver_source) = resolver_of(inputs, words, metadata)?;
    let host = host_of(inputs, words)?;
    let targets = targets_of(inputs, words)?;
    let DescribedMachine { machine, cfg } = host;
    let DescribedMachines { machines, mut cfgs } = targets;
    cfgs.insert(0, cfg)?;
    let setting = words.setting(inputs.alloc(), resolver, machine, machines)?;
    Ok(AskedBuild {
        setting,
        resolver_source,
        cfgs,
    })
}

impl AskedBuild {
    /// Says by which rules an answer is: those of a build, with its resolver and what says so, the machine that builds, the machines that it is for,
    /// and the options that say what else it is asked for. The only error is running out of memory. Time O(length of what it is asked for).
    pub fn note(&self, shell: &Shell<'_>) -> Result<(), Failure> {
        let text = self.note_text(shell.rt.alloc())?;
        shell.note(text);
        Ok(())
    }

    /// Says that the build of the document of before has another resolver, if it has. Time O(1).
    pub fn note_old(&self, shell: &Shell<'_>, old: &AskedBuild) {
        if self.setting.resolver != old.setting.resolver {
            let version = resolver_name(old.setting.resolver);
            let source = source_text(old.resolver_source);
            shell.note(format_args!(
                "by build of the document of before: resolver {version} ({source})"
            ));
        }
    }

    /// The text of the note.
    fn note_text(&self, alloc: Global) -> Result<String, AllocError> {
        let words = build_setting_words(alloc, &self.setting)?;
        let mut text = Text::new(alloc);
        write!(
            text,
            "by build: resolver {} ({}), ",
            resolver_name(self.setting.resolver),
            source_text(self.resolver_source)
        );
        push_machines(&mut text, &self.setting);
        push_options(&mut text, words.get(NAMED..).unwrap_or(&[]));
        text.whole()
    }
}

/// How many of the words that mean a build say its rules, its resolver and the machine that builds, which a note has in its own words.
const NAMED: usize = 3;

/// What says which resolver a build has.
fn source_text(source: ResolverSource) -> &'static str {
    match source {
        ResolverSource::Words => "of --resolver",
        ResolverSource::Manifest => "of Cargo.toml; --resolver sets another",
    }
}

/// Adds which machine builds, and for which.
fn push_machines(text: &mut Text, setting: &BuildSetting) {
    let host = Shown(setting.host.triple());
    if setting.targets.is_empty() {
        write!(text, "built on and for {host}");
        return;
    }
    write!(text, "built on {host} for");
    for (number, target) in setting.targets.iter().enumerate() {
        let before = if number == 0 { " " } else { ", " };
        write!(text, "{before}{}", Shown(target.triple()));
    }
}

/// Adds the options among these words, without the machines.
fn push_options(text: &mut Text, words: &[String]) {
    let mut before = ", with ";
    for word in words {
        if !word.starts_with("--target=") {
            write!(text, "{before}{}", Shown(word.as_str()));
            before = " ";
        }
    }
}
