//! Answers about what cargo builds for a small document.

use crate::builds::{Told, name_of, push_platform, setting_of};
use crate::of_build::{
    OfBuild, OfDerived, OfUnits, ToldOfBuild, ToldOfDerived, ToldOfUnits, push_admitted,
};
use krates_build_answers::{
    BuildLink, BuildUse, BuiltCrate, BuiltCrates, UsedCrate, build_links, build_uses, built_twice,
    is_unbuilt, link_positions,
};
use krates_build_facts::BuildFact;
use krates_built::{Units, units_of};
use krates_cm::Metadata;
use krates_grounding::Derived;
use krates_questions::Document;
use krates_rules::DepKind;
use krates_samples::table::{Tell, hold_lines};
use krates_samples::targets::document_of;
use krates_text::text::Text;
use krates_units::{BuildSetting, Side};
use std::alloc::{AllocError, Global};
use std::test::Fail;

/// A document and what is asked for, as in `builds`; and the crates that are built, each with what for, which of them need which, at which
/// positions, and those that are built twice with different features.
static BUILT: &str = "
// what a build script needs is needed by what its crate is built for
a b&build c|b|c;f= / targets a:bin,custom-build b:lib c:lib / build 2 target=windows features=c/f => a@host, a@windows, b@host, c@windows, | a@windows>b@host build, a@windows>c@windows, | 1>2, 1>3, | $
// for each machine
a b|b / targets a:bin b:lib / build 2 target=linux target=windows => a@linux, a@windows, b@linux, b@windows, | a@linux>b@linux, a@windows>b@windows, | 0>2, 1>3, | $
// a build script that is run for what is on the host, with the features of that side alone
a b m|m b&with=f|b c?&build;f=dep:c|c / targets a:bin m:proc-macro b:lib,custom-build c:lib / build 2 => a@linux, b@host, b@linux, c@host, m@host, | a@linux>b@linux, a@linux>m@host, b@host>c@host build, m@host>b@host, | 0>2, 0>4, 1>3, 4>1, | b, $
// by the first resolver features are one set
a b m|m b&with=f|b c?&build;f=dep:c|c / targets a:bin m:proc-macro b:lib,custom-build c:lib / build 1 => a@linux, b@host, b@linux, c@host, m@host, | a@linux>b@linux, a@linux>m@host, b@host>c@host build, b@linux>c@host build, m@host>b@host, | 0>2, 0>4, 1>3, 2>3, 4>1, | $
// a library and the build script of its own crate are no links
a / targets a:lib,bin,custom-build / build 2 => a@host, a@linux, | | | $
";

/// The same build as it is asked for, and what each crate is used for that it builds with all targets; and the crates that it doesn't build as it
/// is asked for.
static USES: &str = "
a b&build c d&dev|b|c|d|e / targets a:bin,custom-build,test b:lib c:lib d:lib e:lib / build 2 => a shipped, b build, c shipped, d tests, | d, e, $
a b&on=cfg(windows)|b / targets a:bin b:lib / build 2 => a shipped, | b, $
// what is built for both is shipped
a b b&build|b / nodes a b&normal&build|b / targets a:bin,custom-build b:lib / build 2 => a shipped, b shipped, | $
";

/// A document and what is asked for, as in `builds`; and of each crate that is built, for which sides it is built, what this build alone says it
/// is used for, and where its feature `f` is enabled and its dependencies `c` are turned on: `^` says that this is on the host's side.
static SIDES: &str = "
a b m|m b&with=f|b c?&build;f=dep:c|c / targets a:bin m:proc-macro b:lib,custom-build c:lib / build 2 => a targets shipped, b targets host shipped f^ c^, c host build, m host build, $
";

/// Writes a crate and what it is built for.
fn push_crate(told: &mut Text, of: Told<'_, '_>, place: BuiltCrate) {
    told.push_str(name_of(of.document, place.krate));
    push_platform(told, of, place.platform);
}

/// Writes the crates that are built, with `?` where one isn't found by itself.
fn push_crates(told: &mut Text, of: Told<'_, '_>, built: &BuiltCrates) {
    for place in built.as_slice() {
        push_crate(told, of, *place);
        if built.position(*place).is_none() || !built.is_built(place.krate) {
            told.push_str("?");
        }
        told.push_str(", ");
    }
    told.push_str("| ");
}

/// Writes a link.
fn push_link(told: &mut Text, of: Told<'_, '_>, link: &BuildLink) {
    push_crate(told, of, link.from);
    told.push_str(">");
    push_crate(told, of, link.to);
    if link.kind != DepKind::Normal {
        write!(told, " {}", link.kind);
    }
    told.push_str(", ");
}

/// Writes the names of these crates.
fn push_names(told: &mut Text, of: Told<'_, '_>, krates: &[usize]) {
    for krate in krates {
        write!(told, "{}, ", name_of(of.document, *krate));
    }
}

/// Writes the positions at the ends of links.
fn push_positions(told: &mut Text, pairs: &[(usize, usize)]) {
    for (from, to) in pairs {
        write!(told, "{from}>{to}, ");
    }
    told.push_str("| ");
}

/// Writes the links, and their positions.
fn push_links(
    told: &mut Text,
    of: Told<'_, '_>,
    units: &Units<'_>,
    built: &BuiltCrates,
) -> Result<(), AllocError> {
    let alloc = told.allocator();
    let links = build_links(alloc, units)?;
    for link in &links {
        push_link(told, of, link);
    }
    told.push_str("| ");
    let pairs = link_positions(alloc, built, &links)?;
    push_positions(told, &pairs);
    Ok(())
}

/// What is built.
struct Built;

impl ToldOfUnits for Built {
    fn push(told: &mut Text, of: Told<'_, '_>, units: &Units<'_>) -> Result<(), AllocError> {
        let alloc = told.allocator();
        let built = BuiltCrates::of(alloc, units)?;
        push_crates(told, of, &built);
        push_links(told, of, units, &built)?;
        let twice = built_twice(alloc, units)?;
        push_names(told, of, &twice);
        Ok(())
    }
}

/// Writes a word, if something is said.
fn push_if(told: &mut Text, word: &str, is_said: bool) {
    if is_said {
        write!(told, " {word}");
    }
}

/// Writes what is said of the crate with that number.
fn push_sides(told: &mut Text, built: &BuiltCrates, units: &Units<'_>, krate: usize) {
    push_if(told, "targets", built.is_for_targets(krate));
    push_if(told, "host", built.is_for_host(krate));
    write!(told, " {}", use_word(built.use_of(krate)));
    push_if(told, "f", units.is_feature(krate, Side::Targets, "f"));
    push_if(told, "f^", units.is_feature(krate, Side::Host, "f"));
    push_if(told, "c", units.is_turned_on(krate, Side::Targets, "c"));
    push_if(told, "c^", units.is_turned_on(krate, Side::Host, "c"));
    told.push_str(", ");
}

/// For which sides the crates of a build are built.
struct Sides;

impl ToldOfUnits for Sides {
    fn push(told: &mut Text, of: Told<'_, '_>, units: &Units<'_>) -> Result<(), AllocError> {
        let built = BuiltCrates::of(told.allocator(), units)?;
        let krates = built.krates(told.allocator())?;
        for krate in &krates {
            told.push_str(name_of(of.document, *krate));
            push_sides(told, &built, units, *krate);
        }
        Ok(())
    }
}

/// The word for a use.
fn use_word(usage: BuildUse) -> &'static str {
    match usage {
        BuildUse::Shipped => "shipped",
        BuildUse::Build => "build",
        BuildUse::Tests => "tests",
    }
}

/// Writes what crates are used for.
fn push_uses(told: &mut Text, document: &Document<'_>, uses: &[UsedCrate]) {
    for used in uses {
        let word = use_word(used.usage);
        write!(told, "{} {word}, ", name_of(document, used.krate));
    }
    told.push_str("| ");
}

/// The crates that aren't built, as is shown without trusting what derives facts.
struct Unbuilt;

impl ToldOfDerived for Unbuilt {
    fn push<'a>(
        told: &mut Text,
        of: Told<'a, '_>,
        _derived: &Derived<'a>,
        facts: &[BuildFact<'a>],
    ) -> Result<(), Fail> {
        for krate in 0..of.tables.crates.len() {
            if is_unbuilt(told.allocator(), of.tables, facts, krate)? {
                write!(told, "{}, ", name_of(of.document, krate));
            }
        }
        Ok(())
    }
}

/// What is asked for, and the same with all targets.
#[derive(Drop)]
struct Both {
    as_asked: BuildSetting,
    with_all: BuildSetting,
}

/// What a line asks for, with all targets.
fn with_all_targets(alloc: Global, line: &str) -> Result<BuildSetting, Fail> {
    let mut setting = setting_of(alloc, line)?;
    setting.kinds.all = true;
    Ok(setting)
}

/// What a line asks for, and the same with all targets.
fn both_of(alloc: Global, line: &str) -> Result<Both, Fail> {
    let as_asked = setting_of(alloc, line)?;
    let with_all = with_all_targets(alloc, line)?;
    Ok(Both { as_asked, with_all })
}

/// The crates of a build.
fn crates_in(alloc: Global, units: Units<'_>) -> Result<BuiltCrates, AllocError> {
    let built = BuiltCrates::of(alloc, &units);
    drop(units);
    built
}

/// The crates that are built of a document, which fails where it isn't said what is built.
fn crates_of<'a>(
    alloc: Global,
    document: &Document<'a>,
    setting: &'a BuildSetting,
) -> Result<BuiltCrates, Fail> {
    match units_of(alloc, document, setting) {
        Ok(units) => Ok(crates_in(alloc, units)?),
        Err(refusal) => Err(Fail::new(refusal)),
    }
}

/// What the crates are used for that are built of a document with all targets.
fn uses_in<'a>(
    alloc: Global,
    document: &Document<'a>,
    asked: &'a Both,
) -> Result<Vec<UsedCrate>, Fail> {
    let as_asked = crates_of(alloc, document, &asked.as_asked)?;
    let with_all = crates_of(alloc, document, &asked.with_all)?;
    Ok(build_uses(alloc, &as_asked, &with_all)?)
}

/// What the crates of a document are used for, and those that aren't built.
struct Uses;

impl ToldOfBuild<Both> for Uses {
    fn push<'a>(
        told: &mut Text,
        document: &Document<'a>,
        asked: &'a Both,
        words: &str,
    ) -> Result<(), Fail> {
        let uses = uses_in(told.allocator(), document, asked)?;
        push_uses(told, document, &uses);
        OfDerived::<Unbuilt>::push(told, document, &asked.as_asked, words)
    }
}

/// Writes what is told of a document, and of what a line asks for, as it is asked for and with all targets.
fn push_both(told: &mut Text, metadata: &Metadata, line: &str) -> Result<(), Fail> {
    let asked = both_of(told.allocator(), line)?;
    let pushed = push_admitted::<Both, Uses>(told, metadata, &asked, line);
    drop(asked);
    pushed
}

impl Tell for Uses {
    fn tell(told: &mut Text, line: &str) -> Result<(), Fail> {
        let metadata = document_of(told.allocator(), line)?;
        let pushed = push_both(told, &metadata, line);
        metadata.let_go();
        pushed
    }
}

#[test]
fn built_crates_are_told(rt: HostRuntime) -> Result<(), Fail> {
    hold_lines::<OfBuild<OfUnits<Built>>>(rt.alloc(), BUILT)
}

#[test]
fn sides_are_told(rt: HostRuntime) -> Result<(), Fail> {
    hold_lines::<OfBuild<OfUnits<Sides>>>(rt.alloc(), SIDES)
}

#[test]
fn uses_are_told(rt: HostRuntime) -> Result<(), Fail> {
    hold_lines::<Uses>(rt.alloc(), USES)
}
