//! Which requests of a build name nothing. What is expected was asked of cargo 1.95, which refuses a build where one does.

use crate::of_build::{ToldOfBuild, push_asked, push_told};
use krates_build_tables::Unanswered;
use krates_build_tables::unanswered::first_unanswered;
use krates_questions::Document;
use krates_samples::documents;
use krates_samples::table::{Tell, hold_lines};
use krates_text::text::Text;
use krates_units::BuildSetting;
use std::test::Fail;

/// The packages of a workspace with three members. `a` has a dependency of each kind; the feature that an optional one brings by
/// itself is one of `opt`, but not of `hidden`, which `dep:` hides.
static WORKSPACE: &str =
    "a dep opt? hidden? devd&dev;x= opt=dep:opt hid=dep:hidden|b;default= y= hidden=|c|dep;f=|opt;f=|hidden;f=|devd;f= / members a b c / targets dep:lib opt:lib hidden:lib devd:lib";

/// What is asked in the folder of `a` with the first resolver: `a` has to have each feature, selected or not, but for what is named of
/// another member that is selected.
static OF_THE_FOLDER: &str = "
root a / build 1 =>
root a / build 1 features=x =>
root a / build 1 features=nosuch => feature nosuch
root a / build 1 features=x,y => feature y
root a / build 1 features=default => feature default
root a / build 1 workspace features=x,y => feature y
root a / build 1 package=b features=y => feature y
root a / build 1 package=b features=x =>
root a / build 1 package=dep features=x =>
root a / build 1 package=dep features=nosuch => feature nosuch
root a / build 1 package=dep all-features =>
root a / build 1 package=dep no-default-features =>
// an optional dependency is a feature if `dep:` doesn't hide it
root a / build 1 features=opt,hid =>
root a / build 1 features=hidden => feature hidden
root a / build 1 features=dep => feature dep
root a / build 1 features=dep:opt => feature dep:opt
// a feature of any dependency that is declared, and has it
root a / build 1 features=dep/f,opt/f,opt?/f,hidden/f,devd/f =>
root a / build 1 features=nodep/f => feature nodep/f
root a / build 1 features=dep/f,dep/g => feature dep/g
root a / build 1 features=opt?/g => feature opt?/g
root a / build 1 features=hidden/g => feature hidden/g
root a / build 1 features=devd/g => feature devd/g
root a / build 1 package=b features=dep/g => feature dep/g
root a / build 1 package=dep features=dep/f =>
// a feature of a member
root a / build 1 features=a/x => feature a/x
root a / build 1 features=b/y => feature b/y
root a / build 1 package=b features=b/y =>
root a / build 1 package=b features=b?/y =>
root a / build 1 package=a,b features=x,b/y =>
root a / build 1 package=b features=b/nosuch => feature b/nosuch
";

/// What is asked where the folder has no package, or with a later resolver: some member that is selected has to have each feature.
static OF_MEMBERS: &str = "
build 1 =>
build 1 features=x,y,default =>
build 1 features=x,nosuch => feature nosuch
build 1 package=b features=y =>
build 1 package=b features=x => feature x
build 1 package=a,b features=x,y =>
root a / build 2 features=x =>
root a / build 2 features=y => feature y
root a / build 2 workspace features=x,y =>
// one that takes its optional dependency's name has to have the feature, even if another has it
build 1 features=opt =>
build 1 features=hidden => feature hidden
build 1 package=b features=hidden =>
build 1 features=dep => feature dep
build 1 features=dep:opt => feature dep:opt
build 1 features=dep/f,opt/f,opt?/f,hidden/f,devd/f =>
build 1 features=nodep/f => feature nodep/f
build 1 package=b features=dep/f => feature dep/f
build 1 features=dep/g => feature dep/g
build 1 features=dep?/g => feature dep?/g
root a / build 2 features=opt/g => feature opt/g
root a / build 2 workspace features=devd/g => feature devd/g
build 1 features=a/x,b/y,b?/y,a/opt =>
build 1 features=a/nosuch => feature a/nosuch
build 1 features=a/hidden => feature a/hidden
root a / build 2 features=b/y => feature b/y
// where no member is selected, none takes features
build 1 package=dep =>
build 1 package=dep features=x => feature x
build 1 package=dep features=dep/f => feature dep/f
root a / build 2 package=dep features=x => feature x
build 1 package=dep,a features=x =>
build 1 package=dep all-features => flag
root a / build 2 package=dep no-default-features => flag
build 1 package=dep,a all-features =>
";

/// A package with dependencies under another name, for a machine, and for building. One name leads to two packages, one on each kind of
/// machine; the feature that an optional dependency brings by itself is one of `dep`, but `dep:` hides that of another. The document
/// was asked for without features, so it has nothing of `gone`.
static DEPENDENCIES: &str =
    "a ren&as=d win&on=cfg(windows) bld&build multi@1.0.0&crates.io&on=cfg(unix)&req=^1 multi@2.0.0&crates.io&on=cfg(windows)&req=^2 dep gone?;gone=dep:gone|ren;f=|win;f=|bld;f=|multi@1.0.0&crates.io;f= both=|multi@2.0.0&crates.io;g= both=|dep;f= o=dep:o hid=dep:h / root a / targets ren:lib win:lib bld:lib multi:lib dep:lib / nodes a ren&as=d win&on=cfg(windows) bld&build multi@1.0.0&crates.io&on=cfg(unix) multi@2.0.0&crates.io&on=cfg(windows) dep|ren|win|bld|multi@1.0.0&crates.io|multi@2.0.0&crates.io|dep";

/// What is asked there of dependencies, whatever the resolver: each package that a name leads to has to have the feature.
static OF_DEPENDENCIES: &str = "
build 1 features=d/f,d?/f,win/f,bld/f =>
build 2 features=d/f,d?/f,win/f,bld/f =>
build 1 features=d/g => feature d/g
build 2 features=d?/g => feature d?/g
build 2 features=ren/f => feature ren/f
build 1 features=win/g => feature win/g
build 2 features=win?/g => feature win?/g
build 2 features=bld/g => feature bld/g
build 1 features=multi/both =>
build 1 features=multi/f => feature multi/f
build 2 features=multi/f => feature multi/f
build 2 features=multi/g => feature multi/g
build 1 features=dep/o,dep/hid =>
build 1 features=dep/h => feature dep/h
build 2 features=dep/o,dep/h => feature dep/h
build 2 features=dep/default => feature dep/default
build 2 features=dep/ => feature dep/
// of what the document doesn't have, any feature may be asked for
build 1 features=gone/f,gone?/f =>
build 2 features=gone/f,gone?/f =>
// a second slash is refused, of whatever it is
build 1 features=dep/f/g => feature dep/f/g
build 2 features=gone/f/g => feature gone/f/g
build 2 features=dep/f/ => feature dep/f/
build 2 features=a/x/y => feature a/x/y
build 2 features=x/y/z => feature x/y/z
";

/// Packages that are asked for.
static PACKAGES: &str = "
build 1 package=a =>
build 1 package=dep =>
build 1 package=a,nosuch,none => package nosuch
build 1 package=a@0.1.0 =>
build 1 package=a@9.0.0 => package a@9.0.0
build 1 package=nosuch features=none => package nosuch
";

/// What is asked of a workspace that has no default members, and of one that has no members.
static UNSELECTED: &str = "
a;x= / build 2 => selection
a;x= / build 2 features=x => selection
a;x= / build 2 workspace features=x =>
a;x= / build 2 package=a features=x =>
a / members / build 2 => selection
a / members / build 2 workspace => selection
";

/// The first request of a build that names nothing in the document.
struct First;

impl ToldOfBuild<BuildSetting> for First {
    fn push<'a>(
        told: &mut Text,
        document: &Document<'a>,
        asked: &'a BuildSetting,
        _words: &str,
    ) -> Result<(), Fail> {
        match first_unanswered(told.allocator(), document, asked)? {
            Some(Unanswered::Package(spec)) => write!(told, "package {spec}"),
            Some(Unanswered::Selection) => told.push_str("selection"),
            Some(Unanswered::Feature(text)) => write!(told, "feature {text}"),
            Some(Unanswered::FeatureFlag) => told.push_str("flag"),
            None => {}
        }
        Ok(())
    }
}

/// Writes the first request of a line's build that names nothing in the document of another line.
fn push_first_of(told: &mut Text, document: &str, line: &str) -> Result<(), Fail> {
    let line = format!(in told.allocator(); "{document} / {line}")?;
    push_told::<First>(told, line.as_str(), "")
}

/// The first request of a line's build that names nothing in the workspace.
struct OfWorkspace;

impl Tell for OfWorkspace {
    fn tell(told: &mut Text, line: &str) -> Result<(), Fail> {
        push_first_of(told, WORKSPACE, line)
    }
}

/// The same of the package with more dependencies.
struct OfDependencies;

impl Tell for OfDependencies {
    fn tell(told: &mut Text, line: &str) -> Result<(), Fail> {
        push_first_of(told, DEPENDENCIES, line)
    }
}

/// The same in the workspace of a line, which has no default members.
struct WithoutDefaults;

impl Tell for WithoutDefaults {
    fn tell(told: &mut Text, line: &str) -> Result<(), Fail> {
        let metadata = documents::metadata(told.allocator(), line)?;
        let pushed = push_asked::<First>(told, &metadata, line, "");
        metadata.let_go();
        pushed
    }
}

#[test]
fn features_of_the_folder_are_named(rt: HostRuntime) -> Result<(), Fail> {
    hold_lines::<OfWorkspace>(rt.alloc(), OF_THE_FOLDER)
}

#[test]
fn features_of_members_are_named(rt: HostRuntime) -> Result<(), Fail> {
    hold_lines::<OfWorkspace>(rt.alloc(), OF_MEMBERS)
}

#[test]
fn features_of_dependencies_are_named(rt: HostRuntime) -> Result<(), Fail> {
    hold_lines::<OfDependencies>(rt.alloc(), OF_DEPENDENCIES)
}

#[test]
fn packages_are_named(rt: HostRuntime) -> Result<(), Fail> {
    hold_lines::<OfWorkspace>(rt.alloc(), PACKAGES)
}

#[test]
fn packages_are_selected(rt: HostRuntime) -> Result<(), Fail> {
    hold_lines::<WithoutDefaults>(rt.alloc(), UNSELECTED)
}
