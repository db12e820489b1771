//! What a document and a setting answer to the questions that the checkers ask, one by one.
//!
//! A line is a word for a crate and the name of a feature, or two crates, a kind and a target text; after it comes what is set, in
//! sections.

use crate::asked::{Edge, edge_of};
use crate::of_document::{ToldOfDocument, push_told};
use crate::real_documents::metadata_of;
use crate::setting::setting_of;
use krates_cm::{Dependency, Metadata};
use krates_ids::Kid;
use krates_questions::Need;
use krates_resolve::{Document, Setting, admit};
use krates_samples::documents::kid_of;
use krates_samples::table::{Tell, compare, hold_lines};
use krates_text::text::Text;
use std::test::Fail;

/// A member that declares a crate for tests and for its build, and another for Windows, and whose node lists one kind and one feature
/// more; a package without a node, and a node without a package.
const DOCUMENT: &str =
    "a b&dev b&build c&on=cfg(windows);f=b/g,x|b;g=|c|n / nodes a b&build&dev&normal c&on=cfg(windows);f e|b;g|c|q";

/// Adds whether a crate is a root and available, what there is for it, its package and whether it has a node.
fn push_availability<'a>(told: &mut Text, asked: &Document<'a>, setting: &Setting, krate: &'a Kid) {
    let (is_root, stands) = (asked.is_root(setting, krate), asked.stands(setting, krate));
    let availability = asked.availability(setting, krate);
    let package = match asked.package_of(krate) {
        Some(package) => package.name.as_str(),
        None => "none",
    };
    let has_node = asked.node_of(krate).is_some();
    write!(
        told,
        "root {is_root}, stands {stands}, {availability:?}, package {package}, node {has_node}"
    )
}

/// Adds whether the feature is listed, with its references, how many features are listed, and the crates on which the node depends.
fn push_listed<'a>(told: &mut Text, asked: &Document<'a>, krate: &Kid, name: &'a str) {
    let (is_listed, values) = (asked.lists(krate, name), asked.values(krate, name));
    let count = asked.features(krate).len();
    write!(told, ", lists {is_listed} {values:?} of {count}:");
    for child in asked.children(krate) {
        write!(told, " {}", child.name());
    }
}

/// Adds what a document answers about a crate and the name of a feature.
fn push_crate(
    told: &mut Text,
    metadata: &Metadata,
    setting: &Setting,
    words: &str,
) -> Result<(), Fail> {
    let (krate, name) = words.split_once(' ').unwrap_or((words, ""));
    let krate = kid_of(told.allocator(), krate)?;
    let ids = admit(told.allocator(), metadata)?;
    let asked = Document::new(told.allocator(), metadata, &ids)?;
    push_availability(told, &asked, setting, &krate);
    push_listed(told, &asked, &krate, name);
    Ok(())
}

/// The word for what there is for a dependency.
fn need_word(need: Need<'_>) -> &'static str {
    match need {
        Need::Wanted(_) => "wanted",
        Need::Undeclared => "undeclared",
        Need::Nothing => "nothing",
    }
}

/// Adds what there is for a dependency, how many kinds are listed, and as which kind it is declared.
fn push_dependency(
    told: &mut Text,
    asked: &Document<'_>,
    setting: &Setting,
    edge: &Edge,
) -> Result<(), Fail> {
    let (parent, child, info) = (&edge.parent, &edge.child, &edge.info);
    let need = need_word(asked.need(told.allocator(), setting, parent, child, info)?);
    let kinds = asked.kinds(parent, child).len();
    let declaration = asked.declaration(parent, child, info);
    let declared = declaration.map(|dep: &Dependency| dep.kind);
    write!(told, "{need} of {kinds}, {declared:?}");
    Ok(())
}

/// What there is for the dependency that words say.
struct OfDependency;

impl ToldOfDocument for OfDependency {
    fn push(
        told: &mut Text,
        asked: &Document<'_>,
        setting: &Setting,
        words: &str,
    ) -> Result<(), Fail> {
        let edge = edge_of(told.allocator(), words)?;
        push_dependency(told, asked, setting, &edge)
    }
}

/// Adds what a document answers about a dependency, where there are three words or more, or about a crate and a feature.
fn push_answer(
    told: &mut Text,
    metadata: &Metadata,
    setting: &Setting,
    words: &str,
) -> Result<(), Fail> {
    if words.split_whitespace().nth(2).is_some() {
        return push_told::<OfDependency>(told, metadata, setting, words);
    }
    push_crate(told, metadata, setting, words)
}

/// What the document answers about the crate and the feature, or about the dependency, that a line says.
struct Answers;

impl Tell for Answers {
    fn tell(told: &mut Text, line: &str) -> Result<(), Fail> {
        let (words, _) = line.split_once(" / ").unwrap_or((line, ""));
        let metadata = metadata_of(told.allocator(), DOCUMENT)?;
        let setting = setting_of(told.allocator(), line)?;
        push_answer(told, &metadata, &setting, words)
    }
}

static ANSWERS: &str = r#"
a f => root true, stands true, Available(NodePlace { index: 0 }), package a, node true, lists true ["b/g", "x"] of 2: b c
// a feature that the manifest lacks, and one that the node doesn't list
a e => root true, stands true, Available(NodePlace { index: 0 }), package a, node true, lists true [] of 2: b c
a g / without a => root true, stands false, Excluded, package a, node true, lists false [] of 2: b c
n f => root false, stands false, NoNode, package n, node false, lists false [] of 0:
q f => root false, stands false, NoPackage, package none, node true, lists false [] of 0:
// dependencies
a b dev => wanted of 3, Some(Development)
a b build / ignore dev => wanted of 3, Some(Build)
// what it is declared as doesn't depend on what is ignored
a b dev / ignore dev => nothing of 3, Some(Development)
// listed, and not declared that way
a b normal => undeclared of 3, None
a c normal cfg(windows) => wanted of 1, Some(Normal)
// not listed for every target, or not at all
a c normal => nothing of 1, None
b c normal => nothing of 0, None
"#;

#[test]
fn what_there_is_for_crates_and_dependencies(rt: HostRuntime) -> Result<(), Fail> {
    hold_lines::<Answers>(rt.alloc(), ANSWERS)
}

#[test]
fn what_a_setting_asks_for(rt: HostRuntime) -> Result<(), Fail> {
    let mut setting = Setting::new(rt.alloc());
    setting.workspace(true);
    setting.include_workspace_crates(rt.alloc(), &["/w/a", "/w/b/Cargo.toml"])?;
    let told = format!(in rt.alloc(); "{:?} {}", setting.manifests(), setting.is_workspace())?;
    compare(
        "/w/a and /w/b/Cargo.toml",
        told.as_str(),
        r#"["/w/a/Cargo.toml", "/w/b/Cargo.toml"] true"#,
    )
}
