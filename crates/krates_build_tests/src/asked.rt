//! What a document and a setting answer to the questions of the rules, asked one by one.

use crate::of_document::{ToldOfDocument, push_told};
use crate::real_documents::metadata_of;
use crate::setting::setting_of;
use krates_cm::{DepKindInfo, Metadata, Package};
use krates_ids::Kid;
use krates_resolve::{Document, Setting};
use krates_samples::documents::{kid_of, kind_named};
use krates_samples::table::{Tell, hold_lines};
use krates_text::text::Text;
use std::alloc::Global;
use std::test::Fail;

/// Two members. The second declares a crate three times, last for its build, and its node lists that for the build and for
/// tests; and it declares another for one target, which cargo writes `b_c` where the manifest has `b-c`.
static MEMBERS: &str =
    "m z&dev z? z&build b-c&on=cfg(windows)|n|z|b-c / nodes m z&build&dev b-c&as=b_c&on=cfg(windows)|n|z|b-c / members n m";

/// A target text; none where it is empty.
fn target_text(alloc: Global, text: &str) -> Result<Option<String>, Fail> {
    if text.is_empty() {
        return Ok(None);
    }
    Ok(Some(String::from_str(alloc, text)?))
}

/// An edge that a question is about.
#[derive(Drop)]
pub(crate) struct Edge {
    pub(crate) parent: Kid,
    pub(crate) child: Kid,
    pub(crate) info: DepKindInfo,
}

/// The edge of these words: parent, child, kind and target text.
pub(crate) fn edge_of(alloc: Global, words: &str) -> Result<Edge, Fail> {
    let mut words = words.split_whitespace();
    let parent = kid_of(alloc, words.next().unwrap_or(""))?;
    let child = kid_of(alloc, words.next().unwrap_or(""))?;
    let kind = kind_named(words.next().unwrap_or(""));
    let target = target_text(alloc, words.next().unwrap_or(""))?;
    Ok(Edge {
        parent,
        child,
        info: DepKindInfo { kind, target },
    })
}

/// The crate that a name means to a crate.
struct Referent;

impl ToldOfDocument for Referent {
    fn push(
        told: &mut Text,
        asked: &Document<'_>,
        _setting: &Setting,
        words: &str,
    ) -> Result<(), Fail> {
        let (krate, name) = words.split_once(' ').unwrap_or((words, ""));
        let krate = kid_of(told.allocator(), krate)?;
        told.push_str(match asked.referent(&krate, name) {
            Some(child) => child.name(),
            None => "none",
        });
        Ok(())
    }
}

/// The crates that a name means to a crate under a setting.
struct Referents;

impl ToldOfDocument for Referents {
    fn push(
        told: &mut Text,
        asked: &Document<'_>,
        setting: &Setting,
        words: &str,
    ) -> Result<(), Fail> {
        let (krate, name) = words.split_once(' ').unwrap_or((words, ""));
        let krate = kid_of(told.allocator(), krate)?;
        for referent in &asked.referents(told.allocator(), setting, &krate, name)? {
            told.push_str(referent.id.name());
        }
        Ok(())
    }
}

/// The place of the declared dependency of an edge.
struct Declared;

impl ToldOfDocument for Declared {
    fn push(
        told: &mut Text,
        asked: &Document<'_>,
        _setting: &Setting,
        words: &str,
    ) -> Result<(), Fail> {
        let edge = edge_of(told.allocator(), words)?;
        let declared = asked.declared(&edge.parent, &edge.child, &edge.info);
        write!(told, "{declared:?}");
        Ok(())
    }
}

/// Whether an edge is open.
struct Open;

impl ToldOfDocument for Open {
    fn push(
        told: &mut Text,
        asked: &Document<'_>,
        setting: &Setting,
        words: &str,
    ) -> Result<(), Fail> {
        let alloc = told.allocator();
        let edge = edge_of(alloc, words)?;
        let is_open = asked.is_open(alloc, setting, &edge.parent, &edge.child, &edge.info)?;
        write!(told, "{is_open}");
        Ok(())
    }
}

/// The roots.
struct Roots;

impl ToldOfDocument for Roots {
    fn push(
        told: &mut Text,
        asked: &Document<'_>,
        setting: &Setting,
        _words: &str,
    ) -> Result<(), Fail> {
        for krate in &asked.roots(told.allocator(), setting)? {
            told.push_str(krate.name());
        }
        Ok(())
    }
}

/// Adds whether a dependency with a target text passes.
fn push_passes(told: &mut Text, setting: &Setting, text: &str) -> Result<(), Fail> {
    let text = target_text(told.allocator(), text)?;
    let passes = setting.passes(told.allocator(), &text)?;
    write!(told, "{passes}");
    Ok(())
}

/// Adds whether a kind of dependency is ignored, of a member or of another crate.
fn push_ignores(told: &mut Text, setting: &Setting, words: &str) {
    let (kind, krate) = words.split_once(' ').unwrap_or((words, ""));
    let ignores = setting.ignores(kind_named(kind), krate == "member");
    write!(told, "{ignores}")
}

/// Adds the names of packages, each after a minus sign where it is excluded.
fn push_signed(told: &mut Text, setting: &Setting, packages: &[Package]) {
    for pkg in packages {
        told.push_str(if setting.excludes(pkg) { "-" } else { "+" });
        told.push_str(pkg.name.as_str());
    }
}

/// Adds what a document and a setting answer to a question.
fn push_answer(
    told: &mut Text,
    metadata: &Metadata,
    setting: &Setting,
    question: &str,
) -> Result<(), Fail> {
    let (question, words) = question.split_once(' ').unwrap_or((question, ""));
    match question {
        "referent" => return push_told::<Referent>(told, metadata, setting, words),
        "referents" => return push_told::<Referents>(told, metadata, setting, words),
        "declared" => return push_told::<Declared>(told, metadata, setting, words),
        "open" => return push_told::<Open>(told, metadata, setting, words),
        "roots" => return push_told::<Roots>(told, metadata, setting, words),
        "passes" => return push_passes(told, setting, words),
        "ignores" => push_ignores(told, setting, words),
        "names" => write!(told, "{}", setting.is_all_named()),
        _ => push_signed(told, setting, &metadata.packages),
    }
    Ok(())
}

/// What the document of the two members answers to the question that a line begins with, under the setting of the line.
struct Asked;

impl Tell for Asked {
    fn tell(told: &mut Text, line: &str) -> Result<(), Fail> {
        let (question, _) = line.split_once(" / ").unwrap_or((line, ""));
        let document = format!(in told.allocator(); "{MEMBERS} / {line}")?;
        let metadata = metadata_of(told.allocator(), document.as_str())?;
        let setting = setting_of(told.allocator(), line)?;
        push_answer(told, &metadata, &setting, question)
    }
}

static ASKED: &str = "
// what a name means
referent m z => z
referent m b-c => b-c
referent m q => none
// a crate without dependencies, and one that isn't in the document
referent n z => none
referent q z => none
// what is meant under a setting
referents m z => z
referents m q =>
referents m z / names all => z
// roots: members in the order of the document
roots => nm
roots / root m => m
roots / root m / workspace on => nm
// by manifest; that of the workspace means every member
roots / include /w/m => m
roots / root m / include /w/n/Cargo.toml => n
roots / root m / include /w => nm
roots / include /w/q =>
// an excluded crate is still a root
roots / without n => nm
// declared edges
declared m z dev => Some(0)
declared m z build => Some(2)
declared m b-c normal cfg(windows) => Some(3)
// declared for this kind, but not listed
declared m z normal => None
// for another target, the other way round, and of a crate that isn't in the document
declared m b-c normal => None
declared z m build => None
declared q m build => None
// open edges
open m z dev / ignore build workspace => true
open m z build / ignore build workspace => false
open m z normal / ignore build workspace => false
open m z dev / ignore build workspace / without z => false
open m z dev / ignore build workspace / without m / for x86_64-unknown-linux-gnu => true
open m b-c normal cfg(windows) / ignore build workspace => true
open m b-c normal cfg(windows) / ignore build workspace / for x86_64-unknown-linux-gnu => false
// target texts that pass
passes => true
passes cfg(windows) => true
passes x86_64-pc-windows-msvc => true
passes cfg(any()) => false
passes / for x86_64-unknown-linux-gnu => true
passes cfg(windows) / for x86_64-unknown-linux-gnu => false
passes cfg(unix) / for x86_64-unknown-linux-gnu => true
passes x86_64-unknown-linux-gnu / for x86_64-unknown-linux-gnu => true
passes x86_64-pc-windows-msvc / for x86_64-unknown-linux-gnu => false
// what is excluded and ignored, and whether a name means all
excluded / without n => +m-n+z+b-c
ignores dev member / ignore dev non-workspace => false
ignores dev other / ignore dev non-workspace => true
names => false
names / names all => true
names / names all / names least => false
";

#[test]
fn what_documents_and_settings_answer(rt: HostRuntime) -> Result<(), Fail> {
    hold_lines::<Asked>(rt.alloc(), ASKED)
}
