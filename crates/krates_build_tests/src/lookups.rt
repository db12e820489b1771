//! Questions about crates to a graph that was built: by id, by name, by number, and which are members.
//!
//! The section `ask` of a line has the question: `number`, `node` or `features` and a word for a crate, `found` and such a word,
//! perhaps with the name of a feature after it, `members`, `nodes`, `name` and a name, `search`, a name and a requirement, `kid`
//! and the number of a node, or `krate` and a number. A crate is answered as its word, a feature as the number of its crate, a
//! slash and its name.

use crate::of_graph::{OfGraph, Told, push_features, push_number};
use krates::semver::VersionReq;
use krates::{KrateDetails, KrateMatch, Krates, Matches, Node, NodeId, Package};
use krates_samples::documents::{kid_of, section, word_of};
use krates_samples::table::hold_lines;
use krates_text::text::Text;
use std::test::Fail;

/// Adds a node, or that there is none.
fn push_node(text: &mut Text, node: Option<&Node<Package>>) {
    match node {
        Some(Node::Krate { id, .. }) => text.push_str(word_of(id.repr())),
        Some(Node::Feature { krate_index, name }) => write!(text, "{}/{name}", krate_index.index()),
        None => text.push_str("none"),
    }
}

/// Adds the answer to a question about the crate of a word, or about its feature of the name after the word.
fn push_by_id(text: &mut Text, krates: &Krates, question: &str, words: &str) -> Result<(), Fail> {
    let (word, name) = words.split_once(' ').unwrap_or((words, ""));
    let feature = if name.is_empty() { None } else { Some(name) };
    let kid = kid_of(text.allocator(), word)?;
    match question {
        "number" => push_number(text, krates.nid_for_kid(&kid)),
        "node" => push_node(text, krates.node_for_kid(&kid)),
        "found" => match krates.get_node(&kid, feature) {
            Some((number, node)) => {
                write!(text, "{}=", number.index());
                push_node(text, Some(node))
            }
            None => push_node(text, None),
        },
        _ => push_features(text, krates.get_enabled_features(&kid), "set", "none"),
    }
    Ok(())
}

/// Adds the members.
fn push_members(text: &mut Text, krates: &Krates) {
    for node in krates.workspace_members() {
        text.push_str(" ");
        push_node(text, Some(node));
    }
}

/// Adds a crate that was found, with its number and version.
fn push_match(text: &mut Text, found: &KrateMatch<'_, Package>) {
    let word = word_of(found.kid.repr());
    write!(
        text,
        " {}={word}({})",
        found.node_id.index(),
        found.krate.version()
    )
}

/// Adds crates that were found.
fn push_matches(text: &mut Text, found: Matches<'_, Package>) {
    for one in found {
        push_match(text, &one);
    }
}

/// Adds all kept crates.
fn push_krate_nodes(text: &mut Text, krates: &Krates) {
    for one in krates.krate_nodes() {
        push_match(text, &one);
    }
}

/// Adds the crates of a name whose version fits.
fn push_search(text: &mut Text, krates: &Krates, words: &str) -> Result<(), Fail> {
    let (name, req) = words.split_once(' ').unwrap_or((words, "*"));
    let req = VersionReq::parse(text.allocator(), req)?;
    push_matches(text, krates.search_matches(name, &req));
    Ok(())
}

/// Adds the id of a node's crate, or that there is none.
fn push_kid(text: &mut Text, krates: &Krates, number: &str) -> Result<(), Fail> {
    match krates.kid(NodeId::new(number.parse()?)) {
        Some(kid) => text.push_str(word_of(kid.repr())),
        None => text.push_str("none"),
    }
    Ok(())
}

/// Adds the name of the crate with a number, looked up in both ways.
fn push_krate(text: &mut Text, krates: &Krates, number: &str) -> Result<(), Fail> {
    let number: usize = number.parse()?;
    if number >= krates.len() {
        push_node(text, None);
        return Ok(());
    }
    let one = &krates[number];
    let same = &krates[NodeId::new(number as u32)];
    write!(text, "{} {}", one.name(), same.name());
    Ok(())
}

/// What a build of the line's document answers to the question of the line.
struct LookedUp;

impl Told<Package> for LookedUp {
    fn push(text: &mut Text, krates: &Krates, line: &str) -> Result<(), Fail> {
        let asked = section(line, "ask ").unwrap_or("");
        let (question, words) = asked.split_once(' ').unwrap_or((asked, ""));
        match question {
            "number" | "node" | "features" | "found" => push_by_id(text, krates, question, words),
            "search" => push_search(text, krates, words),
            "kid" => push_kid(text, krates, words),
            "krate" => push_krate(text, krates, words),
            "name" => {
                push_matches(text, krates.krates_by_name(words));
                Ok(())
            }
            "nodes" => {
                push_krate_nodes(text, krates);
                Ok(())
            }
            _ => {
                push_members(text, krates);
                Ok(())
            }
        }
    }
}

static LOOKED_UP: &str = "
// numbers and nodes of ids
a b|b|c / ask number a => 0
a b|b|c / ask number b => 1
// a package that isn't kept, and an id that the document lacks
a b|b|c / ask number c => none
a b|b|c / ask number d => none
a b|b|c / ask node b => b
a b|b|c / ask node c => none
// enabled features
a b|b;j= k= / ask features a => set
a b|b;j= k= / ask features b => set
a b&with=k,j|b;j= k= / ask features b => set+j+k
a b|b|c;j= / ask features c => none
a b?;b=dep:b w=b?/j s=b/k|b;j= / nodes a b;b w s|b;j k / ask features b => set+j+k
a b!|b / ask features b => set
// a node, of a crate or of its feature
a b?;b=dep:b w=b?/j|b;j= / nodes a b;b w|b;j / ask found b j => 4=1/j
a b?;b=dep:b w=b?/j|b;j= / nodes a b;b w|b;j / ask found a w => 3=0/w
a b?;b=dep:b w=b?/j|b;j= / nodes a b;b w|b;j / ask found b => 1=b
// a feature of another crate, none of this name, of a crate without features, and of one that isn't kept
a b?;b=dep:b w=b?/j|b;j= / nodes a b;b w|b;j / ask found a j => none
a b?;b=dep:b w=b?/j|b;j= / nodes a b;b w|b;j / ask found b w => none
a b|b;j= / ask found b j => none
a;j=|c;j= / ask found c j => none
a;j=|c;j= / ask found c => none
// the id of a node: a crate has its own, a feature that of its crate, and past the nodes there is none
a b?;b=dep:b w=b?/j|b;j= / nodes a b;b w|b;j / ask kid 1 => b
a b?;b=dep:b w=b?/j|b;j= / nodes a b;b w|b;j / ask kid 3 => a
a b?;b=dep:b w=b?/j|b;j= / nodes a b;b w|b;j / ask kid 4 => b
a b?;b=dep:b w=b?/j|b;j= / nodes a b;b w|b;j / ask kid 5 => none
d a|a|b / ask kid 0 => a
// the members: in the order of the ids, and each once
b a|c|a / members b a / ask members =>  a b
a|b / members a a / ask members =>  a
// one that isn't kept: it isn't a root, or is excluded
a|b / members b a / root a / ask members =>  a
a|b / members a b / without a / ask members =>  b
// none is kept
a|b / members a / root b / ask members =>
// all kept crates by number, which is the order of the ids and not that of the packages
b a|a|c / members b / ask nodes =>  0=a(0.1.0) 1=b(0.1.0)
a d|d@0.10.0|d@0.9.0 / nodes a d@0.10.0 d@0.9.0|d@0.10.0|d@0.9.0 / ask nodes =>  0=a(0.1.0) 1=d@0.10.0(0.10.0) 2=d@0.9.0(0.9.0)
// a graph of five nodes, of which three are those of features
a b?;b=dep:b w=b?/j|b;j= / nodes a b;b w|b;j / ask nodes =>  0=a(0.1.0) 1=b(0.1.0)
// a package whose directory has another name
a real&id=path+file:///w/dir#0.1.0|real&id=path+file:///w/dir#0.1.0 / ask nodes =>  0=a(0.1.0) 1=dir(0.1.0)
// crates of a name
a d|d@0.10.0|d@0.9.0 / nodes a d@0.10.0 d@0.9.0|d@0.10.0|d@0.9.0 / ask name d =>  1=d@0.10.0(0.10.0) 2=d@0.9.0(0.9.0)
a d|d@0.10.0|d@0.9.0 / nodes a d@0.10.0 d@0.9.0|d@0.10.0|d@0.9.0 / ask search d =0.9.0 =>  2=d@0.9.0(0.9.0)
a d|d@0.10.0|d@0.9.0 / nodes a d@0.10.0 d@0.9.0|d@0.10.0|d@0.9.0 / ask search d >=0.9 =>  1=d@0.10.0(0.10.0) 2=d@0.9.0(0.9.0)
a d|d@0.10.0|d@0.9.0 / nodes a d@0.10.0 d@0.9.0|d@0.10.0|d@0.9.0 / ask search d ^1 =>
// names that begin alike, a name before all and one after all, and features after the last crate
b dd d|d|dd;j= / members b / ask name d =>  1=d(0.1.0)
b dd d|d|dd;j= / members b / ask name dd =>  2=dd(0.1.0)
b dd d|d|dd;j= / members b / ask name a =>
b dd&with=j d|d|dd;j= / members b / ask name e =>
// a package of the name that isn't kept
a|b / ask name b =>
// a package whose directory has another name, which is the one that its id has
a real&id=path+file:///w/dir#0.1.0|real&id=path+file:///w/dir#0.1.0 / ask name real =>  1=dir(0.1.0)
a real&id=path+file:///w/dir#0.1.0|real&id=path+file:///w/dir#0.1.0 / ask name dir =>
a real&id=path+file:///w/dir#0.1.0|real&id=path+file:///w/dir#0.1.0 / ask search real =0.1.0 =>  1=dir(0.1.0)
a real&id=path+file:///w/dir#0.1.0|real&id=path+file:///w/dir#0.1.0 / ask search dir =0.1.0 =>
// crates of a number
a b|b;j= / ask krate 0 => a a
a b|b;j= / ask krate 1 => b b
a b&with=j|b;j= / ask krate 2 => none
";

#[test]
fn crates_that_are_looked_up(rt: HostRuntime) -> Result<(), Fail> {
    hold_lines::<OfGraph<LookedUp>>(rt.alloc(), LOOKED_UP)
}
