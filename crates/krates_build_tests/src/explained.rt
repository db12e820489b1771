//! What a build returns to explain what it keeps: each derivation is accepted, and all facts together are a closed list.

use crate::builders::krates_of;
use crate::facts::{push_answer, push_steps};
use crate::lists::{Ask, Given, OfLine};
use krates::derive::{CheckError, check, check_closed};
use krates::{Builder, Krates, NodeId};
use krates_samples::documents::section;
use krates_samples::table::hold_lines;
use krates_text::text::Text;
use std::alloc::AllocError;
use std::test::Fail;

/// Whether there is a derivation of each node, and it is accepted.
fn are_accepted(given: &Given<'_, Builder>, krates: &Krates) -> Result<bool, AllocError> {
    for number in 0..krates.graph().raw_nodes().len() {
        match krates.why(NodeId::new(number as u32))? {
            Some(derivation) if check(given.metadata, given.set, None, &derivation).is_ok() => {}
            _ => return Ok(false),
        }
    }
    Ok(true)
}

/// What the check answers of all facts without the one at this place, where there is one.
fn answer_without(
    given: &Given<'_, Builder>,
    krates: &Krates,
    place: usize,
) -> Result<Result<(), CheckError>, AllocError> {
    let mut facts = krates.facts()?;
    if place < facts.len() {
        drop(facts.remove(place));
    }
    Ok(check_closed(given.metadata, given.set, None, &facts))
}

/// Whether this many facts, which are all, are a closed list, and aren't without any one of them.
fn are_closed(
    given: &Given<'_, Builder>,
    krates: &Krates,
    count: usize,
) -> Result<bool, AllocError> {
    for place in 0..count {
        if answer_without(given, krates, place)? != Err(CheckError::Open) {
            return Ok(false);
        }
    }
    Ok(answer_without(given, krates, count)?.is_ok())
}

/// Adds how many nodes and facts a build has, and whether they are explained.
fn push_explained(
    told: &mut Text,
    given: &Given<'_, Builder>,
    krates: &Krates,
) -> Result<(), Fail> {
    let nodes = krates.graph().raw_nodes().len();
    let facts = krates.facts()?.len();
    let accepted = are_accepted(given, krates)?;
    let closed = are_closed(given, krates, facts)?;
    write!(told, "{nodes} nodes {accepted}, {facts} facts {closed}");
    Ok(())
}

/// How many nodes and facts a build has, and whether they are explained.
struct Explained;

impl Ask for Explained {
    type Set = Builder;

    fn push(told: &mut Text, given: &Given<'_, Builder>, line: &str) -> Result<(), Fail> {
        let krates = krates_of(given.alloc, line)?;
        push_explained(told, given, &krates)
    }
}

static EXPLAINED: &str = "
// a weak reference over an edge that another feature keeps, and a strong one beside it
a b?;b=dep:b w=b?/j|b;j= => 5 nodes true, 7 facts true
a b?;b=dep:b w=b?/j s=b/k|b;j= k= => 7 nodes true, 10 facts true
// a reference over an edge for tests
a b&dev;x=b/y|b;y= => 4 nodes true, 6 facts true
// a reference to a feature of an excluded crate
a b;x=b/nope|b / without b => 2 nodes true, 2 facts true
// a dependency that is known by the name of its library, and one that is renamed
a md-5?;x=md-5/std|md-5&lib=md5;std= / nodes a md-5&as=md5;x|md-5;std => 4 nodes true, 6 facts true
a real?&as=alias;x=dep:alias|real / nodes a real&as=alias;x|real => 3 nodes true, 4 facts true
// two versions, which a feature enables by one name
a d?;x=dep:d|d@0.10.0|d@0.9.0 / nodes a d@0.10.0 d@0.9.0;x|d@0.10.0|d@0.9.0 / names all => 4 nodes true, 6 facts true
// an edge that two features require has one step
a b?;x=dep:b y=dep:b|b => 4 nodes true, 5 facts true
// documents that cargo wrote
weakling => 25 nodes true, 39 facts true
gitter => 21 nodes true, 32 facts true
";

/// Adds the steps of the derivation of a node, where there is one, and what the check answers of it.
fn push_reason(
    told: &mut Text,
    given: &Given<'_, Builder>,
    krates: &Krates,
    node: NodeId,
) -> Result<(), AllocError> {
    let Some(derivation) = krates.why(node)? else {
        told.push_str("none");
        return Ok(());
    };
    push_steps(told, &derivation.steps);
    push_answer(told, check(given.metadata, given.set, None, &derivation));
    Ok(())
}

/// Adds the derivation of a node and what the check answers of it and of all facts.
fn push_rechecked(
    told: &mut Text,
    given: &Given<'_, Builder>,
    krates: &Krates,
    node: NodeId,
) -> Result<(), Fail> {
    push_reason(told, given, krates, node)?;
    told.push_str(", facts ");
    push_answer(told, answer_without(given, krates, usize::MAX)?);
    Ok(())
}

/// What a build explains, checked by what the line sets, which may be something else than what the build has set, where the section
/// `built` sets that: the derivation of the node in the section `why`, and all facts.
struct Rechecked;

impl Ask for Rechecked {
    type Set = Builder;

    fn push(told: &mut Text, given: &Given<'_, Builder>, line: &str) -> Result<(), Fail> {
        let node = section(line, "why ").unwrap_or("").parse()?;
        let set = section(line, "built ").unwrap_or("");
        let line = format!(in given.alloc; "{line} / {set}")?;
        let krates = krates_of(given.alloc, line.as_str())?;
        push_rechecked(told, given, &krates, NodeId::new(node))
    }
}

static RECHECKED: &str = "
// a crate that is needed for tests
a b&dev|b / why 1 => 1 +a; 5 a>b:dev 0; 5 +b 1; yes, facts yes
// an enabled feature, and no second node
a;x= / why 1 => 1 a/x; yes, facts yes
a / why 1 => none, facts yes
// two versions, of which a name means both: the second is there for no other reason
a d?;x=dep:d|d@0.10.0|d@0.9.0 / nodes a d@0.10.0 d@0.9.0;x|d@0.10.0|d@0.9.0 / names all / why 2 => 1 a/x; 4 a>d@0.9.0 0; 5 +d@0.9.0 1; yes, facts yes
// the same build, checked where the name means the least: what it kept needn't be reached, and lacks nothing that is
a d?;x=dep:d|d@0.10.0|d@0.9.0 / nodes a d@0.10.0 d@0.9.0;x|d@0.10.0|d@0.9.0 / why 2 / built names all => 1 a/x; 4 a>d@0.9.0 0; 5 +d@0.9.0 1; step 1, facts yes
// the other way round: what is kept where it means the least is reached where it means both, and isn't all
a d?;x=dep:d|d@0.10.0|d@0.9.0 / nodes a d@0.10.0 d@0.9.0;x|d@0.10.0|d@0.9.0 / names all / why 1 / built names least => 1 a/x; 4 a>d@0.10.0 0; 5 +d@0.10.0 1; yes, facts open
";

#[test]
fn builds_explain_what_they_keep(rt: HostRuntime) -> Result<(), Fail> {
    hold_lines::<OfLine<Explained>>(rt.alloc(), EXPLAINED)?;
    hold_lines::<OfLine<Rechecked>>(rt.alloc(), RECHECKED)
}
