//! Lists of facts: each is closed as it was written, and open without any one of its facts, or with one that drags others.

use crate::builders::ByBuilder;
use crate::facts::push_answer;
use crate::lists::{Ask, Checked, Facts, Given, List, OfLine, list_in};
use krates_checkers::check_closed;
use krates_document::Setting;
use krates_samples::facts::{facts_of, push_fact};
use krates_samples::table::hold_lines;
use krates_text::text::Text;
use std::test::Fail;

/// Facts that drag others, which aren't there: a feature of a crate, an edge to one, and a feature that is toggled.
static DRAGGING: &[&str] = &["z/f", "a>z", "a>a/z"];

/// Adds what the check answers of the facts of the words without the one at this place; or, at the places after them, with a fact that
/// drags others.
fn push_changed(
    told: &mut Text,
    given: &Given<'_, Setting>,
    text: &str,
    place: usize,
) -> Result<(), Fail> {
    let mut facts = facts_of(given.alloc, text)?;
    if let Some(after) = place.checked_sub(facts.len()) {
        push_fact(&mut facts, given.alloc, DRAGGING.get(after).unwrap_or(&""))?;
    } else {
        drop(facts.remove(place));
    }
    told.push_str(" ");
    push_answer(
        told,
        check_closed(given.alloc, given.metadata, given.set, None, &facts),
    );
    Ok(())
}

/// What it answers of the whole list, after it what it answers without each of its facts, and last with each fact that drags others.
struct EachNeeded;

impl Ask for EachNeeded {
    type Set = Setting;

    fn push(told: &mut Text, given: &Given<'_, Setting>, line: &str) -> Result<(), Fail> {
        let text = list_in::<Facts>(line);
        Facts::push_by_setting(told, given, text)?;
        let changed = text.split_whitespace().chain(DRAGGING.iter().copied());
        for (place, _) in changed.enumerate() {
            push_changed(told, given, text, place)?;
        }
        Ok(())
    }
}

static NEEDED: &str = "
a b&dev|b / facts +a a>b:dev +b => yes open open open open open open
a b?;b=dep:b w=b?/j|b;j= / facts +a a/b a/w a>b +b a>b/j b/j => yes open open open open open open open open open open
a b?;b=dep:b w=b?/j|b;j= / nodes a b;w|b;j / facts +a a/w => yes open open open open open
a b!&with=default|b / nodes a b|b;default / facts +a a>b +b b/default => yes open open open open open open open
a b;x=b/nope|b / without b / facts +a a/x => yes open open open open open
a b&dev;x=b/y|b;y= / facts +a a/x a>b:dev +b a>b/y b/y => yes open open open open open open open open open
a d|d@0.9.0|d@0.10.0 / nodes a d@0.9.0 d@0.10.0|d@0.9.0|d@0.10.0 / facts +a a>d@0.9.0 a>d@0.10.0 +d@0.9.0 +d@0.10.0 => yes open open open open open open open open
a b? b&dev;w=b?/j|b;j= / nodes a b&normal&dev;w|b;j / facts +a a/w a>b:dev +b a>b/j b/j => yes open open open open open open open open open
a b?;s=b/k w=b?/j|b;j= k= / facts +a a/s a/w a>b +b a>b/j b/j a>b/k b/k => yes open open open open open open open open open open open open
a;x=nope/y / facts +a a/x => yes open open open open open
a / nodes a;x / facts +a a/x => yes open open open open open
a;f=g g=f / facts +a a/f a/g => yes open open open open open open
a b!|b / facts +a a>b +b => yes open open open open open open
a md-5?;x=md-5/std|md-5&lib=md5;std= / nodes a md-5&as=md5;x|md-5;std / facts +a a/x a>md-5 +md-5 a>md-5/std md-5/std => yes open open open open open open open open open
a real?&as=alias;x=dep:alias|real / facts +a a/x a>real +real => yes open open open open open open open
// a name that means the least of two versions, and both
a d?;x=dep:d|d@0.10.0|d@0.9.0 / nodes a d@0.10.0 d@0.9.0;x|d@0.10.0|d@0.9.0 / facts +a a/x a>d@0.10.0 +d@0.10.0 => yes open open open open open open open
a d?;x=dep:d|d@0.10.0|d@0.9.0 / nodes a d@0.10.0 d@0.9.0;x|d@0.10.0|d@0.9.0 / names all / facts +a a/x a>d@0.10.0 +d@0.10.0 a>d@0.9.0 +d@0.9.0 => yes open open open open open open open open open
// a feature of both, to each of which an edge is kept
a d;x=d?/f|d@0.10.0;f=|d@0.9.0;f= / nodes a d@0.10.0 d@0.9.0;x|d@0.10.0;f|d@0.9.0;f / names all / facts +a a/x a>d@0.10.0 +d@0.10.0 a>d@0.9.0 +d@0.9.0 a>d@0.10.0/f d@0.10.0/f a>d@0.9.0/f d@0.9.0/f => yes open open open open open open open open open open open open open
// every crate needs the other
a b|b a / facts +a a>b +b b>a => yes open open open open open open open
";

static ADDED: &str = "
// a fact that drags others, which aren't there, or are
a b?;b=dep:b w=b?/j|b;j= / nodes a b;w|b;j / facts +a a/w +b => yes
a b?;b=dep:b w=b?/j|b;j= / nodes a b;w|b;j / facts +a a/w a>b => open
a b?;b=dep:b w=b?/j|b;j= / nodes a b;w|b;j / facts +a a/w a>b +b => open
a b?;b=dep:b w=b?/j|b;j= / nodes a b;w|b;j / facts +a a/w a>b +b a>b/j => open
a b?;b=dep:b w=b?/j|b;j= / nodes a b;w|b;j / facts +a a/w a>b +b a>b/j b/j => yes
a b|b|c a / facts +a a>b +b => yes
a b|b|c a / facts +a a>b +b +c => open
a b|b|c a / facts +a a>b +b +c c>a => yes
// facts that can't be derived: what an edge of an ignored kind declares is required too
a b&dev&with=y|b;y= / ignore dev / facts +a => yes
a b&dev&with=y|b;y= / ignore dev / facts +a a>b:dev => open
a b&dev&with=y|b;y= / ignore dev / facts +a a>b:dev +b => open
a b&dev&with=y|b;y= / ignore dev / facts +a a>b:dev +b b/y => yes
// what is closed where a name means the least is open where it means all
a d?;x=dep:d|d@0.10.0|d@0.9.0 / nodes a d@0.10.0 d@0.9.0;x|d@0.10.0|d@0.9.0 / names all / facts +a a/x a>d@0.10.0 +d@0.10.0 => open
// an edge that no node lists gives its crate alone
a|b / facts +a a>b => open
a|b / facts +a a>b +b => yes
// what is lost keeps each list open: a feature, a package, a node, a dependency that isn't declared
a b;x=b/nope|b / facts +a a/x a>b +b => open
a;x=y / nodes a;x / facts +a a/x => open
a b&with=z|b / facts +a a>b +b => open
a b / facts +a a>b +b => open
a b|b / nodes a b / facts +a a>b +b => open
a|b / nodes a b|b / facts +a a>b +b => open
a b|b / nodes / facts +a => open
// except the default feature by use, and what is excluded
a b|b / nodes a b / without b / facts +a => yes
a b|b / without a / facts => yes
// the document isn't admitted
a b|b / no graph / facts +a a>b +b => document
a b|b|b / facts +a a>b +b => document
";

#[test]
fn lists_of_facts(rt: HostRuntime) -> Result<(), Fail> {
    hold_lines::<OfLine<EachNeeded>>(rt.alloc(), NEEDED)?;
    hold_lines::<OfLine<Checked<Facts>>>(rt.alloc(), ADDED)?;
    hold_lines::<OfLine<ByBuilder<Facts>>>(rt.alloc(), ADDED)
}
