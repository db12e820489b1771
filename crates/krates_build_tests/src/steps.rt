//! The steps by which what is selected was found, in numbers of the document.

use crate::of_selection::{OfSelection, ToldOfSelection};
use krates_resolve::{NumberedFact, Selection};
use krates_samples::table::hold_lines;
use krates_text::text::Text;
use std::test::Fail;

/// Adds a fact by its numbers.
fn push_fact(text: &mut Text, fact: NumberedFact) {
    match fact {
        NumberedFact::Crate { place } => write!(text, "crate {}", place.index),
        NumberedFact::Feature { number } => write!(text, "feature {number}"),
        NumberedFact::Kept { place, index, kind } => {
            write!(text, "edge {}.{index}.{kind}", place.index)
        }
        NumberedFact::Toggled { place, number } => {
            write!(text, "toggled {number} by {}", place.index)
        }
    }
}

/// Adds a step that is used, where there is one.
fn push_use(text: &mut Text, used: Option<usize>) {
    if let Some(step) = used {
        write!(text, " <{step}");
    }
}

/// The steps of a selection in order, each with the number of its rule, its fact and what it uses.
struct Stepped;

impl ToldOfSelection for Stepped {
    fn push(told: &mut Text, selection: &Selection) {
        for step in selection.steps.as_slice() {
            write!(told, "{} ", step.reason.rule);
            push_fact(told, step.fact);
            push_use(told, step.reason.uses.first);
            push_use(told, step.reason.uses.second);
            told.push_str("; ");
        }
    }
}

static STEPS: &str = "
// the root, the edge that it needs, and the crate that this leads to
a b|b => 1 crate 0; 5 edge 0.0.0 <0; 5 crate 1 <1; $
// the same, where the dependency is listed twice for the same
a b|b / nodes a b&normal&normal|b => 1 crate 0; 5 edge 0.0.0 <0; 5 crate 1 <1; $
// a feature that the declared dependency lists, and one that this names
a b&with=x|b;x=y y= => 1 crate 0; 5 edge 0.0.0 <0; 5 crate 1 <1; 6 feature 0 <1; 3 feature 1 <3; $
// a feature requires an optional edge, and over that another enables `j` weakly
a b?;b=dep:b w=b?/j|b;j= => 1 crate 0; 1 feature 0; 1 feature 1; 4 edge 0.0.0 <1; 5 crate 1 <3; 7 toggled 2 by 0 <2 <3; 7 feature 2 <5; $
// the same, where the weak reference comes first and waits
a b?;a=b?/j b=dep:b|b;j= => 1 crate 0; 1 feature 0; 1 feature 1; 4 edge 0.0.0 <2; 5 crate 1 <3; 7 toggled 2 by 0 <1 <3; 7 feature 2 <5; $
// a strong reference requires the edge itself
a b?;s=b/j|b;j= => 1 crate 0; 1 feature 0; 4 edge 0.0.0 <1; 5 crate 1 <2; 4 toggled 1 by 0 <1 <2; 7 feature 1 <4; $
// a strong reference to a dependency whose edge is kept already
a b;s=b/j|b;j= => 1 crate 0; 1 feature 0; 5 edge 0.0.0 <0; 5 crate 1 <2; 4 toggled 1 by 0 <1 <2; 7 feature 1 <4; $
";

#[test]
fn steps_of_selections(rt: HostRuntime) -> Result<(), Fail> {
    hold_lines::<OfSelection<Stepped>>(rt.alloc(), STEPS)
}
