//! Why units are compiled, in a build of a small document.

use crate::builds::Told;
use crate::of_build::{OfBuild, OfDerived, ToldOfDerived};
use krates_build_facts::{BuildFact, BuildStep};
use krates_grounding::Derived;
use krates_samples::table::hold_lines;
use krates_text::text::Text;
use krates_units::Meeting;
use std::alloc::{AllocError, Global};
use std::test::Fail;

/// A document, and what is asked for; and how many steps derive each unit.
static WHY: &str = "
// what is asked for needs no other
a / targets a:bin / build 2 => 1, $
// a is met, its dependency exists, a is compiled, it needs b, b is compiled
a b|b / targets a:bin b:lib / build 2 => 1, 5, $
// and on either layer: x is asked for, it is enabled, it lists b, b is turned on
a b?;x=dep:b|b / targets a:bin b:lib / build 2 features=x => 1, 13, $
// each has its own
a b|b c|c / targets a:bin b:lib c:lib / build 2 => 1, 5, 9, $
";

/// Whether one of these steps gives the fact.
fn is_given(fact: &BuildFact<'_>, steps: &[BuildStep<'_>]) -> bool {
    for step in steps {
        if step.fact == *fact {
            return true;
        }
    }
    false
}

/// Whether each of these facts is given by one of the steps.
fn are_given(facts: &[BuildFact<'_>], steps: &[BuildStep<'_>]) -> bool {
    for fact in facts {
        if !is_given(fact, steps) {
            return false;
        }
    }
    true
}

/// Whether what each step needs is given by one before it.
fn are_in_order(steps: &[BuildStep<'_>]) -> bool {
    for (place, step) in steps.iter().enumerate() {
        if !are_given(&step.premises, &steps[..place]) {
            return false;
        }
    }
    true
}

/// Writes how many steps derive a unit.
fn push_why<'a>(told: &mut Text, derived: &Derived<'a>, fact: &BuildFact<'a>) -> Result<(), Fail> {
    if let BuildFact::Compiled(_) = fact {
        let steps = derived
            .why(told.allocator(), fact)?
            .ok_or("it doesn't follow")?;
        let order = if are_in_order(&steps) {
            ""
        } else {
            " in disorder"
        };
        write!(told, "{}{order}, ", steps.len());
    }
    Ok(())
}

/// Whether there are steps to this fact.
fn has_steps<'a>(
    alloc: Global,
    derived: &Derived<'a>,
    fact: &BuildFact<'a>,
) -> Result<bool, AllocError> {
    let found = derived.why(alloc, fact)?;
    Ok(found.is_some())
}

/// How many steps derive each unit of a build.
struct Why;

impl ToldOfDerived for Why {
    fn push<'a>(
        told: &mut Text,
        _of: Told<'a, '_>,
        derived: &Derived<'a>,
        facts: &[BuildFact<'a>],
    ) -> Result<(), Fail> {
        for fact in facts {
            push_why(told, derived, fact)?;
        }
        if has_steps(told.allocator(), derived, &BuildFact::Met(9, Meeting::Root))? {
            told.push_str("a crate that isn't there is met");
        }
        Ok(())
    }
}

#[test]
fn units_follow_by_steps(rt: HostRuntime) -> Result<(), Fail> {
    hold_lines::<OfBuild<OfDerived<Why>>>(rt.alloc(), WHY)
}
