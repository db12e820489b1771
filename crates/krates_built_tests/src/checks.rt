//! What the checkers say of steps and of lists of facts about a build of a small document.

use crate::builds::Told;
use crate::of_build::{OfBuild, OfDerived, OfProgram, OfTables, ToldOfDerived, ToldOfTables};
use krates_build_checkers::{BuildCheckError, check_built, check_built_closed};
use krates_build_facts::{BuildFact, BuildStep, PlacementNumber, PlatformNumber, UnitPlace};
use krates_build_tables::{LinkPlace, TargetPlace};
use krates_grounding::Derived;
use krates_samples::table::hold_lines;
use krates_text::text::Text;
use krates_units::{Meeting, Mode, Side};
use std::alloc::{AllocError, Global};
use std::test::Fail;

/// Steps about the one program: of each the facts that it follows from, and last the fact that it gives.
static STEPS: &str = "
met => accepted
met/met linked/linked other => accepted
// what is asked for, and what it needs
met/met linked/unit/unit linked needed/needed library => accepted
 => empty derivation
// `b` is no root
root => step 0 does not follow
// nobody gave that `a` is met
met linked => step 0 does not follow
met/unit/unit linked needed => step 2 does not follow
// the rule wants a premise more, one less, or another one
met/linked => step 1 does not follow
met/active/met active linked => step 2 does not follow
active/active linked => step 1 does not follow
// in another order
met/met linked/unit/linked unit needed => step 3 does not follow
// it is given already
met/met => step 1 does not follow
// no rule leads from there to it
met/met linked/met other => step 2 does not follow
";

/// Lists of facts about it: all that follow are nine.
static LISTS: &str = "
met active unit linked other used below needed library => closed
// nor does the order matter, or a fact more that leads to no other
library needed below used other linked unit active met root => closed
// without any of them
 => open list
active unit linked other used below needed library => open list
met unit linked other used below needed library => open list
met active linked other used below needed library => open list
met active unit other used below needed library => open list
met active unit linked used below needed library => open list
met active unit linked other below needed library => open list
met active unit linked other used needed library => open list
met active unit linked other used below library => open list
met active unit linked other used below needed => open list
";

/// A document and what is asked for: what is derived is closed, and each fact's own steps are accepted.
static DERIVED: &str = "
a b?;x=dep:b|b / targets a:bin b:lib / build 2 features=x => closed
a b&build c|b|c;f= / targets a:bin,custom-build b:lib c:lib / build 2 target=windows features=c/f => closed
a b|b / targets a:bin,custom-build b:lib,custom-build,links / build 2 => closed
";

/// The only link.
const LINK: LinkPlace = LinkPlace { krate: 0, index: 0 };

/// The first target of a crate, compiled for the machine.
fn unit_of(krate: usize) -> UnitPlace {
    UnitPlace {
        target: TargetPlace { krate, index: 0 },
        mode: Mode::Build,
        placement: PlacementNumber {
            platform: PlatformNumber::Machine(0),
            side: Side::Targets,
        },
    }
}

/// The fact of a word.
fn fact_of<'a>(word: &str) -> BuildFact<'a> {
    match word {
        "met" => BuildFact::Met(0, Meeting::Root),
        "active" => BuildFact::Activated(0, Side::Targets),
        "unit" => BuildFact::Compiled(unit_of(0)),
        "linked" => BuildFact::Linked(LINK),
        "other" => BuildFact::Met(1, Meeting::Dependency),
        "used" => BuildFact::Used(LINK, Side::Targets),
        "below" => BuildFact::Activated(1, Side::Targets),
        "needed" => BuildFact::Needed(LINK, PlatformNumber::Machine(0), unit_of(1)),
        "library" => BuildFact::Compiled(unit_of(1)),
        _ => BuildFact::Met(1, Meeting::Root),
    }
}

/// The facts of words.
fn facts_of<'a>(alloc: Global, words: &str) -> Result<Vec<BuildFact<'a>>, AllocError> {
    let mut facts = Vec::new(alloc);
    for word in words.split(' ') {
        if !word.is_empty() {
            facts.push(fact_of(word))?;
        }
    }
    Ok(facts)
}

/// The step of words, of which the last is the fact that it gives.
fn step_by<'a>(alloc: Global, words: &str) -> Result<BuildStep<'a>, AllocError> {
    let mut premises = facts_of(alloc, words)?;
    let fact = premises.pop().unwrap_or(fact_of(""));
    Ok(BuildStep { premises, fact })
}

/// The steps of a line.
fn steps_by<'a>(alloc: Global, line: &str) -> Result<Vec<BuildStep<'a>>, AllocError> {
    let mut steps = Vec::new(alloc);
    for words in line.split('/') {
        if !words.is_empty() {
            steps.push(step_by(alloc, words)?)?;
        }
    }
    Ok(steps)
}

/// Writes what a checker says.
fn push_said(told: &mut Text, said: Result<(), BuildCheckError>, accepted: &str) {
    match said {
        Ok(()) => told.push_str(accepted),
        Err(error) => write!(told, "{error}"),
    }
}

/// What the checker says of steps.
struct Steps;

impl ToldOfTables for Steps {
    fn push(told: &mut Text, of: Told<'_, '_>, line: &str) -> Result<(), Fail> {
        let steps = steps_by(told.allocator(), line)?;
        let said = check_built(told.allocator(), of.tables, &steps);
        push_said(told, said, "accepted");
        Ok(())
    }
}

/// What the checker says of lists of facts.
struct Lists;

impl ToldOfTables for Lists {
    fn push(told: &mut Text, of: Told<'_, '_>, line: &str) -> Result<(), Fail> {
        let facts = facts_of(told.allocator(), line)?;
        let said = check_built_closed(told.allocator(), of.tables, &facts);
        push_said(told, said, "closed");
        Ok(())
    }
}

/// Writes why the steps of a fact aren't accepted.
fn push_refused<'a>(
    told: &mut Text,
    derived: &Derived<'a>,
    fact: &BuildFact<'a>,
) -> Result<(), Fail> {
    let alloc = told.allocator();
    let steps = derived.why(alloc, fact)?.ok_or("it doesn't follow")?;
    push_said(told, check_built(alloc, derived.tables(), &steps), "");
    Ok(())
}

/// What the checkers say of what is derived of a build.
struct Answers;

impl ToldOfDerived for Answers {
    fn push<'a>(
        told: &mut Text,
        of: Told<'a, '_>,
        derived: &Derived<'a>,
        facts: &[BuildFact<'a>],
    ) -> Result<(), Fail> {
        for fact in facts {
            push_refused(told, derived, fact)?;
        }
        let said = check_built_closed(told.allocator(), of.tables, facts);
        push_said(told, said, "closed");
        Ok(())
    }
}

#[test]
fn steps_are_checked(rt: HostRuntime) -> Result<(), Fail> {
    hold_lines::<OfProgram<OfTables<Steps>>>(rt.alloc(), STEPS)
}

#[test]
fn lists_of_facts_are_checked(rt: HostRuntime) -> Result<(), Fail> {
    hold_lines::<OfProgram<OfTables<Lists>>>(rt.alloc(), LISTS)
}

#[test]
fn what_is_derived_is_accepted(rt: HostRuntime) -> Result<(), Fail> {
    hold_lines::<OfBuild<OfDerived<Answers>>>(rt.alloc(), DERIVED)
}
