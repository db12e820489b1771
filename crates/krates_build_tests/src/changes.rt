//! Lists of steps that are changed step by step: each change leaves a step that doesn't follow, and it is the first.

use crate::lists::{Ask, Given, List, OfLine, Steps, list_in};
use krates_checkers::{CheckError, check};
use krates_document::Setting;
use krates_samples::facts::steps_of;
use krates_samples::table::hold_lines;
use krates_text::text::Text;
use std::test::Fail;

/// What is changed in a step.
#[derive(Clone, Copy)]
enum Change {
    /// It has the number of the next rule.
    Rule,
    /// Its fact is about a crate that the document lacks.
    Crate,
    /// It uses itself.
    Later,
    /// It uses the first step too.
    More,
    /// Its two uses are swapped.
    Swapped,
}

/// All changes.
static CHANGES: &[Change] = &[
    Change::Rule,
    Change::Crate,
    Change::Later,
    Change::More,
    Change::Swapped,
];

/// Adds a step with this number after the change.
fn push_changed(text: &mut Text, step: &str, number: usize, change: Change) -> Result<(), Fail> {
    let (rule, rest) = step.trim().split_once(' ').unwrap_or((step, ""));
    let (fact, uses) = rest.split_once(' ').unwrap_or((rest, ""));
    let (first, second) = uses.split_once(' ').unwrap_or((uses, ""));
    match change {
        Change::Rule => write!(text, "{} {fact} {uses};", rule.parse::<u8>()? % 7 + 1),
        Change::Crate => match fact.strip_prefix("+") {
            Some(krate) => write!(text, "{rule} +z{krate} {uses};"),
            None => write!(text, "{rule} z{fact} {uses};"),
        },
        Change::Later => write!(text, "{rule} {fact} {number} {second};"),
        Change::More => write!(text, "{rule} {fact} {uses} 0;"),
        Change::Swapped => write!(text, "{rule} {fact} {second} {first};"),
    }
    Ok(())
}

/// Adds the steps with the one of this number changed.
fn push_steps(text: &mut Text, steps: &str, number: usize, change: Change) -> Result<(), Fail> {
    for (place, step) in steps.split(';').enumerate() {
        if place == number {
            push_changed(text, step, number, change)?;
        } else {
            write!(text, "{step};");
        }
    }
    Ok(())
}

/// Whether this change of the step with this number is refused for that step.
fn is_refused(
    given: &Given<'_, Setting>,
    steps: &str,
    number: usize,
    change: Change,
) -> Result<bool, Fail> {
    let mut text = Text::new(given.alloc);
    push_steps(&mut text, steps, number, change)?;
    let derivation = steps_of(given.alloc, text.whole()?.as_str())?;
    let answer = check(given.alloc, given.metadata, given.set, None, &derivation);
    Ok(answer == Err(CheckError::Step(number)))
}

/// How many changes of the step with this number are refused for that step.
fn refused(given: &Given<'_, Setting>, steps: &str, number: usize) -> Result<usize, Fail> {
    let mut count = 0usize;
    for &change in CHANGES {
        if is_refused(given, steps, number, change)? {
            count = count.saturating_add(1);
        }
    }
    Ok(count)
}

/// What the check answers of the list, and of each step how many of its changes are refused for it.
struct EachChanged;

impl Ask for EachChanged {
    type Set = Setting;

    fn push(told: &mut Text, given: &Given<'_, Setting>, line: &str) -> Result<(), Fail> {
        let steps = list_in::<Steps>(line);
        Steps::push_by_setting(told, given, steps)?;
        for (number, _) in steps.split(';').enumerate() {
            write!(told, " {}", refused(given, steps, number)?);
        }
        Ok(())
    }
}

// A step with one use, or none, is the same with its uses swapped: four of its changes are refused, and five of one with two uses.
static CHANGED: &str = "
// a crate that is needed for tests
a b&dev|b / steps 1 +a; 5 a>b:dev 0; 5 +b 1 => yes 4 4 4
// a weak reference over an edge that another feature keeps, and one that keeps none
a b?;b=dep:b w=b?/j|b;j= / steps 1 +a; 1 a/b; 1 a/w; 4 a>b 1; 5 +b 3; 7 a>b/j 2 3; 7 b/j 5 => yes 4 4 4 4 4 5 4
a b?;b=dep:b w=b?/j|b;j= / nodes a b;w|b;j / steps 1 +a; 1 a/w; 2 +a 1 => yes 4 4 4
// the default feature by the list and by use
a b!&with=default|b / nodes a b|b;default / steps 1 +a; 5 a>b 0; 6 b/default 1; 2 +b 2 => yes 4 4 4 4
// a reference to what the child doesn't list, and the same where the child is excluded
a b;x=b/nope|b / steps 1 +a; 1 a/x; 5 a>b 0; 4 a>b 1; 5 +b 3 => yes 4 4 4 4 4
a b;x=b/nope|b / without b / steps 1 a/x; 2 +a 0 => yes 4 4
// a strong reference over an edge for tests
a b&dev;x=b/y|b;y= / steps 1 +a; 1 a/x; 4 a>b:dev 1; 5 +b 2; 4 a>b/y 1 2; 7 b/y 4 => yes 4 4 4 4 5 4
// two versions of one dependency
a d|d@0.9.0|d@0.10.0 / nodes a d@0.9.0 d@0.10.0|d@0.9.0|d@0.10.0 / steps 1 +a; 5 a>d@0.10.0 0; 5 +d@0.10.0 1; 5 a>d@0.9.0 0; 5 +d@0.9.0 3 => yes 4 4 4 4 4
// an edge of another kind that is always kept
a b? b&dev;w=b?/j|b;j= / nodes a b&normal&dev;w|b;j / steps 1 +a; 1 a/w; 5 a>b:dev 0; 5 +b 2; 7 a>b/j 1 2; 7 b/j 4 => yes 4 4 4 4 5 4
// a strong reference beside a weak one
a b?;s=b/k w=b?/j|b;j= k= / steps 1 +a; 1 a/s; 1 a/w; 4 a>b 1; 4 a>b/k 1 3; 7 b/k 4; 7 a>b/j 2 3; 7 b/j 6 => yes 4 4 4 4 5 4 5 4
// a reference that means no dependency, and features that name each other
a;x=nope/y / steps 1 +a; 1 a/x; 2 +a 1 => yes 4 4 4
a;f=g g=f / steps 1 +a; 1 a/f; 3 a/g 1; 3 a/f 2 => yes 4 4 4 4
// a listed feature that names one that isn't listed, and one that the manifest lacks
a;x=y / nodes a;x / steps 1 +a; 1 a/x; 2 +a 1 => yes 4 4 4
a / nodes a;x / steps 1 +a; 1 a/x; 2 +a 1 => yes 4 4 4
// a feature that the crate doesn't list, and the default feature that it doesn't
a b&with=z|b / steps 1 +a; 5 a>b 0; 5 +b 1 => yes 4 4 4
a b!|b / steps 1 +a; 5 a>b 0; 5 +b 1 => yes 4 4 4
// a dependency that is known by the name of its library, and one that is renamed
a md-5?;x=md-5/std|md-5&lib=md5;std= / nodes a md-5&as=md5;x|md-5;std / steps 1 +a; 1 a/x; 4 a>md-5 1; 5 +md-5 2; 4 a>md-5/std 1 2; 7 md-5/std 4 => yes 4 4 4 4 5 4
a real?&as=alias;x=dep:alias|real / steps 1 +a; 1 a/x; 4 a>real 1; 5 +real 2 => yes 4 4 4 4
";

#[test]
fn each_change_is_refused(rt: HostRuntime) -> Result<(), Fail> {
    hold_lines::<OfLine<EachChanged>>(rt.alloc(), CHANGED)
}
