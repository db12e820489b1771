//! What is printed of facts, of steps and of derivations, in the small language of facts (`krates_samples::facts`).

use krates_rules::Fact;
use krates_samples::facts::{facts_of, steps_of};
use krates_samples::table::{Row, Tell, hold};
use krates_text::text::Text;
use std::fmt;
use std::test::Fail;

/// Adds what is printed of each, with a line feed after it.
fn push_lines<T: fmt::Display>(told: &mut Text, all: &[T]) {
    for it in all {
        writeln!(told, "{it}");
    }
}

/// The facts of a line.
struct Facts;

impl Tell for Facts {
    fn tell(told: &mut Text, line: &str) -> Result<(), Fail> {
        let facts = facts_of(told.allocator(), line)?;
        push_lines::<Fact>(told, &facts);
        Ok(())
    }
}

static FACTS: &[Row] = &[
    ("+a", "crate path+file:///w/a#0.1.0\n"),
    ("a/w", "feature w of path+file:///w/a#0.1.0\n"),
    // a kept edge: of each kind, and for a target
    (
        "a>b",
        "kept path+file:///w/a#0.1.0 -> path+file:///w/b#0.1.0\n",
    ),
    (
        "a>b:build",
        "kept path+file:///w/a#0.1.0 -> path+file:///w/b#0.1.0 (build)\n",
    ),
    (
        "a>b:dev",
        "kept path+file:///w/a#0.1.0 -> path+file:///w/b#0.1.0 (dev)\n",
    ),
    (
        "a>b::cfg(unix)",
        "kept path+file:///w/a#0.1.0 -> path+file:///w/b#0.1.0 'cfg(unix)'\n",
    ),
    (
        "b>a:dev:x86_64-pc-windows-msvc",
        "kept path+file:///w/b#0.1.0 -> path+file:///w/a#0.1.0 (dev) 'x86_64-pc-windows-msvc'\n",
    ),
    // of a toggled feature its crate comes first
    (
        "a>b/j",
        "toggled j of path+file:///w/b#0.1.0 by path+file:///w/a#0.1.0\n",
    ),
    // several
    (
        "+b b/j",
        "crate path+file:///w/b#0.1.0\nfeature j of path+file:///w/b#0.1.0\n",
    ),
];

/// The steps of a line, without their numbers.
struct Steps;

impl Tell for Steps {
    fn tell(told: &mut Text, line: &str) -> Result<(), Fail> {
        let derivation = steps_of(told.allocator(), line)?;
        push_lines(told, &derivation.steps);
        Ok(())
    }
}

static STEPS: &[Row] = &[
    // a step that uses nothing, one step, two, and three
    ("1 +a", "rule 1: crate path+file:///w/a#0.1.0\n"),
    ("5 +b 1", "rule 5: crate path+file:///w/b#0.1.0 from 1\n"),
    (
        "7 a>b/j 1 0",
        "rule 7: toggled j of path+file:///w/b#0.1.0 by path+file:///w/a#0.1.0 from 1, 0\n",
    ),
    (
        "4 a>b:build 9 10 255",
        "rule 4: kept path+file:///w/a#0.1.0 -> path+file:///w/b#0.1.0 (build) from 9, 10, 255\n",
    ),
];

/// The derivation of a line.
struct Printed;

impl Tell for Printed {
    fn tell(told: &mut Text, line: &str) -> Result<(), Fail> {
        let derivation = steps_of(told.allocator(), line)?;
        write!(told, "{derivation}");
        Ok(())
    }
}

static PRINTED: &[Row] = &[
    ("", ""),
    // two steps
    (
        "1 +a; 1 a/w",
        "0 rule 1: crate path+file:///w/a#0.1.0\n1 rule 1: feature w of path+file:///w/a#0.1.0\n",
    ),
    // a crate that is needed for tests
    (
        "1 +a; 5 a>b:dev 0; 5 +b 1",
        "0 rule 1: crate path+file:///w/a#0.1.0\n1 rule 5: kept path+file:///w/a#0.1.0 -> path+file:///w/b#0.1.0 (dev) from 0\n2 rule 5: crate path+file:///w/b#0.1.0 from 1\n",
    ),
    // a reference over an edge: the crate whose feature is enabled comes first
    (
        "1 a/w; 4 a>b 0; 7 a>b/j 0 1; 7 b/j 2",
        "0 rule 1: feature w of path+file:///w/a#0.1.0\n1 rule 4: kept path+file:///w/a#0.1.0 -> path+file:///w/b#0.1.0 from 0\n2 rule 7: toggled j of path+file:///w/b#0.1.0 by path+file:///w/a#0.1.0 from 0, 1\n3 rule 7: feature j of path+file:///w/b#0.1.0 from 2\n",
    ),
    // targets, with and without a kind
    (
        "5 a>b::cfg(unix); 5 a>b:build:x86_64-pc-windows-msvc",
        "0 rule 5: kept path+file:///w/a#0.1.0 -> path+file:///w/b#0.1.0 'cfg(unix)'\n1 rule 5: kept path+file:///w/a#0.1.0 -> path+file:///w/b#0.1.0 (build) 'x86_64-pc-windows-msvc'\n",
    ),
    // numbers of two digits and more
    (
        "10 +a 9 10 255",
        "0 rule 10: crate path+file:///w/a#0.1.0 from 9, 10, 255\n",
    ),
];

#[test]
fn facts_steps_and_derivations_are_printed(rt: HostRuntime) -> Result<(), Fail> {
    hold::<Facts>(rt.alloc(), FACTS)?;
    hold::<Steps>(rt.alloc(), STEPS)?;
    hold::<Printed>(rt.alloc(), PRINTED)
}
