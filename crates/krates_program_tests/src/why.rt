//! Runs that write why a crate is kept, instead of a list of the packages. Each of these crates is kept for one reason.

use crate::listing::{Listed, outcome, words_of};
use krates_samples::table::{Row, compare, hold};
use std::test::Fail;

/// Why a crate that the only member needs for its tests is kept.
pub(crate) static STEPS: &str =
    "0 rule 1: crate path+file:///w/a#0.1.0\n1 rule 5: kept path+file:///w/a#0.1.0 -> path+file:///w/b#0.1.0 (dev) from 0\n2 rule 5: crate path+file:///w/b#0.1.0 from 1\n";

static KEPT: &[Row] = &[
    // the first package needs the second for its tests
    (
        "--why path+file:///w/b#0.1.0 < a b&dev|b",
        "0 |0 rule 1: crate path+file:///w/a#0.1.0\n1 rule 5: kept path+file:///w/a#0.1.0 -> path+file:///w/b#0.1.0 (dev) from 0\n2 rule 5: crate path+file:///w/b#0.1.0 from 1\n",
    ),
    (
        "--why path+file:///w/a#0.1.0 < a b&dev|b",
        "0 |0 rule 1: crate path+file:///w/a#0.1.0\n",
    ),
    // an id with the same name, version and source; what is written are the ids of the document
    (
        "--why path+file:///w/b#b@0.1.0 < a b|b",
        "0 |0 rule 1: crate path+file:///w/a#0.1.0\n1 rule 5: kept path+file:///w/a#0.1.0 -> path+file:///w/b#0.1.0 from 0\n2 rule 5: crate path+file:///w/b#0.1.0 from 1\n",
    ),
    // on some targets, and for the build
    (
        "--why path+file:///w/b#0.1.0 < a b&build&on=cfg(unix)|b",
        "0 |0 rule 1: crate path+file:///w/a#0.1.0\n1 rule 5: kept path+file:///w/a#0.1.0 -> path+file:///w/b#0.1.0 (build) 'cfg(unix)' from 0\n2 rule 5: crate path+file:///w/b#0.1.0 from 1\n",
    ),
    // an enabled feature requires it
    (
        "--why path+file:///w/b#0.1.0 < a b?;x=dep:b|b",
        "0 |0 rule 1: feature x of path+file:///w/a#0.1.0\n1 rule 4: kept path+file:///w/a#0.1.0 -> path+file:///w/b#0.1.0 from 0\n2 rule 5: crate path+file:///w/b#0.1.0 from 1\n",
    ),
    // over another crate
    (
        "--why path+file:///w/c#0.1.0 < a b|b c|c",
        "0 |0 rule 1: crate path+file:///w/a#0.1.0\n1 rule 5: kept path+file:///w/a#0.1.0 -> path+file:///w/b#0.1.0 from 0\n2 rule 5: crate path+file:///w/b#0.1.0 from 1\n3 rule 5: kept path+file:///w/b#0.1.0 -> path+file:///w/c#0.1.0 from 2\n4 rule 5: crate path+file:///w/c#0.1.0 from 3\n",
    ),
];

static NOT_KEPT: &[Row] = &[
    // a package that no crate needs, one that isn't there, and its id as it is asked about
    (
        "--why path+file:///w/c#0.1.0 < a b|b|c",
        "1 refused: not kept: path+file:///w/c#0.1.0\n|",
    ),
    (
        "--why path+file:///w/a#0.2.0 < a b|b",
        "1 refused: not kept: path+file:///w/a#0.2.0\n|",
    ),
    (
        "--why path+file:///w/c#c@0.1.0 < a b|b|c",
        "1 refused: not kept: path+file:///w/c#c@0.1.0\n|",
    ),
    // what can't be built is refused as that
    (
        "--why path+file:///w/c#0.1.0 < a b|b / nodes",
        "1 refused: lost node: path+file:///w/a#0.1.0\n|",
    ),
    (
        "--why path+file:///w/c#0.1.0 < / members / no graph",
        "1 refused: no resolution graph was provided\n|",
    ),
];

static UNDER_OPTIONS: &[Row] = &[
    (
        "--ignore-kind dev --why path+file:///w/b#0.1.0 < a b&dev|b",
        "1 refused: not kept: path+file:///w/b#0.1.0\n|",
    ),
    (
        "--exclude b --why path+file:///w/b#0.1.0 < a b|b",
        "1 refused: not kept: path+file:///w/b#0.1.0\n|",
    ),
    (
        "--target x86_64-pc-windows-msvc --why path+file:///w/b#0.1.0 < a b&on=cfg(unix)|b",
        "1 refused: not kept: path+file:///w/b#0.1.0\n|",
    ),
    (
        "--target x86_64-unknown-linux-gnu --why path+file:///w/b#0.1.0 < a b&on=cfg(unix)|b",
        "0 |0 rule 1: crate path+file:///w/a#0.1.0\n1 rule 5: kept path+file:///w/a#0.1.0 -> path+file:///w/b#0.1.0 'cfg(unix)' from 0\n2 rule 5: crate path+file:///w/b#0.1.0 from 1\n",
    ),
    // two members, of which the first is the root
    (
        "--why path+file:///w/b#0.1.0 < a|b / members a b / root a",
        "1 refused: not kept: path+file:///w/b#0.1.0\n|",
    ),
    (
        "--workspace --why path+file:///w/b#0.1.0 < a|b / members a b / root a",
        "0 |0 rule 1: crate path+file:///w/b#0.1.0\n",
    ),
    // a feature enables a dependency by a name that two versions match
    (
        "--why path+file:///w/d#d@0.9.0 < a d?;x=dep:d|d@0.10.0|d@0.9.0 / nodes a d@0.10.0 d@0.9.0;x|d@0.10.0|d@0.9.0",
        "1 refused: not kept: path+file:///w/d#d@0.9.0\n|",
    ),
    (
        "--why path+file:///w/d#d@0.9.0 --all-named < a d?;x=dep:d|d@0.10.0|d@0.9.0 / nodes a d@0.10.0 d@0.9.0;x|d@0.10.0|d@0.9.0",
        "0 |0 rule 1: feature x of path+file:///w/a#0.1.0\n1 rule 4: kept path+file:///w/a#0.1.0 -> path+file:///w/d#d@0.9.0 from 0\n2 rule 5: crate path+file:///w/d#d@0.9.0 from 1\n",
    ),
];

static LAST_COUNTS: &[Row] = &[
    (
        "--why path+file:///w/b#0.1.0 --why path+file:///w/a#0.1.0 < a b&dev|b",
        "0 |0 rule 1: crate path+file:///w/a#0.1.0\n",
    ),
    (
        "--why path+file:///w/c#0.1.0 --why path+file:///w/a#0.1.0 < a b&dev|b",
        "0 |0 rule 1: crate path+file:///w/a#0.1.0\n",
    ),
    (
        "--why path+file:///w/a#0.1.0 --why path+file:///w/c#0.1.0 < a b&dev|b",
        "1 refused: not kept: path+file:///w/c#0.1.0\n|",
    ),
];

#[test]
fn writes_why_a_crate_is_kept_or_that_it_is_not(rt: HostRuntime) -> Result<(), Fail> {
    hold::<Listed>(rt.alloc(), KEPT)?;
    hold::<Listed>(rt.alloc(), NOT_KEPT)?;
    hold::<Listed>(rt.alloc(), UNDER_OPTIONS)?;
    hold::<Listed>(rt.alloc(), LAST_COUNTS)
}

#[test]
fn explains_nothing_of_what_is_not_utf_8(rt: HostRuntime) -> Result<(), Fail> {
    let words = words_of(rt.alloc(), "--why path+file:///w/a#0.1.0")?;
    let told = outcome(rt.alloc(), words.as_slice(), [0xffu8].as_slice())?;
    compare("\\xff", told.as_str(), "1 refused: input is not UTF-8\n|")
}
