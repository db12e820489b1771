//! Why `cargo krates` doesn't answer by what cargo builds.

use crate::by_build::answered::Answered;
use krates_samples::table::{Row, hold};
use std::test::Fail;

/// Requests, documents and names that are refused.
static REFUSED: &[Row] = &[
    (
        "list -p c < a|b / targets a:bin b:lib",
        "refused: no package fits `c`",
    ),
    (
        "list -F x < a / targets a:bin",
        "refused: no package that is asked for has the feature `x`",
    ),
    (
        "list < a b|b / nodes a|b / targets a:bin b:lib",
        "refused: the document has no edge for `b`, on which path+file:///w/a#0.1.0 depends\nask cargo for the document with --all-features and the --features of the build",
    ),
    (
        "list < a / no graph / targets a:bin",
        "refused: no resolution graph was provided; `cargo metadata --format-version 1` writes one, without --no-deps",
    ),
    (
        "why c < a|b / targets a:bin b:lib",
        "refused: no package fits `c`",
    ),
    (
        "why b < a|b / targets a:bin b:lib",
        "refused: cargo doesn't build `b`, which means:\n    b@0.1.0",
    ),
];

/// Words that these rules don't know.
static WORDS: &[Row] = &[
    (
        "list --exclude b < a|b / targets a:bin b:lib",
        "error: '--exclude <SPEC>' is known by krates alone: write '--by krates' too; by build, name by '--package <SPEC>' what is built\n\nFor more information, try '--help'.\n",
    ),
    (
        "list -e no-dev < a / targets a:bin",
        "error: '--edges <KINDS>' is known by krates alone: write '--by krates' too; by build, dev dependencies count where '--tests', '--examples', '--benches' or '--all-targets' asks for them\n\nFor more information, try '--help'.\n",
    ),
    (
        "list --resolver 4 < a / targets a:bin",
        "error: invalid value '4' for '--resolver <VERSION>'\n  [possible values: 1, 2, 3]\n\nFor more information, try '--help'.\n",
    ),
    (
        "list -p a@ < a / targets a:bin",
        "error: invalid value 'a@' for '--package <SPEC>': package spec cannot end with ':'\n\nFor more information, try '--help'.\n",
    ),
    (
        "list --host @x < a / targets a:bin",
        "error: invalid value '@x' for '--host <TRIPLE>': it can't begin with '@' or '-'\n\nFor more information, try '--help'.\n",
    ),
    (
        "list --by build --all-named < a / targets a:bin",
        "error: '--all-named' is known by krates alone: write '--by krates' too; by build, names mean what they mean to cargo\n\nFor more information, try '--help'.\n",
    ),
    (
        "list --cfg f < a / targets a:bin",
        "error: '--cfg <FILE>' stands more often than '--target <TRIPLE>': each file describes the target in its place\n\nFor more information, try '--help'.\n",
    ),
];

#[test]
fn requests_are_refused(rt: HostRuntime) -> Result<(), Fail> {
    hold::<Answered>(rt.alloc(), REFUSED)
}

#[test]
fn words_are_refused(rt: HostRuntime) -> Result<(), Fail> {
    hold::<Answered>(rt.alloc(), WORDS)
}
