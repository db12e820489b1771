//! Which crate a word of `cargo krates` means, and words that can't be answered.

use crate::asked::{Answered, CargoTold};
use krates_samples::table::{Row, hold};
use std::test::Fail;

/// Which crate a word means.
static NAMES: &[Row] = &[
    (
        "why b@0.1.0 < a b|b",
        "b v0.1.0 (/w/b) is kept:\n  a v0.1.0 is a root\n  a v0.1.0 needs b v0.1.0\n",
    ),
    (
        "why path+file:///w/b#0.1.0 < a b|b",
        "b v0.1.0 (/w/b) is kept:\n  a v0.1.0 is a root\n  a v0.1.0 needs b v0.1.0\n",
    ),
    (
        "why file:///w/b#0.1.0 < a b|b",
        "b v0.1.0 (/w/b) is kept:\n  a v0.1.0 is a root\n  a v0.1.0 needs b v0.1.0\n",
    ),
    // an id with an escape, as cargo prints it and as the steps do
    (
        "why git+https://h/r?branch=x%2Fy#b@0.1.0 < a b&id=git+https://h/r?branch=x%2Fy#b@0.1.0|b&id=git+https://h/r?branch=x%2Fy#b@0.1.0",
        "b v0.1.0 (/w/b) is kept:\n  a v0.1.0 is a root\n  a v0.1.0 needs b v0.1.0\n",
    ),
    (
        "why git+https://h/r?branch=x/y#b@0.1.0 < a b&id=git+https://h/r?branch=x%2Fy#b@0.1.0|b&id=git+https://h/r?branch=x%2Fy#b@0.1.0",
        "b v0.1.0 (/w/b) is kept:\n  a v0.1.0 is a root\n  a v0.1.0 needs b v0.1.0\n",
    ),
    (
        "why b~0.1.0~(path+file:///w/b) < a b&id=b~0.1.0~(path+file:///w/b)|b&id=b~0.1.0~(path+file:///w/b)",
        "b v0.1.0 (/w/b) is kept:\n  a v0.1.0 is a root\n  a v0.1.0 needs b v0.1.0\n",
    ),
    // the first numbers of a version, as cargo's `--package` takes them; a pre-release must be named in full
    (
        "why b@0.1 < a b|b",
        "b v0.1.0 (/w/b) is kept:\n  a v0.1.0 is a root\n  a v0.1.0 needs b v0.1.0\n",
    ),
    (
        "why b:0 < a b|b",
        "b v0.1.0 (/w/b) is kept:\n  a v0.1.0 is a root\n  a v0.1.0 needs b v0.1.0\n",
    ),
    (
        "why d@0.2 < a b|b d@0.2.0|d|d@0.2.0 / members a d",
        "d v0.2.0 (/w/d) is kept:\n  a v0.1.0 is a root\n  a v0.1.0 needs b v0.1.0\n  b v0.1.0 needs d v0.2.0\n",
    ),
    (
        "why d@0 < a b|b d@0.2.0|d|d@0.2.0 / members a d",
        "refused: `d@0` fits several packages; name one of them:\n    d@0.1.0\n    d@0.2.0",
    ),
    (
        "why b@0.2 < a b|b",
        "refused: no package fits `b@0.2`; these come near:\n    b@0.1.0",
    ),
    (
        "why wk-leaf@3 < versions",
        "refused: no package fits `wk-leaf@3`; these come near:\n    wk-leaf@1.0.0\n    wk-leaf@2.1.0\n    wk-leaf@3.0.0-beta.2",
    ),
    (
        "why c@0.1 < a b|b|c",
        "refused: nothing that is kept needs `c@0.1`, which means:\n    c@0.1.0",
    ),
    // none fits, and what is similar; one that isn't kept
    ("why zzz < a b|b", "refused: no package fits `zzz`"),
    (
        "why sede < a serde|serde|sede_json",
        "refused: no package fits `sede`; these come near:\n    serde@0.1.0\n    sede_json@0.1.0",
    ),
    (
        "why b@0.2.0 < a b|b",
        "refused: no package fits `b@0.2.0`; these come near:\n    b@0.1.0",
    ),
    (
        "why leaf < versions",
        "refused: no package fits `leaf`; these come near:\n    wk-leaf@1.0.0\n    wk-leaf@2.1.0\n    wk-leaf@3.0.0-beta.2",
    ),
    (
        "why c < a b|b|c",
        "refused: nothing that is kept needs `c`, which means:\n    c@0.1.0",
    ),
    (
        "why path+file:///w/c#0.1.0 < a b|b|c",
        "refused: nothing that is kept needs `path+file:///w/c#0.1.0`, which means:\n    c@0.1.0",
    ),
    (
        "why wk_leaf < versions",
        "refused: no package fits `wk_leaf`; these come near:\n    wk-leaf@1.0.0\n    wk-leaf@2.1.0\n    wk-leaf@3.0.0-beta.2",
    ),
    // several fit
    (
        "why d < a b|b d@0.2.0|d|d@0.2.0 / members a d",
        "refused: `d` fits several packages; name one of them:\n    d@0.1.0\n    d@0.2.0",
    ),
    (
        "why b < a b|b|b&crates.io / members a b&crates.io",
        "refused: `b` fits several packages; name one of them:\n    path+file:///w/b#0.1.0\n    registry+https://github.com/rust-lang/crates.io-index#b@0.1.0",
    ),
    (
        "dependents wk-leaf < versions",
        "refused: `wk-leaf` fits several packages; name one of them:\n    wk-leaf@1.0.0\n    wk-leaf@2.1.0\n    wk-leaf@3.0.0-beta.2",
    ),
    // no specification
    (
        "why b@ < a b|b",
        "refused: `b@` names no package: package spec cannot end with ':'\nwrite NAME, NAME@VERSION, or an id as cargo prints it",
    ),
    (
        "tree a/ < a",
        "refused: `a/` names no package: url ends with /\nwrite NAME, NAME@VERSION, or an id as cargo prints it",
    ),
];

/// Words that can't be answered.
static WORDS: &[Row] = &[
    (
        "",
        "Which crates cargo builds in a workspace, and why\n\nUsage: cargo krates <WORD>\n\nWords:\n  list         The crates that are built, a line for each\n  tree         What the workspace or a crate needs, as a tree\n  dependents   Which crates need a crate, all the way up\n  why          Why a crate is built, step by step from the workspace\n  features     Which features of a crate are enabled, each with a reason\n  duplicates   Which names are built in several versions, and who needs each\n  licences     Under which licences the crates are, and which state none [alias: licenses]\n  uses         Which crates are shipped, and which are for building or development alone\n  order        The crates in an order to build them: each behind all that it needs\n  graph        A picture of the crates and what they need, for Graphviz or Mermaid\n  diff         What went and what came since another document: crates, dependencies, features\n  sbom         A bill of materials: CycloneDX, as JSON\n  unreachable  Whether it is certain that a crate isn't built\n  certify      A certificate, as JSON, that someone else can check against the document\n  completions  What completes these words in a shell: bash, zsh, fish\n  man          The manual page of these words, for man\n  help         Print this message or the help of the given subcommand(s)\n\nOptions:\n  -h, --help     Print help\n  -V, --version  Print version\n\nWithout options it is about what `cargo build` would build here; --by krates answers for the graph of the Rust crate krates.\nSPEC names a package as cargo's -p does: serde, serde@1.0.152, or its id.\n`cargo krates WORD --help` lists the options of a word.\n",
    ),
    (
        "lst",
        "error: unrecognized subcommand 'lst'\n\n  tip: a similar subcommand exists: 'list'\n\nUsage: cargo krates <WORD>\n\nFor more information, try '--help'.\n",
    ),
    (
        "why",
        "error: the following required arguments were not provided:\n  <SPEC>\n\nUsage: cargo krates why <SPEC>\n\nFor more information, try '--help'.\n",
    ),
    (
        "why x y",
        "error: unexpected argument 'y' found\n\nUsage: cargo krates why [OPTIONS] <SPEC>\n\nFor more information, try '--help'.\n",
    ),
    (
        "list --target",
        "error: a value is required for '--target <TRIPLE>' but none was supplied\n\nFor more information, try '--help'.\n",
    ),
    (
        "list --by krates --exclude a@",
        "error: invalid value 'a@' for '--exclude <SPEC>': package spec cannot end with ':'\n\nFor more information, try '--help'.\n",
    ),
    (
        "certify",
        "error: <SPEC> or '--all' is missing\n\nFor more information, try '--help'.\n",
    ),
    (
        "certify a --all",
        "error: <SPEC> can't stand beside '--all'\n\nFor more information, try '--help'.\n",
    ),
    (
        "list --by krates --package w/b",
        "error: invalid value 'w/b' for '--package <PATH>': it has to be an absolute path\n\nFor more information, try '--help'.\n",
    ),
    (
        "list --ignore-kind test",
        "error: invalid value 'test' for '--ignore-kind <KIND>'\n  [possible values: normal, build, dev]\n\nFor more information, try '--help'.\n",
    ),
    (
        "list -e normal,tests",
        "error: invalid value 'tests' for '--edges <KINDS>'\n  [possible values: normal, build, dev, all, no-normal, no-build, no-dev]\n\nFor more information, try '--help'.\n",
    ),
    (
        "sbom --timestamp 2026-12-01",
        "error: invalid value '2026-12-01' for '--timestamp <TIME>': it has to be a time in UTC, as 2026-12-01T08:00:00Z\n\nFor more information, try '--help'.\n",
    ),
    (
        "sbom --serial 3E671687-395B-41F5-A30F-A58921A69B79",
        "error: invalid value '3E671687-395B-41F5-A30F-A58921A69B79' for '--serial <UUID>': it has to be a UUID in small letters, as 3e671687-395b-41f5-a30f-a58921a69b79\n\nFor more information, try '--help'.\n",
    ),
    (
        "list --cfg F",
        "error: '--cfg <FILE>' stands more often than '--target <TRIPLE>': each file describes the target in its place\n\nFor more information, try '--help'.\n",
    ),
    (
        "list --target=@words",
        "error: invalid value '@words' for '--target <TRIPLE>': it can't begin with '@' or '-'\n\nFor more information, try '--help'.\n",
    ),
    (
        "list --target x --target=-vV",
        "error: invalid value '-vV' for '--target <TRIPLE>': it can't begin with '@' or '-'\n\nFor more information, try '--help'.\n",
    ),
    (
        "list --max-bytes x",
        "error: invalid value 'x' for '--max-bytes <BYTES>': invalid digit found in string\n\nFor more information, try '--help'.\n",
    ),
    (
        "list --locked --metadata F",
        "error: the argument '--locked' cannot be used with '--metadata <FILE>'\n\nUsage: cargo krates list --locked\n\nFor more information, try '--help'.\n",
    ),
    // what only the other rules know
    (
        "list --by krates --lib",
        "error: '--lib' is known by build alone: leave '--by krates' out\n\nFor more information, try '--help'.\n",
    ),
    (
        "list --side host --by krates",
        "error: '--side <SIDE>' is known by build alone: leave '--by krates' out\n\nFor more information, try '--help'.\n",
    ),
    (
        "list --tests --by krates",
        "error: '--tests' is known by build alone: leave '--by krates' out; by krates, tests count without '--ignore-kind dev'\n\nFor more information, try '--help'.\n",
    ),
    (
        "list -F x --metadata F --by krates",
        "error: '--features' can't stand beside '--metadata <FILE>': by krates, it is for cargo\n\nFor more information, try '--help'.\n",
    ),
    (
        "list --all-named",
        "error: '--all-named' is known by krates alone: write '--by krates' too; by build, names mean what they mean to cargo\n\nFor more information, try '--help'.\n",
    ),
    (
        "list --ignore-kind dev",
        "error: '--ignore-kind <KIND>' is known by krates alone: write '--by krates' too; by build, dev dependencies count where '--tests', '--examples', '--benches' or '--all-targets' asks for them\n\nFor more information, try '--help'.\n",
    ),
    ("--version", "cargo-krates 0.22.0\n"),
];

/// The words with which cargo is run. By build all features are needed, and those that are named.
static CARGO: &[Row] = &[
    ("list", "metadata --format-version 1 --all-features"),
    (
        "list --by build",
        "metadata --format-version 1 --all-features",
    ),
    (
        "tree -F a,b --features c",
        "metadata --format-version 1 --all-features --features a,b c",
    ),
    (
        "list -F x --no-default-features --locked",
        "metadata --format-version 1 --all-features --features x --locked",
    ),
    (
        "why b --manifest-path a/Cargo.toml --locked",
        "metadata --format-version 1 --manifest-path a/Cargo.toml --all-features --locked",
    ),
    // by krates it is asked for what is written
    ("list --by krates", "metadata --format-version 1"),
    (
        "tree --by krates -F a,b --features c",
        "metadata --format-version 1 --features a,b c",
    ),
    (
        "tree --by krates --all-features --locked",
        "metadata --format-version 1 --all-features --locked",
    ),
    (
        "list --by krates --no-default-features --offline --frozen",
        "metadata --format-version 1 --no-default-features --frozen --offline",
    ),
    (
        "why b --by krates --manifest-path /w/a/Cargo.toml",
        "metadata --format-version 1 --manifest-path /w/a/Cargo.toml",
    ),
];

#[test]
fn names_words_and_words_for_cargo(rt: HostRuntime) -> Result<(), Fail> {
    hold::<Answered>(rt.alloc(), NAMES)?;
    hold::<Answered>(rt.alloc(), WORDS)?;
    hold::<CargoTold>(rt.alloc(), CARGO)
}
