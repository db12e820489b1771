//! What `cargo krates` says of the kept crates: lists, names of several, licences, uses.

use crate::asked::Answered;
use krates_samples::table::{Row, hold};
use std::test::Fail;

/// The kept crates, and which part of a document counts.
static LISTS: &[Row] = &[
    ("list < a b|b", "a v0.1.0 (/w/a)\nb v0.1.0 (/w/b)\n"),
    (
        "list --ids < a b|b",
        "path+file:///w/a#0.1.0\npath+file:///w/b#0.1.0\n",
    ),
    (
        "list --json < a b&crates.io|b&crates.io",
        "{\n  \"answer\": [\n    {\n      \"id\": \"path+file:///w/a#0.1.0\",\n      \"name\": \"a\",\n      \"source\": null,\n      \"version\": \"0.1.0\"\n    },\n    {\n      \"id\": \"registry+https://github.com/rust-lang/crates.io-index#b@0.1.0\",\n      \"name\": \"b\",\n      \"source\": \"registry+https://github.com/rust-lang/crates.io-index\",\n      \"version\": \"0.1.0\"\n    }\n  ],\n  \"rules\": \"krates\",\n  \"version\": 1\n}\n",
    ),
    (
        "list --ids --json < a|b",
        "{\n  \"answer\": [\n    {\n      \"id\": \"path+file:///w/a#0.1.0\",\n      \"name\": \"a\",\n      \"source\": null,\n      \"version\": \"0.1.0\"\n    }\n  ],\n  \"rules\": \"krates\",\n  \"version\": 1\n}\n",
    ),
    // which part of the document counts
    ("list -e no-dev < a b&dev|b", "a v0.1.0 (/w/a)\n"),
    (
        "list --edges normal,build < a b&dev c&build|b|c",
        "a v0.1.0 (/w/a)\nc v0.1.0 (/w/c)\n",
    ),
    (
        "list -e all < a b&dev|b",
        "a v0.1.0 (/w/a)\nb v0.1.0 (/w/b)\n",
    ),
    (
        "list --ignore-kind dev --ignore-kind build < a b&dev c&build|b|c",
        "a v0.1.0 (/w/a)\n",
    ),
    (
        "list --exclude b < a b c|b|c",
        "a v0.1.0 (/w/a)\nc v0.1.0 (/w/c)\n",
    ),
    (
        "list --exclude b@0.2.0 < a b|b",
        "a v0.1.0 (/w/a)\nb v0.1.0 (/w/b)\n",
    ),
    (
        "list --package /w/b < a|b / members a b",
        "b v0.1.0 (/w/b)\n",
    ),
    (
        "list --workspace < a|b / members a b / root a",
        "a v0.1.0 (/w/a)\nb v0.1.0 (/w/b)\n",
    ),
    ("list < a|b / members a b / root a", "a v0.1.0 (/w/a)\n"),
    (
        "list --target x86_64-pc-windows-msvc < a b&on=cfg(unix)|b",
        "a v0.1.0 (/w/a)\n",
    ),
    (
        "list --target x86_64-unknown-linux-gnu --target x86_64-pc-windows-msvc < a b&on=cfg(unix)|b",
        "a v0.1.0 (/w/a)\nb v0.1.0 (/w/b)\n",
    ),
    // as cargo passes the words on
    ("krates list < a", "a v0.1.0 (/w/a)\n"),
    // what is refused
    (
        "list < a b|c",
        "refused: lost package: path+file:///w/b#0.1.0",
    ),
    ("list --exclude a < a", "refused: no root crates available"),
    (
        "list < a / no graph",
        "refused: no resolution graph was provided; `cargo metadata --format-version 1` writes one, without --no-deps",
    ),
];

/// The names of several kept crates.
static DUPLICATES: &[Row] = &[
    ("duplicates < a b|b", ""),
    (
        "duplicates < a b c|b d|c d@0.2.0|d|d@0.2.0",
        "d v0.1.0 (/w/d)\n    b v0.1.0 (/w/b)\nd v0.2.0 (/w/d)\n    c v0.1.0 (/w/c)\n",
    ),
    (
        "duplicates < a b c|b d|c d@0.2.0 e|d|d@0.2.0 e@0.2.0|e|e@0.2.0",
        "d v0.1.0 (/w/d)\n    b v0.1.0 (/w/b)\nd v0.2.0 (/w/d)\n    c v0.1.0 (/w/c)\n\ne v0.1.0 (/w/e)\n    c v0.1.0 (/w/c)\ne v0.2.0 (/w/e)\n    d v0.2.0 (/w/d)\n",
    ),
    (
        "duplicates --json < a b|b d|d|d@0.2.0 / members a d@0.2.0",
        "{\n  \"answer\": [\n    {\n      \"crates\": [\n        {\n          \"crate\": {\n            \"id\": \"path+file:///w/d#0.1.0\",\n            \"name\": \"d\",\n            \"source\": null,\n            \"version\": \"0.1.0\"\n          },\n          \"dependents\": [\n            \"path+file:///w/b#0.1.0\"\n          ]\n        },\n        {\n          \"crate\": {\n            \"id\": \"path+file:///w/d#d@0.2.0\",\n            \"name\": \"d\",\n            \"source\": null,\n            \"version\": \"0.2.0\"\n          },\n          \"dependents\": []\n        }\n      ],\n      \"name\": \"d\"\n    }\n  ],\n  \"rules\": \"krates\",\n  \"version\": 1\n}\n",
    ),
    (
        "duplicates -e no-dev < a b c&dev|b d|c d@0.2.0|d|d@0.2.0",
        "",
    ),
    (
        "duplicates < versions",
        "wk-leaf v1.0.0\n    versions v0.1.0 (/w/ws-versions)\nwk-leaf v2.1.0\n    versions v0.1.0 (/w/ws-versions)\n    wk-mac v1.0.0\nwk-leaf v3.0.0-beta.2\n    versions v0.1.0 (/w/ws-versions)\n",
    ),
];

/// The licences of the kept crates.
static LICENCES: &[Row] = &[
    (
        "licences < a b|b",
        "no licence (2)\n    a v0.1.0 (/w/a)\n    b v0.1.0 (/w/b)\n",
    ),
    (
        "licences --json < a",
        "{\n  \"answer\": [\n    {\n      \"crates\": [\n        {\n          \"id\": \"path+file:///w/a#0.1.0\",\n          \"name\": \"a\",\n          \"source\": null,\n          \"version\": \"0.1.0\"\n        }\n      ],\n      \"licence\": null\n    }\n  ],\n  \"rules\": \"krates\",\n  \"version\": 1\n}\n",
    ),
    (
        "licences < versions",
        "no licence (1)\n    versions v0.1.0 (/w/ws-versions)\nApache-2.0 WITH LLVM-exception (1)\n    wk-lib-renamed v1.2.3\nLICENCE.txt (1)\n    wk-user v1.0.0+build.7\nMIT (1)\n    odd_lib v0.5.0\nMIT OR Apache-2.0 (3)\n    wk-leaf v1.0.0\n    wk-leaf v2.1.0\n    wk-leaf v3.0.0-beta.2\nMPL-2.0 (1)\n    wk-mac v1.0.0\n",
    ),
];

/// What the kept crates are used for.
static USES: &[Row] = &[
    (
        "uses < a b c&build d&dev|b|c b|d c",
        "shipped (2)\n    a v0.1.0 (/w/a)\n    b v0.1.0 (/w/b)\nbuild only (1)\n    c v0.1.0 (/w/c)\ndev only (1)\n    d v0.1.0 (/w/d)\n",
    ),
    (
        "uses < a b&dev|b c&build|c",
        "shipped (1)\n    a v0.1.0 (/w/a)\nbuild only (0)\ndev only (2)\n    b v0.1.0 (/w/b)\n    c v0.1.0 (/w/c)\n",
    ),
    (
        "uses < a b&build|b c&dev|c",
        "shipped (1)\n    a v0.1.0 (/w/a)\nbuild only (1)\n    b v0.1.0 (/w/b)\ndev only (1)\n    c v0.1.0 (/w/c)\n",
    ),
    (
        "uses -e no-dev < a b c&build d&dev|b|c|d",
        "shipped (2)\n    a v0.1.0 (/w/a)\n    b v0.1.0 (/w/b)\nbuild only (1)\n    c v0.1.0 (/w/c)\ndev only (0)\n",
    ),
    (
        "uses --json < a b&dev|b",
        "{\n  \"answer\": {\n    \"build\": [],\n    \"dev\": [\n      {\n        \"id\": \"path+file:///w/b#0.1.0\",\n        \"name\": \"b\",\n        \"source\": null,\n        \"version\": \"0.1.0\"\n      }\n    ],\n    \"shipped\": [\n      {\n        \"id\": \"path+file:///w/a#0.1.0\",\n        \"name\": \"a\",\n        \"source\": null,\n        \"version\": \"0.1.0\"\n      }\n    ]\n  },\n  \"rules\": \"krates\",\n  \"version\": 1\n}\n",
    ),
    (
        "uses < versions",
        "shipped (7)\n    versions v0.1.0 (/w/ws-versions)\n    wk-leaf v1.0.0\n    wk-leaf v2.1.0\n    wk-leaf v3.0.0-beta.2\n    wk-lib-renamed v1.2.3\n    wk-mac v1.0.0\n    wk-user v1.0.0+build.7\nbuild only (0)\ndev only (1)\n    odd_lib v0.5.0\n",
    ),
];

#[test]
fn lists_duplicate_names_licences_and_uses(rt: HostRuntime) -> Result<(), Fail> {
    hold::<Answered>(rt.alloc(), LISTS)?;
    hold::<Answered>(rt.alloc(), DUPLICATES)?;
    hold::<Answered>(rt.alloc(), LICENCES)?;
    hold::<Answered>(rt.alloc(), USES)
}
