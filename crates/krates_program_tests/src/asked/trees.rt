//! The trees that `cargo krates` draws.

use crate::asked::Answered;
use krates_samples::table::{Row, hold};
use std::test::Fail;

/// What a crate or the members need.
static TREES: &[Row] = &[
    ("tree < a", "a v0.1.0 (/w/a)\n"),
    (
        "tree < a b c|b c|c",
        "a v0.1.0 (/w/a)\n├── b v0.1.0 (/w/b)\n│   └── c v0.1.0 (/w/c)\n└── c v0.1.0 (/w/c)\n",
    ),
    (
        "tree < a b c|b c|c d|d",
        "a v0.1.0 (/w/a)\n├── b v0.1.0 (/w/b)\n│   └── c v0.1.0 (/w/c)\n│       └── d v0.1.0 (/w/d)\n└── c v0.1.0 (/w/c) (*)\n",
    ),
    (
        "tree < a b c|b c d|c d|d e|e",
        "a v0.1.0 (/w/a)\n├── b v0.1.0 (/w/b)\n│   ├── c v0.1.0 (/w/c)\n│   │   └── d v0.1.0 (/w/d)\n│   │       └── e v0.1.0 (/w/e)\n│   └── d v0.1.0 (/w/d) (*)\n└── c v0.1.0 (/w/c) (*)\n",
    ),
    // a cycle over a dev dependency, and a crate that needs itself for its tests
    (
        "tree < a b|b a&dev",
        "a v0.1.0 (/w/a)\n└── b v0.1.0 (/w/b)\n    └── a v0.1.0 (/w/a) (*)\n",
    ),
    (
        "tree < a a&dev",
        "a v0.1.0 (/w/a)\n└── a v0.1.0 (/w/a) (*)\n",
    ),
    // one tree for each member, each crate opened once in all of them
    (
        "tree < a b|b c|c|d b / members a d",
        "a v0.1.0 (/w/a)\n└── b v0.1.0 (/w/b)\n    └── c v0.1.0 (/w/c)\n\nd v0.1.0 (/w/d)\n└── b v0.1.0 (/w/b) (*)\n",
    ),
    (
        "tree b < a b|b c|c",
        "b v0.1.0 (/w/b)\n└── c v0.1.0 (/w/c)\n",
    ),
    (
        "tree path+file:///w/b#0.1.0 < a b|b c|c",
        "b v0.1.0 (/w/b)\n└── c v0.1.0 (/w/c)\n",
    ),
    (
        "tree --json < a b|b a&dev",
        "{\n  \"answer\": [\n    {\n      \"depth\": 0,\n      \"id\": \"path+file:///w/a#0.1.0\",\n      \"repeated\": false\n    },\n    {\n      \"depth\": 1,\n      \"id\": \"path+file:///w/b#0.1.0\",\n      \"repeated\": false\n    },\n    {\n      \"depth\": 2,\n      \"id\": \"path+file:///w/a#0.1.0\",\n      \"repeated\": true\n    }\n  ],\n  \"rules\": \"krates\",\n  \"version\": 1\n}\n",
    ),
    (
        "tree < versions",
        "versions v0.1.0 (/w/ws-versions)\n├── odd_lib v0.5.0\n├── wk-leaf v1.0.0\n├── wk-leaf v2.1.0\n├── wk-leaf v3.0.0-beta.2\n├── wk-lib-renamed v1.2.3\n└── wk-user v1.0.0+build.7\n    ├── wk-lib-renamed v1.2.3\n    └── wk-mac v1.0.0\n        └── wk-leaf v2.1.0\n",
    ),
    // as the words draw it
    (
        "tree --depth 1 --charset ascii < a b|b c|c",
        "a v0.1.0 (/w/a)\n`-- b v0.1.0 (/w/b)\n",
    ),
    (
        "tree --prune b -f {p}[{f}] < a b c!|b|c;f= default=f",
        "a v0.1.0 (/w/a)[]\n└── c v0.1.0 (/w/c)[default,f]\n",
    ),
    (
        "tree -i b --prefix none < a b|b",
        "b v0.1.0 (/w/b)\na v0.1.0 (/w/a)\n",
    ),
];

/// Who needs a crate.
static DEPENDENTS: &[Row] = &[
    (
        "dependents c < a b c|b c|c",
        "c v0.1.0 (/w/c)\n├── a v0.1.0 (/w/a)\n└── b v0.1.0 (/w/b)\n    └── a v0.1.0 (/w/a)\n",
    ),
    ("dependents a < a b|b", "a v0.1.0 (/w/a)\n"),
    (
        "dependents d < a b c|b d|c d|d",
        "d v0.1.0 (/w/d)\n├── b v0.1.0 (/w/b)\n│   └── a v0.1.0 (/w/a)\n└── c v0.1.0 (/w/c)\n    └── a v0.1.0 (/w/a)\n",
    ),
    (
        "dependents --json b < a b|b",
        "{\n  \"answer\": [\n    {\n      \"depth\": 0,\n      \"id\": \"path+file:///w/b#0.1.0\",\n      \"repeated\": false\n    },\n    {\n      \"depth\": 1,\n      \"id\": \"path+file:///w/a#0.1.0\",\n      \"repeated\": false\n    }\n  ],\n  \"rules\": \"krates\",\n  \"version\": 1\n}\n",
    ),
    (
        "dependents wk-leaf@2.1.0 < versions",
        "wk-leaf v2.1.0\n├── versions v0.1.0 (/w/ws-versions)\n└── wk-mac v1.0.0\n    └── wk-user v1.0.0+build.7\n        └── versions v0.1.0 (/w/ws-versions)\n",
    ),
    (
        "dependents d < a b|b d|c d|d e|e / members a c",
        "d v0.1.0 (/w/d)\n├── b v0.1.0 (/w/b)\n│   └── a v0.1.0 (/w/a)\n└── c v0.1.0 (/w/c)\n",
    ),
];

#[test]
fn trees_and_dependents(rt: HostRuntime) -> Result<(), Fail> {
    hold::<Answered>(rt.alloc(), TREES)?;
    hold::<Answered>(rt.alloc(), DEPENDENTS)
}
