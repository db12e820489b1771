//! Why crates are kept and features enabled, and that a package can't be reached, as `cargo krates` says it.

use crate::asked::Answered;
use krates_samples::table::{Row, hold};
use std::test::Fail;

/// Why a crate is kept.
static WHYS: &[Row] = &[
    (
        "why a < a",
        "a v0.1.0 (/w/a) is kept:\n  a v0.1.0 is a root\n",
    ),
    (
        "why b < a b|b",
        "b v0.1.0 (/w/b) is kept:\n  a v0.1.0 is a root\n  a v0.1.0 needs b v0.1.0\n",
    ),
    (
        "why b < a b&dev|b",
        "b v0.1.0 (/w/b) is kept:\n  a v0.1.0 is a root\n  a v0.1.0 needs b v0.1.0, for development\n",
    ),
    (
        "why c < a b|b c&build&on=cfg(unix)|c",
        "c v0.1.0 (/w/c) is kept:\n  a v0.1.0 is a root\n  a v0.1.0 needs b v0.1.0\n  b v0.1.0 needs c v0.1.0, to build, on cfg(unix)\n",
    ),
    (
        "why b < a b?;f=dep:b|b",
        "b v0.1.0 (/w/b) is kept:\n  feature `f` of a v0.1.0 is enabled: a v0.1.0 is a root, for which cargo lists it\n  a v0.1.0 needs b v0.1.0, for its feature `f`\n",
    ),
    (
        "why c < a b;f=b/y|b c?;y=dep:c|c",
        "c v0.1.0 (/w/c) is kept:\n  a v0.1.0 is a root\n  feature `f` of a v0.1.0 is enabled: a v0.1.0 is a root, for which cargo lists it\n  a v0.1.0 needs b v0.1.0\n  feature `y` of b v0.1.0 is enabled: feature `f` of a v0.1.0 enables it\n  b v0.1.0 needs c v0.1.0, for its feature `y`\n",
    ),
    (
        "why c < a b!|b c?;default=dep:c|c",
        "c v0.1.0 (/w/c) is kept:\n  a v0.1.0 is a root\n  a v0.1.0 needs b v0.1.0\n  feature `default` of b v0.1.0 is enabled: a v0.1.0 needs it with default features\n  b v0.1.0 needs c v0.1.0, for its feature `default`\n",
    ),
    (
        "why b --steps < a b&dev|b",
        "0 rule 1: crate path+file:///w/a#0.1.0\n1 rule 5: kept path+file:///w/a#0.1.0 -> path+file:///w/b#0.1.0 (dev) from 0\n2 rule 5: crate path+file:///w/b#0.1.0 from 1\n",
    ),
    (
        "why --json b < a b&dev|b",
        "{\n  \"answer\": {\n    \"id\": \"path+file:///w/b#0.1.0\",\n    \"steps\": [\n      {\n        \"fact\": \"crate path+file:///w/a#0.1.0\",\n        \"rule\": 1,\n        \"uses\": []\n      },\n      {\n        \"fact\": \"kept path+file:///w/a#0.1.0 -> path+file:///w/b#0.1.0 (dev)\",\n        \"rule\": 5,\n        \"uses\": [\n          0\n        ]\n      },\n      {\n        \"fact\": \"crate path+file:///w/b#0.1.0\",\n        \"rule\": 5,\n        \"uses\": [\n          1\n        ]\n      }\n    ]\n  },\n  \"rules\": \"krates\",\n  \"version\": 1\n}\n",
    ),
    (
        "why wk-leaf@2.1.0 < versions",
        "wk-leaf v2.1.0 is kept:\n  versions v0.1.0 is a root\n  versions v0.1.0 needs wk-leaf v2.1.0, to build\n",
    ),
];

/// Which features of a crate are enabled.
static FEATURES: &[Row] = &[
    (
        "features a < a;f=g g=",
        "a v0.1.0 (/w/a)\n  f: a v0.1.0 is a root, for which cargo lists it\n  g: a v0.1.0 is a root, for which cargo lists it\n",
    ),
    (
        "features b < a b&with=x|b;x=y y=",
        "b v0.1.0 (/w/b)\n  x: a v0.1.0 asks for it\n  y: its feature `x` enables it\n",
    ),
    (
        "features b < a b!|b;default=x x=",
        "b v0.1.0 (/w/b)\n  default: a v0.1.0 needs it with default features\n  x: its feature `default` enables it\n",
    ),
    (
        "features b < a b;f=b/y|b;y=",
        "b v0.1.0 (/w/b)\n  y: feature `f` of a v0.1.0 enables it\n",
    ),
    (
        "features b < a b?;f=b?/y g=dep:b|b;y=",
        "b v0.1.0 (/w/b)\n  y: feature `f` of a v0.1.0 enables it\n",
    ),
    ("features b < a b|b;x=", "b v0.1.0 (/w/b)\n"),
    (
        "features --json b < a b&with=x|b;x=y y=",
        "{\n  \"answer\": {\n    \"features\": [\n      {\n        \"name\": \"x\",\n        \"reason\": \"a v0.1.0 asks for it\"\n      },\n      {\n        \"name\": \"y\",\n        \"reason\": \"its feature `x` enables it\"\n      }\n    ],\n    \"id\": \"path+file:///w/b#0.1.0\"\n  },\n  \"rules\": \"krates\",\n  \"version\": 1\n}\n",
    ),
    (
        "features wk-leaf@2.1.0 < versions",
        "wk-leaf v2.1.0\n  alloc: its feature `std` enables it\n  default: versions v0.1.0 needs it with default features\n  extra: wk-mac v1.0.0 asks for it\n  json: its feature `extra` enables it\n  only2: versions v0.1.0 asks for it\n  std: its feature `default` enables it\n",
    ),
];

/// Whether it is certain that nothing leads to a package.
static UNREACHABLE: &[Row] = &[
    (
        "unreachable c < a b|b|c",
        "c v0.1.0 (/w/c) can't be reached: it isn't among the facts (3), and these are closed under the rules\n",
    ),
    (
        "unreachable b < a b|b|c",
        "no: b v0.1.0 (/w/b) is kept; `why` says why\n",
    ),
    (
        "unreachable b -e no-dev < a b&dev|b",
        "b v0.1.0 (/w/b) can't be reached: it isn't among the facts (1), and these are closed under the rules\n",
    ),
    (
        "unreachable --json c < a b|b|c",
        "{\n  \"answer\": {\n    \"id\": \"path+file:///w/c#0.1.0\",\n    \"unreachable\": true\n  },\n  \"rules\": \"krates\",\n  \"version\": 1\n}\n",
    ),
    (
        "unreachable --json b < a b|b",
        "no: {\n  \"answer\": {\n    \"id\": \"path+file:///w/b#0.1.0\",\n    \"unreachable\": false\n  },\n  \"rules\": \"krates\",\n  \"version\": 1\n}\n",
    ),
    // what the document lacks can't be reached, but the word may be a slip
    (
        "unreachable z < a b|b",
        "`z` can't be reached: no package of the document fits\n",
    ),
    (
        "unreachable sered < a serde|serde",
        "`sered` can't be reached: no package of the document fits; these come near:\n    serde@0.1.0\n",
    ),
    (
        "unreachable sered --json < a serde|serde",
        "{\n  \"answer\": {\n    \"id\": null,\n    \"near\": [\n      \"serde@0.1.0\"\n    ],\n    \"unreachable\": true\n  },\n  \"rules\": \"krates\",\n  \"version\": 1\n}\n",
    ),
    (
        "unreachable d < a|d|d@0.2.0",
        "refused: `d` fits several packages; name one of them:\n    d@0.1.0\n    d@0.2.0",
    ),
    (
        "unreachable wk-never < versions",
        "wk-never v1.0.0 can't be reached: it isn't among the facts (43), and these are closed under the rules\n",
    ),
];

#[test]
fn whys_features_and_unreachable_packages(rt: HostRuntime) -> Result<(), Fail> {
    hold::<Answered>(rt.alloc(), WHYS)?;
    hold::<Answered>(rt.alloc(), FEATURES)?;
    hold::<Answered>(rt.alloc(), UNREACHABLE)
}
