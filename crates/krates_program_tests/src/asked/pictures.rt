//! Pictures by `cargo krates`, and orders in which crates can be built.

use crate::asked::Answered;
use krates_samples::table::{Row, hold};
use std::test::Fail;

/// Orders, and cycles.
static ORDERS: &[Row] = &[
    (
        "order < a b c&build|b c|c",
        "c v0.1.0 (/w/c)\nb v0.1.0 (/w/b)\na v0.1.0 (/w/a)\n",
    ),
    // of those that can come next the one of the least id comes
    (
        "order < a c|b|c / members a b",
        "b v0.1.0 (/w/b)\nc v0.1.0 (/w/c)\na v0.1.0 (/w/a)\n",
    ),
    (
        "order < a b|b a&dev c|c",
        "no: there is no order: each of these needs the next one, and the last the first:\n    a v0.1.0 (/w/a)\n    b v0.1.0 (/w/b)\n",
    ),
    // the cycle isn't where the search for it begins
    (
        "order < a b|b c&dev|c b",
        "no: there is no order: each of these needs the next one, and the last the first:\n    b v0.1.0 (/w/b)\n    c v0.1.0 (/w/c)\n",
    ),
    (
        "order -e no-dev < a b|b a&dev",
        "b v0.1.0 (/w/b)\na v0.1.0 (/w/a)\n",
    ),
    (
        "order --json < a b|b",
        "{\n  \"answer\": {\n    \"cycle\": null,\n    \"order\": [\n      {\n        \"dependencies\": [],\n        \"features\": [],\n        \"id\": \"path+file:///w/b#0.1.0\",\n        \"name\": \"b\",\n        \"version\": \"0.1.0\"\n      },\n      {\n        \"dependencies\": [\n          \"path+file:///w/b#0.1.0\"\n        ],\n        \"features\": [],\n        \"id\": \"path+file:///w/a#0.1.0\",\n        \"name\": \"a\",\n        \"version\": \"0.1.0\"\n      }\n    ]\n  },\n  \"rules\": \"krates\",\n  \"version\": 1\n}\n",
    ),
    (
        "order --json < a b|b a&dev",
        "no: {\n  \"answer\": {\n    \"cycle\": [\n      \"path+file:///w/a#0.1.0\",\n      \"path+file:///w/b#0.1.0\"\n    ],\n    \"order\": null\n  },\n  \"rules\": \"krates\",\n  \"version\": 1\n}\n",
    ),
];

/// Pictures of the kept crates.
static PICTURES: &[Row] = &[
    (
        "graph < a b c&build d&dev|b|c|d",
        "digraph crates {\n    rankdir=\"LR\"\n    node [shape=\"box\" fontname=\"sans-serif\"]\n    n0 [label=\"a v0.1.0\" penwidth=\"2\"]\n    n1 [label=\"b v0.1.0\"]\n    n2 [label=\"c v0.1.0\"]\n    n3 [label=\"d v0.1.0\"]\n    n0 -> n1\n    n0 -> n2 [style=\"dashed\"]\n    n0 -> n3 [style=\"dotted\"]\n}\n",
    ),
    (
        "graph --mermaid < a b c&build d&dev|b|c|d",
        "flowchart LR\n    n0[\"a v0.1.0\"]:::member\n    n1[\"b v0.1.0\"]:::other\n    n2[\"c v0.1.0\"]:::other\n    n3[\"d v0.1.0\"]:::other\n    n0 --> n1\n    n0 ==> n2\n    n0 -.-> n3\n    classDef member stroke-width:3px\n    classDef host stroke:#cc5500\n    classDef memberOfHost stroke:#cc5500,stroke-width:3px\n    classDef other stroke-width:1px\n",
    ),
    // as far as it is asked for
    (
        "graph --dot --depth 0 < a b|b",
        "digraph crates {\n    rankdir=\"LR\"\n    node [shape=\"box\" fontname=\"sans-serif\"]\n    n0 [label=\"a v0.1.0\" penwidth=\"2\"]\n}\n",
    ),
    (
        "graph --prune b < a b c|b d|c|d",
        "digraph crates {\n    rankdir=\"LR\"\n    node [shape=\"box\" fontname=\"sans-serif\"]\n    n0 [label=\"a v0.1.0\" penwidth=\"2\"]\n    n2 [label=\"c v0.1.0\"]\n    n0 -> n2\n}\n",
    ),
    // by a feature, an edge of a dependency that is optional
    (
        "graph < a b?;x=dep:b|b / nodes a b;x|b",
        "digraph crates {\n    rankdir=\"LR\"\n    node [shape=\"box\" fontname=\"sans-serif\"]\n    n0 [label=\"a v0.1.0\" penwidth=\"2\"]\n    n1 [label=\"b v0.1.0\"]\n    n0 -> n1\n}\n",
    ),
    (
        "graph --json < a b&build|b",
        "{\n  \"answer\": {\n    \"crates\": [\n      {\n        \"host_only\": false,\n        \"id\": \"path+file:///w/a#0.1.0\",\n        \"member\": true,\n        \"name\": \"a\",\n        \"version\": \"0.1.0\"\n      },\n      {\n        \"host_only\": false,\n        \"id\": \"path+file:///w/b#0.1.0\",\n        \"member\": false,\n        \"name\": \"b\",\n        \"version\": \"0.1.0\"\n      }\n    ],\n    \"links\": [\n      {\n        \"from\": \"path+file:///w/a#0.1.0\",\n        \"kind\": \"build\",\n        \"to\": \"path+file:///w/b#0.1.0\"\n      }\n    ]\n  },\n  \"rules\": \"krates\",\n  \"version\": 1\n}\n",
    ),
    (
        "why b --dot < a b|b",
        "digraph crates {\n    rankdir=\"LR\"\n    node [shape=\"box\" fontname=\"sans-serif\"]\n    n0 [label=\"crate path+file:///w/a#0.1.0\"]\n    n1 [label=\"kept path+file:///w/a#0.1.0 -> path+file:///w/b#0.1.0\"]\n    n0 -> n1\n    n2 [label=\"crate path+file:///w/b#0.1.0\"]\n    n1 -> n2\n}\n",
    ),
    // several forms
    (
        "why b --dot --steps < a b|b",
        "error: '--dot' can't stand beside '--steps' or '--json'\n\nFor more information, try '--help'.\n",
    ),
    (
        "graph --mermaid --json < a",
        "error: '--dot', '--mermaid' and '--json' are forms of one answer: write one of them\n\nFor more information, try '--help'.\n",
    ),
    // what means something to Mermaid
    (
        "graph --mermaid < a#z / members a#z",
        "flowchart LR\n    n0[\"a#35;z v0.1.0\"]:::member\n    classDef member stroke-width:3px\n    classDef host stroke:#cc5500\n    classDef memberOfHost stroke:#cc5500,stroke-width:3px\n    classDef other stroke-width:1px\n",
    ),
];

#[test]
fn pictures_and_orders(rt: HostRuntime) -> Result<(), Fail> {
    hold::<Answered>(rt.alloc(), ORDERS)?;
    hold::<Answered>(rt.alloc(), PICTURES)
}
