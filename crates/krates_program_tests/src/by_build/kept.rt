//! What `cargo krates` says of the crates that cargo builds: lists, trees, names of several, licences, uses.

use crate::by_build::answered::Answered;
use krates_samples::table::{Row, hold};
use std::test::Fail;

/// The crates that are built.
static LISTS: &[Row] = &[
    (
        "list < a b|b / targets a:bin b:lib",
        "a v0.1.0 (/w/a)\nb v0.1.0 (/w/b)\n",
    ),
    (
        "list --ids < a b|b / targets a:bin b:lib",
        "path+file:///w/a#0.1.0\npath+file:///w/b#0.1.0\n",
    ),
    // a build script and what it needs
    (
        "list < a b&build|b / targets a:bin,custom-build b:lib",
        "a v0.1.0 (/w/a)\nb v0.1.0 (/w/b)\n",
    ),
    (
        "list < a b&build|b / targets a:bin b:lib",
        "a v0.1.0 (/w/a)\n",
    ),
    // what a target doesn't need
    (
        "list --target windows < a b&on=cfg(unix)|b / targets a:bin b:lib",
        "a v0.1.0 (/w/a)\n",
    ),
    (
        "list --target windows --target linux < a b&on=cfg(unix)|b / targets a:bin b:lib",
        "a v0.1.0 (/w/a)\nb v0.1.0 (/w/b)\n",
    ),
    // what tests need
    (
        "list < a b&dev|b / targets a:bin b:lib",
        "a v0.1.0 (/w/a)\n",
    ),
    (
        "list --all-targets < a b&dev|b / targets a:bin b:lib",
        "a v0.1.0 (/w/a)\nb v0.1.0 (/w/b)\n",
    ),
    // features that are asked for
    (
        "list < a b?;x=dep:b|b / targets a:bin b:lib",
        "a v0.1.0 (/w/a)\n",
    ),
    (
        "list -F x < a b?;x=dep:b|b / targets a:bin b:lib",
        "a v0.1.0 (/w/a)\nb v0.1.0 (/w/b)\n",
    ),
    (
        "list --all-features < a b?;x=dep:b|b / targets a:bin b:lib",
        "a v0.1.0 (/w/a)\nb v0.1.0 (/w/b)\n",
    ),
    (
        "list --no-default-features < a b?;default=dep:b|b / targets a:bin b:lib",
        "a v0.1.0 (/w/a)\n",
    ),
    // a feature of the host's side is none of the other one by the second resolver
    (
        "list < a b&build&with=f b|b c?;f=dep:c|c / nodes a b&normal&build|b c;f|c / targets a:bin b:lib c:lib",
        "a v0.1.0 (/w/a)\nb v0.1.0 (/w/b)\n",
    ),
    (
        "list --resolver 1 < a b&build&with=f b|b c?;f=dep:c|c / nodes a b&normal&build|b c;f|c / targets a:bin b:lib c:lib",
        "a v0.1.0 (/w/a)\nb v0.1.0 (/w/b)\nc v0.1.0 (/w/c)\n",
    ),
    // members
    (
        "list < a|b / members a b / targets a:bin b:lib",
        "a v0.1.0 (/w/a)\nb v0.1.0 (/w/b)\n",
    ),
    (
        "list -p b < a|b / members a b / targets a:bin b:lib",
        "b v0.1.0 (/w/b)\n",
    ),
    (
        "list < a|b / members a b / root a / targets a:bin b:lib",
        "a v0.1.0 (/w/a)\n",
    ),
    (
        "list --workspace < a|b / members a b / root a / targets a:bin b:lib",
        "a v0.1.0 (/w/a)\nb v0.1.0 (/w/b)\n",
    ),
    // for which side, and which of their targets
    (
        "list --side host < a b&build c|b|c / targets a:bin,custom-build b:lib c:lib",
        "a v0.1.0 (/w/a)\nb v0.1.0 (/w/b)\n",
    ),
    (
        "list --side target < a b&build c|b|c / targets a:bin,custom-build b:lib c:lib",
        "a v0.1.0 (/w/a)\nc v0.1.0 (/w/c)\n",
    ),
    (
        "list --units --target windows < a b&build c|b|c / targets a:bin!,lib,custom-build b:lib c:lib",
        "a v0.1.0 (/w/a)\n    program `a`, for windows\n    library `a`, for windows\n    build script, for the host\nb v0.1.0 (/w/b)\n    library `b`, for the host\nc v0.1.0 (/w/c)\n    library `c`, for windows\n",
    ),
    (
        "list --units --side host --target windows < a b&build c|b|c / targets a:bin!,lib,custom-build b:lib c:lib",
        "a v0.1.0 (/w/a)\n    build script, for the host\nb v0.1.0 (/w/b)\n    library `b`, for the host\n",
    ),
    (
        "list --json --target windows < a m|m / targets a:bin m:proc-macro,custom-build",
        "{\n  \"answer\": [\n    {\n      \"build_script\": false,\n      \"crate\": {\n        \"id\": \"path+file:///w/a#0.1.0\",\n        \"name\": \"a\",\n        \"source\": null,\n        \"version\": \"0.1.0\"\n      },\n      \"for_host\": false,\n      \"for_targets\": true,\n      \"units\": [\n        {\n          \"kind\": \"program\",\n          \"mode\": \"build\",\n          \"name\": \"a\",\n          \"platform\": \"windows\"\n        }\n      ]\n    },\n    {\n      \"build_script\": true,\n      \"crate\": {\n        \"id\": \"path+file:///w/m#0.1.0\",\n        \"name\": \"m\",\n        \"source\": null,\n        \"version\": \"0.1.0\"\n      },\n      \"for_host\": true,\n      \"for_targets\": false,\n      \"units\": [\n        {\n          \"kind\": \"proc-macro\",\n          \"mode\": \"build\",\n          \"name\": \"m\",\n          \"platform\": \"host\"\n        }\n      ]\n    }\n  ],\n  \"build\": {\n    \"all_features\": false,\n    \"features\": [],\n    \"host\": \"linux\",\n    \"no_default_features\": false,\n    \"packages\": \"default\",\n    \"resolver\": \"2\",\n    \"target_kinds\": [],\n    \"targets\": [\n      \"windows\"\n    ]\n  },\n  \"rules\": \"build\",\n  \"version\": 1\n}\n",
    ),
];

/// Trees of what is needed, and of those that need.
static TREES: &[Row] = &[
    (
        "tree < a b|b c|c / targets a:bin b:lib c:lib",
        "a v0.1.0 (/w/a)\n└── b v0.1.0 (/w/b)\n    └── c v0.1.0 (/w/c)\n",
    ),
    (
        "tree b < a b|b c|c / targets a:bin b:lib c:lib",
        "b v0.1.0 (/w/b)\n└── c v0.1.0 (/w/c)\n",
    ),
    // heads before what build scripts and tests need, in the column of what is below the same crate
    (
        "tree < a b&build|b / targets a:bin,custom-build b:lib",
        "a v0.1.0 (/w/a)\n[build-dependencies]\n└── b v0.1.0 (/w/b)\n",
    ),
    (
        "tree --tests < a b c&build d&dev|b e|c e f|d|e|f / targets a:bin,custom-build,test b:lib c:lib d:lib e:lib f:lib",
        "a v0.1.0 (/w/a)\n└── b v0.1.0 (/w/b)\n    └── e v0.1.0 (/w/e)\n[build-dependencies]\n└── c v0.1.0 (/w/c)\n    ├── e v0.1.0 (/w/e)\n    └── f v0.1.0 (/w/f)\n[dev-dependencies]\n└── d v0.1.0 (/w/d)\n",
    ),
    (
        "tree < a b c|b d&build e&build|c|d|e / targets a:bin b:lib,custom-build c:lib d:lib e:lib",
        "a v0.1.0 (/w/a)\n├── b v0.1.0 (/w/b)\n│   [build-dependencies]\n│   ├── d v0.1.0 (/w/d)\n│   └── e v0.1.0 (/w/e)\n└── c v0.1.0 (/w/c)\n",
    ),
    // a crate that is needed by two kinds, and opened once
    (
        "tree < a b b&build|b c|c / nodes a b&normal&build|b c|c / targets a:bin,custom-build b:lib c:lib",
        "a v0.1.0 (/w/a)\n└── b v0.1.0 (/w/b)\n    └── c v0.1.0 (/w/c)\n[build-dependencies]\n└── b v0.1.0 (/w/b) (*)\n",
    ),
    (
        "dependents d < a b c|b d&build|c d|d / targets a:bin b:lib,custom-build c:lib d:lib",
        "d v0.1.0 (/w/d)\n└── c v0.1.0 (/w/c)\n    └── a v0.1.0 (/w/a)\n[build-dependencies]\n└── b v0.1.0 (/w/b)\n    └── a v0.1.0 (/w/a)\n",
    ),
    (
        "dependents c < a b c|b c|c / targets a:bin b:lib c:lib",
        "c v0.1.0 (/w/c)\n├── a v0.1.0 (/w/a)\n└── b v0.1.0 (/w/b)\n    └── a v0.1.0 (/w/a)\n",
    ),
    (
        "tree --json < a b&build|b / targets a:bin,custom-build b:lib",
        "{\n  \"answer\": [\n    {\n      \"depth\": 0,\n      \"id\": \"path+file:///w/a#0.1.0\",\n      \"kind\": null,\n      \"repeated\": false\n    },\n    {\n      \"depth\": 1,\n      \"id\": \"path+file:///w/b#0.1.0\",\n      \"kind\": \"build\",\n      \"repeated\": false\n    }\n  ],\n  \"build\": {\n    \"all_features\": false,\n    \"features\": [],\n    \"host\": \"linux\",\n    \"no_default_features\": false,\n    \"packages\": \"default\",\n    \"resolver\": \"2\",\n    \"target_kinds\": [],\n    \"targets\": []\n  },\n  \"rules\": \"build\",\n  \"version\": 1\n}\n",
    ),
    // to a depth, which a head isn't part of; what is drawn at that depth isn't opened further up
    (
        "tree --depth 0 < a b|b c|c / targets a:bin b:lib c:lib",
        "a v0.1.0 (/w/a)\n",
    ),
    (
        "tree --depth 1 < a b c&build|b d|c d|d / targets a:bin,custom-build b:lib c:lib d:lib",
        "a v0.1.0 (/w/a)\n└── b v0.1.0 (/w/b)\n[build-dependencies]\n└── c v0.1.0 (/w/c)\n",
    ),
    (
        "tree --depth 2 < a b c|b c|c d|d / targets a:bin b:lib c:lib d:lib",
        "a v0.1.0 (/w/a)\n├── b v0.1.0 (/w/b)\n│   └── c v0.1.0 (/w/c)\n└── c v0.1.0 (/w/c) (*)\n",
    ),
    (
        "tree --depth 3 < a b c|b c|c d|d / targets a:bin b:lib c:lib d:lib",
        "a v0.1.0 (/w/a)\n├── b v0.1.0 (/w/b)\n│   └── c v0.1.0 (/w/c)\n│       └── d v0.1.0 (/w/d)\n└── c v0.1.0 (/w/c) (*)\n",
    ),
    // all again, but nothing below itself
    (
        "tree --no-dedupe < a b c|b c|c d|d / targets a:bin b:lib c:lib d:lib",
        "a v0.1.0 (/w/a)\n├── b v0.1.0 (/w/b)\n│   └── c v0.1.0 (/w/c)\n│       └── d v0.1.0 (/w/d)\n└── c v0.1.0 (/w/c)\n    └── d v0.1.0 (/w/d)\n",
    ),
    (
        "tree --tests --no-dedupe < a b&dev|b a / nodes a b&dev|b a / targets a:lib,test b:lib",
        "a v0.1.0 (/w/a)\n[dev-dependencies]\n└── b v0.1.0 (/w/b)\n    └── a v0.1.0 (/w/a) (*)\n",
    ),
    // without a package and what only it leads to
    (
        "tree --prune b < a b c|b d e|c d|d|e / targets a:bin b:lib c:lib d:lib e:lib",
        "a v0.1.0 (/w/a)\n└── c v0.1.0 (/w/c)\n    └── d v0.1.0 (/w/d)\n",
    ),
    (
        "tree --prune z < a / targets a:bin",
        "refused: no package fits `z`",
    ),
    // turned round, in other characters, without branches, and as a format has it
    (
        "tree -i c < a b c|b c|c / targets a:bin b:lib c:lib",
        "c v0.1.0 (/w/c)\n├── a v0.1.0 (/w/a)\n└── b v0.1.0 (/w/b)\n    └── a v0.1.0 (/w/a)\n",
    ),
    (
        "tree --charset ascii < a b c|b d|c|d / targets a:bin b:lib c:lib d:lib",
        "a v0.1.0 (/w/a)\n|-- b v0.1.0 (/w/b)\n|   `-- d v0.1.0 (/w/d)\n`-- c v0.1.0 (/w/c)\n",
    ),
    (
        "tree --prefix depth < a b c&build|b d|c|d / targets a:bin,custom-build b:lib c:lib d:lib",
        "0a v0.1.0 (/w/a)\n1b v0.1.0 (/w/b)\n2d v0.1.0 (/w/d)\n1c v0.1.0 (/w/c)\n",
    ),
    (
        "tree --prefix none --depth 1 < a b c|b c|c / targets a:bin b:lib c:lib",
        "a v0.1.0 (/w/a)\nb v0.1.0 (/w/b)\nc v0.1.0 (/w/c)\n",
    ),
    (
        "tree -f {p}={l}{r}[{f}] < a b&with=f,g|b;f= g= / targets a:bin b:lib",
        "a v0.1.0 (/w/a)=[]\n└── b v0.1.0 (/w/b)=[f,g]\n",
    ),
    (
        "tree -f {p}{x} < a / targets a:bin",
        "error: invalid value '{p}{x}' for '--format <FORMAT>': between braces stands p, l, r or f: package, licence, repository, features\n\nFor more information, try '--help'.\n",
    ),
    (
        "tree a -i a < a / targets a:bin",
        "error: <SPEC> can't stand beside '--invert <SPEC>'\n\nFor more information, try '--help'.\n",
    ),
];

/// Names of several crates, licences, uses, and the bill of materials.
static SUMS: &[Row] = &[
    (
        "duplicates < a b@0.1.0 c|c b@0.2.0|b@0.1.0|b@0.2.0 / targets a:bin b:lib c:lib",
        "b v0.1.0 (/w/b)\n    a v0.1.0 (/w/a)\nb v0.2.0 (/w/b)\n    c v0.1.0 (/w/c)\n",
    ),
    ("duplicates < a b|b / targets a:bin b:lib", ""),
    (
        "licences < a b|b / targets a:bin b:lib",
        "no licence (2)\n    a v0.1.0 (/w/a)\n    b v0.1.0 (/w/b)\n",
    ),
    (
        "uses < a b&build c d&dev|b|c|d|e / targets a:bin,custom-build,test b:lib c:lib d:lib e:lib",
        "shipped (2)\n    a v0.1.0 (/w/a)\n    c v0.1.0 (/w/c)\nbuild only (1)\n    b v0.1.0 (/w/b)\ntests only (1)\n    d v0.1.0 (/w/d)\n",
    ),
    (
        "uses --json < a b&dev|b / targets a:bin b:lib",
        "{\n  \"answer\": {\n    \"build\": [],\n    \"shipped\": [\n      {\n        \"id\": \"path+file:///w/a#0.1.0\",\n        \"name\": \"a\",\n        \"source\": null,\n        \"version\": \"0.1.0\"\n      }\n    ],\n    \"tests\": [\n      {\n        \"id\": \"path+file:///w/b#0.1.0\",\n        \"name\": \"b\",\n        \"source\": null,\n        \"version\": \"0.1.0\"\n      }\n    ]\n  },\n  \"build\": {\n    \"all_features\": false,\n    \"features\": [],\n    \"host\": \"linux\",\n    \"no_default_features\": false,\n    \"packages\": \"default\",\n    \"resolver\": \"2\",\n    \"target_kinds\": [],\n    \"targets\": []\n  },\n  \"rules\": \"build\",\n  \"version\": 1\n}\n",
    ),
    (
        "sbom < a / targets a:bin",
        "{\n  \"$schema\": \"http://cyclonedx.org/schema/bom-1.5.schema.json\",\n  \"bomFormat\": \"CycloneDX\",\n  \"components\": [],\n  \"dependencies\": [\n    {\n      \"dependsOn\": [],\n      \"ref\": \"pkg:cargo/a@0.1.0?download_url=file%3A%2F%2Fa\"\n    }\n  ],\n  \"metadata\": {\n    \"component\": {\n      \"bom-ref\": \"pkg:cargo/a@0.1.0?download_url=file%3A%2F%2Fa\",\n      \"name\": \"a\",\n      \"purl\": \"pkg:cargo/a@0.1.0?download_url=file%3A%2F%2Fa\",\n      \"type\": \"application\",\n      \"version\": \"0.1.0\"\n    },\n    \"tools\": {\n      \"components\": [\n        {\n          \"name\": \"cargo-krates\",\n          \"type\": \"application\",\n          \"version\": \"0.22.0\"\n        }\n      ]\n    }\n  },\n  \"specVersion\": \"1.5\",\n  \"version\": 1\n}\n",
    ),
];

/// What only one of two documents' builds has.
static DIFFERENCES: &[Row] = &[
    (
        "diff other < a b@0.1.0|b@0.1.0 / targets a:bin b:lib // a b@0.2.0|b@0.2.0 / targets a:bin b:lib",
        "~ b 0.1.0 -> 0.2.0\n- b v0.1.0 (/w/b)\n+ b v0.2.0 (/w/b)\n- a v0.1.0 -> b v0.1.0\n+ a v0.1.0 -> b v0.2.0\n",
    ),
    (
        "diff other < a b&with=f c|b;f=|c / targets a:bin b:lib c:lib // a b b&build&with=f|b;f= / nodes a b&normal&build|b;f / targets a:bin,custom-build b:lib",
        "- c v0.1.0 (/w/c)\n- a v0.1.0 -> c v0.1.0\n- b v0.1.0 (/w/b) feature `f`\n+ b v0.1.0 (/w/b) feature `f`, for what the build itself runs\n",
    ),
    (
        "diff other --exit-code < a b&with=f|b;f= / targets a:bin b:lib // a b|b;f= / targets a:bin b:lib",
        "no: - b v0.1.0 (/w/b) feature `f`\n",
    ),
    (
        "diff other --exit-code < a / targets a:bin // a / targets a:bin",
        "",
    ),
    (
        "diff other --json < a b&with=f|b;f= / targets a:bin b:lib // a b|b;f= / targets a:bin b:lib",
        "{\n  \"answer\": {\n    \"added\": [],\n    \"added_dependencies\": [],\n    \"added_features\": [],\n    \"changed\": [],\n    \"removed\": [],\n    \"removed_dependencies\": [],\n    \"removed_features\": [\n      {\n        \"id\": \"path+file:///w/b#0.1.0\",\n        \"name\": \"f\",\n        \"side\": \"targets\"\n      }\n    ]\n  },\n  \"build\": {\n    \"all_features\": false,\n    \"features\": [],\n    \"host\": \"linux\",\n    \"no_default_features\": false,\n    \"packages\": \"default\",\n    \"resolver\": \"2\",\n    \"target_kinds\": [],\n    \"targets\": []\n  },\n  \"old_build\": {\n    \"all_features\": false,\n    \"features\": [],\n    \"host\": \"linux\",\n    \"no_default_features\": false,\n    \"packages\": \"default\",\n    \"resolver\": \"2\",\n    \"target_kinds\": [],\n    \"targets\": []\n  },\n  \"rules\": \"build\",\n  \"version\": 1\n}\n",
    ),
];

#[test]
fn built_crates_are_listed(rt: HostRuntime) -> Result<(), Fail> {
    hold::<Answered>(rt.alloc(), LISTS)
}

#[test]
fn trees_are_drawn(rt: HostRuntime) -> Result<(), Fail> {
    hold::<Answered>(rt.alloc(), TREES)
}

#[test]
fn crates_are_summed_up(rt: HostRuntime) -> Result<(), Fail> {
    hold::<Answered>(rt.alloc(), SUMS)
}

#[test]
fn differences_are_told(rt: HostRuntime) -> Result<(), Fail> {
    hold::<Answered>(rt.alloc(), DIFFERENCES)
}
