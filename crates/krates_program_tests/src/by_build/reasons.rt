//! Why cargo builds a crate, why a feature of it is enabled, and that it doesn't build one, as `cargo krates` says it.

use crate::by_build::answered::Answered;
use krates_samples::table::{Row, hold};
use std::test::Fail;

/// Why a crate is built.
static WHY: &[Row] = &[
    (
        "why b < a b|b / targets a:bin b:lib",
        "cargo builds b v0.1.0 (/w/b):\n  a v0.1.0 is asked for: program `a`, for linux\n  a v0.1.0 needs b v0.1.0\n",
    ),
    (
        "why a < a b|b / targets a:bin b:lib",
        "cargo builds a v0.1.0 (/w/a):\n  a v0.1.0 is asked for: program `a`, for linux\n",
    ),
    // for the build script of another
    (
        "why c < a b&build|b c|c / targets a:bin,custom-build b:lib c:lib",
        "cargo builds c v0.1.0 (/w/c):\n  a v0.1.0 is asked for: program `a`, for linux\n  the build script of a v0.1.0 is run, for linux\n  the build script of a v0.1.0 needs b v0.1.0\n  b v0.1.0 needs c v0.1.0\n",
    ),
    // by a feature
    (
        "why c -F x < a b&with=f;x=|b c?;f=dep:c|c / targets a:bin b:lib c:lib",
        "cargo builds c v0.1.0 (/w/c):\n  a v0.1.0 is asked for: program `a`, for linux\n  feature `f` of b v0.1.0 is enabled: a v0.1.0 asks for it\n  a v0.1.0 needs b v0.1.0\n  b v0.1.0 needs c v0.1.0, as its optional dependency `c`\n",
    ),
    // for tests
    (
        "why b --tests < a b&dev|b / targets a:bin! b:lib",
        "cargo builds b v0.1.0 (/w/b):\n  a v0.1.0 is asked for: program `a`, with its tests, for linux\n  a v0.1.0 needs b v0.1.0 for its tests\n",
    ),
    // below a procedural macro
    (
        "why b --target windows < a m|m b|b / targets a:bin m:proc-macro b:lib",
        "cargo builds b v0.1.0 (/w/b):\n  a v0.1.0 is asked for: program `a`, for windows\n  a v0.1.0 needs m v0.1.0, for the host\n  m v0.1.0 needs b v0.1.0\n",
    ),
    (
        "why b --steps < a b|b / targets a:bin b:lib",
        "0 compiled path+file:///w/a#0.1.0 bin a build linux targets\n1 met path+file:///w/a#0.1.0 root\n2 linked path+file:///w/a#0.1.0 path+file:///w/b#0.1.0 normal * b from 1\n3 needed path+file:///w/a#0.1.0 path+file:///w/b#0.1.0 normal * b linux path+file:///w/b#0.1.0 lib b build linux targets from 0 2\n4 compiled path+file:///w/b#0.1.0 lib b build linux targets from 3\n",
    ),
    (
        "why b --json < a b|b / targets a:bin b:lib",
        "{\n  \"answer\": {\n    \"id\": \"path+file:///w/b#0.1.0\",\n    \"steps\": [\n      {\n        \"fact\": [\n          \"compiled\",\n          \"path+file:///w/a#0.1.0\",\n          \"bin\",\n          \"a\",\n          \"build\",\n          \"linux\",\n          \"targets\"\n        ],\n        \"uses\": []\n      },\n      {\n        \"fact\": [\n          \"met\",\n          \"path+file:///w/a#0.1.0\",\n          \"root\"\n        ],\n        \"uses\": []\n      },\n      {\n        \"fact\": [\n          \"linked\",\n          \"path+file:///w/a#0.1.0\",\n          \"path+file:///w/b#0.1.0\",\n          \"normal\",\n          \"*\",\n          \"b\"\n        ],\n        \"uses\": [\n          1\n        ]\n      },\n      {\n        \"fact\": [\n          \"needed\",\n          \"path+file:///w/a#0.1.0\",\n          \"path+file:///w/b#0.1.0\",\n          \"normal\",\n          \"*\",\n          \"b\",\n          \"linux\",\n          \"path+file:///w/b#0.1.0\",\n          \"lib\",\n          \"b\",\n          \"build\",\n          \"linux\",\n          \"targets\"\n        ],\n        \"uses\": [\n          0,\n          2\n        ]\n      },\n      {\n        \"fact\": [\n          \"compiled\",\n          \"path+file:///w/b#0.1.0\",\n          \"lib\",\n          \"b\",\n          \"build\",\n          \"linux\",\n          \"targets\"\n        ],\n        \"uses\": [\n          3\n        ]\n      }\n    ]\n  },\n  \"build\": {\n    \"all_features\": false,\n    \"features\": [],\n    \"host\": \"linux\",\n    \"no_default_features\": false,\n    \"packages\": \"default\",\n    \"resolver\": \"2\",\n    \"target_kinds\": [],\n    \"targets\": []\n  },\n  \"rules\": \"build\",\n  \"version\": 1\n}\n",
    ),
];

/// Which features are enabled.
static FEATURES: &[Row] = &[
    (
        "features b < a b&with=f b&build&with=g|b;f=h g= h= / nodes a b&normal&build|b;f,g,h / targets a:bin,custom-build b:lib",
        "b v0.1.0 (/w/b)\n  f: a v0.1.0 asks for it\n  h: its feature `f` enables it\nb v0.1.0 (/w/b), for what the build itself runs\n  g: a v0.1.0 asks for it\n",
    ),
    (
        "features b --resolver 1 < a b&with=f b&build&with=g|b;f=h g= h= / nodes a b&normal&build|b;f,g,h / targets a:bin,custom-build b:lib",
        "b v0.1.0 (/w/b)\n  f: a v0.1.0 asks for it\n  g: a v0.1.0 asks for it\n  h: its feature `f` enables it\n",
    ),
    (
        "features a -F x < a;default=y x= y= / targets a:bin",
        "a v0.1.0 (/w/a)\n  default: it is asked for\n  x: it is asked for\n  y: its feature `default` enables it\n",
    ),
    (
        "features b < a b!|b;default= / targets a:bin b:lib",
        "b v0.1.0 (/w/b)\n  default: a v0.1.0 needs it with default features\n",
    ),
    (
        "features b --json < a b&with=f|b;f= / targets a:bin b:lib",
        "{\n  \"answer\": {\n    \"id\": \"path+file:///w/b#0.1.0\",\n    \"sides\": [\n      {\n        \"features\": [\n          {\n            \"name\": \"f\",\n            \"reason\": \"a v0.1.0 asks for it\"\n          }\n        ],\n        \"side\": \"targets\"\n      }\n    ]\n  },\n  \"build\": {\n    \"all_features\": false,\n    \"features\": [],\n    \"host\": \"linux\",\n    \"no_default_features\": false,\n    \"packages\": \"default\",\n    \"resolver\": \"2\",\n    \"target_kinds\": [],\n    \"targets\": []\n  },\n  \"rules\": \"build\",\n  \"version\": 1\n}\n",
    ),
];

/// What isn't built.
static UNBUILT: &[Row] = &[
    (
        "unreachable b --target windows < a b&on=cfg(unix)|b / targets a:bin b:lib",
        "cargo builds no b v0.1.0 (/w/b): it isn't among the facts (5), and these are closed under the rules\n",
    ),
    (
        "unreachable b < a b&on=cfg(unix)|b / targets a:bin b:lib",
        "no: cargo builds b v0.1.0 (/w/b); `why` says why\n",
    ),
    // by the first resolver features are asked for on one side for both
    (
        "unreachable openssl --resolver 1 --target windows < OPENSSL",
        "no: cargo builds openssl v0.1.0 (/w/openssl); `why` says why\n",
    ),
    // whatever a target requires that isn't asked for
    (
        "unreachable d --tests -F x < a c!;x=c/f|c;f= default=|d / targets a:bin,example=x,example=c/f,example=y,lib=default c:lib,example=f d:lib",
        "cargo builds no d v0.1.0 (/w/d): it isn't among the facts (20), and these are closed under the rules\n",
    ),
    // for one side
    (
        "unreachable b --side target < a b&build|b / targets a:bin,custom-build b:lib",
        "cargo builds no b v0.1.0 (/w/b) for the targets: it isn't among the facts (11), and these are closed under the rules\n",
    ),
    (
        "unreachable b --side host < a b&build|b / targets a:bin,custom-build b:lib",
        "no: cargo builds b v0.1.0 (/w/b) for the host; `why` says why\n",
    ),
    (
        "unreachable z --side host < a / targets a:bin",
        "`z` can't be reached: no package of the document fits\n",
    ),
    (
        "unreachable b --json < a b&dev|b / targets a:bin b:lib",
        "{\n  \"answer\": {\n    \"id\": \"path+file:///w/b#0.1.0\",\n    \"unreachable\": true\n  },\n  \"build\": {\n    \"all_features\": false,\n    \"features\": [],\n    \"host\": \"linux\",\n    \"no_default_features\": false,\n    \"packages\": \"default\",\n    \"resolver\": \"2\",\n    \"target_kinds\": [],\n    \"targets\": []\n  },\n  \"rules\": \"build\",\n  \"version\": 1\n}\n",
    ),
];

#[test]
fn reasons_are_given(rt: HostRuntime) -> Result<(), Fail> {
    hold::<Answered>(rt.alloc(), WHY)
}

#[test]
fn features_are_explained(rt: HostRuntime) -> Result<(), Fail> {
    hold::<Answered>(rt.alloc(), FEATURES)
}

#[test]
fn what_is_not_built_is_said(rt: HostRuntime) -> Result<(), Fail> {
    hold::<Answered>(rt.alloc(), UNBUILT)
}
