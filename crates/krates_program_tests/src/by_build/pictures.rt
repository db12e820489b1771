//! Pictures of what cargo builds, and orders in which it can be built.

use crate::by_build::answered::Answered;
use krates_samples::table::{Row, hold};
use std::test::Fail;

/// Orders, and pictures.
static PICTURES: &[Row] = &[
    (
        "order < a b&build c|b|c / targets a:bin,custom-build b:lib c:lib",
        "b v0.1.0 (/w/b)\nc v0.1.0 (/w/c)\na v0.1.0 (/w/a)\n",
    ),
    // with tests two need each other
    (
        "order < a b&dev|b a / nodes a b&dev|b a / targets a:lib,test b:lib",
        "a v0.1.0 (/w/a)\n",
    ),
    (
        "order --tests < a b&dev|b a / nodes a b&dev|b a / targets a:lib,test b:lib",
        "no: there is no order: each of these needs the next one, and the last the first:\n    a v0.1.0 (/w/a)\n    b v0.1.0 (/w/b)\n",
    ),
    (
        "graph < a b&build c|b|c / targets a:bin,custom-build b:lib c:lib",
        "digraph crates {\n    rankdir=\"LR\"\n    node [shape=\"box\" fontname=\"sans-serif\"]\n    n0 [label=\"a v0.1.0\" penwidth=\"2\"]\n    n1 [label=\"b v0.1.0\" color=\"#cc5500\"]\n    n2 [label=\"c v0.1.0\"]\n    n0 -> n1 [style=\"dashed\"]\n    n0 -> n2\n}\n",
    ),
    (
        "why a --dot < a / targets a:bin",
        "digraph crates {\n    rankdir=\"LR\"\n    node [shape=\"box\" fontname=\"sans-serif\"]\n    n0 [label=\"compiled path+file:///w/a#0.1.0 bin a build linux targets\"]\n}\n",
    ),
];

#[test]
fn pictures_and_orders_of_builds(rt: HostRuntime) -> Result<(), Fail> {
    hold::<Answered>(rt.alloc(), PICTURES)
}
