//! Two builds each: what they keep, report and draw is compared as it is printed.
//!
//! A line has two lines of documents with ` == ` between them. Where both builds are printed alike, the answer is what is printed:
//! the kept and the reported crates, and the graph, or the refusal. Else the answer has both with ` but ` between them.

use crate::building::Built;
use crate::drawing::Graphed;
use crate::of_graph::OfGraph;
use krates_samples::table::{Question, hold_lines};
use std::alloc::Global;
use std::test::Fail;

/// What a build keeps and reports, and its graph, or the refusal.
fn printed(alloc: Global, line: &str) -> Result<String, Fail> {
    let built = Built::told(alloc, line)?;
    if !built.as_str().starts_with('+') {
        return Ok(built);
    }
    let graph = OfGraph::<Graphed>::told(alloc, line)?;
    Ok(format!(in alloc; "{built}: {graph}")?)
}

/// What two builds print.
struct Compared;

impl Question for Compared {
    fn told(alloc: Global, line: &str) -> Result<String, Fail> {
        let (first, second) = line.split_once(" == ").unwrap_or((line, ""));
        let told = printed(alloc, first)?;
        let other = printed(alloc, second)?;
        if told.as_str() == other.as_str() {
            return Ok(told);
        }
        Ok(format!(in alloc; "{told} but {other}")?)
    }
}

static COMPARED: &str = "
// reordered by hand
// a dependency for tests: the packages and the nodes the other way round
a b&dev|b / nodes a b&dev|b == b|a b&dev / nodes b|a b&dev => +a+b: a[1] b | 0>1(dev)
// the same where it is ignored, so that `b` is reported, and `c` after it
a b&dev|b|c / nodes a b&dev|b|c / ignore dev all == c|b|a b&dev / nodes c|a b&dev|b / ignore dev all => +a-b-c: a[-] |
// an optional dependency that a feature brings, and a weak reference through it: packages, nodes and features the other
// way round
a b?;b=dep:b w=b?/j|b;j= / nodes a b;b w|b;j == b;j=|a b?;w=b?/j b=dep:b / nodes b;j|a b;w b => +a+b: a[1] b 0/b 0/w 1/j | 0>1 0:4 2:0 2:1 3:0 3:4 4:1
// a reference that leads past a dependency for tests
a b&dev;x=b/y z=|b;y= v= / nodes a b&dev;x z|b;y v == b;v= y=|a b&dev;z= x=b/y / nodes b;v y|a b&dev;z x => +a+b: a[1] b 0/x 0/z 1/y | 0>1(dev) 0:4 2:0 2:4 3:0 4:1
// two crates that one declared dependency means: the packages, the nodes and the dependencies of one node
a d|d@0.10.0|d@0.9.0 / nodes a d@0.10.0 d@0.9.0|d@0.10.0|d@0.9.0 == d@0.9.0|a d|d@0.10.0 / nodes d@0.9.0|d@0.10.0|a d@0.9.0 d@0.10.0 => +a+d=d@0.10.0+d=d@0.9.0: a[2] d@0.10.0 d@0.9.0 | 0>1 0>2
// members in another order, one of them twice, and a crate that none needs
a c|b c|c|d / members a b == d|c|b c|a c / members b a b => +a+b+c-d: a[2] b[2] c | 0>2 1>2
// what is refused is refused alike
a b|b / nodes a b == b|a b / nodes a b => lost node: path+file:///w/b#0.1.0
a|b / members == b|a / members => no root crates available
// narrowed by one step
// a kind that is ignored: `b` is reported, and the rest of the graph stays
a b&dev c|b|c == a b&dev c|b|c / ignore dev all => +a+b+c: a[1][2] b c | 0>1(dev) 0>2 but +a+c-b: a[-][1] c | 0>1
// an exclusion takes with it what only that crate needs
a b d|b c|c|d == a b d|b c|c|d / without b => +a+b+c+d: a[1][3] b[2] c d | 0>1 0>3 1>2 but +a+d-b-c: a[-][1] d | 0>1
// and the last crate that is left: no root is there
a b|b == a b|b / without a => +a+b: a[1] b | 0>1 but no root crates available
// a target at which the dependency passes, one at which it doesn't, and both, which is wider
a b&on=cfg(unix)|b == a b&on=cfg(unix)|b / for x86_64-unknown-linux-gnu => +a+b: a[1] b | 0>1
a b&on=cfg(unix)|b == a b&on=cfg(unix)|b / for x86_64-pc-windows-msvc => +a+b: a[1] b | 0>1 but +a-b: a[-] |
a b&on=cfg(unix)|b == a b&on=cfg(unix)|b / for x86_64-pc-windows-msvc x86_64-unknown-linux-gnu => +a+b: a[1] b | 0>1
";

#[test]
fn reordered_by_hand_or_narrowed_by_one_step(rt: HostRuntime) -> Result<(), Fail> {
    hold_lines::<Compared>(rt.alloc(), COMPARED)
}
