//! Which crates lead to a node over a path of edges, and which nodes reach which.

use crate::of_graph::{OfGraph, Told};
use krates::{Krates, NodeId, Package};
use krates_samples::table::hold_lines;
use krates_text::text::Text;
use std::alloc::AllocError;
use std::test::Fail;

/// Adds all dependents of a number, each after `<`: its number, its name, and the name in its id.
fn push_dependents(text: &mut Text, krates: &Krates, node: NodeId) -> Result<(), AllocError> {
    for found in &krates.all_dependents(node)? {
        let (number, name) = (found.node_id.index(), found.kid.name());
        let package = found.krate.name.as_str();
        write!(text, " {}<{number}{package}={name}", node.index());
    }
    Ok(())
}

/// All dependents of each of the first ten numbers.
struct AllDependents;

impl Told<Package> for AllDependents {
    fn push(text: &mut Text, krates: &Krates, _line: &str) -> Result<(), Fail> {
        for number in 0..10u32 {
            push_dependents(text, krates, NodeId::new(number))?;
        }
        Ok(())
    }
}

/// A crate is among its own. A number without a node has none.
static ALL_DEPENDENTS: &str = "
// a chain
a b|b c|c =>  0<0a=a 1<0a=a 1<1b=b 2<0a=a 2<1b=b 2<2c=c
// two ways to one crate: each is found once
a b c|b d|c d|d =>  0<0a=a 1<0a=a 1<1b=b 2<0a=a 2<2c=c 3<0a=a 3<1b=b 3<2c=c 3<3d=d
// a circle, closed by a dependency for tests
a b|b a&dev / members a b =>  0<0a=a 0<1b=b 1<0a=a 1<1b=b
a a&dev =>  0<0a=a
// no path leads from `a` to its features `b` and `w`, and none from `b` to its feature `j`, to which `a` leads
a b?;b=dep:b w=b?/j|b;j= / nodes a b;b w|b;j =>  0<0a=a 1<0a=a 1<1b=b 4<0a=a
// a path over a feature's node: `a` needs the feature `x` of `b`, which leads to `b`, and that to `c`
a b&with=x|b c;x=|c / nodes a b|b c;x|c =>  0<0a=a 1<0a=a 1<1b=b 2<0a=a 2<1b=b 2<2c=c 3<0a=a
";

/// Adds which of the first six numbers one reaches, each after `>`.
fn push_reached(text: &mut Text, krates: &Krates, from: NodeId) -> Result<(), AllocError> {
    for number in 0..6u32 {
        if krates.reaches(from, NodeId::new(number))? {
            write!(text, " {}>{number}", from.index());
        }
    }
    Ok(())
}

/// Which of the first six numbers reach which of them.
struct Reaching;

impl Told<Package> for Reaching {
    fn push(text: &mut Text, krates: &Krates, _line: &str) -> Result<(), Fail> {
        for number in 0..6u32 {
            push_reached(text, krates, NodeId::new(number))?;
        }
        Ok(())
    }
}

/// A node reaches itself. A number without a node reaches nothing, and nothing reaches it.
static REACHING: &str = "
a b|b c|c =>  0>0 0>1 0>2 1>1 1>2 2>2
a b c|b d|c d|d =>  0>0 0>1 0>2 0>3 1>1 1>3 2>2 2>3 3>3
a b|b a&dev / members a b =>  0>0 0>1 1>0 1>1
a a&dev =>  0>0
// features lead to their crates, and on
a b?;b=dep:b w=b?/j|b;j= / nodes a b;b w|b;j =>  0>0 0>1 0>4 1>1 2>0 2>1 2>2 2>4 3>0 3>1 3>3 3>4 4>1 4>4
";

#[test]
fn what_leads_to_a_node(rt: HostRuntime) -> Result<(), Fail> {
    hold_lines::<OfGraph<AllDependents>>(rt.alloc(), ALL_DEPENDENTS)?;
    hold_lines::<OfGraph<Reaching>>(rt.alloc(), REACHING)
}
