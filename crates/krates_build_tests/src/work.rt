//! How much work a build took: how many crates, features and references were looked at.

use crate::of_graph::{OfGraph, Told};
use krates::{Krates, Package};
use krates_samples::table::hold_lines;
use krates_text::text::Text;
use std::test::Fail;

/// How many crates, features and references a build of the document counted.
struct Worked;

impl Told<Package> for Worked {
    fn push(text: &mut Text, krates: &Krates, _line: &str) -> Result<(), Fail> {
        let work = krates.work();
        write!(
            text,
            "{}, {}, {}",
            work.krates, work.features, work.references
        );
        Ok(())
    }
}

static COUNTED: &str = "
// `b` is required, and `w` enables its feature `j`, which has no references
a b?;b=dep:b w=b?/j|b;j= => 2, 3, 2
// the reference of `w` is counted, though the edge that it waits for isn't kept
a b?;b=dep:b w=b?/j|b;j= / nodes a b;w|b;j => 1, 1, 1
// a circle, in which each crate is looked at once
a b|b a => 2, 0, 0
// two features require one dependency, and one has the same reference twice
a b?;x=dep:b y=dep:b,dep:b|b => 2, 2, 3
// a reference counts once for each crate that its name means, and once where it means none
a d?;x=dep:d,dep:e,x|d@0.10.0|d@0.9.0 / nodes a d@0.10.0 d@0.9.0;x|d@0.10.0|d@0.9.0 => 2, 1, 3
a d?;x=dep:d,dep:e,x|d@0.10.0|d@0.9.0 / nodes a d@0.10.0 d@0.9.0;x|d@0.10.0|d@0.9.0 / names all => 3, 1, 4
// a node that lists a feature twice, and a feature that the manifest lacks
a;x=y y= / nodes a;x y x z => 1, 3, 1
";

#[test]
fn counted_work(rt: HostRuntime) -> Result<(), Fail> {
    hold_lines::<OfGraph<Worked>>(rt.alloc(), COUNTED)
}
