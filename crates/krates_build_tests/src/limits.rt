//! Drawing within small limits.
//!
//! The section `within` has two numbers: how many nodes there may be, and how many edges. A line is answered with how many there are, or
//! with the text of the refusal.

use crate::real_documents::metadata_of;
use krates_cm::Metadata;
use krates_drawing::gather::outline_of;
use krates_drawing::limits::{Limits, Plan, plan_within};
use krates_drawing::outline::Outline;
use krates_ids::Error;
use krates_resolve::{Document, Setting, admit, select};
use krates_samples::documents::section;
use krates_samples::table::{Tell, hold_lines};
use krates_text::text::Text;
use std::alloc::Global;
use std::test::Fail;

/// The limits of a line.
fn limits_of(line: &str) -> Result<Limits, Fail> {
    let numbers = section(line, "within ").unwrap_or("");
    let (nodes, edges) = numbers.split_once(' ').unwrap_or((numbers, ""));
    Ok(Limits {
        nodes: nodes.parse()?,
        edges: edges.parse()?,
    })
}

/// The outline of a document without any setting.
fn outline(alloc: Global, metadata: &Metadata) -> Result<Outline, Fail> {
    let ids = admit(alloc, metadata)?;
    let setting = Setting::new(alloc);
    let selection = select(alloc, metadata, &ids, &setting)?;
    let document = Document::new(alloc, metadata, &ids)?;
    Ok(outline_of(alloc, &document, &setting, selection)?)
}

/// Adds how many nodes and edges are planned, or why nothing is.
fn push_planned(told: &mut Text, planned: &Result<Plan, Error>) {
    match planned {
        Ok(plan) => {
            let nodes = plan.planned_nodes.mappings.len() + plan.planned_nodes.features.len();
            write!(told, "{nodes} nodes, {} edges", plan.planned_edges.len())
        }
        Err(error) => write!(told, "{error}"),
    }
}

/// How many nodes and edges are drawn of a document within the limits of its line, or why nothing is.
struct Drawn;

impl Tell for Drawn {
    fn tell(told: &mut Text, line: &str) -> Result<(), Fail> {
        let limits = limits_of(line)?;
        let metadata = metadata_of(told.allocator(), line)?;
        let outline = outline(told.allocator(), &metadata)?;
        push_planned(told, &plan_within(told.allocator(), &outline, limits));
        Ok(())
    }
}

static LIMITS: &str = "
// two crates and an edge: exactly as many as there may be, and one of either too many
a b|b / within 2 1 => 2 nodes, 1 edges
a b|b / within 1 1 => too many nodes or edges
a b|b / within 2 0 => too many nodes or edges
// a crate alone
a / within 1 0 => 1 nodes, 0 edges
a / within 0 0 => too many nodes or edges
// features are nodes as well: two crates and three features, with an edge to `b`, one that requires its feature, and one from each
// feature to what it enables and to its crate
a b?;b=dep:b w=b?/j|b;j= / nodes a b;b w|b;j / within 5 7 => 5 nodes, 7 edges
a b?;b=dep:b w=b?/j|b;j= / nodes a b;b w|b;j / within 4 7 => too many nodes or edges
a b?;b=dep:b w=b?/j|b;j= / nodes a b;b w|b;j / within 5 6 => too many nodes or edges
// nine features that one dependency requires: an edge to each, and one from each to its crate
a b&with=f1,f2,f3,f4,f5,f6,f7,f8,f9|b;f1= f2= f3= f4= f5= f6= f7= f8= f9= / within 11 18 => 11 nodes, 18 edges
a b&with=f1,f2,f3,f4,f5,f6,f7,f8,f9|b;f1= f2= f3= f4= f5= f6= f7= f8= f9= / within 11 17 => too many nodes or edges
// more room than is needed
a b|b a / within 4294967295 4294967295 => 2 nodes, 2 edges
// a crate that nobody needs isn't drawn; the feature of the other one is the node too many
a;x=|b / nodes a;x|b / within 1 9 => too many nodes or edges
a;x=|b / nodes a;x|b / within 2 9 => 2 nodes, 1 edges
";

#[test]
fn limits(rt: HostRuntime) -> Result<(), Fail> {
    hold_lines::<Drawn>(rt.alloc(), LIMITS)
}
