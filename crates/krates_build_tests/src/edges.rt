//! What the graph of a build answers along its edges: direct dependencies and dependents, what a node leads to, and
//! what members reach without a kind of edge.

use crate::drawing::push_edge;
use crate::of_graph::{OfGraph, Told, push_marked};
use krates::graph::Direction;
use krates::{DepKind, EdgeId, Krates, Node, NodeId, Package};
use krates_samples::documents::{kind_named, section, word_of};
use krates_samples::table::hold_lines;
use krates_text::text::Text;
use std::alloc::AllocError;
use std::test::Fail;

/// The word of the id of a node's crate; `none` where there is no node.
fn word_at(krates: &Krates, node: NodeId) -> &str {
    match krates.kid(node) {
        Some(kid) => word_of(kid.repr()),
        None => "none",
    }
}

/// Adds the direct dependents of a number, each after `<` with its id and its edge.
fn push_dependents(text: &mut Text, krates: &Krates, node: NodeId) -> Result<(), AllocError> {
    for found in &krates.direct_dependents(node)? {
        let (other, edge) = (found.node_id.index(), found.edge_id.index());
        let kid = word_at(krates, found.node_id);
        write!(text, " {}<{other} {kid} by {edge}", node.index());
    }
    Ok(())
}

/// Adds the direct dependencies of a number, where it is that of a node, each after `>` with its id and its edge.
fn push_dependencies(text: &mut Text, krates: &Krates, node: NodeId) -> Result<(), AllocError> {
    if node.index() >= krates.graph().node_count() {
        return Ok(());
    }
    for found in &krates.direct_dependencies(node)? {
        let (other, edge) = (found.node_id.index(), found.edge_id.index());
        let kid = word_at(krates, found.node_id);
        write!(text, " {}>{other} {kid} by {edge}", node.index());
    }
    Ok(())
}

/// The direct dependents and dependencies of each of the first ten numbers.
struct Direct;

impl Told<Package> for Direct {
    fn push(text: &mut Text, krates: &Krates, _line: &str) -> Result<(), Fail> {
        for number in 0..10u32 {
            push_dependents(text, krates, NodeId::new(number))?;
            push_dependencies(text, krates, NodeId::new(number))?;
        }
        Ok(())
    }
}

static DIRECT: &str = "
// `b` by its own edge; its feature `j` by the second; features have no dependencies, and nobody depends on `a`
a b?;b=dep:b w=b?/j|b;j= / nodes a b;b w|b;j =>  0>1 b by 0 1<0 a by 0 4<0 a by 1
// a crate that needs itself
a a&dev =>  0<0 a by 0 0>0 a by 0
// an edge into a feature counts for its crate, and the least counts
a b!&with=default|b;default= / nodes a b|b;default =>  0>1 b by 0 1<0 a by 0 2<0 a by 0
// edges into two features of one crate
a b&with=x c|b;x= y=|c b&with=y =>  0>1 b by 0 0>2 c by 1 1<0 a by 0 1<2 c by 2 2<0 a by 1 2>1 b by 2 3<0 a by 0 4<2 c by 2
// two crates by one declared dependency: the mapping has one, and both have the dependent
a d|d@0.10.0|d@0.9.0 / nodes a d@0.10.0 d@0.9.0|d@0.10.0|d@0.9.0 =>  0>2 d@0.9.0 by 1 1<0 a by 0 2<0 a by 1
// a circle
a b|b a =>  0<1 b by 1 0>1 b by 0 1<0 a by 0 1>0 a by 1
// two declared dependencies on one crate name it once
a b b&dev|b / nodes a b&normal&dev|b =>  0>1 b by 0 1<0 a by 0
// ids that the document has in another order
c b a|b a|a / members c =>  0<1 b by 0 0<2 c by 1 1<2 c by 2 1>0 a by 0 2>0 a by 1 2>1 b by 2
// an id that has the name of the directory
a real&id=path+file:///w/dir#0.1.0|real&id=path+file:///w/dir#0.1.0 =>  0>1 dir by 0 1<0 a by 0
";

/// The nodes that are features of the second one, and after a bar the edges that aren't a dependency for development.
struct Own;

impl Told<Package> for Own {
    fn push(text: &mut Text, krates: &Krates, _line: &str) -> Result<(), Fail> {
        for (number, node) in krates.graph().raw_nodes().iter().enumerate() {
            if node.is_feature_of(NodeId::new(1)) {
                write!(text, "{number} ");
            }
        }
        text.push_str("|");
        for (number, edge) in krates.graph().raw_edges().iter().enumerate() {
            if edge.weight.is_without(DepKind::Dev) {
                write!(text, " {number}");
            }
        }
        Ok(())
    }
}

static OWN: &str = "
// a dependency that requires a feature twice, as the default one and by name, and the feature, which leads to its crate
a b!&with=default|b;default= / nodes a b|b;default => 2 | 0 1 2
// the feature of another crate isn't its own; a feature leads to what it toggles by no dependency
a b?;b=dep:b w=b?/j|b;j= / nodes a b;b w|b;j => 4 | 0 1 2 3 4 5 6
// of two dependencies on one crate the second is for development
a b b&dev|b / nodes a b&normal&dev|b => | 0
// the first again, for development
a b!&dev&with=default|b;default= / nodes a b&dev|b;default => 2 | 2
";

/// Adds what the declared dependency at a place of a node means.
fn push_resolved(text: &mut Text, krates: &Krates, node: NodeId, place: usize) {
    match krates.resolved_dependency(node, place) {
        Some(krate) => push_marked(text, " =", krate.name.as_str()),
        None => text.push_str(" -"),
    }
}

/// Adds after a bar what is at the ends of a node's edges, the name of a crate, or a plus sign and the name of a feature, each with what
/// the edge says; and what its first two declared dependencies mean.
fn push_ends(text: &mut Text, krates: &Krates, node: NodeId) {
    text.push_str("|");
    for (end, edge) in krates.get_deps(node) {
        match end {
            Node::Krate { krate, .. } => push_marked(text, " ", krate.name.as_str()),
            Node::Feature { name, .. } => push_marked(text, " +", name.as_str()),
        }
        push_edge(text, edge);
    }
    push_resolved(text, krates, node, 0);
    push_resolved(text, krates, node, 1)
}

/// Adds the numbers of edges.
fn push_numbers(text: &mut Text, edges: &[EdgeId]) {
    for edge in edges {
        write!(text, " {}", edge.index());
    }
}

/// The ends of the edges of the nodes 0, 2, 3 and 9, with the edges, and the numbers of the edges of 0 and into 1.
struct Ends;

impl Told<Package> for Ends {
    fn push(text: &mut Text, krates: &Krates, _line: &str) -> Result<(), Fail> {
        for number in [0u32, 2, 3, 9] {
            push_ends(text, krates, NodeId::new(number));
        }
        let graph = krates.graph();
        push_numbers(
            text,
            graph.edge_numbers(NodeId::new(0), Direction::Outgoing),
        );
        text.push_str(" into");
        push_numbers(
            text,
            graph.edge_numbers(NodeId::new(1), Direction::Incoming),
        );
        Ok(())
    }
}

static ENDS: &str = "
a b?;b=dep:b w=b?/j|b;j= / nodes a b;b w|b;j => | b> +j: =b -| a: b: - -| a: +j: - -| - - 0 1 into 0 3 6
// edges that differ
a b&dev c&build&on=cfg(unix) d&with=f|b|c|d;f= => | b>:dev c>:build:cfg(unix) +f= =b =c| - -| - -| - - 0 1 2 into 0
";

/// The crates that members reach without edges of the kind in the section `ask`.
struct Filtered;

impl Told<Package> for Filtered {
    fn push(text: &mut Text, krates: &Krates, line: &str) -> Result<(), Fail> {
        let kind = DepKind::from(kind_named(section(line, "ask ").unwrap_or("")));
        for krate in &krates.krates_filtered(kind)? {
            write!(text, "{} ", krate.name);
        }
        Ok(())
    }
}

static FILTERED: &str = "
a b c&dev|b|c d|d / ask dev => a b $
// a feature leads on where its crate's dependency doesn't
a b&dev;x=b/y|b;y= / ask dev => a b $
a a&dev / ask dev => a $
// each kind, and what is needed beyond it
a b c&dev d&build|b|c e|d e|e / ask normal => a c d $
a b c&dev d&build|b|c e|d e|e / ask build => a b c e $
a b c&dev d&build|b|c e|d e|e / ask dev => a b d e $
// the way to a feature is of the kind too
a b&build&with=y|b;y= / ask build => a $
a b&build&with=y|b;y= / ask normal => a b $
a b&with=y|b;y= / ask normal => a $
";

#[test]
fn answers_along_edges(rt: HostRuntime) -> Result<(), Fail> {
    hold_lines::<OfGraph<Direct>>(rt.alloc(), DIRECT)?;
    hold_lines::<OfGraph<Own>>(rt.alloc(), OWN)?;
    hold_lines::<OfGraph<Ends>>(rt.alloc(), ENDS)?;
    hold_lines::<OfGraph<Filtered>>(rt.alloc(), FILTERED)
}
