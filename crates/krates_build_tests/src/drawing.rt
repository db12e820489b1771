//! The graph that a build draws: nodes, mappings and edges, number by number.
//!
//! An answer has the nodes, each at its number, and after a bar the edges. A crate is written as its word, and in brackets the
//! numbers that its declared dependencies mean; a feature as the number of its crate, a slash and its name. An edge is written
//! as its two numbers: with `>` between them for a dependency, `=` for a dependency on a feature, and `:` for what a feature
//! enables. After it comes the kind of dependency, where it isn't the normal one.

use crate::facts::push_purpose;
use crate::of_graph::{OfGraph, Told};
use krates::graph::GraphEdge;
use krates::{DepKind, Edge, Krates, Node, NodeId, Package};
use krates_samples::documents::word_of;
use krates_samples::table::hold_lines;
use krates_text::text::Text;
use std::test::Fail;

/// Adds what the declared dependencies of a crate mean.
fn push_mapping(text: &mut Text, mapping: &[Option<NodeId>]) {
    for number in mapping {
        match number {
            Some(number) => write!(text, "[{}]", number.index()),
            None => text.push_str("[-]"),
        }
    }
}

/// The mark of an edge, and the kind of dependency that it says, where it says one.
fn mark_of(edge: &Edge) -> (&'static str, DepKind) {
    match edge {
        Edge::Dep { kind, .. } => (">", *kind),
        Edge::DepFeature { kind, .. } => ("=", *kind),
        Edge::Feature => (":", DepKind::Normal),
    }
}

/// Adds all that an edge says: its mark, its kind and its target.
pub(crate) fn push_edge(text: &mut Text, edge: &Edge) {
    text.push_str(mark_of(edge).0);
    match edge {
        Edge::Dep { kind, cfg } => push_purpose(text, *kind, cfg.as_deref()),
        Edge::DepFeature { kind, cfg } => push_purpose(text, *kind, cfg.as_deref()),
        Edge::Feature => {}
    }
}

/// Adds the edges in order.
fn push_edges(text: &mut Text, edges: &[GraphEdge<Edge>]) {
    for edge in edges {
        let (mark, kind) = mark_of(&edge.weight);
        let (source, target) = (edge.source.index(), edge.target.index());
        write!(text, " {source}{mark}{target}");
        if kind != DepKind::Normal {
            write!(text, "({kind})");
        }
    }
}

/// The whole graph of a document under the setting of its line.
pub(crate) struct Graphed;

impl Told<Package> for Graphed {
    fn push(text: &mut Text, krates: &Krates, _line: &str) -> Result<(), Fail> {
        for node in krates.graph().raw_nodes() {
            match node {
                Node::Krate {
                    id,
                    dep_mapping,
                    ..
                } => {
                    text.push_str(word_of(id.repr()));
                    push_mapping(text, dep_mapping);
                }
                Node::Feature { krate_index, name } => {
                    write!(text, "{}/{name}", krate_index.index());
                }
            }
            text.push_str(" ");
        }
        text.push_str("|");
        push_edges(text, krates.graph().raw_edges());
        Ok(())
    }
}

static GRAPHS: &str = "
// two nodes and an edge, and a cycle
a b|b => a[1] b | 0>1
a b|b a => a[1] b[0] | 0>1 1>0
// an optional dependency that a feature brings, and a weak reference through it
a b?;b=dep:b w=b?/j|b;j= / nodes a b;b w|b;j => a[1] b 0/b 0/w 1/j | 0>1 0:4 2:0 2:1 3:0 3:4 4:1
// the same, whatever the order of the document
b;j=|a b?;w=b?/j b=dep:b / nodes b;j|a b;w b => a[1] b 0/b 0/w 1/j | 0>1 0:4 2:0 2:1 3:0 3:4 4:1
// the weak reference alone keeps nothing
a b?;b=dep:b w=b?/j|b;j= / nodes a b;w|b;j => a[-] 0/w | 1:0
// `default` given twice
a b!&with=default|b;default= / nodes a b|b;default => a[1] b 1/default | 0=2 0=2 2:1
// the default feature by use, which the crate doesn't list: one edge to the crate
a b!|b => a[1] b | 0>1
// a reference over an edge that is pruned draws nothing
a b;x=b/nope|b / nodes a b;x|b / without b => a[-] 0/x | 1:0
// of two crates that one declared dependency means, the mapping holds the greatest
a d|d@0.10.0|d@0.9.0 / nodes a d@0.10.0 d@0.9.0|d@0.10.0|d@0.9.0 => a[2] d@0.10.0 d@0.9.0 | 0>1 0>2
// a renamed dependency links the crate
a real?&as=alias;x=dep:alias|real / nodes a real&as=alias;x|real => a[1] real 0/x | 0>1 2:0 2:1
// a dependency that is optional for one kind, and isn't for another
a b? b&dev;w=b?/j|b;j= / nodes a b&normal&dev;w|b;j => a[-][1] b 0/w 1/j | 0>1(dev) 0:3 2:0 2:3 3:1
// features that name each other, and one that names itself
a;f=g g=f => a 0/f 0/g | 1:0 1:2 2:0 2:1
a;f=f => a 0/f | 1:0 1:1
// two weak references, which come before what brings the dependency
a b?;p=b?/j q=b?/k z=dep:b|b;j= k= => a[1] b 0/p 0/q 0/z 1/j 1/k | 0>1 0:5 0:6 2:0 2:5 3:0 3:6 4:0 4:1 5:1 6:1
// the kinds of a dependency in the order in which the node has them
a b b&dev b&build|b / nodes a b&dev&build&normal|b => a[1][1][1] b | 0>1(dev) 0>1(build) 0>1
// the features that a dependency requires in its order, as often as it names them, and then the default one
a b!&with=z,y,z|b;default= y= z= => a[1] b 1/default 1/y 1/z | 0=4 0=3 0=4 0=2 2:1 3:1 4:1
// what a crate toggles by name, and what a feature leads to in the order of its references
a b?;u= v= x=v,b/z,u,b/y,dep:b|b;y= z= => a[1] b 0/u 0/v 0/x 1/y 1/z | 0>1 0:5 0:6 2:0 3:0 4:0 4:3 4:6 4:2 4:5 4:1 5:1 6:1
// a name that means the least of two versions, and both
a d?;x=dep:d|d@0.10.0|d@0.9.0 / nodes a d@0.10.0 d@0.9.0;x|d@0.10.0|d@0.9.0 => a[1] d@0.10.0 0/x | 0>1 2:0 2:1
a d?;x=dep:d|d@0.10.0|d@0.9.0 / nodes a d@0.10.0 d@0.9.0;x|d@0.10.0|d@0.9.0 / names all => a[2] d@0.10.0 d@0.9.0 0/x | 0>1 0>2 3:0 3:1 3:2
// both, of which one is left out: an edge leads to each that is kept
a d?;x=dep:d|d@0.10.0|d@0.9.0 / nodes a d@0.10.0 d@0.9.0;x|d@0.10.0|d@0.9.0 / names all / without d@0.10.0 => a[1] d@0.9.0 0/x | 0>1 2:0 2:1
// a weak reference to both, which are kept for another reason
a d;x=d?/f|d@0.10.0;f=|d@0.9.0;f= / nodes a d@0.10.0 d@0.9.0;x|d@0.10.0;f|d@0.9.0;f / names all => a[2] d@0.10.0 d@0.9.0 0/x 1/f 2/f | 0>1 0:4 0>2 0:5 3:0 3:4 3:5 4:1 5:2
// the same graph where each name has one meaning
a b?;b=dep:b w=b?/j|b;j= / nodes a b;b w|b;j / names all => a[1] b 0/b 0/w 1/j | 0>1 0:4 2:0 2:1 3:0 3:4 4:1
a b;x=b/nope|b / nodes a b;x|b / without b / names all => a[-] 0/x | 1:0
a d|d@0.10.0|d@0.9.0 / nodes a d@0.10.0 d@0.9.0|d@0.10.0|d@0.9.0 / names all => a[2] d@0.10.0 d@0.9.0 | 0>1 0>2
a b? b&dev;w=b?/j|b;j= / nodes a b&normal&dev;w|b;j / names all => a[-][1] b 0/w 1/j | 0>1(dev) 0:3 2:0 2:3 3:1
// a crate that needs itself for its tests
a a&dev => a[0] | 0>0(dev)
";

#[test]
fn graphs(rt: HostRuntime) -> Result<(), Fail> {
    hold_lines::<OfGraph<Graphed>>(rt.alloc(), GRAPHS)
}
