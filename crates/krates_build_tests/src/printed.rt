//! What is printed for nodes, for edges and for kinds of dependency, and what copies of edges say.

ghost use Rattle.std.specs.Prelude.{Some, string_bytes};

use crate::drawing::push_edge;
use crate::of_graph::{OfGraph, Told, push_marked};
use crate::own_types::Named;
use krates::graph::GraphEdge;
use krates::{DepKind, Edge, Krates};
use krates_samples::documents::kind_named;
use krates_samples::table::{Tell, hold_lines};
use krates_text::text::Text;
use std::alloc::AllocError;
use std::fmt;
use std::test::Fail;

/// A package is printed by its name.
impl fmt::Display for Named {
    ghost output = { λ named. Some (string_bytes named.name) };

    fn fmt<W: fmt::Write>(&self, f: &mut fmt::Formatter<W>) -> fmt::Result {
        f.write_str(self.name.as_str())
    }
}

/// Adds after a bar the edges as their copies are printed, and after another each copy.
fn push_edges(text: &mut Text, edges: &[GraphEdge<Edge>]) -> Result<(), AllocError> {
    let mut copies = Text::new(text.allocator());
    text.push_str("|");
    for edge in edges {
        let copy = edge.weight.clone()?;
        write!(text, "{copy};");
        copies.push_str(" ");
        push_edge(&mut copies, &copy);
    }
    text.push_str("|");
    text.push_str(copies.whole()?.as_str());
    Ok(())
}

/// The nodes of the graph, each with a comma after it, and names instead of packages; and copies of its edges, each with a semicolon
/// after it as it is printed, and then each with all that it says.
struct Printed;

impl Told<Named> for Printed {
    fn push(text: &mut Text, krates: &Krates<Named>, _line: &str) -> Result<(), Fail> {
        for node in krates.graph().raw_nodes() {
            write!(text, "{node},");
        }
        Ok(push_edges(text, krates.graph().raw_edges())?)
    }
}

static PRINTED: &str = "
// a feature, and its edge
a;f= => crate a,feature f,|;| :
// a dependency of each kind
a b|b => crate a,crate b,|;| >
a b&build|b => crate a,crate b,|(build);| >:build
a b&dev|b => crate a,crate b,|(dev);| >:dev
// and for one target
a b&on=cfg(unix)|b => crate a,crate b,| 'cfg(unix)';| >::cfg(unix)
a b&build&on=cfg(unix)|b => crate a,crate b,|(build) 'cfg(unix)';| >:build:cfg(unix)
a b&dev&on=cfg(unix)|b => crate a,crate b,|(dev) 'cfg(unix)';| >:dev:cfg(unix)
// a dependency on a feature, and that feature's edge
a b&with=f|b;f= => crate a,crate b,feature f,|;;| = :
a b&build&with=f|b;f= => crate a,crate b,feature f,|(build);;| =:build :
a b&dev&with=f&on=cfg(unix)|b;f= => crate a,crate b,feature f,|(dev) 'cfg(unix)';;| =:dev:cfg(unix) :
";

/// What is printed for the kind of this name, in quotes, and which of cargo's kinds it is.
struct Kinds;

impl Tell for Kinds {
    fn tell(told: &mut Text, name: &str) -> Result<(), Fail> {
        let kind = DepKind::from(kind_named(name));
        write!(told, "'{kind}'");
        for other in ["normal", "build", "dev"] {
            if kind.is(kind_named(other)) {
                push_marked(told, " ", other);
            }
        }
        Ok(())
    }
}

static KINDS: &str = "
normal => '' normal
build => 'build' build
dev => 'dev' dev
";

#[test]
fn printed_texts(rt: HostRuntime) -> Result<(), Fail> {
    hold_lines::<OfGraph<Printed, Named>>(rt.alloc(), PRINTED)?;
    hold_lines::<Kinds>(rt.alloc(), KINDS)
}
