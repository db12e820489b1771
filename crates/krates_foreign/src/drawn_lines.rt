//! The lines of a graph: nodes and edges in the order of their numbers, and each text after its length.

ghost use Rattle.std.specs.Prelude.{◌≡◌, Some, option_map};
ghost use Rattle.std.specs.List.{flat_map};
ghost use Rattle.krates_cm.specs.Document.{text_view};
ghost use Rattle.krates_drawing.specs.Views.{tie_view};
ghost use Rattle.krates_foreign.specs.DrawnLines.{cfg_text, entry_text, kind_text, measured_text, tie_text};
ghost use Rattle.krates_foreign.specs.StoredLines.{stored_edge_lines, stored_line, stored_node_line, stored_node_lines};

use krates::graph::GraphEdge;
use krates::{DepKind, Edge, Node, NodeId};
use krates_cli::Listed;
use std::fmt;

/// A text after its length in bytes and a colon, so that it can be read whole, whatever it has: `3:a b`.
#[derive(Clone, Copy)]
struct Measured<'a>(&'a str);

impl fmt::Display for Measured<'_> {
    ghost output = { λ text. Some (measured_text text.0.now) };

    fn fmt<W: fmt::Write>(&self, f: &mut fmt::Formatter<W>) -> fmt::Result {
        write!(f, "{}:{}", self.0.len(), self.0)
    }
}

/// An entry of a mapping after a space: the number of a crate, or `-`.
#[derive(Clone, Copy)]
struct Entry(Option<NodeId>);

impl fmt::Display for Entry {
    ghost output = { λ entry. Some (entry_text entry.0) };

    fn fmt<W: fmt::Write>(&self, f: &mut fmt::Formatter<W>) -> fmt::Result {
        match self.0 {
            Some(krate) => write!(f, " {}", krate.index()),
            None => f.write_str(" -"),
        }
    }
}

/// The entries of a mapping, in their order.
#[derive(Clone, Copy)]
struct Entries<'a>(&'a [Option<NodeId>]);

impl fmt::Display for Entries<'_> {
    ghost output = { λ entries. Some (flat_map entry_text entries.0.now) };

    fn fmt<W: fmt::Write>(&self, f: &mut fmt::Formatter<W>) -> fmt::Result {
        for entry in self.0 {
            write!(f, "{}", Entry(*entry))?;
        }
        Ok(())
    }
}

/// The line of a node: `crate ID` with the entries of its mapping, or `feature KRATE NAME`.
#[derive(Clone, Copy)]
struct NodeLine<'a>(&'a Node<Listed>);

impl fmt::Display for NodeLine<'_> {
    ghost output = { λ line. Some (stored_node_line line.0.now) };

    fn fmt<W: fmt::Write>(&self, f: &mut fmt::Formatter<W>) -> fmt::Result {
        match self.0 {
            Node::Krate {
                krate,
                dep_mapping,
                ..
            } => {
                let (id, entries) = (Measured(krate.id.repr.as_str()), Entries(dep_mapping));
                writeln!(f, "crate {id}{entries}")
            }
            Node::Feature { krate_index, name } => {
                let name = Measured(name.as_str());
                writeln!(f, "feature {} {name}", krate_index.index())
            }
        }
    }
}

/// The lines of nodes, in their order.
#[derive(Clone, Copy)]
pub(crate) struct NodeLines<'a>(pub(crate) &'a [Node<Listed>]);

impl fmt::Display for NodeLines<'_> {
    ghost output = { λ lines. Some (stored_node_lines lines.0.now) };

    fn fmt<W: fmt::Write>(&self, f: &mut fmt::Formatter<W>) -> fmt::Result {
        for node in self.0 {
            write!(f, "{}", NodeLine(node))?;
        }
        Ok(())
    }
}

/// The name of a kind.
fn kind_name(kind: DepKind) -> &'static str
    ensures { result.now ≡ kind_text kind }
{
    match kind {
        DepKind::Normal => " normal",
        DepKind::Build => " build",
        DepKind::Dev => " dev",
    }
}

/// The target that an edge is for, after a space, where it is for one.
#[derive(Clone, Copy)]
struct ForTarget<'a>(&'a Option<String>);

impl fmt::Display for ForTarget<'_> {
    ghost output = { λ cfg. Some (cfg_text (option_map text_view cfg.0.now)) };

    fn fmt<W: fmt::Write>(&self, f: &mut fmt::Formatter<W>) -> fmt::Result {
        match self.0 {
            Some(cfg) => write!(f, " {}", Measured(cfg.as_str())),
            None => Ok(()),
        }
    }
}

/// What an edge says, after a space: `dep` or `depfeature`, its kind and the target that it is for, or `feature`.
#[derive(Clone, Copy)]
struct Says<'a>(&'a Edge);

impl fmt::Display for Says<'_> {
    ghost output = { λ edge. Some (tie_text (tie_view edge.0.now)) };

    fn fmt<W: fmt::Write>(&self, f: &mut fmt::Formatter<W>) -> fmt::Result {
        match self.0 {
            Edge::Dep { kind, cfg } => { write!(f, " dep{}{}", kind_name(*kind), ForTarget(cfg)) }
            Edge::DepFeature { kind, cfg } => {
                write!(f, " depfeature{}{}", kind_name(*kind), ForTarget(cfg))
            }
            Edge::Feature => f.write_str(" feature"),
        }
    }
}

/// The line of an edge: `edge SOURCE TARGET`, and what it says.
#[derive(Clone, Copy)]
struct EdgeLine<'a>(&'a GraphEdge<Edge>);

impl fmt::Display for EdgeLine<'_> {
    ghost output = { λ line. Some (stored_line line.0.now) };

    fn fmt<W: fmt::Write>(&self, f: &mut fmt::Formatter<W>) -> fmt::Result {
        let edge = self.0;
        let (source, target) = (edge.source.index(), edge.target.index());
        writeln!(f, "edge {source} {target}{}", Says(&edge.weight))
    }
}

/// The lines of edges, in their order.
#[derive(Clone, Copy)]
pub(crate) struct EdgeLines<'a>(pub(crate) &'a [GraphEdge<Edge>]);

impl fmt::Display for EdgeLines<'_> {
    ghost output = { λ lines. Some (stored_edge_lines lines.0.now) };

    fn fmt<W: fmt::Write>(&self, f: &mut fmt::Formatter<W>) -> fmt::Result {
        for edge in self.0 {
            write!(f, "{}", EdgeLine(edge))?;
        }
        Ok(())
    }
}
