//! Reports that people want, as a caller writes them.

use crate::of_graph::{OfGraph, Told};
use krates::cm::SourceKind;
use krates::{DepKind, KrateDetails, Krates, NodeId, Package};
use krates_samples::documents::section;
use krates_samples::table::hold_lines;
use krates_text::text::Text;
use std::alloc::AllocError;
use std::test::Fail;

/// Adds the crates that depend on a crate, each with the edge by which it does.
fn push_dependents(text: &mut Text, krates: &Krates, node: NodeId) -> Result<(), AllocError> {
    for found in &krates.direct_dependents(node)? {
        if let Some(edge) = krates.graph().raw_edges().get(found.edge_id.index()) {
            write!(text, "{}{}, ", found.krate.name(), edge.weight);
        }
    }
    Ok(())
}

/// Who depends on the crates of the name in the section `of`.
struct Dependents;

impl Told<Package> for Dependents {
    fn push(text: &mut Text, krates: &Krates, line: &str) -> Result<(), Fail> {
        for asked in krates.krates_by_name(section(line, "of ").unwrap_or("")) {
            push_dependents(text, krates, asked.node_id)?;
        }
        Ok(())
    }
}

static DEPENDENTS: &str = "
// by a normal edge, and by edges that say their kind and target
a b|b / of b => a, $
a c|b c&dev|c|d c&build&on=cfg(unix) / members a b d / of c => a, b(dev), d(build) 'cfg(unix)', $
// by an edge that requires a feature, and, of two edges, by the least
a b&with=f|b;f= / of b => a, $
a b b&dev|b / nodes a b&normal&dev|b / of b => a, $
// of both crates of a name, the lower version as a text first
a d|d@0.10.0|d@0.9.0 / nodes a d@0.10.0 d@0.9.0|d@0.10.0|d@0.9.0 / of d => a, a, $
// nobody, and no crate of the name
a b|b / of a =>
a b|b / of c =>
";

/// The crates that only dev dependencies bring.
struct ForTests;

impl Told<Package> for ForTests {
    fn push(text: &mut Text, krates: &Krates, _line: &str) -> Result<(), Fail> {
        let needed = krates.krates_filtered(DepKind::Dev)?;
        let mut place = 0usize;
        for krate in krates.krates() {
            match needed.get(place) {
                Some(next) if next.id == krate.id => place = place.saturating_add(1),
                _ => write!(text, "{}, ", krate.name()),
            }
        }
        Ok(())
    }
}

static FOR_TESTS: &str = "
a b|b =>
// what a test needs, and what that needs
a b&dev|b c|c => b, c, $
// but not what is needed otherwise too
a b&dev d|b c d|c|d => b, c, $
a b&dev c|b c|c => b, $
// a member counts as needed, though another needs it only for its tests
a b&dev|b c|c / members a b =>
// what a build script needs isn't a test's
a b&build c&dev|b|c => c, $
";

/// Where a package is from.
fn origin_of(krate: &Package) -> &'static str {
    match &krate.source {
        _ if krate.is_local() => "here",
        Some(source) => match source.kind() {
            SourceKind::Registry | SourceKind::SparseRegistry => "registry",
            SourceKind::Git => "git",
            SourceKind::Path | SourceKind::Other => "elsewhere",
        },
        None => "here",
    }
}

/// The crates that are shipped to the target of the line, each with its number, where it is from, and how many crates lead to it, itself
/// among them.
struct Shipped;

impl Told<Package> for Shipped {
    fn push(text: &mut Text, krates: &Krates, _line: &str) -> Result<(), Fail> {
        for found in krates.krate_nodes() {
            let number = found.node_id.index();
            let above = krates.all_dependents(found.node_id)?.len();
            let origin = origin_of(found.krate);
            write!(text, "{number} {} {origin} {above}, ", found.kid.name());
        }
        Ok(())
    }
}

static SHIPPED: &str = r#"
// at a target that rustc describes
a b&on=cfg(windows) c&dev|b d&crates.io|c|d&crates.io / ignore dev all / for x86_64-pc-windows-gnu;target_family="windows" => 0 a here 1, 1 b here 2, 2 d registry 3, $
a b&on=cfg(windows) c&dev|b d&crates.io|c|d&crates.io / ignore dev all / for x86_64-unknown-freebsd;target_family="unix" => 0 a here 1, $
"#;

#[test]
fn reports(rt: HostRuntime) -> Result<(), Fail> {
    hold_lines::<OfGraph<Dependents>>(rt.alloc(), DEPENDENTS)?;
    hold_lines::<OfGraph<ForTests>>(rt.alloc(), FOR_TESTS)?;
    hold_lines::<OfGraph<Shipped>>(rt.alloc(), SHIPPED)
}
