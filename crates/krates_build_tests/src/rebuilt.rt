//! What members reach without a kind of dependency, compared with what a rebuild that ignores this kind keeps.
//!
//! The section `ask` of a line names the kind. An answer has the crates of the first, and then those of the second, each after a
//! plus sign.

ghost use Rattle.std.specs.Prelude.{IfOk, map};
ghost use Rattle.krates_build_tests.specs.Rebuilt.{HoldsRebuilt};

use crate::builders::krates_of;
use crate::building::{push_krates, push_package};
use crate::of_graph::{OfGraph, Told};
use krates::{DepKind, Krates, Package, laws};
use krates_drawing::laws as drawing;
use krates_samples::documents::{kind_named, section};
use krates_samples::table::hold_lines;
use krates_text::text::Text;
use std::alloc::{AllocError, Global};
use std::test::Fail;

/// The crates of a build that its members reach without edges of a kind. Each crate of a rebuild that ignores the kind is among
/// them, where the graph of the document has no root or one of the members; and no other is, where the build enables no
/// feature and each member is one of its roots.
///
/// This is what `laws::filtered_holds_rebuild` and the contracts of `krates_filtered` and of both builds say together.
fn filtered_beside<'a, N, M>(
    kind: DepKind,
    krates: &'a Krates<N>,
    rebuilt: &Krates<M>,
) -> Result<Vec<&'a N>, AllocError>
    ensures { IfOk result (λ found. HoldsRebuilt kind krates.now rebuilt.now (map (λ krate. krate.now) found.items)) }
{
    laws::filtered_holds_rebuild();
    laws::narrowing();
    drawing::connected();
    let _ = krates.graph();
    let _ = rebuilt.len();
    krates.krates_filtered(kind)
}

/// Builds the document of a line again, without the kind of dependency of this name. The document is read anew, since a build
/// takes it, and is the same; so the graphs are those of a build and its rebuild.
fn rebuilt(alloc: Global, line: &str, name: &str) -> Result<Box<Krates>, Fail> {
    let again = format!(in alloc; "{line} / ignore {name} all")?;
    krates_of(alloc, again.as_str())
}

/// Adds the crates that members reach without a kind, and those that are kept without it beside them.
fn push_both(
    text: &mut Text,
    kind: DepKind,
    krates: &Krates,
    rebuilt: &Krates,
) -> Result<(), AllocError> {
    for pkg in &filtered_beside(kind, krates, rebuilt)? {
        push_package(text, "+", pkg);
    }
    text.push_str(" beside ");
    push_krates(text, rebuilt);
    Ok(())
}

/// The crates that are reached without a kind, and those that are kept without it.
struct Beside;

impl Told<Package> for Beside {
    fn push(text: &mut Text, krates: &Krates, line: &str) -> Result<(), Fail> {
        let name = section(line, "ask ").unwrap_or("");
        let rebuilt = rebuilt(text.allocator(), line, name)?;
        let kind = DepKind::from(kind_named(name));
        Ok(push_both(text, kind, krates, &rebuilt)?)
    }
}

static BESIDE: &str = "
// what only a dev dependency brings is in neither
a b&dev|b / ask dev => +a beside +a
a b&dev c|b c|c / ask dev => +a+c beside +a+c
// a member that another crate needs for its tests
a b&dev|b / members a b / ask dev => +a+b beside +a+b
// a reference leads to the crate without the kind, and the rebuild has no such edge
a b&dev;x=b/y|b;y= / nodes a b&dev;x|b;y / ask dev => +a+b beside +a
// a member that isn't a root: it is found, and isn't kept again
a b&dev|b / members a b / root a / ask dev => +a+b beside +a
// a root that isn't a member: it is kept again, and isn't found
a|b / members a / root b / ask dev =>  beside +b
";

#[test]
fn filtered_beside_a_rebuild(rt: HostRuntime) -> Result<(), Fail> {
    hold_lines::<OfGraph<Beside>>(rt.alloc(), BESIDE)
}
