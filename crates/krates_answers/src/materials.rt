//! A bill of materials: the kept crates, each with those on which it depends directly.

ghost use Rattle.std.specs.Prelude.{◌≡◌, IfOk, map};
ghost use Rattle.krates_answers.specs.Materials.{AreMaterials, material_view};

use crate::direct_links::DirectLinks;
use krates::{KrateMatch, Krates, NodeId, Package};
use std::alloc::{AllocError, Global};

/// A kept crate, with the numbers of those on which it depends directly.
#[derive(Debug, Drop)]
pub struct Material<'a> {
    /// The crate.
    pub krate: KrateMatch<'a, Package>,
    /// The numbers of the crates on which it depends directly, ascending: those among whose `direct_dependents` it is.
    pub depends_on: Vec<NodeId>,
}

/// The kept crates, each once, by number, and so by id, each with those on which it depends directly. The only refusal is running
/// out of memory. Time: O(n + e log e) for n crates and e edges of the graph.
pub fn materials<'a>(alloc: Global, krates: &'a Krates) -> Result<Vec<Material<'a>>, AllocError>
    ensures { IfOk result (λ found. AreMaterials krates.now (map material_view found.items)) }
{
    let dependencies = DirectLinks::dependencies(alloc, krates)?;
    krates
        .krate_nodes()
        .zip(dependencies.into_lists())
        .map(|(krate, depends_on)| Material { krate, depends_on })
        .collect(alloc)
}
