//! The crates of a graph as a list, for answers about lists of crates.

ghost use Rattle.std.specs.Prelude.{◌≡◌, IfOk, map};
ghost use Rattle.krates_queries.specs.KrateNodes.{crates_of, match_view};

use krates::{KrateMatch, Krates, Package};
use std::alloc::{AllocError, Global};

/// The kept crates of a graph, by number, and so by id. The only refusal is running out of memory. Time O(n) for n nodes.
pub fn kept_crates(
    alloc: Global,
    krates: &Krates,
) -> Result<Vec<KrateMatch<'_, Package>>, AllocError>
    ensures { IfOk result (λ found. map match_view found.items ≡ crates_of krates.now) }
{
    krates.krate_nodes().collect(alloc)
}
