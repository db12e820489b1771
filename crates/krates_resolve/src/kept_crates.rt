//! The kept crates of a document, by the numbers that it has for all of its crates.

ghost use Rattle.std.specs.Prelude.{◌≢◌, ◌<◌, All, AllPairs, IfOk, length};
ghost use Rattle.krates_questions.specs.Lookup.{resolved_view};
ghost use Rattle.krates_resolve.specs.KeptCrates.{AreKept, AreNodePlaces};

use krates_ids::Kid;
use krates_questions::node_entry::node_number;
use krates_questions::{Document, NodePlace};
use std::alloc::{AllocError, Global};

/// Which crates of a document are kept.
#[derive(Drop)]
pub(crate) struct KeptCrates {
    /// Their ids, in order.
    pub krates: Vec<Kid>,
    /// By the number of a crate in the document, its number among the kept ones, where it is kept.
    pub numbers: Vec<Option<usize>>,
}

impl KeptCrates {
    /// The crates whose nodes are at these places. No id is compared: the document's numbers are in the order of the ids. The only
    /// error is running out of memory.
    ///
    /// Time: O(n) for n crates of the document.
    pub(crate) fn new(
        alloc: Global,
        document: &Document<'_>,
        places: &[usize],
    ) -> Result<KeptCrates, AllocError>
        requires within { All (λ place. place < length (resolved_view document.now).graph.nodes) places.now }
        requires once { AllPairs (λ a b. a ≢ b) places.now }
        ensures { IfOk result (λ kept. AreKept document.now places.now kept.krates.items kept.numbers.items) }
    {
        document.agrees();
        let ids = document.node_ids();
        let kept = places_by_number(alloc, document, places)?;
        let mut krates = Vec::with_capacity(alloc, places.len())?;
        let mut numbers = Vec::with_capacity(alloc, kept.len())?;
        for place in &kept {
            match *place {
                Some(place) => {
                    numbers.push(Some(krates.len()))?;
                    krates.push(ids[place.index].clone()?)?;
                }
                None => numbers.push(None)?,
            }
        }
        Ok(KeptCrates { krates, numbers })
    }
}

/// By the number of a crate, the place of its node, where that is one of these places.
fn places_by_number(
    alloc: Global,
    document: &Document<'_>,
    places: &[usize],
) -> Result<Vec<Option<NodePlace>>, AllocError>
    requires within { All (λ place. place < length (resolved_view document.now).graph.nodes) places.now }
    requires once { AllPairs (λ a b. a ≢ b) places.now }
    ensures { IfOk result (λ kept. AreNodePlaces document.now places.now kept.items) }
{
    document.agrees();
    let mut kept: Vec<Option<NodePlace>> = vec![in alloc; None; document.crate_ids().len()]?;
    for index in places {
        let place = NodePlace { index: *index };
        if let Some(number) = node_number(document, place) {
            kept[number] = Some(place);
        }
    }
    Ok(kept)
}
