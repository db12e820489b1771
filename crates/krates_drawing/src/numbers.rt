//! The numbers of nodes: their places among the crates, then among the features. What isn't a number is found by binary search.
ghost use Rattle.std.specs.Prelude.{◌≡◌, ◌<◌, ◌≤◌, MatchOption, length, map};
ghost use Rattle.std.specs.List.Sorted.{IsStrictlySortedBy};
ghost use Rattle.krates_ids.specs.Identity.{id_cmp};
ghost use Rattle.krates_selection.specs.Selection.{id_at};
ghost use Rattle.krates_rules.specs.Resolved.{id_of};
ghost use Rattle.krates_drawing.specs.Drawing.{crate_number as number_of_crate, feature_number as number_of_feature, is_crate, is_feature, place_of, planned_nodes};
ghost use Rattle.krates_drawing.specs.Views.{IsFew, kids_in, kids_of, crate_row_view, feature_row_view, outline_view};

use crate::outline::{CrateRow, Outline};
use krates_graph::graph::NodeId;
use krates_ids::{Kid, laws};

/// An outline whose nodes are few enough to be numbered.
#[derive(Clone, Copy)]
pub struct NumberedOutline<'a> {
    /// The outline.
    pub outline: &'a Outline,
    /// Each place of a node is a number.
    pub ghost few: { IsFew outline.now },
}

impl<'a> NumberedOutline<'a> {
    /// The outline, where it has no more nodes than these; none where it has more. Time: O(1).
    pub fn of(outline: &'a Outline, nodes: u32) -> Option<NumberedOutline<'a>>
        ensures { let count = length (planned_nodes (outline_view outline.now)) in
            MatchOption result (nodes < count)
            (λ numbered. (numbered.outline.now ≡ outline.now) × (count ≤ nodes)) }
    {
        let krates = outline.krates.len();
        let most = nodes as usize;
        if krates <= most && outline.features.len() <= most - krates {
            return Some(NumberedOutline { outline });
        }
        None
    }

    /// The number of a crate's node: the crate's own.
    pub(crate) fn crate_number(&self, krate: usize) -> NodeId
        requires { krate < length self.now.outline.now.krates.items }
        ensures { let outline = self.now.outline.now in
            result ≡ number_of_crate (outline_view outline) (id_at (kids_in outline) krate) }
    {
        NodeId::new(krate as u32)
    }

    /// The number of the feature's node, or the number of nodes where it isn't enabled.
    pub(crate) fn feature_number(&self, krate: usize, name: &str) -> NodeId
        requires { krate < length self.now.outline.now.krates.items }
        ensures { let outline = self.now.outline.now in
            result ≡ number_of_feature (outline_view outline) (id_at (kids_in outline) krate) name.now }
    {
        let place = place_of_feature(self.outline, krate, name);
        NodeId::new((self.outline.krates.len() + place) as u32)
    }
}

/// The place of the crate, or the number of crates.
pub(crate) fn place_of_crate(krates: &[CrateRow], id: &Kid) -> usize
    requires { IsStrictlySortedBy id_cmp (kids_of krates.now) }
    ensures { result ≡ place_of (is_crate (id_of id.now)) (map crate_row_view krates.now) }
{
    laws::comparison();
    krates
        .binary_search_by(|krate| krate.id.cmp(id))
        .unwrap_or(krates.len())
}

/// The place of the feature, or the number of features.
fn place_of_feature(outline: &Outline, krate: usize, name: &str) -> usize
    requires within { krate < length outline.now.krates.items }
    ensures place { result ≡ place_of (is_feature (id_at (kids_in outline.now) krate) name.now)
        (map (feature_row_view (kids_in outline.now)) outline.now.features.items) }
    ensures within { result ≤ length outline.now.features.items }
{
    let sought = (krate, name);
    outline
        .features
        .binary_search_by(|named| (named.feature.krate, named.feature.name.as_str()).cmp(&sought))
        .unwrap_or(outline.features.len())
}
