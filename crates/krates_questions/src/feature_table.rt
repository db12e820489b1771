//! The features that nodes list, by number.

ghost use Rattle.std.specs.Prelude.{◌≡◌, ◌<◌, IfOk, OnOk, Some, length, map, slice_get};
ghost use Rattle.krates_cm.specs.Document.{node_view, text_view};
ghost use Rattle.krates_questions.specs.FeatureTable.{AreNumbered, ListsMore, listed_in, listed_features, listed_view, features_from, AreFeaturesAt, TellsNumber, TellsOwn};
ghost use Rattle.krates_questions.specs.Lookup.{IsLookup, resolved_view};
ghost use Rattle.krates_rules.specs.Resolved.{id_of};

use crate::lookup::NodePlace;
use crate::questions::Document;
use krates_cm::Node;
use std::alloc::{AllocError, Global};
use std::collections::BTreeMap;

/// A feature that a node lists.
#[derive(Clone, Copy, PartialEq, Eq, PartialOrd, Ord)]
pub struct ListedFeature<'a> {
    /// The place of the node.
    pub place: NodePlace,
    /// The name of the feature.
    pub name: &'a str,
}

/// The features that nodes list, in the order of the document: the number of each is its place in the list.
#[derive(Drop)]
pub struct FeatureTable<'a> {
    /// The features by number.
    pub listed: Vec<ListedFeature<'a>>,
    /// A number of each feature.
    pub numbers: BTreeMap<ListedFeature<'a>, usize>,
}

/// The features that these nodes list.
pub(crate) fn feature_table<'a>(
    alloc: Global,
    nodes: &'a [Node],
) -> Result<FeatureTable<'a>, AllocError>
    ensures listed { IfOk result (λ table. listed_in table ≡ features_from 0 (map node_view nodes.now)) }
    ensures numbered { IfOk result AreNumbered }
{
    let listed = listed_features(alloc, nodes)?;
    let mut numbers = BTreeMap::new(alloc);
    for (number, feature) in listed.iter().enumerate() {
        drop(numbers.insert(*feature, number)?);
    }
    Ok(FeatureTable { listed, numbers })
}

/// The features that these nodes list, in order.
fn listed_features<'a>(
    alloc: Global,
    nodes: &'a [Node],
) -> Result<Vec<ListedFeature<'a>>, AllocError>
    ensures { IfOk result (λ all. map listed_view all.items ≡ features_from 0 (map node_view nodes.now)) }
{
    let mut listed = Vec::new(alloc);
    for (index, node) in nodes.iter().enumerate() {
        list_features(NodePlace { index }, &node.features, &mut listed)?;
    }
    Ok(listed)
}

/// Adds the features of the node at this place.
fn list_features<'a>(
    place: NodePlace,
    features: &'a [String],
    listed: &mut Vec<ListedFeature<'a>>,
) -> Result<(), AllocError>
    ensures { OnOk result (ListsMore listed.old.items listed.new.items place.index features.now) }
{
    for feature in features {
        listed.push(ListedFeature {
            place,
            name: feature.as_str(),
        })?;
    }
    Ok(())
}

impl<'a> Document<'a> {
    /// The number of a feature of the node at this place; none where the node doesn't list it. Time O(log n) in the
    /// listed features.
    pub fn feature_number(&self, place: NodePlace, name: &'a str) -> Option<usize>
        ensures number { TellsNumber (resolved_view self.now) place.index name.now result }
        ensures own { TellsOwn (resolved_view self.now) result }
    {
        self.lookup
            .features
            .numbers
            .get(&ListedFeature { place, name })
            .copied()
    }
}

/// The features that the node at a place lists, in the order of the document. Time O(1).
pub fn features_at<'a>(document: &Document<'a>, place: NodePlace) -> &'a [String]
    requires within { place.index < length (resolved_view document.now).graph.nodes }
    ensures { AreFeaturesAt (resolved_view document.now) place.index (map text_view result.now) }
{
    document.lookup.resolve.nodes[place.index]
        .features
        .as_slice()
}

/// The listed feature of a number: its name, and the place of the node that lists it. Time O(1).
pub fn listed_feature<'a>(document: &Document<'a>, number: usize) -> ListedFeature<'a>
    requires within { number < length (listed_features (resolved_view document.now)) }
    ensures { slice_get (listed_features (resolved_view document.now)) number ≡ Some (listed_view result) }
{
    document.lookup.features.listed[number]
}
