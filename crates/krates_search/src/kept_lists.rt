//! The kept edges, the enabled features and the toggled features in order, as a selection has them.

ghost use Rattle.std.specs.Prelude.{All, IfOk, ◌<◌, length};
ghost use Rattle.krates_selection.specs.KeptTables.{kids_in, document_in};
ghost use Rattle.krates_search.specs.Found.{IsFoundEdge};
ghost use Rattle.krates_search.specs.KeptLists.{HasKeptNodes, AreInOrder, AreSorted, HasKeptHome, AreToggled, HasKeptCrates};
ghost use Rattle.krates_questions.specs.FeatureTable.{listed_features};

use crate::found::{FoundEdge, FoundToggle};
use krates_document::sorted::in_order;
use krates_ids::laws;
use krates_questions::feature_table::listed_feature;
use krates_selection::kept_tables::KeptTables;
use krates_selection::selection::{EnabledFeature, KeptEdge, ToggledFeature};
use std::alloc::AllocError;

/// The found edges in order, each once. The only error is running out of memory.
///
/// Time: O(n log n).
pub fn kept_edges(
    tables: &KeptTables<'_, '_>,
    found: &[FoundEdge<'_>],
) -> Result<Vec<KeptEdge>, AllocError>
    requires found { All (IsFoundEdge tables.now.context) found.now }
    requires kept { All (HasKeptNodes tables.now.context (kids_in tables.now)) found.now }
    ensures { IfOk result (λ kept. AreInOrder tables.now.context
        (kids_in tables.now) found.now kept.items) }
{
    tables.context.document.agrees();
    laws::comparison();
    let mut copies = Vec::with_capacity(tables.context.alloc, found.len())?;
    for edge in found {
        let parent = tables.crate_at(edge.parent_node);
        let child = tables.crate_at(edge.child_node);
        let cfg = edge.info.target.clone()?;
        copies.push(KeptEdge {
            parent,
            child,
            place: edge.place,
            kind: edge.info.kind,
            cfg,
            declared: edge.declared,
        })?;
    }
    let sorted = in_order(copies)?;
    Ok(sorted)
}

/// The listed features of these numbers, in order. The only error is running out of memory.
///
/// Time: O(n log n).
pub fn kept_features(
    tables: &KeptTables<'_, '_>,
    found: &[usize],
) -> Result<Vec<EnabledFeature>, AllocError>
    requires within { All (λ n. n < length (listed_features (document_in tables.now))) found.now }
    requires kept { All (HasKeptHome tables.now.context (kids_in tables.now)) found.now }
    ensures { IfOk result
        (λ kept. AreSorted tables.now.context (kids_in tables.now) found.now kept.items) }
{
    laws::comparison();
    laws::one_reading();
    let alloc = tables.context.alloc;
    let mut features = Vec::with_capacity(alloc, found.len())?;
    for number in found {
        let feature = listed_feature(tables.context.document, *number);
        features.push(EnabledFeature {
            krate: tables.crate_at(feature.place),
            name: String::from_str(alloc, feature.name)?,
        })?;
    }
    let sorted = in_order(features)?;
    Ok(sorted)
}

/// The toggled features that were found, in order, each once. The only error is running out of memory.
///
/// Time: O(n log n).
pub fn kept_toggled(
    tables: &KeptTables<'_, '_>,
    found: &[FoundToggle<'_>],
) -> Result<Vec<ToggledFeature>, AllocError>
    requires kept { All (HasKeptCrates tables.now.context (kids_in tables.now)) found.now }
    ensures { IfOk result (λ kept. AreToggled (kids_in tables.now) found.now kept.items) }
{
    laws::comparison();
    let alloc = tables.context.alloc;
    let mut toggled = Vec::with_capacity(alloc, found.len())?;
    for toggle in found {
        let by = tables.crate_at(toggle.by_node);
        let krate = tables.crate_at(toggle.krate_node);
        let name = String::from_str(alloc, toggle.name)?;
        toggled.push(ToggledFeature { by, krate, name })?;
    }
    let sorted = in_order(toggled)?;
    Ok(sorted)
}
