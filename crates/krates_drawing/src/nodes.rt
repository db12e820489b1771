//! The nodes, with the mappings of the crates.
ghost use Rattle.std.specs.Prelude.{◌≡◌, length, map, replicate, IfOk};
ghost use Rattle.krates_selection.specs.Selection.{HasEnds};
ghost use Rattle.krates_drawing.specs.Drawing.{mapping, planned_feature};
ghost use Rattle.krates_drawing.specs.OutlineOrder.{IsClaimed};
ghost use Rattle.krates_drawing.specs.Views.{ArePlannedNodes, planned_feature_view, outline_view};

use crate::numbers::NumberedOutline;
use crate::outline::EdgeRow;
use krates_graph::graph::NodeId;
use std::alloc::{AllocError, Global};

/// The node of an enabled feature.
#[derive(Drop)]
pub struct PlannedFeature {
    /// The number of its crate.
    pub krate_index: NodeId,
    /// Its name.
    pub name: String,
}

/// What the nodes of the graph hold beside packages: first the nodes of the crates, then those of the features.
#[derive(Drop)]
pub struct PlannedNodes {
    /// For each crate, the numbers of the crates that its declared dependencies mean.
    pub mappings: Vec<Vec<Option<NodeId>>>,
    /// The features.
    pub features: Vec<PlannedFeature>,
}

impl NumberedOutline<'_> {
    /// Writes the number of the crate to which the edge leads into the mapping of the crate that it leaves, at the place of its declared
    /// dependency.
    fn claim(&self, link: &EdgeRow, mappings: &mut [Vec<Option<NodeId>>])
        requires ends { HasEnds (length self.now.outline.now.krates.items) link.now.edge }
        requires one_each { length mappings.old ≡ length self.now.outline.now.krates.items }
        ensures { IsClaimed link.now (map (λ m. m.items) mappings.old) (map (λ m. m.items) mappings.new) }
    {
        let place = link.edge.declared;
        let mapping = &mut mappings[link.edge.parent];
        if place < mapping.len() {
            mapping[place] = Some(self.crate_number(link.edge.child));
        }
    }

    /// Mappings of the crates that map nothing.
    fn unmapped(&self, alloc: Global) -> Result<Vec<Vec<Option<NodeId>>>, AllocError>
        ensures { IfOk result (λ v. map (λ m. m.items) v.items
            ≡ map (λ k. replicate k.declared None) self.now.outline.now.krates.items) }
    {
        let mut unmapped = Vec::with_capacity(alloc, self.outline.krates.len())?;
        for krate in &self.outline.krates {
            unmapped.push(vec![in alloc; None; krate.declared]?)?;
        }
        Ok(unmapped)
    }

    /// The mappings of the crates: one walk over the edges, of which the last to claim a declared dependency stays.
    fn mappings(&self, alloc: Global) -> Result<Vec<Vec<Option<NodeId>>>, AllocError>
        ensures { let outline = self.now.outline.now in
            IfOk result (λ v. map (λ m. m.items) v.items
            ≡ map (mapping (outline_view outline)) (outline_view outline).krates) }
    {
        let mut mappings = self.unmapped(alloc)?;
        for link in &self.outline.links {
            self.claim(link, &mut mappings);
        }
        Ok(mappings)
    }

    /// The nodes of the features.
    fn planned_features(&self, alloc: Global) -> Result<Vec<PlannedFeature>, AllocError>
        ensures { let outline = self.now.outline.now in
            IfOk result (λ v. map planned_feature_view v.items
            ≡ map (planned_feature (outline_view outline)) (outline_view outline).features) }
    {
        let mut features = Vec::with_capacity(alloc, self.outline.features.len())?;
        for x in &self.outline.features {
            let krate_index = self.crate_number(x.feature.krate);
            let name = x.feature.name.clone()?;
            features.push(PlannedFeature { krate_index, name })?;
        }
        Ok(features)
    }

    /// All nodes of the selection's graph, in the order of their numbers: the crates by id, then the features by crate
    /// and name. The only error is running out of memory.
    ///
    /// Time: O(n log n) for n nodes.
    pub fn plan_nodes(&self, alloc: Global) -> Result<PlannedNodes, AllocError>
        ensures { IfOk result (ArePlannedNodes (outline_view self.now.outline.now)) }
    {
        Ok(PlannedNodes {
            mappings: self.mappings(alloc)?,
            features: self.planned_features(alloc)?,
        })
    }
}
