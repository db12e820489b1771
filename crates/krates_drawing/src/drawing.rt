//! The edges of an outline's graph, drawn: those from crates, and then those from features.
ghost use Rattle.std.specs.Prelude.{◌≡◌, ◌<◌, ◌∷◌, IfOk, MatchOption, false, filter, flat_map, length, map, OnOk};
ghost use Rattle.std.specs.List.{list_any};
ghost use Rattle.krates_selection.specs.Selection.{HasEnds, HasHome, id_at};
ghost use Rattle.krates_rules.specs.Resolved.{id_of};
ghost use Rattle.krates_drawing.specs.Drawing.{crate_lines, feature_lines, is_between, leads, number, planned_edges, targets, uses};
ghost use Rattle.krates_drawing.specs.LinesFrom.{IsNumberOfChild, end_of, line_from, referents, toggle_lines};
ghost use Rattle.krates_drawing.specs.OutlineOrder.{AreByEnds, has_ends};
ghost use Rattle.krates_drawing.specs.Views.{kids_in, edge_row_view, meaning_view, feature_row_view, outline_view, planned_edge_view, Draws, toggle_of};

use crate::edge::{Edge, PlannedEdge};
use crate::numbers::{NumberedOutline, place_of_crate};
use crate::outline::{EdgeRow, FeatureRow, Meaning, Outline};
use crate::room::edges_at_most;
use krates_graph::graph::NodeId;
use krates_ids::Kid;
use krates_rules::DepKind;
use krates_selection::ToggledFeature;
use std::alloc::{AllocError, Global};

/// The features of the one crate that the other toggles, by name, found by binary search.
fn toggled_between(outline: &Outline, parent: usize, child: usize) -> &[ToggledFeature]
    requires parent { parent < length outline.now.krates.items }
    requires child { child < length outline.now.krates.items }
    ensures { let kids = kids_in outline.now in map (toggle_of kids) result.now
        ≡ filter (is_between (id_at kids parent) (id_at kids child)) (outline_view outline.now).toggled }
{
    let ends = (parent, child);
    let toggled: &[ToggledFeature] = &outline.toggled;
    let below = toggled.partition_point(|x| (x.by, x.krate).cmp(&ends).is_lt());
    let (_, rest) = toggled.split_at(below);
    let count = rest.partition_point(|x| (x.by, x.krate).cmp(&ends).is_eq());
    let (there, _) = rest.split_at(count);
    there
}

/// Whether one of these kept edges leads from the one crate to the other.
fn has_link(links: &[EdgeRow], parent: usize, child: usize) -> bool
    requires { AreByEnds links.now }
    ensures { result ≡ list_any (has_ends parent child) links.now }
{
    let ends = (parent, child);
    links
        .binary_search_by(|link| (link.edge.parent, link.edge.child).cmp(&ends))
        .is_ok()
}

/// Whether one of the edges behind this one joins the same two crates: the next of them tells, since they stand by their crates.
fn joins_again(link: &EdgeRow, later: &[EdgeRow]) -> bool
    requires { AreByEnds (link.now ∷ later.now) }
    ensures { result ≡ list_any (has_ends link.now.edge.parent link.now.edge.child) later.now }
{
    let Some(next) = later.first() else {
        return false;
    };
    next.edge.parent == link.edge.parent && next.edge.child == link.edge.child
}

/// The number of the crate with this id, where a kept edge leads to it from the parent.
fn number_of_child(outline: &Outline, parent: usize, id: &Kid) -> Option<usize>
    requires { parent < length outline.now.krates.items }
    ensures { MatchOption result
        (leads (outline_view outline.now) (id_at (kids_in outline.now) parent) (id_of id.now) ≡ false)
        (IsNumberOfChild outline.now parent (id_of id.now)) }
{
    let child = place_of_crate(&outline.krates, id);
    if child < outline.krates.len() && has_link(&outline.links, parent, child) {
        Some(child)
    } else {
        None
    }
}

/// The crates of which a reference names something, but for its own.
fn referents_in(meaning: &Meaning) -> &[Kid]
    ensures { map id_of result.now ≡ referents (meaning_view meaning.now) }
{
    match meaning {
        Meaning::OwnFeature(_) => &[],
        Meaning::Crates(krates) => krates,
        Meaning::FeatureOf { krates, .. } => krates,
    }
}

impl NumberedOutline<'_> {
    /// Draws what the kept edge gives, from the node of its parent.
    #[tactic(auto, unfolding(crate::specs::Drawing::uses))]
    fn draw_uses(&self, link: &EdgeRow, out: &mut Vec<PlannedEdge>) -> Result<(), AllocError>
        requires { HasEnds (length self.now.outline.now.krates.items) link.now.edge }
        ensures { let outline = self.now.outline.now in
            OnOk result (Draws out.old out.new (uses (outline_view outline)
            (edge_row_view (kids_in outline) link.now) (edge_row_view (kids_in outline) link.now).given)) }
    {
        let edge = &link.edge;
        let source = self.crate_number(edge.parent);
        let kind = DepKind::from(edge.kind);
        if link.given.is_empty() {
            let target = self.crate_number(edge.child);
            let cfg = edge.cfg.clone()?;
            out.push(PlannedEdge::new(source, target, Edge::Dep { kind, cfg }))?;
            return Ok(());
        }
        for x in &link.given {
            let target = self.feature_number(edge.child, x.as_str());
            let cfg = edge.cfg.clone()?;
            out.push(PlannedEdge::new(source, target, Edge::DepFeature { kind, cfg }))?;
        }
        Ok(())
    }

    /// Draws the features of the one crate that the other toggles.
    fn draw_toggled(
        &self,
        parent: usize,
        child: usize,
        out: &mut Vec<PlannedEdge>,
    ) -> Result<(), AllocError>
        requires parent { parent < length self.now.outline.now.krates.items }
        requires child { child < length self.now.outline.now.krates.items }
        ensures { let outline = self.now.outline.now in
            OnOk result (Draws out.old out.new (toggle_lines (outline_view outline)
            (id_at (kids_in outline) parent) (id_at (kids_in outline) child))) }
    {
        let source = self.crate_number(parent);
        for x in toggled_between(self.outline, parent, child) {
            let target = self.feature_number(child, x.name.as_str());
            out.push(PlannedEdge::new(source, target, Edge::Feature))?;
        }
        Ok(())
    }

    /// Draws the edges from all crates: what each kept edge gives, and after the last between two crates what the one toggles of the
    /// other.
    fn draw_crates(&self, out: &mut Vec<PlannedEdge>) -> Result<(), AllocError>
        ensures { let outline = self.now.outline.now in
            OnOk result (Draws out.old out.new (flat_map (crate_lines (outline_view outline))
            (outline_view outline).krates)) }
    {
        for (place, x) in self.outline.links.iter().enumerate() {
            self.draw_uses(x, out)?;
            let (_, later) = self.outline.links.split_at(place + 1);
            if !joins_again(x, later) {
                self.draw_toggled(x.edge.parent, x.edge.child, out)?;
            }
        }
        Ok(())
    }

    /// The number of the crate's node, or that of the feature of it which the reference names.
    fn end_number(&self, krate: usize, meaning: &Meaning) -> NodeId
        requires { krate < length self.now.outline.now.krates.items }
        ensures { let outline = self.now.outline.now in
            result ≡ number (outline_view outline) (end_of (meaning_view meaning.now) (id_at (kids_in outline) krate)) }
    {
        match meaning {
            Meaning::FeatureOf { name, .. } => self.feature_number(krate, name.as_str()),
            _ => self.crate_number(krate),
        }
    }

    /// Draws to what a reference of a feature of the crate names, from the feature's node: to its own feature, or to those of the
    /// crates to which an edge leads.
    fn draw_meaning(
        &self,
        source: NodeId,
        krate: usize,
        meaning: &Meaning,
        out: &mut Vec<PlannedEdge>,
    ) -> Result<(), AllocError>
        requires { krate < length self.now.outline.now.krates.items }
        ensures { let outline = self.now.outline.now in
            OnOk result (Draws out.old out.new (map (line_from (outline_view outline) source)
            (targets (outline_view outline) (id_at (kids_in outline) krate) (meaning_view meaning.now)))) }
    {
        if let Meaning::OwnFeature(name) = meaning {
            let target = self.feature_number(krate, name.as_str());
            out.push(PlannedEdge::new(source, target, Edge::Feature))?;
        }
        for x in referents_in(meaning) {
            if let Some(child) = number_of_child(self.outline, krate, x) {
                let target = self.end_number(child, meaning);
                out.push(PlannedEdge::new(source, target, Edge::Feature))?;
            }
        }
        Ok(())
    }

    /// Draws the edges from a feature: to its crate, and to what its references name.
    #[tactic(auto, unfolding(crate::specs::Drawing::feature_lines))]
    fn draw_feature(&self, named: &FeatureRow, out: &mut Vec<PlannedEdge>) -> Result<(), AllocError>
        requires { HasHome (length self.now.outline.now.krates.items) named.now.feature }
        ensures { let outline = self.now.outline.now in
            OnOk result (Draws out.old out.new (feature_lines (outline_view outline)
            (feature_row_view (kids_in outline) named.now))) }
    {
        let krate = named.feature.krate;
        let source = self.feature_number(krate, named.feature.name.as_str());
        out.push(PlannedEdge::new(source, self.crate_number(krate), Edge::Feature))?;
        for x in &named.meanings {
            self.draw_meaning(source, krate, x, out)?;
        }
        Ok(())
    }

    /// Draws the edges from all features.
    fn draw_features(&self, out: &mut Vec<PlannedEdge>) -> Result<(), AllocError>
        ensures { let outline = self.now.outline.now in
            OnOk result (Draws out.old out.new (flat_map (feature_lines (outline_view outline))
            (outline_view outline).features)) }
    {
        for x in &self.outline.features {
            self.draw_feature(x, out)?;
        }
        Ok(())
    }

    /// All edges of the selection's graph, in the order of their numbers. The only error is running out of memory.
    ///
    /// Time: O(n log n) for n nodes and edges.
    #[tactic(auto, unfolding(crate::specs::Drawing::planned_edges))]
    pub fn plan(&self, alloc: Global) -> Result<Vec<PlannedEdge>, AllocError>
        ensures { let outline = self.now.outline.now in
            IfOk result (λ v. map planned_edge_view v.items ≡ planned_edges (outline_view outline)) }
    {
        let mut out = Vec::with_capacity(alloc, edges_at_most(self.outline))?;
        self.draw_crates(&mut out)?;
        self.draw_features(&mut out)?;
        Ok(out)
    }
}
