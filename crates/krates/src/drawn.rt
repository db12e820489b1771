//! The graph of the part of a document that is kept, and which of its crates are members of the workspace.
//!
//! A node is as large as a package with its crate's features and mapping. So only the crates are built as nodes before they
//! are stored; a feature, of which there may be many, becomes a node where it is stored.

ghost use Rattle.std.specs.Prelude.{◌≡◌, ◌≤◌, ◌++◌, [], All, IfErr, IfOk, OnOk, length, map};
ghost use Rattle.std.specs.BTreeSet.{keys};
ghost use Rattle.std.specs.List.{AllZip, zip};
ghost use Rattle.std.specs.List.Sorted.{IsStrictlyIncreasing};
ghost use Rattle.krates_cm.specs.Document.{metadata_view};
ghost use Rattle.krates_document.specs.Ids.{ids_view};
ghost use Rattle.krates_drawing.specs.Drawing.{planned_edges, planned_nodes};
ghost use Rattle.krates_drawing.specs.Ends.{HasEnds};
ghost use Rattle.krates_drawing.specs.Division.{krate_ids};
ghost use Rattle.krates_drawing.specs.Limits.{DrawingRefusal, HasLimits, IsWithin};
ghost use Rattle.krates_drawing.specs.Node.{crate_ids};
ghost use Rattle.krates_drawing.specs.Stored.{IsStoredAs};
ghost use Rattle.krates_drawing.specs.Views.{planned_edge_view, outline_view};
ghost use Rattle.krates_ids.specs.declared.error.Error.TheVariants.{Memory};
ghost use Rattle.krates_queries.specs.Kept.{AreNodes, AreStarts};
ghost use Rattle.krates_rules.specs.Admission.{IsAdmitted};
ghost use Rattle.krates_rules.specs.NamedIds.{NamesReadIds};
ghost use Rattle.krates_rules.specs.Resolution.{RefusesSelection};
ghost use Rattle.krates_rules.specs.Resolved.{id_of};
ghost use Rattle.krates_selection.specs.Selection.{HasHome};
ghost use Rattle.krates.specs.Enabled.{AreEnabledSets, IsPut};
ghost use Rattle.krates.specs.KeptGraph.{IsGraphOf};
ghost use Rattle.krates.specs.MadeNodes.{CountRefusal, IsMade, crate_node, feature_node, nodes_in};
ghost use Rattle.krates.specs.Members.{AreNumbersOf};
ghost use Rattle.krates.specs.Sketch.{IsSketchOf};

use krates_cm::{Metadata, Package};
use krates_drawing::division::Krate;
use krates_drawing::edge::PlannedEdge;
use krates_drawing::gather::outline_of;
use krates_drawing::limits::{Limits, Plan, plan_within};
use krates_drawing::node::{EnabledFeatures, Node};
use krates_drawing::nodes::{PlannedFeature, PlannedNodes};
use krates_drawing::outline::Outline;
use krates_drawing::store::{FromEdge, store_edges};
use krates_graph::graph::{Graph, GraphError, NodeId};
use krates_ids::{Error, Kid};
use krates_queries::from_package::FromPackage;
use krates_queries::kept::Places;
use krates_queries::numbers::{number_of, starts_of};
use krates_questions::context::Context;
use krates_resolve::{Document, EnabledFeature, Ids, NumberedSelection, Setting, Work, select_in};
use krates_selection::KeptStep;
use krates_selection::kept_tables::KeptTables;
use std::alloc::{AllocError, Global};
use std::collections::BTreeSet;

/// What is drawn of a selection, the steps that explain it, and the work that it took.
#[derive(Drop)]
pub(crate) struct Sketch {
    pub(crate) outline: Outline,
    pub(crate) steps: Vec<KeptStep>,
    pub(crate) work: Work,
}

/// What is selected of a document that was admitted with these ids, as an outline, with its steps. It is refused as `select` is.
///
/// The document's tables are made once for all of this.
pub(crate) fn sketch_of(
    alloc: Global,
    metadata: &Metadata,
    ids: &Ids,
    setting: &Setting,
) -> Result<Sketch, Error>
    requires admitted { IsAdmitted (metadata_view metadata.now) (ids_view ids.now) }
    ensures sketched { IfOk result (IsSketchOf (metadata_view metadata.now) setting.now) }
    ensures refused { IfErr result (RefusesSelection (metadata_view metadata.now) setting.now) }
    ensures named { IfErr result (NamesReadIds (metadata_view metadata.now)) }
{
    let document = Document::new(alloc, metadata, ids)?;
    let NumberedSelection { selection, numbers } = select_in(alloc, &document, setting)?;
    let work = selection.work;
    let context = Context {
        alloc,
        document: &document,
        setting,
    };
    let tables = KeptTables::new(context, &selection.krates, &numbers);
    let steps = tables.kept_steps(&selection.steps)?;
    let outline = outline_of(alloc, &document, setting, selection)?;
    Ok(Sketch {
        outline,
        steps,
        work,
    })
}

/// The enabled features of an outline, in a set for each of its crates, in their order.
fn enabled_of(
    alloc: Global,
    krates: usize,
    outline: Outline,
) -> Result<Vec<EnabledFeatures>, AllocError>
    requires { All (λ row. HasHome krates row.feature) outline.features.items }
    ensures matched { IfOk result (λ sets. length sets.items ≡ krates) }
    ensures enabled { IfOk result
        (λ sets. AreEnabledSets (map (λ row. row.feature) outline.features.items) sets.items) }
{
    let mut sets = empty_sets(alloc, krates)?;
    for row in outline.features {
        put(&mut sets, row.feature)?;
    }
    Ok(sets)
}

/// This many empty sets.
fn empty_sets(alloc: Global, krates: usize) -> Result<Vec<EnabledFeatures>, AllocError>
    ensures matched { IfOk result (λ sets. length sets.items ≡ krates) }
    ensures empty { IfOk result (λ sets. All (λ set. keys set ≡ []) sets.items) }
{
    let mut sets = Vec::with_capacity(alloc, krates)?;
    for _krate in 0..krates {
        sets.push(BTreeSet::new(alloc))?;
    }
    Ok(sets)
}

/// Puts a feature into the set of its crate.
fn put(sets: &mut [EnabledFeatures], feature: EnabledFeature) -> Result<(), AllocError>
    requires { HasHome (length sets.old) feature }
    ensures matched { length sets.new ≡ length sets.old }
    ensures put { OnOk result (IsPut feature sets.old sets.new) }
{
    let EnabledFeature { krate, name } = feature;
    sets[krate].insert(name)?;
    Ok(())
}

/// The node of each crate, with the features and the mapping at its place.
fn crates_with(
    alloc: Global,
    krates: Vec<Krate>,
    sets: Vec<EnabledFeatures>,
    mappings: Vec<Vec<Option<NodeId>>>,
) -> Result<Vec<Node<Package>>, AllocError>
    ensures { IfOk result
        (λ nodes. nodes.items ≡ map crate_node (zip krates.items (zip sets.items mappings.items))) }
{
    krates
        .into_iter()
        .zip(sets.into_iter().zip(mappings))
        .map(|(krate, (features, dep_mapping))| Node::Krate {
            id: krate.id,
            krate: krate.pkg,
            features,
            dep_mapping,
        })
        .collect(alloc)
}

/// The node with a value instead of its package.
fn made<N: FromPackage + Drop>(alloc: Global, node: Node<Package>) -> Result<Node<N>, AllocError>
    ensures { IfOk result (IsMade N.made_from node) }
{
    match node {
        Node::Krate {
            id,
            krate,
            features,
            dep_mapping,
        } => Ok(Node::Krate {
            id,
            krate: N::from_package(alloc, krate)?,
            features,
            dep_mapping,
        }),
        Node::Feature { krate_index, name } => Ok(Node::Feature { krate_index, name }),
    }
}

/// Adds the crates to a graph that has no node, in their order, with a value instead of each package.
fn store_crates<N: FromPackage + Drop, E: Drop>(
    alloc: Global,
    nodes: Vec<Node<Package>>,
    graph: &mut Graph<Node<N>, E>,
) -> Result<(), Error>
    requires empty { graph.old.nodes ≡ [] }
    ensures stored { OnOk result (AllZip (IsMade N.made_from) nodes.items graph.new.nodes) }
    ensures rest { graph.new ≡ record graph.old { nodes = graph.new.nodes } }
    ensures refused { IfErr result (CountRefusal graph.old.node_limit (length nodes.items)) }
{
    for node in nodes {
        match graph.add_node(made(alloc, node)?) {
            Ok(_) => {}
            Err(GraphError::Full(_)) => return Err(Error::TooMany),
            Err(GraphError::Memory(_)) => return Err(Error::Memory),
        }
    }
    Ok(())
}

/// Adds the features to a graph, in their order, after the nodes that it has.
fn store_features<N: Drop, E: Drop>(
    features: Vec<PlannedFeature>,
    graph: &mut Graph<Node<N>, E>,
) -> Result<(), Error>
    ensures stored { OnOk result (graph.new.nodes ≡ graph.old.nodes ++ map feature_node features.items) }
    ensures rest { graph.new ≡ record graph.old { nodes = graph.new.nodes } }
    ensures refused { IfErr result (CountRefusal graph.old.node_limit
        (length (graph.old.nodes ++ map (feature_node {P = N}) features.items))) }
{
    for feature in features {
        let PlannedFeature { krate_index, name } = feature;
        match graph.add_node(Node::Feature { krate_index, name }) {
            Ok(_) => {}
            Err(GraphError::Full(_)) => return Err(Error::TooMany),
            Err(GraphError::Memory(_)) => return Err(Error::Memory),
        }
    }
    Ok(())
}

/// Puts nodes, with values instead of packages, and edges into a graph with these limits.
fn stored<N: FromPackage + Drop, E: FromEdge + Drop>(
    alloc: Global,
    limits: Limits,
    crates: Vec<Node<Package>>,
    features: Vec<PlannedFeature>,
    planned_edges: &[PlannedEdge],
) -> Result<Graph<Node<N>, E>, Error>
    requires nodes { length (nodes_in crates.items features.items) ≤ limits.nodes }
    requires edges { length planned_edges.now ≤ limits.edges }
    requires stand { All (HasEnds (length (nodes_in crates.items features.items)))
        (map planned_edge_view planned_edges.now) }
    ensures nodes { IfOk result
        (λ graph. AllZip (IsMade N.made_from) (nodes_in crates.items features.items) graph.nodes) }
    ensures edges { IfOk result (λ graph. AllZip (IsStoredAs E.made_from_edge)
        (map planned_edge_view planned_edges.now) graph.edges) }
    ensures limits { IfOk result (HasLimits limits) }
    ensures refused { IfErr result (λ e. e ≡ Memory) }
{
    let mut graph = Graph::with_limits(alloc, limits.nodes, limits.edges);
    graph.reserve(crates.len() + features.len(), planned_edges.len())?;
    store_crates(alloc, crates, &mut graph)?;
    store_features(features, &mut graph)?;
    store_edges(alloc, planned_edges, &mut graph)?;
    Ok(graph)
}

/// The graph of an outline, whose crates are these. It is refused as `TooMany` exactly where it has more nodes or more edges than
/// the limits allow. It may instead return `Memory`.
pub(crate) fn graph_of<N: FromPackage + Drop, E: FromEdge + Drop>(
    alloc: Global,
    limits: Limits,
    outline: Outline,
    krates: Vec<Krate>,
) -> Result<Graph<Node<N>, E>, Error>
    requires ids { map id_of (krate_ids krates.items) ≡ map (λ k. k.id) (outline_view outline).krates }
    requires stand { All (HasEnds (length (planned_nodes (outline_view outline))))
        (planned_edges (outline_view outline)) }
    ensures graph { IfOk result (IsGraphOf N.made_from E.made_from_edge (outline_view outline) krates.items) }
    ensures within { IfOk result (λ _. IsWithin limits (outline_view outline)) }
    ensures limits { IfOk result (HasLimits limits) }
    ensures refused { IfErr result (DrawingRefusal limits (outline_view outline)) }
{
    let plan = plan_within(alloc, &outline, limits)?;
    let Plan {
        planned_nodes,
        planned_edges,
    } = plan;
    let PlannedNodes { mappings, features } = planned_nodes;
    let sets = enabled_of(alloc, krates.len(), outline)?;
    let crates = crates_with(alloc, krates, sets, mappings)?;
    stored(alloc, limits, crates, features, &planned_edges)
}

/// Where the crates among the nodes, as many as stated, stand: which of them have one of these ids, and where the features of each begin.
pub(crate) fn places_of<N>(
    alloc: Global,
    nodes: &[Node<N>],
    count: usize,
    ids: &[Kid],
) -> Result<Places, AllocError>
    requires nodes { AreNodes nodes.now }
    requires counted { count ≡ length (crate_ids nodes.now) }
    ensures ascending { IfOk result (λ places. IsStrictlyIncreasing places.members.items) }
    ensures exactly { IfOk result
        (λ places. AreNumbersOf (crate_ids nodes.now) ids.now places.members.items) }
    ensures starts { IfOk result (λ places. AreStarts nodes.now places.starts.items) }
{
    let members = members_of(alloc, nodes, ids)?;
    let starts = starts_of(alloc, nodes, count)?;
    Ok(Places { members, starts })
}

/// The numbers of the crates that have one of these ids, ascending, each once. Ids of other crates are left out.
fn members_of<N>(alloc: Global, nodes: &[Node<N>], ids: &[Kid]) -> Result<Vec<NodeId>, AllocError>
    requires { AreNodes nodes.now }
    ensures ascending { IfOk result (λ numbers. IsStrictlyIncreasing numbers.items) }
    ensures exactly { IfOk result (λ numbers. AreNumbersOf (crate_ids nodes.now) ids.now numbers.items) }
{
    let mut numbers = Vec::new(alloc);
    for id in ids {
        if let Some(number) = number_of(nodes, id) {
            numbers.push(NodeId::new(number as u32))?;
        }
    }
    numbers.sort_unstable();
    numbers.dedup();
    Ok(numbers)
}
