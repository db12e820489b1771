//! Laws of builds, for all documents, settings and answers of an index; and the laws that say what the items of other modules
//! mean by their comparisons, forms and readings. Each is the contract of a function that does nothing.

ghost use Rattle.krates_cm.specs.Document.{MetadataModel};
ghost use Rattle.krates_drawing.specs.declared.node.Node.{Node};
ghost use Rattle.krates_graph.specs.Graph.{StoredGraph};
ghost use Rattle.krates_rules.specs.Setting.{SettingModel};
ghost use Rattle.krates.specs.BuildLaws.{IsBuildAgreeing, IsBuildNamedPart, IsBuildNarrowing, IsBuildOrderFree, KeepsPackages};

pub use krates_drawing::laws::filtered_holds_rebuild;
use krates_drawing::laws::{
    connected, dependencies_agree, drawn_alike, narrower_draws_no_more, outline_there,
};
use krates_drawing::store::FromEdge;
pub use krates_graph::laws::{
    directions_compared, edges_compared, errors_compared, nodes_compared, stored_edges_compared,
};
pub use krates_ids::laws::{
    comparison, correcting_twice, one_correction, one_reading, one_specification,
    printed_specification,
};
pub use krates_queries::laws::dependents_reach;
use krates_resolve::laws as resolution;
pub use krates_rules::laws::{accepted_lists, closed_lists, kinds_compared};
pub use krates_text::laws::{causes_compared, one_expression, one_reference, references_compared};

/// Builds don't depend on the order in which a document lists its packages, its members, the nodes of its graph, or the
/// dependencies and features of a node, nor on the order of the features of a package.
///
/// Of two documents that differ in that alone, an index is asked about the same names. Where it gives both the same answer, or
/// there is none, the documents that are looked at also differ in order alone. So the same facts have derivations under
/// each setting, the same crates are kept with the same numbers, the same graph is drawn, with equal nodes, mappings and edges
/// number by number, the same packages are reported in the same order, and both builds are refused for the same causes.
pub fn reordering()
    ensures { IsBuildOrderFree }
{
    one_correction();
    one_reading();
    comparison();
    resolution::reordering();
    drawn_alike();
    outline_there();
}

/// A build under a setting that excludes more packages, ignores one more kind, or sets targets where none was set,
/// keeps a part of what the build before it keeps: its crates, its enabled features and its dependency edges are among
/// those of the wider one. Where that one succeeds, the narrower one is refused only because no crate is left, or because memory runs out;
/// so it never has too many nodes or edges.
///
/// Without an index both look at the document as it is given, and with one at what it is corrected to, where the index
/// answers both the same.
pub fn narrowing()
    ensures part { IsBuildNarrowing }
    ensures packages { KeepsPackages }
{
    one_correction();
    one_reading();
    resolution::narrowing();
    resolution::reordering();
    narrower_draws_no_more();
    outline_there();
}

/// A build where a dependency's name in a feature reference means only the least, by id, of the dependencies that match it, keeps
/// a part of what one keeps where it means all of them, under settings that are equal otherwise: each fact that has a
/// derivation there has one here, and so has what is lost. Where both builds succeed, the kept crates, the enabled features and
/// the dependency edges of the first are in the second; their numbers may differ.
///
/// Without an index both look at the document as it is given, and with one at what it is corrected to, where the index
/// answers both the same.
pub fn named_part()
    ensures { IsBuildNamedPart }
{
    one_correction();
    resolution::named_part();
    resolution::reordering();
}

/// The direct dependencies and the direct dependents that a build keeps agree: where no two kept crates come by one declared
/// dependency of a kept crate, it depends directly on exactly those that have it as a direct dependent. Where one
/// declared dependency brings two versions of a crate, each has it as a dependent, and it depends on the one that comes last by id.
///
/// A build promises it of the graph that it returns. Here it is said of any graph that is drawn so, of a document that can be
/// resolved.
pub fn agreement<N, E: FromEdge>()
    ensures { (m : MetadataModel) (s : SettingModel) (g : StoredGraph (Node N) E)
        → IsBuildAgreeing E.made_from_edge m s g }
{
    connected();
    dependencies_agree();
}
