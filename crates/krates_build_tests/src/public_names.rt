//! The names under which the library gives its items: each public path is called once.

use crate::indexed::answer_with;
use crate::real_documents::metadata_of;
use krates::agenda::Agenda;
use krates::cfg::{CfgError, Expression, TargetInfo, builtin};
use krates::cm::DependencyKind;
use krates::graph::Graph;
use krates::index::{
    BuildIndexCache, CachingIndex, FeaturesMap, IndexAnswer, IndexKrateVersion, PackageNames,
};
use krates::resolve::{Setting, admit, select};
use krates::semver::Version;
use krates::{
    DepKind, Edge, EdgeId, Error, Feature, IdError, Kid, NodeId, Package, PackageId, ParsedFeature,
    PkgSpec, Target, cm, laws, path,
};
use krates_samples::table::{Tell, hold_lines};
use krates_text::text::Text;
use std::alloc::Global;
use std::collections::{BTreeMap, BTreeSet};
use std::test::Fail;

/// The form of a reference.
fn form_of(text: &str) -> &'static str {
    match ParsedFeature::from(text).feat() {
        Feature::Krate(_) => "krate",
        Feature::Weak { .. } => "weak",
        Feature::Strong { .. } => "strong",
        Feature::Simple(_) => "simple",
    }
}

/// The fault of an id.
fn fault_of(alloc: Global, text: &str) -> Result<&'static str, Fail> {
    let repr = String::from_str(alloc, text)?;
    let fault = match Kid::try_from(PackageId { repr }) {
        Ok(_) => "none",
        Err(IdError::Opaque(_)) => "opaque",
        Err(IdError::Stable(_)) => "stable",
        Err(_) => "another",
    };
    Ok(fault)
}

/// The fault of an expression.
fn expression_fault(alloc: Global, text: &str) -> &'static str {
    match Expression::parse(alloc, text) {
        Ok(_) => "none",
        Err(CfgError::Syntax) => "syntax",
        Err(_) => "another",
    }
}

/// How many numbers a graph of two nodes and an agenda give.
fn counted(alloc: Global) -> Result<usize, Fail> {
    let mut graph: Graph<u8, u8> = Graph::with_limits(alloc, 2, 1);
    drop(graph.add_node(1));
    drop(graph.add_node(2));
    let mut agenda = Agenda::new(alloc, 1)?;
    agenda.put(0);
    let taken = agenda.take().map_or(7, |taken| taken.number());
    Ok(graph.node_count().saturating_add(taken))
}

/// How many crates an index answers that knows one version without features.
fn answered(alloc: Global) -> Result<usize, Fail> {
    let features: FeaturesMap = BTreeMap::new(alloc);
    let version = Version::parse(alloc, "1.2.3")?;
    let answer: IndexAnswer = answer_with(alloc, "p", IndexKrateVersion { version, features })?;
    let build: BuildIndexCache = Box::new(alloc, move |names: PackageNames| {
        drop(names);
        answer
    })?;
    let names = PackageNames {
        names: BTreeSet::new(alloc),
    };
    let index = CachingIndex::new(build, names);
    Ok(index.answer.krates.len())
}

/// How many crates are selected of the document of a line.
fn selected(alloc: Global, line: &str) -> Result<usize, Fail> {
    let metadata = metadata_of(alloc, line)?;
    let ids = admit(alloc, &metadata)?;
    match select(alloc, &metadata, &ids, &Setting::new(alloc)) {
        Ok(selection) => Ok(selection.krates.len()),
        Err(Error::NoRootKrates) => Ok(0),
        Err(error) => Err(Fail::from(error)),
    }
}

/// The triple of a known target.
fn triple_of(info: &Option<TargetInfo>) -> &str {
    match info {
        Some(info) => info.triple.as_str(),
        None => "none",
    }
}

/// What a call answers that the first word of the line names.
struct Named;

impl Tell for Named {
    fn tell(told: &mut Text, line: &str) -> Result<(), Fail> {
        let alloc = told.allocator();
        let (name, text) = line.split_once(' ').unwrap_or((line, ""));
        match name {
            "NodeId" => write!(told, "{}", NodeId::new(text.parse()?).index()),
            "EdgeId" => write!(told, "{}", EdgeId::new(text.parse()?).index()),
            "graph::Graph" => write!(told, "{}", counted(alloc)?),
            "index::CachingIndex" => write!(told, "{}", answered(alloc)?),
            "resolve::Selection" => write!(told, "{}", selected(alloc, text)?),
            "ParsedFeature" => told.push_str(form_of(text)),
            "IdError" => told.push_str(fault_of(alloc, text)?),
            "cfg::CfgError" => told.push_str(expression_fault(alloc, text)),
            "path::parent" => told.push_str(path::parent(text).unwrap_or("none")),
            "cfg::builtin" => told.push_str(triple_of(&builtin(alloc, text)?)),
            "Target" => write!(told, "{}", Target::new(alloc, text)?),
            "PkgSpec" => told.push_str(PkgSpec::from_str(alloc, text)?.name.as_str()),
            _ => return Err(Fail::new("no such name")),
        }
        Ok(())
    }
}

static NAMES: &str = "
NodeId 3 => 3
EdgeId 4 => 4
graph::Graph => 2
index::CachingIndex => 1
resolve::Selection a b|b|c => 2
ParsedFeature a?/b => weak
IdError a/b => stable
cfg::CfgError cfg() => syntax
path::parent /w/a => /w
cfg::builtin x86_64-pc-windows-msvc => x86_64-pc-windows-msvc
Target x => x
PkgSpec e@1.0.0 => e
";

/// Calls each law of builds and of queries.
fn call_laws_of_builds() {
    laws::narrowing();
    laws::reordering();
    laws::named_part();
    laws::agreement::<Package, Edge>();
    laws::dependents_reach::<Package, Edge>();
    laws::filtered_holds_rebuild();
    laws::accepted_lists();
    laws::closed_lists();
}

/// Calls each law of ids, specifications, references and expressions.
fn call_laws_of_texts() {
    laws::comparison();
    laws::one_reading();
    laws::one_specification();
    laws::printed_specification();
    laws::correcting_twice();
    laws::one_correction();
    laws::one_reference();
    laws::references_compared();
    laws::one_expression();
    laws::causes_compared();
}

/// Calls each law of comparisons of numbers, and of what a document has.
fn call_laws_of_comparisons() {
    laws::nodes_compared();
    laws::edges_compared();
    laws::directions_compared();
    laws::stored_edges_compared::<u8>();
    laws::errors_compared::<u8>();
    laws::kinds_compared();
    cm::laws::package_ids_compared();
    cm::laws::sources_compared();
    cm::laws::source_kinds_compared();
    cm::laws::editions_compared();
    cm::laws::kinds_compared();
    cm::laws::forms_compared();
    cm::laws::dependency_kinds_compared();
    cm::laws::faults_are_exact();
    cm::laws::written_is_read();
}

#[test]
fn names_of_laws(_rt: HostRuntime) -> Result<(), Fail> {
    call_laws_of_builds();
    call_laws_of_texts();
    call_laws_of_comparisons();
    Ok(())
}

#[test]
fn names_of_values_and_texts(rt: HostRuntime) -> Result<(), Fail> {
    assert!(rt; DepKind::Dev.is(DependencyKind::Development));
    hold_lines::<Named>(rt.alloc(), NAMES)
}
