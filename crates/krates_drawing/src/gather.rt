//! The outline of a selection, gathered: beside what it keeps, what the document says.

ghost use Rattle.std.specs.Prelude.{◌≡◌, ◌<◌, All, IfOk, filter, length, map};
ghost use Rattle.std.specs.List.{AllZip};
ghost use Rattle.krates_cm.specs.Document.{dependency_view, node_view, package_view, text_view};
ghost use Rattle.krates_questions.specs.Context.{document_of};
ghost use Rattle.krates_questions.specs.FeatureTable.{values_of};
ghost use Rattle.krates_questions.specs.Lookup.{resolved_view};
ghost use Rattle.krates_rules.specs.Referent.{AreReferents};
ghost use Rattle.krates_rules.specs.Resolved.{HasNode, id_of};
ghost use Rattle.krates_selection.specs.Selection.{HasHome, IsSelection};
ghost use Rattle.krates_text.specs.Texts.{has_text};
ghost use Rattle.krates_drawing.specs.Gathered.{IsBetween, IsEdgeWith, IsFeatureWith, IsRecordOf, Stands, given_between, row_in};
ghost use Rattle.krates_drawing.specs.Outline.{IsMeaning, IsOutline, asked_by};
ghost use Rattle.krates_drawing.specs.Views.{kids_in, meaning_view, outline_view};
ghost use Rattle.krates_drawing.specs.WorkOfOutline.{work_of};

use crate::outline::{CrateRow, EdgeRow, FeatureRow, Meaning, Outline};
use krates_cm::{Dependency, Node, Package};
use krates_document::Setting;
use krates_ids::Kid;
use krates_questions::Document;
use krates_questions::context::Context;
use krates_selection::{EnabledFeature, KeptEdge, Selection};
use krates_text::features::{Feature, ParsedFeature};
use krates_text::laws::one_reference;
use krates_text::texts::has_text;
use std::alloc::{AllocError, Global};

/// A node with fewer features than these is walked, since the search among the features of all nodes costs more.
const FEW: usize = 32;

/// A kept crate, with what the document has for it. Each is looked up once, and then found by its number.
#[derive(Drop)]
struct CrateRecord<'a> {
    krate: Kid,
    pkg: &'a Package,
    node: &'a Node,
}

impl CrateRecord<'_> {
    /// How many dependencies the package declares.
    fn declared(&self) -> usize
        ensures { result ≡ length (package_view self.now.pkg.now).dependencies }
    {
        self.pkg.dependencies.len()
    }
}

/// These crates, each with what the document has for it. Time: O(k log n) for k crates, and n in the document.
fn records_of<'a>(
    alloc: Global,
    document: &Document<'a>,
    krates: Vec<Kid>,
) -> Result<Vec<CrateRecord<'a>>, AllocError>
    requires { All (Stands (resolved_view document.now)) krates.items }
    ensures { IfOk result
        (λ records. AllZip (IsRecordOf (resolved_view document.now)) krates.items records.items) }
{
    let mut records = Vec::with_capacity(alloc, krates.len())?;
    for krate in krates {
        let Some(pkg) = document.package_of(&krate) else {
            unreachable!()
        };
        let Some(node) = document.node_of(&krate) else {
            unreachable!()
        };
        records.push(CrateRecord { krate, pkg, node })?;
    }
    Ok(records)
}

/// Whether the node of a crate lists a feature. Time: O(log n) in the crates and listed features of the document.
fn lists<'a>(document: &Document<'a>, child: &CrateRecord<'a>, name: &'a str) -> bool
    requires node { HasNode (resolved_view document.now) (id_of child.now.krate)
        (node_view child.now.node.now) }
    ensures { result ≡ has_text (node_view child.now.node.now).features name.now }
{
    document.agrees();
    if child.node.features.len() < FEW {
        return has_text(&child.node.features, name);
    }
    document.lists(&child.krate, name)
}

/// The features that an edge gives, which is declared as this dependency and leads to this crate.
///
/// Time: O(a log n) for a features that are asked for, and n crates and listed features of the document.
fn given_of<'a>(
    alloc: Global,
    document: &Document<'a>,
    dependency: &'a Dependency,
    child: &CrateRecord<'a>,
) -> Result<Vec<String>, AllocError>
    requires node { HasNode (resolved_view document.now) (id_of child.now.krate)
        (node_view child.now.node.now) }
    ensures { let listed = (node_view child.now.node.now).features in
        IfOk result (λ given. map text_view given.items ≡ filter (has_text listed)
        (asked_by (dependency_view dependency.now))) }
{
    let mut given = Vec::new(alloc);
    for name in &dependency.features {
        if lists(document, child, name.as_str()) {
            given.push(name.clone()?)?;
        }
    }
    if dependency.uses_default_features && lists(document, child, "default") {
        given.push(String::from_str(alloc, "default")?)?;
    }
    Ok(given)
}

/// The features that a kept edge gives.
fn given_by<'a>(
    alloc: Global,
    document: &Document<'a>,
    records: &[CrateRecord<'a>],
    edge: &KeptEdge,
) -> Result<Vec<String>, AllocError>
    requires { IsBetween (resolved_view document.now) records.now edge.now }
    ensures { (b : IsBetween (resolved_view document.now) records.now edge.now)
        → IfOk result (λ given. map text_view given.items ≡ given_between b) }
{
    let parent = records[edge.parent].pkg;
    let declared = &parent.dependencies[edge.declared];
    given_of(alloc, document, declared, &records[edge.child])
}

/// The edges, each with the features that it gives.
fn edge_rows<'a>(
    alloc: Global,
    document: &Document<'a>,
    records: &[CrateRecord<'a>],
    edges: Vec<KeptEdge>,
) -> Result<Vec<EdgeRow>, AllocError>
    requires { All (IsBetween (resolved_view document.now) records.now) edges.items }
    ensures { IfOk result (λ rows. AllZip (IsEdgeWith (resolved_view document.now) records.now)
        edges.items rows.items) }
{
    let mut rows = Vec::with_capacity(alloc, edges.len())?;
    for edge in edges {
        let given = given_by(alloc, document, records, &edge)?;
        rows.push(EdgeRow { edge, given })?;
    }
    Ok(rows)
}

/// The crates that a dependency's name means in a reference of a crate, in the order of ids.
fn meant_by(context: Context<'_, '_>, krate: &Kid, name: &str) -> Result<Vec<Kid>, AllocError>
    ensures { let all = context.entry.setting.now.all_named in
        IfOk result (λ ids. AreReferents (document_of context.entry) all (id_of krate.now) name.now
        (map id_of ids.items)) }
{
    let Context {
        alloc,
        document,
        setting,
    } = context;
    let referents = document.referents(alloc, setting, krate, name)?;
    let mut ids = Vec::with_capacity(alloc, referents.len())?;
    for referent in &referents {
        ids.push(referent.id.clone()?)?;
    }
    Ok(ids)
}

/// What a reference names. Time: O(log n) for n crates and dependencies, for each crate that it names.
fn meaning_of(context: Context<'_, '_>, krate: &Kid, text: &str) -> Result<Meaning, AllocError>
    ensures { let all = context.entry.setting.now.all_named in
        IfOk result (λ meaning. IsMeaning (document_of context.entry) all (id_of krate.now) text.now
        (meaning_view meaning)) }
{
    match ParsedFeature::from(text).feat() {
        Feature::Simple(name) => Ok(Meaning::OwnFeature(String::from_str(context.alloc, name)?)),
        Feature::Krate(name) => Ok(Meaning::Crates(meant_by(context, krate, name)?)),
        Feature::Weak {
            krate: name,
            feature,
        }
        | Feature::Strong {
            krate: name,
            feature,
        } => Ok(Meaning::FeatureOf {
            krates: meant_by(context, krate, name)?,
            name: String::from_str(context.alloc, feature)?,
        }),
    }
}

/// What the references of a feature name.
fn meanings_of(
    context: Context<'_, '_>,
    krate: &Kid,
    values: &[String],
) -> Result<Vec<Meaning>, AllocError>
    ensures { let all = context.entry.setting.now.all_named in
        IfOk result (λ meanings. AllZip (IsMeaning (document_of context.entry) all (id_of krate.now))
        (map text_view values.now) (map meaning_view meanings.items)) }
{
    let mut meanings = Vec::with_capacity(context.alloc, values.len())?;
    for text in values {
        meanings.push(meaning_of(context, krate, text.as_str())?)?;
    }
    Ok(meanings)
}

/// The references of a feature, as a package has them, in its order; none where it lacks the feature.
fn values_of<'a>(pkg: &'a Package, name: &str) -> &'a [String]
    ensures { map text_view result.now ≡ values_of (package_view pkg.now).features name.now }
{
    match pkg.features.get(name) {
        Some(values) => values,
        None => &[],
    }
}

/// The features, each with what its references name.
fn feature_rows(
    context: Context<'_, '_>,
    records: &[CrateRecord<'_>],
    features: Vec<EnabledFeature>,
) -> Result<Vec<FeatureRow>, AllocError>
    requires { All (HasHome (length records.now)) features.items }
    ensures { let all = context.entry.setting.now.all_named in
        IfOk result (λ rows. AllZip (IsFeatureWith (document_of context.entry) all records.now)
        features.items rows.items) }
{
    let mut rows = Vec::with_capacity(context.alloc, features.len())?;
    for feature in features {
        let home = &records[feature.krate];
        let values = values_of(home.pkg, feature.name.as_str());
        let meanings = meanings_of(context, &home.krate, values)?;
        rows.push(FeatureRow { feature, meanings })?;
    }
    Ok(rows)
}

/// The crates, each with how many dependencies its package declares.
fn crate_rows(alloc: Global, records: Vec<CrateRecord<'_>>) -> Result<Vec<CrateRow>, AllocError>
    ensures { IfOk result (λ rows. rows.items ≡ map row_in records.entry.items) }
{
    records
        .into_iter()
        .map(|record| CrateRow {
            declared: record.declared(),
            id: record.krate,
        })
        .collect(alloc)
}

/// The outline of a selection under a setting: beside each crate, edge and feature what the document says of it. It has the selection's
/// crates, and its references count as often as those of the selection.
///
/// The only error is running out of memory. Time: O(n log n) for n crates, edges, features and references.
pub fn outline_of<'a>(
    alloc: Global,
    document: &Document<'a>,
    setting: &Setting,
    selection: Selection,
) -> Result<Outline, AllocError>
    requires selected { IsSelection (resolved_view document.now) setting.now selection }
    ensures outline { IfOk result (λ outline. IsOutline (resolved_view document.now) setting.now
        (outline_view outline)) }
    ensures krates { IfOk result (λ outline. kids_in outline ≡ selection.krates.items) }
    ensures work { IfOk result (λ outline. selection.work ≡ work_of (outline_view outline)) }
{
    document.agrees();
    one_reference();
    let Selection {
        krates,
        edges,
        features,
        toggled,
        steps,
        work: _,
    } = selection;
    // what is made next takes their room
    drop(steps);
    let records = records_of(alloc, document, krates)?;
    let links = edge_rows(alloc, document, &records, edges)?;
    let context = Context {
        alloc,
        document,
        setting,
    };
    let features = feature_rows(context, &records, features)?;
    let krates = crate_rows(alloc, records)?;
    Ok(Outline {
        krates,
        links,
        features,
        toggled,
    })
}
