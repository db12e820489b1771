//! The tables of a document and a build.

ghost use Rattle.std.specs.Prelude.{◌≡◌, ◌↔◌, IfOk, IsTrue, length, map};
ghost use Rattle.krates_questions.specs.Lookup.{resolved_view};
ghost use Rattle.krates_rules.specs.Resolved.{id_of};
ghost use Rattle.krates_units.specs.BuildSetting.{build_setting_view};
ghost use Rattle.krates_units.specs.Requests.{IsBuildRoot};
ghost use Rattle.krates_build_tables.specs.Builds.{AreMachines, ids_in, machines_in, resolved_in, setting_in};
ghost use Rattle.krates_build_tables.specs.CrateParts.{AreCrates, AreTablesOf, PartsSay};
ghost use Rattle.krates_build_tables.specs.Requests.{AreRequests, RequestSays};
ghost use Rattle.krates_build_tables.specs.TablesOf.{CrateSays};

use crate::contents::links_natively;
use crate::features::{features_of, implied_by};
use crate::lacking::lacking_of;
use crate::links::{Build, links_of};
use crate::machines::distinct_machines;
use crate::pushing::push;
use crate::reference::FeatureReference;
use crate::requests::{Request, requests_of};
use crate::tables::{CrateEntry, Lacking, Link, Tables, TargetEntry};
use crate::targets::{has_script, is_later, starts_on_host, target_entries};
use krates_ids::{Kid, laws};
use krates_questions::Document;
use krates_units::BuildSetting;
use std::alloc::{AllocError, Global};
use std::collections::BTreeMap;

/// The tables of a document and a build: the crates of the document in the order of their ids, with all that the rules of what cargo
/// builds ask of them.
///
/// The only error is running out of memory. Time O(n log n + p d k) for n crates, features and targets, and p dependencies that
/// packages declare beside d of their nodes of k kinds and targets each; and that of the requests.
pub fn tables_of<'a>(
    alloc: Global,
    document: &Document<'a>,
    setting: &'a BuildSetting,
) -> Result<Tables<'a>, AllocError>
    ensures { IfOk result (AreTablesOf (resolved_view document.now) (build_setting_view setting.now)
        (map id_of document.now.ids.now.table.ids.items)) }
{
    document.agrees();
    laws::one_reading();
    let distinct = distinct_machines(alloc, setting)?;
    let requests = requests_of(alloc, document, setting)?;
    let build = Build {
        document,
        setting,
        distinct: &distinct,
    };
    let crates = crates_of(alloc, &build, &requests)?;
    Ok(Tables {
        is_first: !is_later(setting),
        machines: distinct,
        crates,
    })
}

/// The entries of all crates, by number.
fn crates_of<'a>(
    alloc: Global,
    build: &Build<'a, '_>,
    requests: &[Request<'a>],
) -> Result<Vec<CrateEntry<'a>>, AllocError>
    requires machines { AreMachines build.now }
    requires requests { AreRequests (resolved_in build.now) (setting_in build.now)
        (ids_in build.now) requests.now }
    ensures { IfOk result (λ crates. AreCrates build.now (length (ids_in build.now)) crates.items) }
{
    let ids = build.document.crate_ids();
    let mut crates = Vec::new(alloc);
    for number in 0..ids.len() {
        let entry = entry_of(alloc, build, &requests[number], number, &ids[number])?;
        push(&mut crates, entry)?;
    }
    Ok(crates)
}

/// The entry of the crate with this number and this id, of which this is requested.
fn entry_of<'a>(
    alloc: Global,
    build: &Build<'a, '_>,
    request: &Request<'a>,
    number: usize,
    krate: &Kid,
) -> Result<CrateEntry<'a>, AllocError>
    requires machines { AreMachines build.now }
    requires request { RequestSays (resolved_in build.now) (setting_in build.now)
        (id_of krate.now) request.now }
    ensures { IfOk result (CrateSays (resolved_in build.now) (setting_in build.now) (ids_in build.now)
        (machines_in build.now) number (id_of krate.now)) }
{
    let requested = copies(alloc, &request.requested)?;
    let parts = parts_of(alloc, build, request.is_root, number, krate)?;
    let CrateParts {
        starts_on_host,
        has_script,
        links_natively,
        features,
        implied,
        links,
        lacking,
        targets,
    } = parts;
    Ok(CrateEntry {
        number,
        is_root: request.is_root,
        starts_on_host,
        is_selected: request.is_selected,
        has_script,
        links_natively,
        requested,
        features,
        implied,
        links,
        lacking,
        targets,
    })
}

/// Copies of these references.
fn copies<'a>(
    alloc: Global,
    references: &[FeatureReference<'a>],
) -> Result<Vec<FeatureReference<'a>>, AllocError>
    ensures { IfOk result (λ copied. copied.items ≡ references.now) }
{
    let mut copied = Vec::new(alloc);
    for reference in references {
        push(&mut copied, *reference)?;
    }
    Ok(copied)
}

/// What the entry of a crate says whatever is requested.
#[derive(Drop)]
struct CrateParts<'a> {
    /// Its features, each with the references that it lists.
    features: BTreeMap<&'a str, Vec<FeatureReference<'a>>>,
    /// The names of its optional dependencies that are features too.
    implied: Vec<&'a str>,
    /// Its declared dependencies that the document has edges for.
    links: Vec<Link<'a>>,
    /// Those that it has none for.
    lacking: Vec<Lacking<'a>>,
    /// Its targets.
    targets: Vec<TargetEntry<'a>>,
    /// Whether its features count for the host too, if it is a root.
    starts_on_host: bool,
    /// Whether it has a build script.
    has_script: bool,
    /// Whether its package says that it links to a native library.
    links_natively: bool,
}

/// What the entry of the crate with this number and this id says whatever is requested, where it is a root or isn't.
fn parts_of<'a>(
    alloc: Global,
    build: &Build<'a, '_>,
    is_root: bool,
    number: usize,
    krate: &Kid,
) -> Result<CrateParts<'a>, AllocError>
    requires machines { AreMachines build.now }
    requires root { IsTrue is_root
        ↔ IsBuildRoot (resolved_in build.now) (setting_in build.now) (id_of krate.now) }
    ensures { IfOk result (PartsSay build.now number (id_of krate.now)) }
{
    let document = build.document;
    Ok(CrateParts {
        features: features_of(alloc, document, krate)?,
        implied: implied_by(alloc, document, krate)?,
        links: links_of(alloc, build, is_root, number, krate)?,
        lacking: lacking_of(alloc, document, number, krate)?,
        targets: target_entries(alloc, document, build.setting, number, krate)?,
        starts_on_host: starts_on_host(document, build.setting, krate),
        has_script: has_script(document, krate),
        links_natively: links_natively(document, krate),
    })
}
