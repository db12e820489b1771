//! The declared dependencies of a crate that the document has edges for.

ghost use Rattle.std.specs.Prelude.{◌≡◌, ◌↔◌, Contains, IfOk, IsTrue, map, option_map};
ghost use Rattle.krates_cm.specs.Document.{PackageModel, dep_kind_info_view};
ghost use Rattle.krates_questions.specs.Lookup.{resolved_view};
ghost use Rattle.krates_rules.specs.Resolved.{HasPackage, id_of};
ghost use Rattle.krates_units.specs.Requests.{IsBuildRoot};
ghost use Rattle.krates_build_tables.specs.Builds.{AreLinkEntries, AreMachines, IsPairOf, LinkSaysOf, ids_in, machines_in, resolved_in, setting_in};
ghost use Rattle.krates_build_tables.specs.TablesOf.{AreLinksOf, CrateAt};
ghost use Rattle.krates_build_tables.specs.declared.pairs.Pair.{Pair};

use crate::given::given_by;
use crate::machines::passing_of;
use crate::package_names::{declared_name, has_feature};
use crate::pairs::{Pair, pairs_of};
use crate::pushing::push;
use crate::sides::{counts, leads_to, looks_on};
use crate::tables::{Link, LinkPlace};
use krates_cm::DepKindInfo;
use krates_ids::{Kid, laws};
use krates_questions::Document;
use krates_units::{BuildSetting, Machine, Side};
use std::alloc::{AllocError, Global};

/// A document and a build.
#[derive(Clone, Copy)]
pub(crate) struct Build<'a, 's> {
    /// The document.
    pub document: &'s Document<'a>,
    /// What the build is asked for.
    pub setting: &'s BuildSetting,
    /// The machines that it is for, each once.
    pub distinct: &'s [&'s Machine],
}

/// The links of the crate with this number and this id, which is a root or isn't.
pub(crate) fn links_of<'a>(
    alloc: Global,
    build: &Build<'a, '_>,
    is_root: bool,
    number: usize,
    krate: &Kid,
) -> Result<Vec<Link<'a>>, AllocError>
    requires machines { AreMachines build.now }
    requires root { IsTrue is_root
        ↔ IsBuildRoot (resolved_in build.now) (setting_in build.now) (id_of krate.now) }
    ensures { IfOk result (λ links.
        AreLinksOf (resolved_in build.now) (setting_in build.now) (ids_in build.now)
        (machines_in build.now) number (id_of krate.now) links.items) }
{
    let pairs = pairs_of(alloc, build.document, krate)?;
    links_by(alloc, build, is_root, number, &pairs)
}

/// The links of these dependencies of the crate with this number.
fn links_by<'a>(
    alloc: Global,
    build: &Build<'a, '_>,
    is_root: bool,
    number: usize,
    pairs: &[Pair<'a>],
) -> Result<Vec<Link<'a>>, AllocError>
    requires machines { AreMachines build.now }
    requires pairs { (p : Pair) → Contains pairs.now p → IsPairOf build.now is_root p }
    ensures { IfOk result (λ links. AreLinkEntries build.now number pairs.now links.items) }
{
    let mut links = Vec::new(alloc);
    for pair in pairs {
        let place = LinkPlace {
            krate: number,
            index: links.len(),
        };
        let link = link_of(alloc, build, is_root, place, pair)?;
        push(&mut links, link)?;
    }
    Ok(links)
}

/// The link of a dependency with an edge, at a place.
fn link_of<'a>(
    alloc: Global,
    build: &Build<'a, '_>,
    is_root: bool,
    place: LinkPlace,
    pair: &Pair<'a>,
) -> Result<Link<'a>, AllocError>
    requires machines { AreMachines build.now }
    requires pair { IsPairOf build.now is_root pair.now }
    ensures says { IfOk result (LinkSaysOf build.now pair.now) }
    ensures place { IfOk result (λ link. link.place ≡ place) }
{
    let document = build.document;
    let setting = build.setting;
    let declared = pair.declared;
    let kind = pair.info.kind;
    let cfg = target_of(pair.info);
    let name = declared_name(declared);
    let given = given_by(alloc, document, declared, pair.child)?;
    let passing = passing_of(alloc, setting, build.distinct, cfg)?;
    let counts_for_targets = counts(setting, Side::Targets, kind, is_root, &passing);
    let counts_for_host = counts(setting, Side::Host, kind, is_root, &passing);
    Ok(Link {
        place,
        child: child_number(document, pair.child),
        kind,
        cfg,
        declared,
        name,
        is_optional: declared.optional,
        is_feature: has_feature(document, pair.parent, name),
        given,
        counts_for_targets,
        counts_for_host,
        leads_to: leads_to(document, setting, kind, pair.child),
        looks_on: looks_on(document, setting, kind, pair.child),
        passes_on_host: passing.on_host,
        passes_on: passing.on_each,
    })
}

/// The target text of a kind and a target.
fn target_of<'a>(info: &'a DepKindInfo) -> Option<&'a str>
    ensures { (dep_kind_info_view info.now).target ≡ option_map (λ t. t.now) result }
{
    match &info.target {
        Some(text) => Some(text.as_str()),
        None => None,
    }
}

/// The number of a crate that has a package.
fn child_number(document: &Document<'_>, child: &Kid) -> usize
    requires { (p : PackageModel) × HasPackage (resolved_view document.now) (id_of child.now) p }
    ensures { CrateAt (map id_of document.now.ids.now.table.ids.items) result (id_of child.now) }
{
    document.agrees();
    laws::one_reading();
    match document.crate_number(child) {
        Some(number) => number,
        None => unreachable!(),
    }
}
