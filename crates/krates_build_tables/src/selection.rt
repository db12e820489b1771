//! Which crates a build asks for (Cargo Book, "cargo build", "Package Selection").
ghost use Rattle.std.specs.Prelude.{◌≡◌, ◌↔◌, IfOk, IsTrue, Contains, map};
ghost use Rattle.krates_cm.specs.Document.{id_view, package_view};
ghost use Rattle.krates_ids.specs.PackageSpecification.{spec_view};
ghost use Rattle.krates_questions.specs.Lookup.{resolved_view};
ghost use Rattle.krates_rules.specs.Resolved.{id_of};
ghost use Rattle.krates_units.specs.BuildSetting.{build_setting_view};
ghost use Rattle.krates_units.specs.Requests.{IsCurrent, IsDefaultMember, IsSelected};
ghost use Rattle.krates_build_tables.specs.RequestsFlags.{AreFlags, AreReadFrom, FitsSome, FlagsSay, TellsDefaults, TellsReading, flagged};

use krates_cm::{Package, PackageId};
use krates_ids::{IdError, Kid, PkgSpec, laws};
use krates_questions::Document;
use krates_questions::questions::is_same;
use krates_units::{BuildSetting, PackageSelection};
use std::alloc::{AllocError, Global};

/// A crate, and what a build asks of it.
#[derive(Clone, Copy)]
pub(crate) struct CrateFlags<'d> {
    /// Its id.
    pub id: &'d Kid,
    /// Whether it is a member of the workspace.
    pub is_member: bool,
    /// Whether it is the package of the folder of the build.
    pub is_current: bool,
    /// Whether it is asked for.
    pub is_selected: bool,
}

/// The flags of all crates, by number.
pub(crate) fn flags_of<'d, 'a>(
    alloc: Global,
    document: &'d Document<'a>,
    setting: &BuildSetting,
) -> Result<Vec<CrateFlags<'d>>, AllocError>
    ensures { IfOk result (λ flags. AreFlags (resolved_view document.now) (build_setting_view setting.now)
        (map id_of document.now.ids.now.table.ids.items) flags.items) }
{
    let defaults = written_defaults(alloc, document)?;
    flags_with(alloc, document, setting, &defaults)
}

/// The flags of all crates, by number, where these are the default members.
fn flags_with<'d, 'a>(
    alloc: Global,
    document: &'d Document<'a>,
    setting: &BuildSetting,
    defaults: &Option<Vec<Kid>>,
) -> Result<Vec<CrateFlags<'d>>, AllocError>
    requires { TellsDefaults (resolved_view document.now) defaults.now }
    ensures { IfOk result (λ flags. AreFlags (resolved_view document.now) (build_setting_view setting.now)
        (map id_of document.now.ids.now.table.ids.items) flags.items) }
{
    let ids = document.crate_ids();
    let mut flags = Vec::with_capacity(alloc, ids.len())?;
    for id in ids {
        flags.push(flags_at(document, setting, defaults, id))?;
    }
    Ok(flags)
}

/// The flags of a crate.
fn flags_at<'d>(
    document: &Document<'_>,
    setting: &BuildSetting,
    defaults: &Option<Vec<Kid>>,
    id: &'d Kid,
) -> CrateFlags<'d>
    requires { TellsDefaults (resolved_view document.now) defaults.now }
    ensures says { FlagsSay (resolved_view document.now) (build_setting_view setting.now) result }
    ensures id { flagged result ≡ id_of id.now }
{
    CrateFlags {
        id,
        is_member: document.is_member(id),
        is_current: is_current(document, id),
        is_selected: is_selected(document, setting, defaults, id),
    }
}

/// Whether the crate is asked for.
fn is_selected(
    document: &Document<'_>,
    setting: &BuildSetting,
    defaults: &Option<Vec<Kid>>,
    id: &Kid,
) -> bool
    requires { TellsDefaults (resolved_view document.now) defaults.now }
    ensures { IsTrue result
        ↔ IsSelected (resolved_view document.now) (build_setting_view setting.now) (id_of id.now) }
{
    document.agrees();
    match &setting.selection {
        PackageSelection::DefaultMembers => is_default(document, defaults, id),
        PackageSelection::Workspace => document.is_member(id),
        PackageSelection::Packages(specs) => match document.package_of(id) {
            Some(pkg) => fits_some(specs, pkg),
            None => false,
        },
    }
}

/// Whether one of the specifications fits the package.
fn fits_some(specs: &[PkgSpec], pkg: &Package) -> bool
    ensures { IsTrue result ↔ FitsSome (map spec_view specs.now) (package_view pkg.now) }
{
    for spec in specs {
        if spec.matches(pkg) {
            return true;
        }
    }
    false
}

/// Whether the crate is a default member.
fn is_default(document: &Document<'_>, defaults: &Option<Vec<Kid>>, id: &Kid) -> bool
    requires { TellsDefaults (resolved_view document.now) defaults.now }
    ensures { IsTrue result ↔ IsDefaultMember (resolved_view document.now) (id_of id.now) }
{
    match defaults {
        Some(ids) => document.is_member(id) && is_among(ids, id),
        None if document.graph_root().is_some() => is_current(document, id),
        None => document.is_member(id),
    }
}

/// Whether the crate is the package of the folder of the build.
fn is_current(document: &Document<'_>, id: &Kid) -> bool
    ensures { IsTrue result ↔ IsCurrent (resolved_view document.now) (id_of id.now) }
{
    laws::one_reading();
    match document.graph_root() {
        Some(root) => is_same(root, id) && document.is_member(id),
        None => false,
    }
}

/// Whether the id is among these.
fn is_among(ids: &[Kid], id: &Kid) -> bool
    ensures { IsTrue result ↔ Contains (map id_of ids.now) (id_of id.now) }
{
    for other in ids {
        if is_same(other, id) {
            return true;
        }
    }
    false
}

/// The ids of the document's list of default members; none if it has no list.
fn written_defaults(alloc: Global, document: &Document<'_>) -> Result<Option<Vec<Kid>>, AllocError>
    ensures { IfOk result (TellsDefaults (resolved_view document.now)) }
{
    match &document.metadata().workspace_default_members.0 {
        Some(ids) => Ok(Some(read_ids(alloc, ids)?)),
        None => Ok(None),
    }
}

/// The ids that these texts are read as. A text that isn't an id is left out.
fn read_ids(alloc: Global, texts: &[PackageId]) -> Result<Vec<Kid>, AllocError>
    ensures { IfOk result (λ ids. AreReadFrom (map id_view texts.now) ids.items) }
{
    laws::one_reading();
    let mut ids = Vec::new(alloc);
    for text in texts {
        match read_id(text)? {
            Some(id) => ids.push(id)?,
            None => {}
        }
    }
    Ok(ids)
}

/// The id that a text is read as; none if it isn't an id.
fn read_id(id: &PackageId) -> Result<Option<Kid>, AllocError>
    ensures { IfOk result (TellsReading (id_view id.now)) }
{
    laws::one_reading();
    let copy = PackageId {
        repr: id.repr.clone()?,
    };
    match Kid::try_from(copy) {
        Ok(kid) => Ok(Some(kid)),
        Err(IdError::Memory(_)) => Err(AllocError),
        Err(IdError::Opaque(_back)) => Ok(None),
        Err(IdError::Stable(_back)) => Ok(None),
        Err(IdError::Escape(_back)) => Ok(None),
    }
}
