//! What a build requests of each crate of a document (Cargo Book, "Features", "Command-line feature options", and
//! "cargo build", "Package Selection").
ghost use Rattle.std.specs.Prelude.{◌↔◌, Contains, IfOk, OnOk, IsTrue, map};
ghost use Rattle.krates_cm.specs.Document.{package_view};
ghost use Rattle.krates_questions.specs.Lookup.{resolved_view};
ghost use Rattle.krates_rules.specs.Resolved.{id_of};
ghost use Rattle.krates_text.specs.FeatureReference.{Reference};
ghost use Rattle.krates_units.specs.BuildSetting.{build_setting_view};
ghost use Rattle.krates_units.specs.Requests.{AsksDefaults, Takes};
ghost use Rattle.krates_build_tables.specs.References.{reference_view};
ghost use Rattle.krates_build_tables.specs.Requests.{Adds, AreRequests, AsksAllOf, AsksDefault, AsksEach, HasSimple, IsAsking, IsRequestedAs, RequestSays, TakesGiven, ids_asked, model_asked, setting_asked};
ghost use Rattle.krates_build_tables.specs.RequestsFlags.{FlagsSay, flagged, root_kind};

use crate::package_names::has_feature;
use crate::reference::FeatureReference;
use crate::roots::{RootAs, asks_alike, root_as, selects_no_member};
use crate::selection::{CrateFlags, flags_of};
use crate::taken::{references_of, taken};
use krates_cm::Package;
use krates_ids::{Kid, laws as ids};
use krates_questions::Document;
use krates_text::laws as references;
use krates_units::BuildSetting;
use std::alloc::{AllocError, Global};

/// What is requested of a crate.
#[derive(Drop)]
pub(crate) struct Request<'a> {
    /// What is requested of it, if it is a root.
    pub requested: Vec<FeatureReference<'a>>,
    /// Whether its features are resolved as those of a root.
    pub is_root: bool,
    /// Whether it is asked for.
    pub is_selected: bool,
}

/// What decides the request of each crate.
#[derive(Clone, Copy)]
struct Asking<'d, 'a> {
    /// The document.
    document: &'d Document<'a>,
    /// What the build is asked for.
    setting: &'a BuildSetting,
    /// Its crates.
    flags: &'d [CrateFlags<'d>],
    /// The references that the command line names.
    given: &'d [FeatureReference<'a>],
    /// Whether members are asked alike.
    alike: bool,
    /// Whether no member is selected.
    none_selected: bool,
}

/// What a build requests of each crate of a document, by number.
///
/// The only error is running out of memory. Time O(n (log n + m + s) + f (n + d) + g) for n crates with d dependencies and
/// g features, m default members, and a command line of s specifications and f features.
pub(crate) fn requests_of<'a>(
    alloc: Global,
    document: &Document<'a>,
    setting: &'a BuildSetting,
) -> Result<Vec<Request<'a>>, AllocError>
    ensures { IfOk result (λ list. AreRequests (resolved_view document.now) (build_setting_view setting.now)
        (map id_of document.now.ids.now.table.ids.items) list.items) }
{
    document.agrees();
    ids::one_reading();
    references::one_reference();
    let flags = flags_of(alloc, document, setting)?;
    let given = references_of(alloc, &setting.features)?;
    let asking = Asking {
        document,
        setting,
        flags: &flags,
        given: &given,
        alike: asks_alike(document, setting),
        none_selected: selects_no_member(&flags),
    };
    requests_by(alloc, &asking)
}

/// The request of each crate.
fn requests_by<'a>(alloc: Global, asking: &Asking<'_, 'a>) -> Result<Vec<Request<'a>>, AllocError>
    requires { IsAsking asking.now }
    ensures { IfOk result (λ list. AreRequests
        (model_asked asking.now) (setting_asked asking.now) (ids_asked asking.now) list.items) }
{
    let mut requests = Vec::with_capacity(alloc, asking.flags.len())?;
    for krate in asking.flags {
        requests.push(request_of(alloc, asking, krate)?)?;
    }
    Ok(requests)
}

/// The request of a crate.
fn request_of<'a>(
    alloc: Global,
    asking: &Asking<'_, 'a>,
    krate: &CrateFlags<'_>,
) -> Result<Request<'a>, AllocError>
    requires asking { IsAsking asking.now }
    requires krate { FlagsSay (model_asked asking.now) (setting_asked asking.now) krate.now }
    ensures { IfOk result (RequestSays
        (model_asked asking.now) (setting_asked asking.now) (flagged krate.now)) }
{
    match root_as(asking.alike, asking.none_selected, krate) {
        Some(kind) => Ok(Request {
            requested: requested_of(alloc, asking, kind, krate.id)?,
            is_root: true,
            is_selected: krate.is_selected,
        }),
        None => Ok(Request {
            requested: Vec::new(alloc),
            is_root: false,
            is_selected: krate.is_selected,
        }),
    }
}

/// What is requested of a root of this kind.
fn requested_of<'a>(
    alloc: Global,
    asking: &Asking<'_, 'a>,
    kind: RootAs,
    id: &Kid,
) -> Result<Vec<FeatureReference<'a>>, AllocError>
    requires { IsAsking asking.now }
    ensures { IfOk result (λ list. (v : Reference)
        → IsRequestedAs (model_asked asking.now) (setting_asked asking.now) (id_of id.now) (root_kind kind) v
        ↔ Contains (map reference_view list.items) v) }
{
    let mut requested = Vec::new(alloc);
    push_default(asking, kind, id, &mut requested)?;
    push_each(asking, kind, id, &mut requested)?;
    push_taken(asking, kind, id, &mut requested)?;
    Ok(requested)
}

/// Adds the feature `default` of a root, if that is requested of it.
fn push_default<'a>(
    asking: &Asking<'_, 'a>,
    kind: RootAs,
    id: &Kid,
    requested: &mut Vec<FeatureReference<'a>>,
) -> Result<(), AllocError>
    ensures { OnOk result (Adds
        (AsksDefault (model_asked asking.now) (setting_asked asking.now) (id_of id.now) (root_kind kind))
        requested.old.items requested.new.items) }
{
    if asks_defaults(asking.setting, kind) && has_feature(asking.document, id, "default") {
        requested.push(FeatureReference::Simple("default"))?;
    }
    Ok(())
}

/// Whether the defaults of a root of this kind are requested.
fn asks_defaults(setting: &BuildSetting, kind: RootAs) -> bool
    ensures { IsTrue result ↔ AsksDefaults (build_setting_view setting.now) (root_kind kind) }
{
    match kind {
        RootAs::Alike | RootAs::Current => !setting.no_default_features,
        RootAs::Unselected | RootAs::Other => true,
    }
}

/// Whether all features of a root of this kind are requested.
fn asks_each(setting: &BuildSetting, kind: RootAs) -> bool
    ensures { IsTrue result ↔ AsksAllOf (build_setting_view setting.now) (root_kind kind) }
{
    match kind {
        RootAs::Unselected => false,
        RootAs::Alike | RootAs::Current | RootAs::Other => setting.all_features,
    }
}

/// Adds all features of a root, if these are requested of it.
fn push_each<'a>(
    asking: &Asking<'_, 'a>,
    kind: RootAs,
    id: &Kid,
    requested: &mut Vec<FeatureReference<'a>>,
) -> Result<(), AllocError>
    ensures { OnOk result (Adds
        (AsksEach (model_asked asking.now) (setting_asked asking.now) (id_of id.now) (root_kind kind))
        requested.old.items requested.new.items) }
{
    asking.document.agrees();
    if !asks_each(asking.setting, kind) {
        return Ok(());
    }
    match asking.document.package_of(id) {
        Some(pkg) => push_features(pkg, requested),
        None => Ok(()),
    }
}

/// Adds all features of a package.
fn push_features<'a>(
    pkg: &'a Package,
    requested: &mut Vec<FeatureReference<'a>>,
) -> Result<(), AllocError>
    ensures { OnOk result (Adds (HasSimple (package_view pkg.now)) requested.old.items requested.new.items) }
{
    for name in pkg.features.keys() {
        requested.push(FeatureReference::Simple(name.as_str()))?;
    }
    Ok(())
}

/// Adds what a root takes of the references that the command line names.
fn push_taken<'a>(
    asking: &Asking<'_, 'a>,
    kind: RootAs,
    id: &Kid,
    requested: &mut Vec<FeatureReference<'a>>,
) -> Result<(), AllocError>
    requires { IsAsking asking.now }
    ensures { OnOk result (Adds
        (TakesGiven (model_asked asking.now) (setting_asked asking.now) (id_of id.now) (root_kind kind))
        requested.old.items requested.new.items) }
{
    for given in asking.given {
        push_one(asking, kind, id, given, requested)?;
    }
    Ok(())
}

/// Adds what a root takes of one of them.
fn push_one<'a>(
    asking: &Asking<'_, 'a>,
    kind: RootAs,
    id: &Kid,
    given: &FeatureReference<'a>,
    requested: &mut Vec<FeatureReference<'a>>,
) -> Result<(), AllocError>
    requires { IsAsking asking.now }
    ensures { OnOk result (Adds
        (Takes (model_asked asking.now) (setting_asked asking.now) (id_of id.now) (root_kind kind)
        (reference_view given.now))
        requested.old.items requested.new.items) }
{
    match taken(asking.document, asking.flags, kind, id, *given) {
        Some(reference) => requested.push(reference)?,
        None => {}
    }
    Ok(())
}
