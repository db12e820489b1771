//! Facts and their parts, borrowed. Two facts compare as equal where they are the same.

ghost use Rattle.std.specs.Prelude.{◌≡◌, IfOk};
ghost use Rattle.krates_cm.specs.Document.{dep_kind_info_view};
ghost use Rattle.krates_derive.specs.FactRef.{edge_of_ref, fact_of_ref};
ghost use Rattle.krates_rules.specs.Kind.{written_of};
ghost use Rattle.krates_rules.specs.Questions.{edge_between, kind_info_of};
ghost use Rattle.krates_rules.specs.Resolved.{id_of};
ghost use Rattle.krates_rules.specs.StepViews.{fact_view};

use krates_cm::{DepKindInfo, DependencyKind};
use krates_ids::Kid;
use krates_rules::{DepKind, Fact};
use std::alloc::AllocError;

/// An edge, with its parts borrowed.
#[derive(Clone, Copy, PartialEq, Eq, PartialOrd, Ord)]
pub struct EdgeRef<'a> {
    /// The crate that has the dependency.
    pub parent: &'a Kid,
    /// The crate that it depends on.
    pub child: &'a Kid,
    /// What it is needed for.
    pub kind: DepKind,
    /// The target that it is needed for.
    pub cfg: &'a Option<String>,
}

impl<'a> EdgeRef<'a> {
    /// The edge between two crates of one kind and for one target.
    pub(crate) fn between(parent: &'a Kid, child: &'a Kid, info: &'a DepKindInfo) -> EdgeRef<'a>
        ensures { edge_of_ref result ≡ edge_between (id_of parent.now) (id_of child.now)
            (dep_kind_info_view info.now) }
    {
        EdgeRef {
            parent,
            child,
            kind: DepKind::from(info.kind),
            cfg: &info.target,
        }
    }

    /// Its kind and its target.
    pub(crate) fn info(&self) -> Result<DepKindInfo, AllocError>
        ensures { IfOk result (λ info. dep_kind_info_view info ≡ kind_info_of (edge_of_ref self.now)) }
    {
        Ok(DepKindInfo {
            kind: written(self.kind),
            target: self.cfg.clone()?,
        })
    }
}

/// A feature, with its parts borrowed.
#[derive(Clone, Copy, PartialEq, Eq, PartialOrd, Ord)]
pub(crate) struct FeatureRef<'a> {
    /// The crate.
    pub krate: &'a Kid,
    /// The name of the feature.
    pub name: &'a str,
}

/// A toggled feature, with its parts borrowed.
#[derive(Clone, Copy, PartialEq, Eq, PartialOrd, Ord)]
pub(crate) struct ToggleRef<'a> {
    /// The crate whose feature toggles it.
    pub by: &'a Kid,
    /// The crate whose feature it is.
    pub krate: &'a Kid,
    /// Its name.
    pub name: &'a str,
}

/// A fact whose parts are borrowed.
#[derive(Clone, Copy, PartialEq, Eq, PartialOrd, Ord)]
pub(crate) enum FactRef<'a> {
    /// The crate is kept.
    Crate(&'a Kid),
    /// The feature is enabled.
    Feature(FeatureRef<'a>),
    /// The edge is kept.
    Kept(EdgeRef<'a>),
    /// The feature is toggled.
    Toggled(ToggleRef<'a>),
}

impl<'a> FactRef<'a> {
    /// The fact, with its parts borrowed.
    pub(crate) fn of(fact: &'a Fact) -> FactRef<'a>
        ensures { fact_of_ref result ≡ fact_view fact.now }
    {
        match fact {
            Fact::Crate(krate) => FactRef::Crate(krate),
            Fact::Feature { krate, name } => {
                FactRef::Feature(FeatureRef {
                    krate,
                    name: name.as_str(),
                })
            }
            Fact::Kept {
                parent,
                child,
                kind,
                cfg,
            } => {
                FactRef::Kept(EdgeRef {
                    parent,
                    child,
                    kind: *kind,
                    cfg,
                })
            }
            Fact::Toggled {
                parent,
                child,
                name,
            } => {
                FactRef::Toggled(ToggleRef {
                    by: parent,
                    krate: child,
                    name: name.as_str(),
                })
            }
        }
    }
}

/// The kind as the document writes it.
fn written(kind: DepKind) -> DependencyKind
    ensures { result ≡ written_of kind }
{
    match kind {
        DepKind::Normal => DependencyKind::Normal,
        DepKind::Build => DependencyKind::Build,
        DepKind::Dev => DependencyKind::Development,
    }
}
