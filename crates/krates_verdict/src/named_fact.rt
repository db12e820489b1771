//! Facts as a verdict names them: by the ids of the document. Equal ids may have different texts, and in those of a certificate anything
//! may stand.

ghost use Rattle.std.specs.Prelude.{◌≡◌, ◌↔◌, Contains, IfOk, IsTrue, Some};
ghost use Rattle.krates_cm.specs.Document.{id_view, metadata_view};
ghost use Rattle.krates_rules.specs.Admission.{package_texts};
ghost use Rattle.krates_rules.specs.DerivationTexts.{kind_suffix};
ghost use Rattle.krates_rules.specs.Resolved.{ReadsAs, id_of};
ghost use Rattle.krates_rules.specs.StepViews.{fact_view};
ghost use Rattle.krates_verdict.specs.NamedFact.{IsAbout, IsOfPackage, NamesIn};
ghost use Rattle.krates_verdict.specs.VerdictText.{named_text};

use krates_cm::{Metadata, PackageId};
use krates_ids::{IdError, Kid, laws};
use krates_rules::Fact;
use krates_rules::kind::DepKind;
use krates_shown::Shown;
use std::alloc::AllocError;
use std::fmt;

/// A fact whose crates are named by the id texts of a document's packages.
#[derive(Debug, Drop)]
pub enum NamedFact {
    /// The crate is kept.
    Crate(PackageId),
    /// The feature of the crate is enabled.
    Feature {
        /// The crate.
        krate: PackageId,
        /// The name of the feature.
        name: String,
    },
    /// The edge is kept.
    Kept {
        /// The crate that has the dependency.
        parent: PackageId,
        /// The crate that it depends on.
        child: PackageId,
        /// What it is needed for.
        kind: DepKind,
        /// The target that it is needed for, as the document writes it.
        cfg: Option<String>,
    },
    /// A feature of a crate enables a feature of another.
    Toggled {
        /// The crate whose feature enables it.
        parent: PackageId,
        /// The crate whose feature it is.
        child: PackageId,
        /// The name of the feature.
        name: String,
    },
}

impl NamedFact {
    /// The fact, as the document names it. The only error is running out of memory.
    ///
    /// Time: O(length of the id texts of the packages).
    pub(crate) fn of(metadata: &Metadata, fact: Fact) -> Result<NamedFact, AllocError>
        requires { IsAbout (metadata_view metadata.now) (fact_view fact) }
        ensures { IfOk result (NamesIn (metadata_view metadata.now) (fact_view fact)) }
    {
        match fact {
            Fact::Crate(krate) => Ok(NamedFact::Crate(own_id(metadata, &krate)?)),
            Fact::Feature { krate, name } => {
                let krate = own_id(metadata, &krate)?;
                Ok(NamedFact::Feature { krate, name })
            }
            Fact::Kept {
                parent,
                child,
                kind,
                cfg,
            } => {
                let (parent, child) = own_ids(metadata, &parent, &child)?;
                Ok(NamedFact::Kept {
                    parent,
                    child,
                    kind,
                    cfg,
                })
            }
            Fact::Toggled {
                parent,
                child,
                name,
            } => {
                let (parent, child) = own_ids(metadata, &parent, &child)?;
                Ok(NamedFact::Toggled {
                    parent,
                    child,
                    name,
                })
            }
        }
    }
}

/// The document's own ids of two crates.
fn own_ids(
    metadata: &Metadata,
    parent: &Kid,
    child: &Kid,
) -> Result<(PackageId, PackageId), AllocError>
    requires parent { IsOfPackage (metadata_view metadata.now) (id_of parent.now) }
    requires child { IsOfPackage (metadata_view metadata.now) (id_of child.now) }
    ensures own { IfOk result (λ ids. Contains (package_texts (metadata_view metadata.now)) (id_view ids.0)
        × Contains (package_texts (metadata_view metadata.now)) (id_view ids.1)) }
    ensures parent { IfOk result (λ ids. ReadsAs (id_view ids.0) (id_of parent.now)) }
    ensures child { IfOk result (λ ids. ReadsAs (id_view ids.1) (id_of child.now)) }
{
    let parent = own_id(metadata, parent)?;
    let child = own_id(metadata, child)?;
    Ok((parent, child))
}

/// The document's own id of a crate: that of the package whose id equals it.
fn own_id(metadata: &Metadata, krate: &Kid) -> Result<PackageId, AllocError>
    requires { IsOfPackage (metadata_view metadata.now) (id_of krate.now) }
    ensures own { IfOk result (λ id. Contains (package_texts (metadata_view metadata.now)) (id_view id)) }
    ensures same { IfOk result (λ id. ReadsAs (id_view id) (id_of krate.now)) }
{
    for pkg in &metadata.packages {
        if is_id_of(&pkg.id, krate)? {
            return pkg.id.clone();
        }
    }
    unreachable!()
}

/// Whether a text is an id that equals that of the crate.
fn is_id_of(id: &PackageId, krate: &Kid) -> Result<bool, AllocError>
    ensures { IfOk result (λ is. IsTrue is ↔ ReadsAs (id_view id.now) (id_of krate.now)) }
{
    laws::comparison();
    laws::one_reading();
    match Kid::try_from(id.clone()?) {
        Ok(own) => Ok(own == *krate),
        Err(IdError::Memory(_)) => Err(AllocError),
        Err(IdError::Opaque(_)) => Ok(false),
        Err(IdError::Stable(_)) => Ok(false),
        Err(IdError::Escape(_)) => Ok(false),
    }
}

/// A space and the kind in brackets, and nothing for the normal one.
fn suffix(kind: DepKind) -> &'static str
    ensures { result.now ≡ kind_suffix kind }
{
    match kind {
        DepKind::Normal => "",
        DepKind::Build => " (build)",
        DepKind::Dev => " (dev)",
    }
}

/// `crate ID`, `feature NAME of ID`, `kept PARENT -> CHILD`, or `toggled NAME of CHILD by PARENT`, each text as it is shown. A kept
/// edge is followed by ` (build)` or ` (dev)` where its kind isn't the normal one, and then by its target in single quotes where it
/// has one.
impl fmt::Display for NamedFact {
    ghost output = { λ fact. Some (named_text fact) };

    fn fmt<W: fmt::Write>(&self, f: &mut fmt::Formatter<W>) -> fmt::Result {
        match self {
            NamedFact::Crate(krate) => write!(f, "crate {}", shown(krate)),
            NamedFact::Feature { krate, name } => {
                let name = Shown(name.as_str());
                write!(f, "feature {name} of {}", shown(krate))
            }
            NamedFact::Kept {
                parent,
                child,
                kind,
                cfg,
            } => {
                let (parent, child) = (shown(parent), shown(child));
                write!(f, "kept {parent} -> {child}{}", suffix(*kind))?;
                match cfg {
                    Some(cfg) => write!(f, " '{}'", Shown(cfg.as_str())),
                    None => Ok(()),
                }
            }
            NamedFact::Toggled {
                parent,
                child,
                name,
            } => {
                let (parent, child) = (shown(parent), shown(child));
                write!(f, "toggled {} of {child} by {parent}", Shown(name.as_str()))
            }
        }
    }
}

/// The text of an id as it is shown.
pub(crate) fn shown(id: &PackageId) -> Shown<'_>
    ensures { result.0.now ≡ id_view id.now }
{
    Shown(id.repr.as_str())
}
