//! Why it isn't said what cargo builds.
ghost use Rattle.std.specs.Prelude.{◌≡◌};
ghost use Rattle.krates_built.specs.declared.not_built.NotBuilt.TheVariants.{Memory};

use krates_build_tables::Unanswered;
use krates_cm::{Dependency, Package};
use krates_shown::{Shown, ShownValue};
use std::alloc::AllocError;
use std::fmt;

/// Why it isn't said what cargo builds.
#[derive(Clone, Copy, Debug, thiserror::Error)]
pub enum NotBuilt<'a> {
    /// A request of the build names nothing, so that cargo refuses it.
    NamesNothing(Unanswered<'a>),
    /// The document has no edge for a declared dependency that the build needs: it was asked of cargo with other features, or the dependency
    /// has no library.
    Lost {
        /// The package that declares it.
        package: &'a Package,
        /// The dependency.
        dependency: &'a Dependency,
    },
    /// The build script of the package has the same features on both sides, but not the same dependencies. For cargo it is one script, which
    /// has those of the side that cargo meets first.
    DependsOnOrder {
        /// The package.
        package: &'a Package,
    },
    /// Memory ran out.
    Memory,
}

/// The texts of the document are printed as `Shown` shows them.
impl fmt::Display for NotBuilt<'_> {
    fn fmt<W: fmt::Write>(&self, f: &mut fmt::Formatter<W>) -> fmt::Result {
        match self {
            NotBuilt::NamesNothing(Unanswered::Package(spec)) => {
                write!(f, "no package fits `{}`", ShownValue(*spec))
            }
            NotBuilt::NamesNothing(Unanswered::Selection) => f.write_str("no package is asked for"),
            NotBuilt::NamesNothing(Unanswered::Feature(text)) => {
                write!(
                    f,
                    "no package that is asked for has the feature `{}`",
                    Shown(text)
                )
            }
            NotBuilt::NamesNothing(Unanswered::FeatureFlag) => {
                f.write_str("no member is asked for that could take the flags for features")
            }
            NotBuilt::Lost {
                package,
                dependency,
            } => {
                let name = Shown(dependency.name.as_str());
                let id = Shown(package.id.repr.as_str());
                write!(
                    f,
                    "the document has no edge for `{name}`, on which {id} depends"
                )
            }
            NotBuilt::DependsOnOrder { package } => {
                let id = Shown(package.id.repr.as_str());
                write!(
                    f,
                    "what the build script of {id} depends on is a matter of cargo's order"
                )
            }
            NotBuilt::Memory => f.write_str("out of memory"),
        }
    }
}

impl<'a> From<AllocError> for NotBuilt<'a> {
    ghost from_gives = { λ _ error. error ≡ Memory };

    fn from(_: AllocError) -> NotBuilt<'a> {
        NotBuilt::Memory
    }
}
