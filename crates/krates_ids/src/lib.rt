//! Package ids: the text that cargo gives a package, split into name, version and source.
#![tactic(auto)]

mod beginning;
mod corrected_features;
pub mod correction;
mod cuts;
pub mod error;
mod escapes;
mod id_error;
pub mod index;
pub mod kid;
pub mod laws;
mod opaque;
pub mod pkgspec;
mod span;
mod specification_text;
mod stable;

pub use correction::CachingIndex;
pub use error::{Error, Lost};
pub use id_error::IdError;
pub use index::{
    BuildIndexCache, FeaturesMap, IndexAnswer, IndexKrate, IndexKrateVersion, PackageNames,
};
pub use kid::Kid;
pub use pkgspec::PkgSpec;
