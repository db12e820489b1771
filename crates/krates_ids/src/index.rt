//! What the index of crates.io knows of packages.
//!
//! The manifest of a published package may lack features that the index has, including those that its optional
//! dependencies imply. Source: the Cargo Book, "Features", and "Registry Index".

ghost use Rattle.std.specs.Prelude.{◌≡◌};
ghost use Rattle.krates_ids.specs.Correction.{index_krate_view, index_version_view};

use semver::Version;
use std::alloc::AllocError;
use std::collections::{BTreeMap, BTreeSet};

/// The features of a package, each with what it enables.
pub type FeaturesMap = BTreeMap<String, Vec<String>>;

/// What an index knows of a version of a crate.
#[derive(Drop)]
pub struct IndexKrateVersion {
    /// The version.
    pub version: Version,
    /// Its features.
    pub features: FeaturesMap,
}

impl Clone for IndexKrateVersion {
    ghost is_clone = { λ version copy. index_version_view copy ≡ index_version_view version };

    /// A copy that is equal in its version and its features.
    fn clone(&self) -> Result<IndexKrateVersion, AllocError> {
        Ok(IndexKrateVersion {
            version: self.version.clone()?,
            features: self.features.clone()?,
        })
    }
}

/// What an index knows of a crate.
#[derive(Drop)]
pub struct IndexKrate {
    /// Its versions, in the order of the index.
    pub versions: Vec<IndexKrateVersion>,
}

impl Clone for IndexKrate {
    ghost is_clone = { λ krate copy. index_krate_view copy ≡ index_krate_view krate };

    /// A copy with equal versions in the same order.
    fn clone(&self) -> Result<IndexKrate, AllocError> {
        Ok(IndexKrate {
            versions: self.versions.clone()?,
        })
    }
}

/// The names of the packages that an index is asked about.
#[derive(Drop)]
pub struct PackageNames {
    /// The names.
    pub names: BTreeSet<String>,
}

/// What an index answers: under a name its crate, or `None` if it lacks the crate. A name may also be absent.
#[derive(Drop)]
pub struct IndexAnswer {
    /// The crates by name.
    pub krates: BTreeMap<String, Option<IndexKrate>>,
}

/// A function that looks the names of packages up in an index, and can be called once.
pub type BuildIndexCache = Box<dyn FnOnce(PackageNames) -> IndexAnswer>;
