//! The correction of the features of packages by what an index has answered.
//!
//! Source: the Cargo Book, "Features", and "Registry Index".

ghost use Rattle.std.specs.Prelude.{◌≡◌, ◌↔◌, IsTrue, OnOk, OnErr, MatchOption, Some, map};
ghost use Rattle.semver.specs.Identifiers.{parts_of};
ghost use Rattle.krates_cm.specs.Document.{FeaturesModel, features_view, package_view};
ghost use Rattle.krates_cm.specs.Queries.{crates_io};
ghost use Rattle.krates_ids.specs.Correction.{index_view, index_version_view, IsFirstEqual, IsIndexed, IsCorrected};

use crate::corrected_features::corrected_features;
use crate::index::{BuildIndexCache, FeaturesMap, IndexAnswer, IndexKrateVersion, PackageNames};
use krates_cm::Package;
use semver::Version;
use std::alloc::{AllocError, Global};

/// What an index has answered about the packages of a document.
#[derive(Drop)]
pub struct CachingIndex {
    /// The answer.
    pub answer: IndexAnswer,
}

impl CachingIndex {
    /// Asks the index for these names, once, and keeps what it answers. Time: that of the index.
    pub fn new(build: BuildIndexCache, names: PackageNames) -> CachingIndex
        requires { BuildIndexCache.pre build names }
        ensures { BuildIndexCache.post build names result.answer }
    {
        CachingIndex {
            answer: build(names),
        }
    }

    /// Corrects the features of a package of crates.io that the answer has, by the features that it has there; any other
    /// package is left as it is.
    ///
    /// Features are only added, and those of the manifest keep their values. Correcting twice is correcting once.
    /// Fails only when out of memory, and then the package is unchanged. Time O(v log f) for f features with v values.
    ///
    /// ```text
    /// for pkg in metadata.packages.iter_mut() {
    ///     index.correct(alloc, pkg)?;
    /// }
    /// ```
    pub fn correct(&self, alloc: Global, pkg: &mut Package) -> Result<(), AllocError>
        ensures corrected { OnOk result
            (IsCorrected (index_view self.now.answer) (package_view pkg.old) (package_view pkg.new)) }
        ensures nothing_else { OnOk result (pkg.new ≡ record pkg.old { features = pkg.new.features }) }
        ensures refused { OnErr result (pkg.new ≡ pkg.old) }
    {
        if let Some(features) = indexed_features(&self.answer, pkg) {
            let corrected = corrected_features(alloc, &pkg.features, features)?;
            pkg.features = corrected;
        }
        Ok(())
    }
}

/// The features that the index has for a package of crates.io, if it has its version.
fn indexed_features<'a>(answer: &'a IndexAnswer, pkg: &Package) -> Option<&'a FeaturesMap>
    ensures { let index = index_view answer.now in let model = package_view pkg.now in
        MatchOption result ((features : FeaturesModel) → IsIndexed index model features → ⊥)
        (λ features. IsIndexed index model (features_view features.now)) }
{
    if !is_of_crates_io(pkg) {
        return None;
    }
    let Some(known) = answer.krates.get(pkg.name.as_str()) else {
        return None;
    };
    match known {
        Some(krate) => features_of(&krate.versions, &pkg.version),
        None => None,
    }
}

/// Whether the source of a package is exactly that of crates.io.
fn is_of_crates_io(pkg: &Package) -> bool
    ensures { IsTrue result ↔ ((package_view pkg.now).source ≡ Some crates_io) }
{
    match &pkg.source {
        Some(source) => source.is_crates_io(),
        None => false,
    }
}

/// The features of the first version that equals this one in all five parts, where there is one.
fn features_of<'a>(versions: &'a [IndexKrateVersion], version: &Version) -> Option<&'a FeaturesMap>
    ensures { let all = map index_version_view versions.now in let wanted = parts_of version.now in
        MatchOption result ((place : _) (features : FeaturesModel) → IsFirstEqual all wanted place features → ⊥)
        (λ features. (place : _) × IsFirstEqual all wanted place (features_view features.now)) }
{
    for indexed in versions {
        if is_same_version(&indexed.version, version) {
            return Some(&indexed.features);
        }
    }
    None
}

/// Whether the versions are equal in all five parts: the three numbers, the pre-release and the build metadata.
fn is_same_version(left: &Version, right: &Version) -> bool
    ensures { IsTrue result ↔ (parts_of left.now ≡ parts_of right.now) }
{
    left == right
}
