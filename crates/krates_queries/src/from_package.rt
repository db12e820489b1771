//! What a graph holds instead of packages.

ghost use Rattle.std.specs.Prelude.{◌≡◌, IfOk};
ghost use Rattle.krates_cm.specs.Document.{Text, text_view};
ghost use Rattle.krates_cm.specs.declared.package.Package.{Package};
ghost use Rattle.semver.specs.declared.Version.{Version};

use krates_cm::Package;
use semver::Version;
use std::alloc::{AllocError, Global};

/// A value that is made from a package, and is held instead of it.
///
/// A package is held as it is.
pub trait FromPackage {
    /// How a package is related to the value that is made from it.
    ghost made_from: { Package → Self → Type 0 };

    /// Makes the value. The only error is running out of memory.
    fn from_package(alloc: Global, pkg: Package) -> Result<Self, AllocError>
    where
        Self: Sized,
        ensures { IfOk result (made_from pkg) };
}

impl FromPackage for Package {
    ghost made_from = { λ pkg value. value ≡ pkg };

    fn from_package(_alloc: Global, pkg: Package) -> Result<Package, AllocError> {
        Ok(pkg)
    }
}

/// A value that has the name and the version of a crate.
pub trait KrateDetails {
    /// The name of the crate.
    ghost name_of: { Self → Text };

    /// The version of the crate.
    ghost version_of: { Self → Version };

    /// The name of the crate.
    fn name(&self) -> &str
        ensures { result.now ≡ name_of self.now };

    /// The version of the crate.
    fn version(&self) -> &Version
        ensures { result.now ≡ version_of self.now };
}

impl KrateDetails for Package {
    ghost name_of = { λ pkg. text_view pkg.name };

    ghost version_of = { λ pkg. pkg.version };

    fn name(&self) -> &str {
        self.name.as_str()
    }

    fn version(&self) -> &Version {
        &self.version
    }
}
