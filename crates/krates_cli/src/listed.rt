//! What a listing holds of a package.

ghost use Rattle.krates_cli.specs.Lines.{IsListedOf};

use krates::cm::PackageId;
use krates::{FromPackage, Package};
use std::alloc::{AllocError, Global};

/// The id of a kept package, which is all that is listed for it.
///
/// A node of the graph has room for what it holds in place of a package, even if it is the node of a feature: with this
/// it takes an eighth of what it would take with packages.
#[derive(Drop)]
pub struct Listed {
    /// Its id, as the document has it.
    pub id: PackageId,
}

impl FromPackage for Listed {
    ghost made_from = { IsListedOf };

    fn from_package(_alloc: Global, pkg: Package) -> Result<Listed, AllocError> {
        Ok(Listed { id: pkg.id })
    }
}
