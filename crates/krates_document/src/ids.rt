//! The ids of a document, read.

ghost use Rattle.krates_document.specs.IdLists.{ids_model};
ghost use Rattle.krates_document.specs.CrateTable.{IsTable};
ghost use Rattle.krates_document.specs.NumberedOnce.{table_once};

use crate::crate_table::CrateTable;
use krates_ids::Kid;
use semver::Version;

/// An id for each place of a document where one is required, in the order of the document, with its crates by number.
#[derive(Debug, Drop)]
pub struct Ids {
    /// Those of the packages.
    pub packages: Vec<Kid>,
    /// Those of the workspace's members.
    pub members: Vec<Kid>,
    /// That of the resolved graph's root.
    pub root: Option<Kid>,
    /// Those of the nodes.
    pub nodes: Vec<Kid>,
    /// Those of the dependencies of each node.
    pub deps: Vec<Vec<Kid>>,
    /// The versions of these, read.
    pub versions: Vec<Vec<Version>>,
    /// The crates with these ids, by number.
    pub table: CrateTable,
    /// The table is that of these ids.
    pub ghost indexed: { IsTable (ids_model packages members root nodes deps versions) table } by { table_once _ _ },
}

/// The ids of a document before its crates are numbered.
#[derive(Drop)]
pub(crate) struct ReadIds {
    /// Those of the packages.
    pub packages: Vec<Kid>,
    /// Those of the workspace's members.
    pub members: Vec<Kid>,
    /// That of the resolved graph's root.
    pub root: Option<Kid>,
    /// Those of the nodes.
    pub nodes: Vec<Kid>,
    /// Those of the dependencies of each node.
    pub deps: Vec<Vec<Kid>>,
    /// The versions of these, read.
    pub versions: Vec<Vec<Version>>,
}

impl ReadIds {
    ghost use Rattle.std.specs.Prelude.{◌≡◌};
    ghost use Rattle.krates_document.specs.Ids.{ids_view, read_view};

    /// These ids with their table.
    pub(crate) fn with(self, table: CrateTable) -> Ids
        requires { IsTable (read_view self) table }
        ensures { ids_view result ≡ read_view self }
    {
        let ReadIds {
            packages,
            members,
            root,
            nodes,
            deps,
            versions,
        } = self;
        Ids {
            packages,
            members,
            root,
            nodes,
            deps,
            versions,
            table,
        }
    }
}
