//! Which documents can be resolved at all.

ghost use Rattle.std.specs.Prelude.{◌≡◌, IfOk, IfErr, OnOk, [], ◌∷◌, map, option_map, option_to_list};
ghost use Rattle.std.specs.List.{AllZip, AllByRecursion};
ghost use Rattle.semver.specs.Identifiers.{parts_of};
ghost use Rattle.krates_cm.specs.Document.{Text, id_view, node_view, resolve_view, metadata_view};
ghost use Rattle.krates_ids.specs.Identity.{Reads};
ghost use Rattle.krates_rules.specs.Admission.{HasThisVersion, AreDepIds, IsRootId, AreIdsOf, IsAdmitted};
ghost use Rattle.krates_rules.specs.AdmissionRefusals.{AdmissionRefusal};
ghost use Rattle.krates_rules.specs.NamedIds.{NamesReadIds};
ghost use Rattle.krates_document.specs.AdmissionSteps.{InvalidIdRefusal, UnreadRefusal, InvalidDepRefusal, InvalidNodeRefusal, DoubledRefusal, DoubledInRefusal};
ghost use Rattle.krates_rules.specs.DistinctIds.{AreDistinct};
ghost use Rattle.krates_document.specs.IdLists.{kids_in, versions_in};
ghost use Rattle.krates_document.specs.Ids.{ids_view, read_view};

use crate::crate_table::crate_table;
use crate::declared_dependency::version_of;
use crate::ids::{Ids, ReadIds};
use krates_cm::{Metadata, Node, NodeDep, Package, PackageId, Resolve};
use krates_ids::{Error, IdError, Kid, laws};
use semver::Version;
use std::alloc::Global;
use std::collections::BTreeSet;

/// Reads the ids of a document, and refuses a document that can't be resolved.
///
/// The answer has an id for each place where one is required, and the crates by number. It is refused, in this
/// order of precedence: as `NoResolveGraph` where the document has no resolved graph; as `InvalidId` where the text of a
/// package, a member, the root, a node or a node's dependency isn't an id, or the version of such a dependency isn't
/// semantic; or as `Doubled` where two packages, two nodes or two dependencies of one node have the same id. Which of
/// several applicable refusals of the last two is returned isn't specified; a doubled id is one of the document's, with
/// its text. It may instead return `Memory`. Time O(n log n) for n packages, nodes and dependencies of nodes.
pub fn admit(alloc: Global, metadata: &Metadata) -> Result<Ids, Error>
    ensures admitted { IfOk result (λ ids. IsAdmitted (metadata_view metadata.now) (ids_view ids)) }
    ensures refused { IfErr result (AdmissionRefusal (metadata_view metadata.now)) }
    ensures named { IfErr result (NamesReadIds (metadata_view metadata.now)) }
{
    laws::one_reading();
    let Some(resolve) = &metadata.resolve else {
        return Err(Error::NoResolveGraph);
    };
    let ids = ids_of(alloc, metadata, resolve)?;
    let table = crate_table(alloc, &ids)?;
    expect_all_distinct(alloc, &ids.deps)?;
    Ok(ids.with(table))
}

/// Reads the ids of a document.
fn ids_of(alloc: Global, metadata: &Metadata, resolve: &Resolve) -> Result<ReadIds, Error>
    ensures read { IfOk result
        (λ ids. AreIdsOf (metadata_view metadata.now) (resolve_view resolve.now) (read_view ids)) }
    ensures refused { IfErr result (InvalidIdRefusal (metadata_view metadata.now)
        (resolve_view resolve.now)) }
{
    let packages = read_ids(alloc, &metadata.packages)?;
    let members = read_ids(alloc, &metadata.workspace_members)?;
    let root = read_root(&resolve.root)?;
    let nodes = read_ids(alloc, &resolve.nodes)?;
    let deps = read_deps(alloc, &resolve.nodes)?;
    let DepLists { kids, versions } = deps;
    Ok(ReadIds {
        packages,
        members,
        root,
        nodes,
        deps: kids,
        versions,
    })
}

/// Reads the id of the root, where there is one.
fn read_root(root: &Option<PackageId>) -> Result<Option<Kid>, Error>
    ensures read { IfOk result (IsRootId (option_map id_view root.now)) }
    ensures refused { IfErr result (UnreadRefusal (option_to_list (option_map id_view root.now))) }
{
    match root {
        Some(id) => Ok(Some(read_id(id)?)),
        None => Ok(None),
    }
}

/// What has an id in the document.
trait HasId {
    /// The text of the id.
    ghost text: { Self → Text };

    fn package_id(&self) -> &PackageId
        ensures { id_view result.now ≡ text self.now };
}

impl HasId for PackageId {
    ghost text = { id_view };

    fn package_id(&self) -> &PackageId {
        self
    }
}

impl HasId for Package {
    ghost text = { λ p. id_view p.id };

    fn package_id(&self) -> &PackageId {
        &self.id
    }
}

impl HasId for Node {
    ghost text = { λ n. id_view n.id };

    fn package_id(&self) -> &PackageId {
        &self.id
    }
}

impl HasId for NodeDep {
    ghost text = { λ d. id_view d.pkg };

    fn package_id(&self) -> &PackageId {
        &self.pkg
    }
}

/// Reads an id.
fn read_id(id: &PackageId) -> Result<Kid, Error>
    ensures read { IfOk result (λ kid. Reads (id_view id.now) kid) }
    ensures refused { IfErr result (UnreadRefusal (id_view id.now ∷ [])) }
{
    laws::one_reading();
    let copy = PackageId {
        repr: id.repr.clone()?,
    };
    match Kid::try_from(copy) {
        Ok(kid) => Ok(kid),
        Err(IdError::Memory(_)) => Err(Error::Memory),
        Err(IdError::Opaque(id)) => Err(Error::InvalidId(id.repr)),
        Err(IdError::Stable(id)) => Err(Error::InvalidId(id.repr)),
        Err(IdError::Escape(id)) => Err(Error::InvalidId(id.repr)),
    }
}

/// Reads the ids of a list, in order.
fn read_ids<T: HasId>(alloc: Global, items: &[T]) -> Result<Vec<Kid>, Error>
    ensures read { IfOk result (λ kids. AllZip Reads (map T.text items.now) kids.items) }
    ensures refused { IfErr result (UnreadRefusal (map T.text items.now)) }
{
    let mut kids = Vec::with_capacity(alloc, items.len())?;
    for item in items {
        kids.push(read_id(item.package_id())?)?;
    }
    Ok(kids)
}

/// Reads the id of a dependency, and its version, which has to be semantic.
fn read_dep_id(alloc: Global, dep: &NodeDep) -> Result<(Kid, Version), Error>
    ensures read { IfOk result (λ d. Reads (id_view dep.now.pkg) d.0) }
    ensures version { IfOk result (λ d. HasThisVersion d.0 (parts_of d.1)) }
    ensures refused { IfErr result (InvalidDepRefusal (id_view dep.now.pkg ∷ [])) }
{
    let kid = read_id(&dep.pkg)?;
    match version_of(alloc, &kid)? {
        Some(version) => Ok((kid, version)),
        None => Err(Error::InvalidId(dep.pkg.repr.clone()?)),
    }
}

/// The ids of dependencies, and their versions.
#[derive(Drop)]
struct DepIds {
    kids: Vec<Kid>,
    versions: Vec<Version>,
}

/// Reads the ids of a node's dependencies, in order, and their versions.
fn read_dep_ids(alloc: Global, deps: &[NodeDep]) -> Result<DepIds, Error>
    ensures read { IfOk result (λ ids. AllZip Reads (map (λ d. id_view d.pkg) deps.now) ids.kids.items) }
    ensures versions { IfOk result
        (λ ids. AllZip HasThisVersion ids.kids.items (map parts_of ids.versions.items)) }
    ensures refused { IfErr result (InvalidDepRefusal (map (λ d. id_view d.pkg) deps.now)) }
{
    let mut kids = Vec::with_capacity(alloc, deps.len())?;
    let mut versions = Vec::with_capacity(alloc, deps.len())?;
    for dep in deps {
        let (kid, version) = read_dep_id(alloc, dep)?;
        kids.push(kid)?;
        versions.push(version)?;
    }
    Ok(DepIds { kids, versions })
}

/// The ids of the dependencies of nodes, and their versions.
#[derive(Drop)]
struct DepLists {
    kids: Vec<Vec<Kid>>,
    versions: Vec<Vec<Version>>,
}

/// Reads the ids of each node's dependencies, and their versions.
fn read_deps(alloc: Global, nodes: &[Node]) -> Result<DepLists, Error>
    ensures read { IfOk result (λ lists. AllZip AreDepIds (map node_view nodes.now) (kids_in lists.kids)) }
    ensures versions { IfOk result
        (λ lists. AllZip (AllZip HasThisVersion) (kids_in lists.kids) (versions_in lists.versions)) }
    ensures refused { IfErr result (InvalidNodeRefusal (map node_view nodes.now)) }
{
    let mut kids = Vec::with_capacity(alloc, nodes.len())?;
    let mut versions = Vec::with_capacity(alloc, nodes.len())?;
    for node in nodes {
        let ids = read_dep_ids(alloc, &node.deps)?;
        let DepIds {
            kids: own,
            versions: theirs,
        } = ids;
        kids.push(own)?;
        versions.push(theirs)?;
    }
    Ok(DepLists { kids, versions })
}

/// Refuses an id that occurs twice.
fn expect_distinct(alloc: Global, kids: &[Kid]) -> Result<(), Error>
    ensures distinct { OnOk result (AreDistinct kids.now) }
    ensures refused { IfErr result (DoubledRefusal kids.now) }
{
    laws::comparison();
    let mut seen: BTreeSet<&Kid> = BTreeSet::new(alloc);
    for kid in kids {
        if !seen.insert(kid)? {
            return Err(Error::Doubled(kid.clone()?));
        }
    }
    Ok(())
}

/// Refuses an id that occurs twice in one of the lists.
fn expect_all_distinct(alloc: Global, lists: &[Vec<Kid>]) -> Result<(), Error>
    ensures distinct { OnOk result (AllByRecursion AreDistinct (map (λ kids. kids.items) lists.now)) }
    ensures refused { IfErr result (DoubledInRefusal (map (λ kids. kids.items) lists.now)) }
{
    for kids in lists {
        expect_distinct(alloc, kids)?;
    }
    Ok(())
}
