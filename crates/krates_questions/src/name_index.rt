//! The dependencies of a document, found by name: those that packages declare, and those of nodes, by their own names, by those of their
//! packages, and by those of their packages' libraries.

ghost use Rattle.std.specs.Prelude.{IfOk, map, ◌↔◌, Contains, IsTrue, option_map, ◌≡◌, ◌≤◌, length};
ghost use Rattle.std.specs.List.{AllZip};
ghost use Rattle.krates_cm.specs.Document.{node_view, package_view, target_view, node_dep_view};
ghost use Rattle.krates_questions.specs.NameIndex.{AreDeclaredIn, AreDepsOf, AreIdsNamed, IsNameIndex, lists_in, AreRenamed, AreRenamedIn, IsRenamed, IsRenamedAt, package_numbered, IsLibraryOf};
ghost use Rattle.krates_cm.specs.declared.target.TargetKind.TheVariants.{Lib};
ghost use Rattle.krates_rules.specs.Referent.{IsLibraryRename};
ghost use Rattle.krates_document.specs.CrateTable.{numbers_in};

use krates_cm::{Node, NodeDep, Package, Target, TargetKind};
use krates_document::crate_table::CrateTable;
use krates_document::dependency_name::is_name_of;
use krates_document::folded_name::FoldedName;
use krates_document::named_places::{NamedPlace, named_places};
use krates_ids::Kid;
use std::alloc::{AllocError, Global};

/// Where dependencies are found by name.
#[derive(Drop)]
pub struct NameIndex<'a> {
    /// What each package declares.
    pub declared: Vec<Vec<NamedPlace<'a>>>,
    /// The dependencies of each node, by their own names.
    pub deps: Vec<Vec<NamedPlace<'a>>>,
    /// And by the names of their packages.
    pub children: Vec<Vec<NamedPlace<'a>>>,
}

/// Where the dependencies of these packages and nodes, which have these ids, are found by name.
pub(crate) fn name_index<'a>(
    alloc: Global,
    packages: &'a [Package],
    nodes: &'a [Node],
    ids: &'a [Vec<Kid>],
) -> Result<NameIndex<'a>, AllocError>
    ensures { IfOk result (IsNameIndex (map package_view packages.now) (map node_view nodes.now) (map
        (λ kids. kids.items) ids.now)) }
{
    Ok(NameIndex {
        declared: declared_by_name(alloc, packages)?,
        deps: deps_by_name(alloc, nodes)?,
        children: ids_by_name(alloc, ids)?,
    })
}

/// Where the dependencies that each package declares are found by name.
fn declared_by_name<'a>(
    alloc: Global,
    packages: &'a [Package],
) -> Result<Vec<Vec<NamedPlace<'a>>>, AllocError>
    ensures { IfOk result (λ lists. AllZip AreDeclaredIn (map package_view packages.now) (lists_in lists)) }
{
    let mut lists = Vec::with_capacity(alloc, packages.len())?;
    for pkg in packages {
        lists.push(named_places(alloc, &pkg.dependencies)?)?;
    }
    Ok(lists)
}

/// Where the dependencies of each node are found by their own names.
fn deps_by_name<'a>(
    alloc: Global,
    nodes: &'a [Node],
) -> Result<Vec<Vec<NamedPlace<'a>>>, AllocError>
    ensures { IfOk result (λ lists. AllZip AreDepsOf (map node_view nodes.now) (lists_in lists)) }
{
    let mut lists = Vec::with_capacity(alloc, nodes.len())?;
    for node in nodes {
        lists.push(named_places(alloc, &node.deps)?)?;
    }
    Ok(lists)
}

/// Where the ids of each list are found by the names of their packages.
fn ids_by_name<'a>(
    alloc: Global,
    ids: &'a [Vec<Kid>],
) -> Result<Vec<Vec<NamedPlace<'a>>>, AllocError>
    ensures { IfOk result (λ lists. AllZip AreIdsNamed (map (λ kids. kids.items) ids.now) (lists_in lists)) }
{
    let mut lists = Vec::with_capacity(alloc, ids.len())?;
    for kids in ids {
        lists.push(named_places(alloc, kids)?)?;
    }
    Ok(lists)
}

/// Whether the library of a package has this name, which isn't that of the package. Time O(n) in the targets of the
/// package.
pub fn is_library_rename(pkg: &Package, name: &str) -> bool
    ensures { IsTrue result ↔ IsLibraryRename (package_view pkg.now) name.now }
{
    match library_of(pkg) {
        Some(library) => library.name.as_str() == name && !is_name_of(name, pkg.name.as_str()),
        None => false,
    }
}

/// The library of a package: its first target of kind `lib`.
fn library_of(pkg: &Package) -> Option<&Target>
    ensures { IsLibraryOf (package_view pkg.now) (option_map (λ target. target_view target.now) result) }
{
    pkg.targets.iter().find(|target| is_library(target))
}

/// Whether the target is a library.
fn is_library(target: &Target) -> bool
    ensures { IsTrue result ↔ Contains (target_view target.now).kind Lib }
{
    target.kind.contains(&TargetKind::Lib)
}

/// Where a dependency's package is found by its number.
#[derive(Clone, Copy)]
pub(crate) struct Libraries<'s> {
    /// The packages.
    pub packages: &'s [Package],
    /// The numbers of dependencies, and the places of packages by number.
    pub table: &'s CrateTable,
}

/// A dependency's id and the number of its crate, place by place.
#[derive(Clone, Copy)]
struct Children<'a, 's> {
    /// The ids.
    ids: &'a [Kid],
    /// The numbers.
    numbers: &'s [Option<usize>],
}

/// Where those dependencies of each node, which have these ids, are found by the names of their packages whose own name is that of
/// the package's library.
pub(crate) fn renamed_by_name<'a>(
    alloc: Global,
    libraries: &Libraries<'_>,
    nodes: &'a [Node],
    ids: &'a [Vec<Kid>],
) -> Result<Vec<Vec<NamedPlace<'a>>>, AllocError>
    requires ids { length nodes.now ≤ length ids.now }
    requires numbers { length nodes.now ≤ length libraries.now.table.now.dep_numbers.items }
    ensures { IfOk result (λ lists. AreRenamedIn (map package_view libraries.now.packages.now)
        libraries.now.table.now.packages.items (map node_view nodes.now) (map (λ kids. kids.items) ids.now) (numbers_in
        libraries.now.table.now.dep_numbers) (lists_in lists)) }
{
    let mut lists = Vec::with_capacity(alloc, nodes.len())?;
    for (place, node) in nodes.iter().enumerate() {
        let children = Children {
            ids: &ids[place],
            numbers: &libraries.table.dep_numbers[place],
        };
        lists.push(renamed_of(alloc, libraries, &node.deps, &children)?)?;
    }
    Ok(lists)
}

/// Where those of these dependencies are found by the names of their packages whose own name is that of the package's library.
fn renamed_of<'a>(
    alloc: Global,
    libraries: &Libraries<'_>,
    deps: &[NodeDep],
    children: &Children<'a, '_>,
) -> Result<Vec<NamedPlace<'a>>, AllocError>
    ensures { IfOk result (λ named. AreRenamed (map package_view libraries.now.packages.now)
        libraries.now.table.now.packages.items (map node_dep_view deps.now) children.now.ids.now children.now.numbers.now
        named.items) }
{
    let mut named = Vec::new(alloc);
    for (place, child) in children.ids.iter().enumerate() {
        if is_renamed_at(libraries, deps, children.numbers, place) {
            named.push(NamedPlace {
                name: FoldedName { text: child.name() },
                target: "",
                place,
            })?;
        }
    }
    named.sort()?;
    Ok(named)
}

/// Whether the dependency at the place is named as the library of its package.
fn is_renamed_at(
    libraries: &Libraries<'_>,
    deps: &[NodeDep],
    numbers: &[Option<usize>],
    place: usize,
) -> bool
    ensures { IsTrue result ↔ IsRenamedAt (map package_view libraries.now.packages.now)
        libraries.now.table.now.packages.items (map node_dep_view deps.now) numbers.now place }
{
    let Some(dep) = deps.get(place) else {
        return false;
    };
    let Some(number) = numbers.get(place) else {
        return false;
    };
    is_renamed(libraries, dep, *number)
}

/// Whether the dependency is named as the library of the package with the number.
fn is_renamed(libraries: &Libraries<'_>, dep: &NodeDep, number: Option<usize>) -> bool
    ensures { IsTrue result ↔ IsRenamed (map package_view libraries.now.packages.now)
        libraries.now.table.now.packages.items (node_dep_view dep.now) number }
{
    match package_numbered(libraries, number) {
        Some(pkg) => is_library_rename(pkg, dep.name.as_str()),
        None => false,
    }
}

/// The package that is found by the number of a crate.
fn package_numbered<'s>(libraries: &Libraries<'s>, number: Option<usize>) -> Option<&'s Package>
    ensures { option_map (λ pkg. package_view pkg.now) result
        ≡ package_numbered (map package_view libraries.now.packages.now) libraries.now.table.now.packages.items number }
{
    let place = (*libraries.table.packages.get(number?)?)?;
    libraries.packages.get(place)
}
