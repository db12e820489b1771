//! The crates of a document, numbered by the places of their ids among all of them.

ghost use Rattle.std.specs.Prelude.{◌≡◌, ◌++◌, IfOk, IfErr, OnOk, map};
ghost use Rattle.std.specs.List.{AllZip};
ghost use Rattle.krates_document.specs.AdmissionSteps.{DoubledRefusal, DoubledWithinRefusal};
ghost use Rattle.krates_document.specs.Ids.{read_view};
ghost use Rattle.krates_document.specs.CrateTable.{Among, AreNumbered, AreNumbersBelow, AreNumbersOf, ArePlacesOf, IsIndex, IsNumberOf, IsTable, TellsDoubled, TellsDoubledId, lent_to, numbers_in};
ghost use Rattle.krates_rules.specs.DistinctIds.{AreDistinct};
ghost use Rattle.krates_rules.specs.Resolved.{id_of};

use crate::ids::ReadIds;
use crate::sorted::in_order;
use krates_ids::{Error, Kid, laws};
use std::alloc::{AllocError, Global};

/// The ids of a document, numbered, and the places of the package, the node and a member of each.
#[derive(Debug, Drop)]
pub struct CrateTable {
    /// The ids in order, each once: the number of a crate is its place here.
    pub ids: Vec<Kid>,
    /// The place of each crate's package.
    pub packages: Vec<Option<usize>>,
    /// The place of its node.
    pub nodes: Vec<Option<usize>>,
    /// A place of it among the members of the workspace.
    pub members: Vec<Option<usize>>,
    /// The number of each node's crate.
    pub node_numbers: Vec<Option<usize>>,
    /// The number of the crate of each dependency of each node; `None` where it has neither package nor node and isn't a member.
    pub dep_numbers: Vec<Vec<Option<usize>>>,
}

/// The crates with these ids, by number. Refused where two packages or two nodes have one id.
pub(crate) fn crate_table(alloc: Global, ids: &ReadIds) -> Result<CrateTable, Error>
    ensures table { IfOk result (IsTable (read_view ids.now)) }
    ensures packages { OnOk result (AreDistinct ids.now.packages.items) }
    ensures nodes { OnOk result (AreDistinct ids.now.nodes.items) }
    ensures refused { IfErr result (DoubledWithinRefusal (read_view ids.now)) }
{
    let numbered = numbered_ids(alloc, ids)?;
    let packages = distinct_index(alloc, &numbered, &ids.packages)?;
    let nodes = distinct_index(alloc, &numbered, &ids.nodes)?;
    let members = index_of(alloc, &numbered, &ids.members)?;
    let dep_numbers = numbers_of_each(alloc, &numbered, &ids.deps)?;
    Ok(CrateTable {
        ids: numbered,
        packages: packages.places,
        nodes: nodes.places,
        members: members.places,
        node_numbers: nodes.numbers,
        dep_numbers,
    })
}

/// The ids of the packages, nodes and members in order, each once.
fn numbered_ids(alloc: Global, ids: &ReadIds) -> Result<Vec<Kid>, AllocError>
    ensures numbered { IfOk result (λ all. AreNumbered (map id_of all.items)) }
    ensures packages { IfOk result (λ all. Among ids.now.packages.items (map id_of all.items)) }
    ensures nodes { IfOk result (λ all. Among ids.now.nodes.items (map id_of all.items)) }
    ensures members { IfOk result (λ all. Among ids.now.members.items (map id_of all.items)) }
{
    laws::comparison();
    let mut all = Vec::new(alloc);
    lend_all(&ids.packages, &mut all)?;
    lend_all(&ids.nodes, &mut all)?;
    lend_all(&ids.members, &mut all)?;
    let sorted = in_order(all)?;
    id_copies(alloc, &sorted)
}

/// Adds references to these ids.
fn lend_all<'a>(ids: &'a [Kid], all: &mut Vec<&'a Kid>) -> Result<(), AllocError>
    ensures { OnOk result (lent_to all.new.items ≡ lent_to all.old.items ++ ids.now) }
{
    for id in ids {
        all.push(id)?;
    }
    Ok(())
}

/// Copies of these ids.
fn id_copies(alloc: Global, ids: &[&Kid]) -> Result<Vec<Kid>, AllocError>
    ensures { IfOk result (λ kids. kids.items ≡ lent_to ids.now) }
{
    let mut kids = Vec::with_capacity(alloc, ids.len())?;
    for id in ids {
        kids.push((*id).clone()?)?;
    }
    Ok(kids)
}

/// The number of an id, where it has one. Time O(log n).
pub fn number_of(ids: &[Kid], id: &Kid) -> Option<usize>
    requires { AreNumbered (map id_of ids.now) }
    ensures { IsNumberOf (map id_of ids.now) (id_of id.now) result }
{
    laws::comparison();
    ids.binary_search(id).ok()
}

/// A list of ids, by the numbers of these.
#[derive(Drop)]
struct Index {
    /// The number of each id of the list.
    numbers: Vec<Option<usize>>,
    /// For each number, a place of its id in the list.
    places: Vec<Option<usize>>,
    /// A place of an id that also occurs before it.
    doubled: Option<usize>,
}

/// The index of a list in which no id occurs twice. It is refused where one does.
fn distinct_index(alloc: Global, ids: &[Kid], list: &[Kid]) -> Result<Index, Error>
    requires numbered { AreNumbered (map id_of ids.now) }
    requires among { Among list.now (map id_of ids.now) }
    ensures numbers { IfOk result (λ x. AreNumbersOf (map id_of ids.now) list.now x.numbers.items) }
    ensures places { IfOk result (λ x. IsIndex (map id_of ids.now) list.now x.places.items) }
    ensures distinct { OnOk result (AreDistinct list.now) }
    ensures refused { IfErr result (DoubledRefusal list.now) }
{
    let index = index_of(alloc, ids, list)?;
    match index.doubled {
        Some(place) => Err(Error::Doubled(list[place].clone()?)),
        None => Ok(index),
    }
}

/// The index of a list.
fn index_of(alloc: Global, ids: &[Kid], list: &[Kid]) -> Result<Index, AllocError>
    requires numbered { AreNumbered (map id_of ids.now) }
    requires among { Among list.now (map id_of ids.now) }
    ensures numbers { IfOk result (λ x. AreNumbersOf (map id_of ids.now) list.now x.numbers.items) }
    ensures places { IfOk result (λ x. IsIndex (map id_of ids.now) list.now x.places.items) }
    ensures doubled { IfOk result (λ x. TellsDoubledId list.now x.doubled) }
{
    let numbers = numbers_of(alloc, ids, list)?;
    let (places, doubled) = places_of(alloc, ids.len(), &numbers)?;
    Ok(Index {
        numbers,
        places,
        doubled,
    })
}

/// For each number below the count, the first place of it among these, and a place at which one occurs again.
fn places_of(
    alloc: Global,
    count: usize,
    numbers: &[Option<usize>],
) -> Result<(Vec<Option<usize>>, Option<usize>), AllocError>
    requires { AreNumbersBelow count numbers.now }
    ensures places { IfOk result (λ x. ArePlacesOf count numbers.now x.0.items) }
    ensures doubled { IfOk result (λ x. TellsDoubled numbers.now x.1) }
{
    let mut places: Vec<Option<usize>> = vec![in alloc; None; count]?;
    let mut doubled = None;
    for (place, number) in numbers.iter().enumerate() {
        if let Some(number) = *number {
            match places[number] {
                None => places[number] = Some(place),
                Some(_) => doubled = doubled.or(Some(place)),
            }
        }
    }
    Ok((places, doubled))
}

/// The number of each id of the list among these ids, which are in order, where it has one.
fn numbers_of(alloc: Global, ids: &[Kid], list: &[Kid]) -> Result<Vec<Option<usize>>, AllocError>
    requires { AreNumbered (map id_of ids.now) }
    ensures { IfOk result (λ numbers. AreNumbersOf (map id_of ids.now) list.now numbers.items) }
{
    let mut numbers = Vec::with_capacity(alloc, list.len())?;
    for id in list {
        numbers.push(number_of(ids, id))?;
    }
    Ok(numbers)
}

/// The number of each id of each of the lists, where it has one.
fn numbers_of_each(
    alloc: Global,
    ids: &[Kid],
    lists: &[Vec<Kid>],
) -> Result<Vec<Vec<Option<usize>>>, AllocError>
    requires { AreNumbered (map id_of ids.now) }
    ensures { IfOk result (λ numbers. AllZip (AreNumbersOf (map id_of ids.now)) (map (λ kids. kids.items)
        lists.now) (numbers_in numbers)) }
{
    let mut numbers = Vec::with_capacity(alloc, lists.len())?;
    for list in lists {
        numbers.push(numbers_of(alloc, ids, list)?)?;
    }
    Ok(numbers)
}
