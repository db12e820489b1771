//! Which kept crates depend directly on which, as lists of numbers.

ghost use Rattle.std.specs.Prelude.{◌≡◌, ◌↔◌, ◌<◌, ◌^◌, ◌⊎◌, ℕ, [], All, Contains, IfOk, IfSome, IsTrue, OnOk, length, option_map, replicate, slice_get};
ghost use Rattle.std.specs.List.Sorted.{IsStrictlyIncreasing};
ghost use Rattle.krates_queries.specs.Direct.{IsDependent};
ghost use Rattle.krates_queries.specs.Kept.{ids_of};
ghost use Rattle.krates_answers.specs.DirectLinks.{AreExactly, AreInside, AreLinks, ArePushed, IsListed, IsNeededBy, IsPaired, IsPairedWith, IsPairOf, Needs, items_of};

use krates::{Krates, NodeId};
use std::alloc::{AllocError, Global};
use std::marker::Model;

/// For each kept crate, by its number, the numbers of those to which it leads, ascending.
#[derive(Debug, Drop)]
pub struct DirectLinks {
    lists: Vec<Vec<NodeId>>,
}

impl Model for DirectLinks {
    ghost use Rattle.std.specs.Prelude.{ℕ, List};
    ghost use Rattle.krates_answers.specs.DirectLinks.{AreStored, items_of};

    ghost Value = { List (List ℕ) };

    ghost view = { λ links. items_of links.lists.items };

    ghost invariant = { λ links. AreStored (items_of links.lists.items) };
}

impl DirectLinks {
    /// For each kept crate those that depend on it directly, as `direct_dependents` answers them. The only refusal is running out
    /// of memory. Time: O(n + e log e) for n crates and e edges of the graph.
    pub fn dependents<N, E>(alloc: Global, krates: &Krates<N, E>) -> Result<DirectLinks, AllocError>
        ensures { IfOk result (AreLinks (length (ids_of krates.now)) (IsNeededBy krates.now)) }
    {
        let mut lists = Vec::new(alloc);
        for found in krates.krate_nodes() {
            lists.push(dependents_of(alloc, krates, found.node_id)?)?;
        }
        Ok(DirectLinks { lists })
    }

    /// For each kept crate those on which it depends directly: those among whose `direct_dependents` it is. It has the
    /// crates that `direct_dependencies` lacks, where one declared dependency brings two. The only refusal is running out of
    /// memory. Time: O(n + e log e) for n crates and e edges of the graph.
    pub fn dependencies<N, E>(
        alloc: Global,
        krates: &Krates<N, E>,
    ) -> Result<DirectLinks, AllocError>
        ensures { IfOk result (AreLinks (length (ids_of krates.now)) (Needs krates.now)) }
    {
        DirectLinks::dependents(alloc, krates)?.reversed(alloc)
    }

    /// For each number below the count, the numbers below it to which one of these pairs leads from it. Pairs with other numbers are left
    /// out. The only refusal is running out of memory. Time: O(n e) for n numbers and e pairs.
    pub fn of_pairs(
        alloc: Global,
        count: u32,
        pairs: &[(usize, usize)],
    ) -> Result<DirectLinks, AllocError>
        ensures { IfOk result (AreLinks count (IsPaired count pairs.now)) }
    {
        let mut lists = Vec::new(alloc);
        for number in 0..count {
            lists.push(paired_with(alloc, count, pairs, number)?)?;
        }
        Ok(DirectLinks { lists })
    }

    /// How many crates there are: at most 4,294,967,295. Time O(1).
    pub fn len(&self) -> usize
        ensures count { result ≡ length self.now }
        ensures numbered { result < 2 ^ 32 }
        ensures inside { AreInside self.now }
        ensures ascending { All IsStrictlyIncreasing self.now }
    {
        self.lists.len()
    }

    /// The crates to which the crate with a number leads, ascending; `None` for a number that no crate has. Time O(1).
    pub fn of(&self, number: NodeId) -> Option<&[NodeId]>
        ensures list { option_map (λ list. list.now) result ≡ slice_get self.now number }
        ensures ascending { IfSome result (λ list. IsStrictlyIncreasing list.now) }
        ensures below { IfSome result (λ list. All (λ n. n < length self.now) list.now) }
    {
        match self.lists.get(number.index()) {
            Some(list) => Some(list.as_slice()),
            None => None,
        }
    }

    /// Whether a crate leads to another. Takes no memory. Time O(log n) for n crates to which the first leads.
    pub fn leads(&self, from: NodeId, to: NodeId) -> bool
        ensures { IsTrue result ↔ IsListed self.now from to }
    {
        match self.of(from) {
            Some(list) => list.binary_search(&to).is_ok(),
            None => false,
        }
    }

    /// The list of each crate, by number.
    pub(crate) fn into_lists(self) -> Vec<Vec<NodeId>>
        ensures { items_of result.items ≡ self }
    {
        self.lists
    }

    /// The links in the other direction.
    pub(crate) fn reversed(&self, alloc: Global) -> Result<DirectLinks, AllocError>
        ensures { IfOk result (AreLinks (length self.now) (λ a b. IsListed self.now b a)) }
    {
        let mut lists = empty_lists(alloc, self.lists.len())?;
        for (number, list) in self.lists.iter().enumerate() {
            push_to_each(&mut lists, list, NodeId::new(number as u32))?;
        }
        Ok(DirectLinks { lists })
    }
}

/// The numbers of the crates that depend directly on the one with this number.
fn dependents_of<N, E>(
    alloc: Global,
    krates: &Krates<N, E>,
    number: NodeId,
) -> Result<Vec<NodeId>, AllocError>
    ensures { IfOk result (λ numbers. AreExactly
        (IsDependent krates.now.graph.nodes krates.now.graph.edges number) numbers.items) }
{
    let found = krates.direct_dependents(number)?;
    found
        .iter()
        .map(|dependent| dependent.node_id)
        .collect(alloc)
}

/// The numbers below the count to which one of these pairs leads from the number.
fn paired_with(
    alloc: Global,
    count: u32,
    pairs: &[(usize, usize)],
    number: u32,
) -> Result<Vec<NodeId>, AllocError>
    ensures { IfOk result (λ numbers. AreExactly (IsPairedWith count pairs.now number) numbers.items) }
{
    let mut numbers = Vec::new(alloc);
    for pair in pairs {
        push_if_paired(pair, count, number, &mut numbers)?;
    }
    let all = each_once(numbers)?;
    Ok(all)
}

/// Adds the number to which the pair leads, if it leads from the number to one below the count.
fn push_if_paired(
    pair: &(usize, usize),
    count: u32,
    number: u32,
    numbers: &mut Vec<NodeId>,
) -> Result<(), AllocError>
    ensures { OnOk result ((n : ℕ) → Contains numbers.new.items n
        ↔ (Contains numbers.old.items n ⊎ IsPairOf count number n pair.now)) }
{
    if is_pair_of(pair, count, number) {
        numbers.push(NodeId::new(pair.1 as u32))?;
    }
    Ok(())
}

/// Whether the pair leads from the number to one below the count.
fn is_pair_of(pair: &(usize, usize), count: u32, number: u32) -> bool
    ensures { IsTrue result ↔ IsPairOf count number pair.now.1 pair.now }
{
    pair.0 == number as usize && pair.1 < count as usize
}

/// The numbers ascending, each once.
fn each_once(mut numbers: Vec<NodeId>) -> Result<Vec<NodeId>, AllocError>
    ensures ascending { IfOk result (λ all. IsStrictlyIncreasing all.items) }
    ensures same { IfOk result (λ all. (n : ℕ) → Contains all.items n ↔ Contains numbers.items n) }
{
    numbers.sort()?;
    numbers.dedup();
    Ok(numbers)
}

/// This many lists without an item.
fn empty_lists(alloc: Global, count: usize) -> Result<Vec<Vec<NodeId>>, AllocError>
    ensures { IfOk result (λ lists. items_of lists.items ≡ replicate count []) }
{
    let mut lists = Vec::with_capacity(alloc, count)?;
    for _list in 0..count {
        lists.push(Vec::new(alloc))?;
    }
    Ok(lists)
}

/// Adds a number to each of the lists that have these numbers.
fn push_to_each(lists: &mut [Vec<NodeId>], to: &[NodeId], number: NodeId) -> Result<(), AllocError>
    requires { All (λ place. place < length lists.old) to.now }
    ensures { OnOk result (ArePushed number to.now (items_of lists.old) (items_of lists.new)) }
{
    for place in to {
        lists[place.index()].push(number)?;
    }
    Ok(())
}
