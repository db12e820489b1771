//! An order in which crates can be built: each behind all that it needs; or a cycle of them.

ghost use Rattle.std.specs.Prelude.{◌≡◌, ◌↔◌, ◌<◌, [], ℕ, Contains, IfOk, IsTrue, MatchOption, OnOk, false, length, slice_index_or};
ghost use Rattle.krates_answers.specs.Order.{AreReady, AreToldReady, HasNeedsMarked, IsCycle, IsCutAt, IsEnded, IsMarked, IsOrderOrCycle, IsStuck, IsUndone, IsUndoneNeed};
ghost use Rattle.krates_answers.specs.Tree.{list_of};

use crate::direct_links::DirectLinks;
use krates::NodeId;
use std::alloc::{AllocError, Global};
use std::collections::BTreeSet;

/// An order of crates, or why there is none.
#[derive(Debug, Drop)]
pub enum Order {
    /// All crates, each behind those to which it leads.
    Whole(Vec<NodeId>),
    /// Crates each of which leads to the next one, and the last to the first.
    Cycle(Vec<NodeId>),
}

impl DirectLinks {
    /// All crates in an order in which each comes behind those to which it leads: always the one of the least number that can come next. Where there is
    /// none, a cycle. The only refusal is running out of memory. Time O((n + e) log n) for n crates and e links, and for each link once more as many
    /// steps as its crate has links.
    pub fn order(&self, alloc: Global) -> Result<Order, AllocError>
        ensures { IfOk result (IsOrderOrCycle self.now) }
    {
        let dependents = self.reversed(alloc)?;
        let mut is_done = vec![in alloc; false; self.len()]?;
        let mut ready = self.without_needs(alloc)?;
        let mut order = Vec::new(alloc);
        while let Some(next) = ready.pop_first() {
            is_done[next.index()] = true;
            order.push(next)?;
            self.add_ready(dependents.list(next), &is_done, &mut ready)?;
        }
        self.ended(alloc, order, &is_done)
    }

    /// The crates that lead to none.
    fn without_needs(&self, alloc: Global) -> Result<BTreeSet<NodeId>, AllocError>
        ensures { IfOk result (AreReady self.now []) }
    {
        let mut ready = BTreeSet::new(alloc);
        for number in 0..self.len() {
            let number = NodeId::new(number as u32);
            if self.has_needs_marked(number, &[]) {
                ready.insert(number)?;
            }
        }
        Ok(ready)
    }

    /// Adds those of these crates that lead to none but marked ones.
    fn add_ready(
        &self,
        numbers: &[NodeId],
        marks: &[bool],
        ready: &mut BTreeSet<NodeId>,
    ) -> Result<(), AllocError>
        ensures { OnOk result (AreToldReady self.now numbers.now marks.now ready.old ready.new) }
    {
        for number in numbers {
            if self.has_needs_marked(*number, marks) {
                ready.insert(*number)?;
            }
        }
        Ok(())
    }

    /// The crates to which a crate leads.
    fn list(&self, number: NodeId) -> &[NodeId]
        ensures { result.now ≡ list_of self.now number }
    {
        match self.of(number) {
            Some(list) => list,
            None => &[],
        }
    }

    /// Whether a crate leads to none but marked ones.
    fn has_needs_marked(&self, number: NodeId, marks: &[bool]) -> bool
        ensures { IsTrue result ↔ HasNeedsMarked self.now marks.now number }
    {
        self.unmarked_need(number, marks).is_none()
    }

    /// The first crate without a mark to which a crate leads.
    fn unmarked_need(&self, number: NodeId, marks: &[bool]) -> Option<NodeId>
        ensures { MatchOption result (HasNeedsMarked self.now marks.now number) (IsUndoneNeed self.now marks.now number) }
    {
        let needs = self.list(number);
        for need in needs {
            if !is_marked(marks, *need) {
                return Some(*need);
            }
        }
        None
    }

    /// The order, where it has all crates, or else a cycle of those that it hasn't.
    fn ended(
        &self,
        alloc: Global,
        order: Vec<NodeId>,
        is_done: &[bool],
    ) -> Result<Order, AllocError>
        requires { IsEnded self.now order.items is_done.now }
        ensures { IfOk result (IsOrderOrCycle self.now) }
    {
        match self.first_unmarked(is_done) {
            Some(start) => Ok(Order::Cycle(self.cycle_from(alloc, start, is_done)?)),
            None => Ok(Order::Whole(order)),
        }
    }

    /// The first crate without a mark.
    fn first_unmarked(&self, marks: &[bool]) -> Option<NodeId>
        ensures { MatchOption result ((n : ℕ) → n < length self.now → IsMarked marks.now n) (IsUndone self.now marks.now) }
    {
        for number in 0..self.len() {
            let number = NodeId::new(number as u32);
            if !is_marked(marks, number) {
                return Some(number);
            }
        }
        None
    }

    /// A cycle of crates without a mark, which is reached from this one.
    fn cycle_from(
        &self,
        alloc: Global,
        start: NodeId,
        is_done: &[bool],
    ) -> Result<Vec<NodeId>, AllocError>
        requires stuck { IsStuck self.now is_done.now }
        requires start { IsUndone self.now is_done.now start }
        ensures { IfOk result (λ cycle. IsCycle self.now cycle.items) }
    {
        let mut is_seen = vec![in alloc; false; self.len()]?;
        let mut path = Vec::new(alloc);
        let mut next = start;
        while !is_marked(&is_seen, next) {
            is_seen[next.index()] = true;
            path.push(next)?;
            let Some(need) = self.unmarked_need(next, is_done) else {
                unreachable!()
            };
            next = need;
        }
        cut(path, next)
    }
}

/// Whether a number has a mark.
fn is_marked(marks: &[bool], number: NodeId) -> bool
    ensures { result ≡ slice_index_or marks.now number false }
{
    match marks.get(number.index()) {
        Some(mark) => *mark,
        None => false,
    }
}

/// The end of a path from a number on.
fn cut(mut path: Vec<NodeId>, number: NodeId) -> Result<Vec<NodeId>, AllocError>
    requires { Contains path.items number }
    ensures { IfOk result (λ end. IsCutAt path.items number end.items) }
{
    let place = place_of(&path, number);
    path.split_off(place)
}

/// The place of a number among numbers.
fn place_of(numbers: &[NodeId], number: NodeId) -> usize
    requires { Contains numbers.now number }
    ensures { (result < length numbers.now) × (slice_index_or numbers.now result 0 ≡ number) }
{
    for place in 0..numbers.len() {
        if numbers[place] == number {
            return place;
        }
    }
    unreachable!()
}
