//! Trees of crates as lines, each crate opened once.

ghost use Rattle.std.specs.Prelude.{◌≡◌, ◌<◌, ◌++◌, IfOk, OnOk, map, reverse};
ghost use Rattle.krates_answers.specs.DirectLinks.{IsListed};
ghost use Rattle.krates_answers.specs.Tree.{IsTree, line_below, list_of, root_line, roots_among};

use crate::direct_links::DirectLinks;
use krates::NodeId;
use std::alloc::{AllocError, Global};

/// A line of a tree.
#[derive(Clone, Copy, Debug)]
pub struct TreeLine {
    /// How far it is indented: 0 for a root.
    pub depth: usize,
    /// The number of its crate.
    pub krate: NodeId,
    /// The number of the crate below which it is, which leads to it; `None` for a root.
    pub parent: Option<NodeId>,
    /// Whether all to which its crate leads is below it. Otherwise that is below an earlier line of the same crate.
    pub is_opened: bool,
}

impl TreeLine {
    /// The line of a root, before it is known whether it is opened.
    fn of_root(krate: NodeId) -> TreeLine
        ensures { result ≡ root_line krate }
    {
        TreeLine {
            depth: 0,
            krate,
            parent: None,
            is_opened: false,
        }
    }

    /// The line of a crate below this one, before it is known whether it is opened.
    fn below(&self, krate: NodeId) -> TreeLine
        requires { self.now.depth < usize.MAX }
        ensures { result ≡ line_below self.now krate }
    {
        TreeLine {
            depth: self.depth + 1,
            krate,
            parent: Some(self.krate),
            is_opened: false,
        }
    }
}

impl DirectLinks {
    /// The tree below roots: a line for each root and for each edge from a crate that is reached, depth first, in the order of the
    /// numbers. Each crate is opened once, at its first line, so there are as many lines as roots and edges. Roots that
    /// no crate has are left out. The only refusal is running out of memory. Time: O(n + e) for n crates and e edges between them.
    pub fn tree(&self, alloc: Global, roots: &[NodeId]) -> Result<Vec<TreeLine>, AllocError>
        ensures { IfOk result (λ lines. IsTree (IsListed self.now) (roots_among self.now roots.now) lines.items) }
    {
        let mut is_opened = vec![in alloc; false; self.len()]?;
        let mut waiting = self.root_lines(alloc, roots)?;
        let mut lines = Vec::new(alloc);
        while let Some(next) = waiting.pop() {
            let number = next.krate.index();
            let is_new = !is_opened[number];
            is_opened[number] = true;
            if is_new {
                self.push_below(&next, &mut waiting)?;
            }
            lines.push(TreeLine {
                is_opened: is_new,
                ..next
            })?;
        }
        Ok(lines)
    }

    /// The lines of the roots that a crate has, the first one last.
    fn root_lines(&self, alloc: Global, roots: &[NodeId]) -> Result<Vec<TreeLine>, AllocError>
        ensures { IfOk result (λ lines. lines.items ≡ map root_line (roots_among self.now (reverse roots.now))) }
    {
        let count = self.len();
        let mut lines = Vec::new(alloc);
        for root in roots.iter().rev() {
            if root.index() < count {
                lines.push(TreeLine::of_root(*root))?;
            }
        }
        Ok(lines)
    }

    /// Adds the lines below one, the first one last.
    fn push_below(&self, line: &TreeLine, waiting: &mut Vec<TreeLine>) -> Result<(), AllocError>
        requires { line.now.depth < usize.MAX }
        ensures { OnOk result (waiting.new.items
            ≡ waiting.old.items ++ map (line_below line.now) (reverse (list_of self.now line.now.krate))) }
    {
        let Some(numbers) = self.of(line.krate) else {
            return Ok(());
        };
        for number in numbers.iter().rev() {
            waiting.push(line.below(*number))?;
        }
        Ok(())
    }
}
