//! Trees of crates.

ghost use Rattle.std.specs.Prelude.{◌≡◌, IfOk, None, Ok, false};
ghost use Rattle.krates_answers.specs.DirectLinks.{IsListed};
ghost use Rattle.krates_answers.specs.Tree.{IsTree, roots_among};

use crate::walk::walked;
use krates::{DepKind, KrateMatch, NodeId, Package};
use krates_answers::direct_links::DirectLinks;
use krates_answers::tree::TreeLine;
use krates_words::TreeWords;
use std::alloc::{AllocError, Global};

/// The number that a head has in a tree: of what a crate leads to by build dependencies or by dev dependencies. A crate leads to its heads, and these to
/// the crates; by normal dependencies, or where kinds aren't told, it leads to crates. So that heads come behind crates, their numbers are those of
/// `count` crates and more: first come the crates, then the heads for build dependencies, and then those for dev dependencies. `None` for a
/// normal dependency, which has no head. Time O(1).
///
/// ```text
/// assert_eq!(rt; head_number(3, 1, DepKind::Dev), Some(7));
/// ```
pub fn head_number(count: usize, krate: usize, kind: DepKind) -> Option<usize> {
    match kind {
        DepKind::Normal => None,
        DepKind::Build => Some(count.saturating_add(krate)),
        DepKind::Dev => Some(count.saturating_add(count).saturating_add(krate)),
    }
}

/// A tree of crates, in which heads may stand.
#[derive(Drop)]
pub struct Tree<'a> {
    /// The crates, each at its number.
    pub crates: Vec<KrateMatch<'a, Package>>,
    /// Which crate leads to which, or to which heads, which lead to crates.
    pub links: DirectLinks,
    /// The lines.
    pub lines: Vec<TreeLine>,
}

impl<'a> Tree<'a> {
    /// The tree of what these links of the crates lead to, below roots: what they need, or those that need them. The only refusal is running
    /// out of memory, now or while the links were made. Time: that of `DirectLinks::tree`.
    pub fn of(
        alloc: Global,
        crates: Vec<KrateMatch<'a, Package>>,
        links: Result<DirectLinks, AllocError>,
        roots: &[NodeId],
    ) -> Result<Tree<'a>, AllocError>
        ensures crates { IfOk result (λ tree. tree.crates ≡ crates.entry) }
        ensures links { IfOk result (λ tree. links ≡ Ok tree.links) }
        ensures lines { IfOk result (λ tree. IsTree (IsListed tree.links) (roots_among tree.links roots.now)
            tree.lines.items) }
    {
        let links = links?;
        let lines = links.tree(alloc, roots)?;
        Ok(Tree {
            crates,
            links,
            lines,
        })
    }

    /// The same to a depth, or with what a crate leads to below each of its lines, as the words say. Where they say neither it is `of`. Time O(n)
    /// for n lines.
    pub fn drawn_by(
        alloc: Global,
        crates: Vec<KrateMatch<'a, Package>>,
        links: Result<DirectLinks, AllocError>,
        roots: &[NodeId],
        words: &TreeWords,
    ) -> Result<Tree<'a>, AllocError>
        ensures plain { words.now.depth ≡ None → words.now.no_dedupe ≡ false → IfOk result
            (λ tree. (links ≡ Ok tree.links) × IsTree (IsListed tree.links) (roots_among tree.links roots.now) tree.lines.items) }
    {
        if words.depth.is_none() && !words.no_dedupe {
            return Tree::of(alloc, crates, links, roots);
        }
        let links = links?;
        let lines = walked(alloc, &links, crates.len(), roots, words)?;
        Ok(Tree {
            crates,
            links,
            lines,
        })
    }

    /// Whether what a line's crate leads to is below another line.
    pub(crate) fn is_repeated(&self, line: &TreeLine) -> bool {
        !line.is_opened && !self.links.of(line.krate).unwrap_or(&[]).is_empty()
    }

    /// The kind that a head stands for; `None` for a crate.
    pub(crate) fn head(&self, number: NodeId) -> Option<DepKind> {
        let count = self.crates.len();
        let number = number.index();
        if number < count {
            None
        } else if number.saturating_sub(count) < count {
            Some(DepKind::Build)
        } else {
            Some(DepKind::Dev)
        }
    }

    /// The kind by which a line's crate is led to, where kinds are told; `None` for a root.
    pub(crate) fn kind(&self, line: &TreeLine) -> Option<DepKind> {
        match self.head(line.parent?) {
            Some(kind) => Some(kind),
            None => Some(DepKind::Normal),
        }
    }

    /// Whether kinds are told.
    pub(crate) fn has_kinds(&self) -> bool {
        self.links.len() > self.crates.len()
    }

    /// How many crates a line is below, where these are the depths of the lines that it is below.
    pub(crate) fn depth(&self, line: &TreeLine, above: &[usize]) -> usize {
        match (line.parent, above.last()) {
            (Some(parent), Some(depth)) if self.head(parent).is_some() => *depth,
            (Some(_), Some(depth)) => depth.saturating_add(1),
            _ => 0,
        }
    }
}

/// The links without those that lead to these crates, with which what only they lead to is left out of a tree. The only error is running out of
/// memory. Time O(n e) for n crates and e links.
pub fn without(
    alloc: Global,
    links: DirectLinks,
    pruned: &[NodeId],
) -> Result<DirectLinks, AllocError> {
    if pruned.is_empty() {
        return Ok(links);
    }
    let count = u32::try_from(links.len()).unwrap_or(u32::MAX);
    let mut pairs = Vec::new(alloc);
    for from in 0..count {
        push_pairs(&links, NodeId::new(from), pruned, &mut pairs)?;
    }
    DirectLinks::of_pairs(alloc, count, &pairs)
}

/// Adds the links of a number, but those to these crates.
fn push_pairs(
    links: &DirectLinks,
    from: NodeId,
    pruned: &[NodeId],
    pairs: &mut Vec<(usize, usize)>,
) -> Result<(), AllocError> {
    for to in links.of(from).unwrap_or(&[]) {
        if !pruned.contains(to) {
            pairs.push((from.index(), to.index()))?;
        }
    }
    Ok(())
}
