//! Lines of a tree to a depth, or with what a crate leads to below each of its lines.

use krates::NodeId;
use krates_answers::direct_links::DirectLinks;
use krates_answers::tree::TreeLine;
use krates_words::TreeWords;
use std::alloc::{AllocError, Global};

/// A line that is still to be drawn, and how many crates it is below.
#[derive(Clone, Copy)]
struct Waiting {
    depth: usize,
    krate: NodeId,
    parent: Option<NodeId>,
    level: u64,
}

/// The lines below roots as far as they are drawn.
#[derive(Drop)]
struct Walk<'l> {
    links: &'l DirectLinks,
    /// How many numbers are crates; the others are heads.
    count: usize,
    max_level: u64,
    dedupes: bool,
    /// Which numbers have a line that is opened.
    opened: Vec<bool>,
    /// The numbers of the lines that the next one is below.
    above: Vec<NodeId>,
    /// The next ones, the first last.
    waiting: Vec<Waiting>,
    lines: Vec<TreeLine>,
}

/// The lines below these roots, of links between crates and heads, to the depth that the words name, and with what a crate leads to below each of its
/// lines where they say so; but never below itself. The only error is running out of memory. Time O(n) for n lines.
pub(crate) fn walked(
    alloc: Global,
    links: &DirectLinks,
    count: usize,
    roots: &[NodeId],
    words: &TreeWords,
) -> Result<Vec<TreeLine>, AllocError> {
    let mut walk = Walk {
        links,
        count,
        max_level: words.depth.unwrap_or(u64::MAX),
        dedupes: !words.no_dedupe,
        opened: flags(alloc, links.len())?,
        above: Vec::new(alloc),
        waiting: Vec::new(alloc),
        lines: Vec::new(alloc),
    };
    walk.wait_for_roots(roots)?;
    walk.draw()?;
    Ok(walk.lines)
}

/// As many times no.
fn flags(alloc: Global, count: usize) -> Result<Vec<bool>, AllocError> {
    let mut flags = Vec::new(alloc);
    flags.resize(count, false)?;
    Ok(flags)
}

impl Walk<'_> {
    /// Notes the roots.
    fn wait_for_roots(&mut self, roots: &[NodeId]) -> Result<(), AllocError> {
        for root in roots.iter().rev() {
            self.waiting.push(Waiting {
                depth: 0,
                krate: *root,
                parent: None,
                level: 0,
            })?;
        }
        Ok(())
    }

    /// Draws all that is waited for, and what they lead to.
    fn draw(&mut self) -> Result<(), AllocError> {
        for _ in 0..u64::MAX {
            match self.waiting.pop() {
                Some(next) => self.draw_line(next)?,
                None => return Ok(()),
            }
        }
        Ok(())
    }

    /// Draws a line, and notes what it leads to.
    fn draw_line(&mut self, next: Waiting) -> Result<(), AllocError> {
        let Waiting {
            depth,
            krate,
            parent,
            level,
        } = next;
        self.above.truncate(depth);
        let is_opened = self.is_new(krate);
        self.lines.push(TreeLine {
            depth,
            krate,
            parent,
            is_opened,
        })?;
        if is_opened {
            self.note_opened(krate);
            if self.is_head(krate) || level < self.max_level {
                self.wait_below(krate, depth, level)?;
            }
        }
        self.above.push(krate)?;
        Ok(())
    }

    /// Whether what a number leads to is drawn below its next line: it isn't drawn yet, or it may be drawn again, but not below itself.
    fn is_new(&self, number: NodeId) -> bool {
        let is_opened = matches!(self.opened.get(number.index()), Some(true));
        !self.above.contains(&number) && !(self.dedupes && is_opened)
    }

    /// Notes that a number has a line that is opened.
    fn note_opened(&mut self, number: NodeId) {
        if let Some(flag) = self.opened.get_mut(number.index()) {
            *flag = true;
        }
    }

    /// Whether a number is that of a head.
    fn is_head(&self, number: NodeId) -> bool {
        number.index() >= self.count
    }

    /// Notes what a number leads to, whose line is so deep, and below so many crates.
    fn wait_below(&mut self, number: NodeId, depth: usize, level: u64) -> Result<(), AllocError> {
        let links = self.links;
        for child in links.of(number).unwrap_or(&[]).iter().rev() {
            let level = if self.is_head(*child) {
                level
            } else {
                level.saturating_add(1)
            };
            self.waiting.push(Waiting {
                depth: depth.saturating_add(1),
                krate: *child,
                parent: Some(number),
                level,
            })?;
        }
        Ok(())
    }
}
