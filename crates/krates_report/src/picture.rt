//! A picture of crates and what they need, as it is shown.

use crate::answer::Answer;
use crate::crate_name::ShortId;
use crate::json::{JsonObject, Values, string};
use crate::lines::Lines;
use crate::{dot, mermaid};
use krates::cm::DependencyKind;
use krates::{DepKind, KrateMatch, Krates, Node, NodeId, Package};
use krates_answers::direct_links::DirectLinks;
use krates_words::{PictureForm, PictureWords};
use serde_json::Value;
use std::alloc::{AllocError, Global};

/// What is said of a crate in a picture, beside its name.
#[derive(Clone, Copy, Debug, PartialEq, Eq)]
pub struct CrateMark {
    /// Whether it is a member of the workspace.
    pub is_member: bool,
    /// Whether it is built for the host alone, where that is known.
    pub is_for_host: bool,
}

/// A crate needs another, by a dependency of this kind.
#[derive(Clone, Copy, Debug, PartialEq, Eq, PartialOrd, Ord)]
pub struct KindLink {
    /// The number of the crate that needs the other.
    pub from: usize,
    /// The number of the one that is needed.
    pub to: usize,
    /// The kind.
    pub kind: DepKind,
}

/// Crates, with what they need.
#[derive(Drop)]
pub struct LinkedCrates<'a> {
    /// The crates, each at its number.
    pub crates: Vec<KrateMatch<'a, Package>>,
    /// What is said of each.
    pub marks: Vec<CrateMark>,
    /// What they need of each other, ascending, each once.
    pub links: Vec<KindLink>,
}

/// A picture of crates.
#[derive(Drop)]
pub struct Picture<'a> {
    linked: LinkedCrates<'a>,
    /// Whether each is drawn.
    is_drawn: Vec<bool>,
    form: PictureForm,
}

/// How a picture begins, and how far it goes.
#[derive(Clone, Copy)]
pub struct PictureFrame<'f> {
    /// The numbers of the crates with which it begins.
    pub roots: &'f [NodeId],
    /// The numbers of those that are left out.
    pub pruned: &'f [NodeId],
    /// What the words say.
    pub words: &'f PictureWords,
}

impl<'a> LinkedCrates<'a> {
    /// The kept crates of a graph, of which these are members of the workspace. The only refusal is running out of memory. Time O(e log e) for e edges.
    pub(crate) fn of_graph(
        alloc: Global,
        krates: &'a Krates,
        crates: Vec<KrateMatch<'a, Package>>,
        members: &[NodeId],
    ) -> Result<LinkedCrates<'a>, AllocError> {
        let mut marks = Vec::new(alloc);
        for found in &crates {
            marks.push(CrateMark {
                is_member: members.contains(&found.node_id),
                is_for_host: false,
            })?;
        }
        let links = links_of(alloc, krates, &crates)?;
        Ok(LinkedCrates {
            crates,
            marks,
            links,
        })
    }

    /// The picture of what is reached of these crates. The only refusal is running out of memory. Time O(n e) for n crates and e links.
    pub fn picture(
        self,
        alloc: Global,
        frame: PictureFrame<'_>,
    ) -> Result<Picture<'a>, AllocError> {
        let is_drawn = self.drawn(alloc, frame)?;
        Ok(Picture {
            linked: self,
            is_drawn,
            form: frame.words.form,
        })
    }

    /// For each crate whether it is drawn: whether it is reached from the roots, over so many links at most, and not over one that is left out.
    fn drawn(&self, alloc: Global, frame: PictureFrame<'_>) -> Result<Vec<bool>, AllocError> {
        let links = self.direct_links(alloc)?;
        let mut is_drawn = vec![in alloc; false; self.crates.len()]?;
        for number in frame.pruned {
            mark(&mut is_drawn, *number);
        }
        let mut level = Vec::new(alloc);
        level.extend_from_slice(frame.roots)?;
        for _ in 0..frame.words.depth.unwrap_or(u64::MAX).saturating_add(1) {
            if level.is_empty() {
                break;
            }
            level = next_level(alloc, &links, &level, &mut is_drawn)?;
        }
        unmark_all(&mut is_drawn, frame.pruned);
        Ok(is_drawn)
    }

    /// Which crate needs which.
    fn direct_links(&self, alloc: Global) -> Result<DirectLinks, AllocError> {
        let mut pairs = Vec::new(alloc);
        for link in &self.links {
            pairs.push((link.from, link.to))?;
        }
        let count = u32::try_from(self.crates.len()).unwrap_or(u32::MAX);
        DirectLinks::of_pairs(alloc, count, &pairs)
    }
}

/// Marks the crates of these numbers that have no mark yet, and returns those that they need.
fn next_level(
    alloc: Global,
    links: &DirectLinks,
    level: &[NodeId],
    is_drawn: &mut [bool],
) -> Result<Vec<NodeId>, AllocError> {
    let mut next = Vec::new(alloc);
    for number in level {
        if mark(is_drawn, *number) {
            next.extend_from_slice(links.of(*number).unwrap_or(&[]))?;
        }
    }
    Ok(next)
}

/// Marks a number, and returns whether it had no mark.
fn mark(marks: &mut [bool], number: NodeId) -> bool {
    match marks.get_mut(number.index()) {
        Some(mark) if !*mark => {
            *mark = true;
            true
        }
        _ => false,
    }
}

/// Takes the marks of these numbers away.
fn unmark_all(marks: &mut [bool], numbers: &[NodeId]) {
    for number in numbers {
        if let Some(mark) = marks.get_mut(number.index()) {
            *mark = false;
        }
    }
}

/// What the kept crates of a graph need of each other, ascending, each once.
fn links_of(
    alloc: Global,
    krates: &Krates,
    crates: &[KrateMatch<'_, Package>],
) -> Result<Vec<KindLink>, AllocError> {
    let mut links = Vec::new(alloc);
    for edge in krates.graph().raw_edges() {
        let from = home(krates, edge.source);
        let to = home(krates, edge.target);
        if from != to {
            let kind = match &edge.weight {
                krates::Edge::Dep { kind, .. } | krates::Edge::DepFeature { kind, .. } => *kind,
                krates::Edge::Feature => kind_between(crates, from, to),
            };
            links.push(KindLink { from, to, kind })?;
        }
    }
    links.sort()?;
    links.dedup();
    Ok(links)
}

/// The number of the crate of a node.
fn home(krates: &Krates, node: NodeId) -> usize {
    match krates.graph().raw_nodes().get(node.index()) {
        Some(Node::Feature { krate_index, .. }) => krate_index.index(),
        _ => node.index(),
    }
}

/// The kind of the first dependency by which a crate may need another: a feature that leads to it doesn't say it.
fn kind_between(crates: &[KrateMatch<'_, Package>], from: usize, to: usize) -> DepKind {
    match (crates.get(from), crates.get(to)) {
        (Some(from), Some(to)) => kind_of(from.krate, to.krate),
        _ => DepKind::Normal,
    }
}

/// The kind of the first dependency of a package on one of this name.
fn kind_of(package: &Package, needed: &Package) -> DepKind {
    let found = package
        .dependencies
        .iter()
        .find(|dependency| dependency.name == needed.name);
    match found {
        Some(dependency) => match dependency.kind {
            DependencyKind::Build => DepKind::Build,
            DependencyKind::Development => DepKind::Dev,
            _ => DepKind::Normal,
        },
        None => DepKind::Normal,
    }
}

impl Picture<'_> {
    /// Whether the crate of this number is drawn.
    fn draws(&self, number: usize) -> bool {
        matches!(self.is_drawn.get(number), Some(true))
    }

    /// Adds the picture in the language DOT.
    fn push_dot(&self, lines: &mut Lines) -> Result<(), AllocError> {
        dot::push_begin(lines);
        self.push_dot_boxes(lines)?;
        for link in &self.linked.links {
            if self.draws(link.from) && self.draws(link.to) {
                dot::push_arrow(link.from, link.to, dot_arrow(link.kind), lines);
            }
        }
        dot::push_end(lines);
        Ok(())
    }

    /// Adds the boxes of the crates in the language DOT.
    fn push_dot_boxes(&self, lines: &mut Lines) -> Result<(), AllocError> {
        let alloc = lines.allocator();
        for (found, mark) in self.linked.crates.iter().zip(&self.linked.marks) {
            let number = found.node_id.index();
            if self.draws(number) {
                let label = ShortId(found.kid).to_string(alloc)?;
                dot::push_box(alloc, number, label.as_str(), dot_box(mark), lines)?;
            }
        }
        Ok(())
    }

    /// Adds the picture in the language of Mermaid.
    fn push_mermaid(&self, lines: &mut Lines) -> Result<(), AllocError> {
        mermaid::push_begin(lines);
        self.push_mermaid_boxes(lines)?;
        for link in &self.linked.links {
            if self.draws(link.from) && self.draws(link.to) {
                mermaid::push_arrow(link.from, link.to, mermaid_arrow(link.kind), lines);
            }
        }
        mermaid::push_class("member", "stroke-width:3px", lines);
        mermaid::push_class("host", "stroke:#cc5500", lines);
        mermaid::push_class("memberOfHost", "stroke:#cc5500,stroke-width:3px", lines);
        mermaid::push_class("other", "stroke-width:1px", lines);
        Ok(())
    }

    /// Adds the boxes of the crates in the language of Mermaid.
    fn push_mermaid_boxes(&self, lines: &mut Lines) -> Result<(), AllocError> {
        let alloc = lines.allocator();
        for (found, mark) in self.linked.crates.iter().zip(&self.linked.marks) {
            let number = found.node_id.index();
            if self.draws(number) {
                let label = ShortId(found.kid).to_string(alloc)?;
                mermaid::push_box(alloc, number, label.as_str(), mermaid_class(mark), lines)?;
            }
        }
        Ok(())
    }

    /// What JSON says of the crates that are drawn.
    fn crates_json(&self, alloc: Global) -> Result<Value, AllocError> {
        let mut values = Values::new(alloc);
        for (found, mark) in self.linked.crates.iter().zip(&self.linked.marks) {
            if self.draws(found.node_id.index()) {
                values.add(crate_json(alloc, found.krate, mark));
            }
        }
        values.list()
    }

    /// What JSON says of the links that are drawn.
    fn links_json(&self, alloc: Global) -> Result<Value, AllocError> {
        let mut values = Values::new(alloc);
        for link in &self.linked.links {
            if self.draws(link.from) && self.draws(link.to) {
                values.add(self.link_json(alloc, link));
            }
        }
        values.list()
    }

    /// What JSON says of a link.
    fn link_json(&self, alloc: Global, link: &KindLink) -> Result<Value, AllocError> {
        let kind = match link.kind {
            DepKind::Normal => "normal",
            DepKind::Build => "build",
            DepKind::Dev => "dev",
        };
        JsonObject::new(alloc)
            .text("from", self.id(link.from))
            .text("to", self.id(link.to))
            .text("kind", kind)
            .object()
    }

    /// The id of the crate of this number.
    fn id(&self, number: usize) -> &str {
        match self.linked.crates.get(number) {
            Some(found) => found.krate.id.repr.as_str(),
            None => "",
        }
    }
}

/// What JSON says of a crate.
fn crate_json(alloc: Global, package: &Package, mark: &CrateMark) -> Result<Value, AllocError> {
    JsonObject::new(alloc)
        .text("id", package.id.repr.as_str())
        .text("name", package.name.as_str())
        .put("version", string(package.version.to_string(alloc)))
        .put("member", Ok(Value::Bool(mark.is_member)))
        .put("host_only", Ok(Value::Bool(mark.is_for_host)))
        .object()
}

/// How the arrow of a kind is drawn in the language DOT.
fn dot_arrow(kind: DepKind) -> &'static str {
    match kind {
        DepKind::Normal => "",
        DepKind::Build => " [style=\"dashed\"]",
        DepKind::Dev => " [style=\"dotted\"]",
    }
}

/// How the box of a crate is drawn in the language DOT.
fn dot_box(mark: &CrateMark) -> &'static str {
    match (mark.is_member, mark.is_for_host) {
        (false, false) => "",
        (true, false) => " penwidth=\"2\"",
        (false, true) => " color=\"#cc5500\"",
        (true, true) => " penwidth=\"2\" color=\"#cc5500\"",
    }
}

/// How the arrow of a kind is drawn in the language of Mermaid.
fn mermaid_arrow(kind: DepKind) -> &'static str {
    match kind {
        DepKind::Normal => "-->",
        DepKind::Build => "==>",
        DepKind::Dev => "-.->",
    }
}

/// The class of a crate in the language of Mermaid.
fn mermaid_class(mark: &CrateMark) -> &'static str {
    match (mark.is_member, mark.is_for_host) {
        (false, false) => "other",
        (true, false) => "member",
        (false, true) => "host",
        (true, true) => "memberOfHost",
    }
}

impl Answer for Picture<'_> {
    /// The picture, in the language that the words name: a box for each crate, thicker for members of the workspace, and in orange for what is built for the
    /// host alone; an arrow for each link, by another stroke for build and for dev dependencies.
    fn push_lines(&self, lines: &mut Lines) -> Result<(), AllocError> {
        match self.form {
            PictureForm::Dot => self.push_dot(lines),
            PictureForm::Mermaid => self.push_mermaid(lines),
        }
    }

    /// `crates`, each with `id`, `name`, `version`, and whether it is a `member` of the workspace and built `host_only`; and `links`, each with the ids
    /// `from` and `to` and the `kind`: `normal`, `build` or `dev`.
    fn json(&self, alloc: Global) -> Result<Value, AllocError> {
        JsonObject::new(alloc)
            .put("crates", self.crates_json(alloc))
            .put("links", self.links_json(alloc))
            .object()
    }
}
