//! What is kept for each dependency of each node.

ghost use Rattle.std.specs.Prelude.{◌↔◌, IfOk, IsTrue, OnOk};
ghost use Rattle.krates_cm.specs.Document.{node_view};
ghost use Rattle.krates_search.specs.Links.{HasLink, HasLinks, TellsMark, NotesAsked, AreNewLinks, AreNew, HasMarked, WasAsked, HasWaiter};
ghost use Rattle.krates_questions.specs.Lookup.{resolved_view};

use krates_cm::Node;
use krates_questions::{Document, NodePlace};
use std::alloc::{AllocError, Global};
use std::mem;

/// A feature of a dependency that an enabled feature asks for.
#[derive(Clone, Copy)]
pub struct Waiting<'a> {
    /// Its name.
    pub name: &'a str,
    /// The step by which the feature that asks for it is enabled.
    pub step: usize,
}

/// A dependency of a node: whether its edges have been asked for, the step by which the first edge is kept, and the features of it
/// that wait for one.
#[derive(Drop)]
pub struct Link<'a> {
    pub is_asked: bool,
    pub kept: Option<usize>,
    pub waiting: Vec<Waiting<'a>>,
}

/// The dependencies of all nodes, by the places of the node and of the dependency among those of the node.
#[derive(Drop)]
pub struct Links<'a> {
    pub of_nodes: Vec<Vec<Link<'a>>>,
}

/// A link for each dependency of each node.
pub fn links_of<'a>(alloc: Global, document: &Document<'a>) -> Result<Links<'a>, AllocError>
    ensures has { IfOk result (HasLinks (resolved_view document.now)) }
    ensures new { IfOk result AreNew }
{
    let mut of_nodes = Vec::new(alloc);
    for node in document.nodes() {
        of_nodes.push(links_of_node(alloc, node)?)?;
    }
    Ok(Links { of_nodes })
}

/// A link for each dependency of a node.
fn links_of_node<'a>(alloc: Global, node: &Node) -> Result<Vec<Link<'a>>, AllocError>
    ensures { IfOk result (λ links. AreNewLinks (node_view node.now) links.items) }
{
    let mut links = Vec::new(alloc);
    for _ in &node.deps {
        links.push(Link {
            is_asked: false,
            kept: None,
            waiting: Vec::new(alloc),
        })?;
    }
    Ok(links)
}

impl<'a> Links<'a> {
    /// The step by which the first edge by this dependency is kept; none where none is.
    pub fn kept(&self, place: NodePlace, index: usize) -> Option<usize>
        requires { HasLink self.now place.index index }
        ensures { TellsMark self.now place.index index result }
    {
        self.of_nodes[place.index][index].kept
    }

    /// Whether all edges by this dependency have been asked for.
    pub fn is_asked(&self, place: NodePlace, index: usize) -> bool
        requires { HasLink self.now place.index index }
        ensures { IsTrue result ↔ WasAsked self.now place.index index }
    {
        self.of_nodes[place.index][index].is_asked
    }

    /// Notes that all edges by this dependency have been asked for.
    pub(crate) fn note_asked(&mut self, place: NodePlace, index: usize)
        requires { HasLink self.old place.index index }
        ensures { NotesAsked self.old self.new place.index index }
    {
        self.of_nodes[place.index][index].is_asked = true;
    }

    /// Notes the step by which an edge by this dependency is kept, and takes the features that waited for one.
    pub(crate) fn mark(
        &mut self,
        alloc: Global,
        place: NodePlace,
        index: usize,
        step: usize,
    ) -> Vec<Waiting<'a>>
        requires { HasLink self.old place.index index }
        ensures { HasMarked self.old self.new place.index index step result.items }
    {
        let link = &mut self.of_nodes[place.index][index];
        link.kept = Some(step);
        mem::replace(&mut link.waiting, Vec::new(alloc))
    }

    /// Lets a feature of this dependency wait for a kept edge.
    pub fn let_wait(
        &mut self,
        place: NodePlace,
        index: usize,
        feature: Waiting<'a>,
    ) -> Result<(), AllocError>
        requires { HasLink self.old place.index index }
        ensures { OnOk result (HasWaiter self.old self.new place.index index feature.entry) }
    {
        self.of_nodes[place.index][index].waiting.push(feature)?;
        Ok(())
    }
}
