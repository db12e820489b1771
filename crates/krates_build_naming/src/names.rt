//! What gives names to numbers, and why words are refused.

use krates_build_tables::Tables;
use krates_ids::Kid;

/// What the words of facts are read against.
#[derive(Clone, Copy)]
pub struct FactNames<'s, 't> {
    /// The ids of the crates, by number (`Document::crate_ids`).
    pub ids: &'s [Kid],
    /// The tables of the document and the build.
    pub tables: &'s Tables<'t>,
}

/// Why the words of a fact aren't read: which word it is, counted from 0.
#[derive(Clone, Copy, Debug, PartialEq, Eq)]
pub enum NameFault {
    /// The word isn't there.
    Missing(usize),
    /// It names no form of facts.
    Form(usize),
    /// It is the id text of no crate of the document.
    Crate(usize),
    /// It names no way in which a crate is met.
    Meeting(usize),
    /// It names no side.
    Side(usize),
    /// It names no way in which a target is compiled.
    Mode(usize),
    /// The words from here name no feature reference.
    Reference(usize),
    /// The words from here name no dependency that has an edge.
    Link(usize),
    /// They name none that lacks one.
    Lacking(usize),
    /// They name no target.
    Target(usize),
    /// It names neither the host nor a machine that the build is for.
    Platform(usize),
    /// It follows those that name the fact.
    Further(usize),
}
