//! How a crate is met, and the two sets of features that it may have.
//!
//! Source: the Cargo Book, "Features", "Feature resolver version 2".

/// How a crate is met when cargo resolves dependencies.
#[derive(Clone, Copy, Debug, PartialEq, Eq, PartialOrd, Ord)]
pub enum Meeting {
    /// As a root, with its dev dependencies.
    Root,
    /// As a dependency, without them.
    Dependency,
}

/// One of the two sets of features that a crate may have.
#[derive(Clone, Copy, Debug, PartialEq, Eq, PartialOrd, Ord)]
pub enum Side {
    /// What is for the targets uses it.
    Targets,
    /// What the build itself runs uses it.
    Host,
}
