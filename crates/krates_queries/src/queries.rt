//! Questions about the graph of the kept crates.

mod direct;
mod krate_nodes;
mod reached;
mod why;

pub use direct::{Deps, DirectDependency, DirectDependent};
pub use krate_nodes::{KrateMatch, KrateNodes, Matches, Members};
