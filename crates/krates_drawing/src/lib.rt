//! The graph of a selection, drawn: what its nodes and edges are, as whole lists with their laws, and how they come
//! into a stored graph. And the packages of a document, as a build hands them on: divided into the selected ones and the others, each
//! list in the order of the ids, and the others handed to a filter.
#![tactic(auto)]

pub mod division;
mod drawing;
pub mod edge;
pub mod gather;
pub mod laws;
pub mod limits;
pub mod node;
pub mod nodes;
pub mod numbers;
pub mod outline;
mod room;
pub mod store;

pub use division::{FilterFn, NoneFilter, OnFilter};
