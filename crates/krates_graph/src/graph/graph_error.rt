//! Why nothing was added.

ghost use Rattle.std.specs.Prelude.{Some};

use std::fmt;
use thiserror::Error;

/// Why a node or an edge was not added. Either hands the value back.
#[derive(Debug, PartialEq, Eq, Drop, Error)]
pub enum GraphError<T> {
    /// The graph holds as many as its limit allows.
    Full(T),
    /// There was no memory for one more.
    Memory(T),
}

// By hand, since a clause says what is printed, and what a derive writes has none.
impl<T> fmt::Display for GraphError<T> {
    ghost use Rattle.krates_graph.specs.GraphErrorText.{graph_error_text};

    ghost output = { λ error. Some (graph_error_text error) };

    fn fmt<W: fmt::Write>(&self, f: &mut fmt::Formatter<W>) -> fmt::Result {
        f.write_str(match self {
            GraphError::Full(_) => "too many nodes or edges",
            GraphError::Memory(_) => "out of memory",
        })
    }
}
