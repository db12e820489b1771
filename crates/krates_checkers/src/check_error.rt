//! Why a list of steps or of facts isn't accepted.

ghost use Rattle.std.specs.Prelude.{◌≡◌};

use std::alloc::AllocError;
use thiserror::Error;

/// Why a list of steps or of facts isn't accepted.
#[derive(Clone, Copy, Debug, PartialEq, Eq, Error)]
pub enum CheckError {
    /// The document isn't admitted: it has no resolved graph, an id that isn't read, or a doubled one.
    #[error("bad document")]
    Document,
    /// There is no step.
    #[error("empty derivation")]
    Empty,
    /// The first step that doesn't follow.
    #[error("step {0} does not follow")]
    Step(usize),
    /// Memory ran out.
    #[error("out of memory")]
    Memory,
    /// A fact that follows from the list isn't in it.
    #[error("open list")]
    Open,
}

impl From<AllocError> for CheckError {
    ghost use Rattle.krates_checkers.specs.declared.check_error.CheckError.TheVariants.{Memory};

    ghost from_gives = { λ _ error. error ≡ Memory };

    fn from(_: AllocError) -> CheckError {
        CheckError::Memory
    }
}
