//! Why a list of steps or of facts isn't accepted.
ghost use Rattle.std.specs.Prelude.{◌≡◌};

use std::alloc::AllocError;
use thiserror::Error;

/// Why a list of steps or of facts isn't accepted.
#[derive(Clone, Copy, Debug, PartialEq, Eq, Error)]
pub enum BuildCheckError {
    /// There is no step.
    #[error("empty derivation")]
    Empty,
    /// The first step that doesn't follow.
    #[error("step {0} does not follow")]
    Step(usize),
    /// A fact that follows from the list isn't in it.
    #[error("open list")]
    Open,
    /// Memory ran out.
    #[error("out of memory")]
    Memory,
}

impl From<AllocError> for BuildCheckError {
    ghost use Rattle.krates_build_checkers.specs.declared.build_check_error.BuildCheckError.TheVariants.{Memory};

    ghost from_gives = { λ _ error. error ≡ Memory };

    fn from(_: AllocError) -> BuildCheckError {
        BuildCheckError::Memory
    }
}
