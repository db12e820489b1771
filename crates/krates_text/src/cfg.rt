//! cfg expressions: which text is one, what it asks of a target, and whether it is true there.
//!
//! Source: the Rust Reference, "Conditional compilation".
ghost use Rattle.std.specs.Prelude.{◌≡◌};
ghost use Rattle.krates_text.specs.declared.cfg.CfgError.TheVariants.{Memory};

mod expression;
mod frame;
mod holding;
mod predicate;
mod reader;

pub use expression::Expression;
use std::alloc::{AllocError, AllocFailed};
use thiserror::Error;

/// Why a text isn't a cfg expression.
#[derive(Clone, Copy, Debug, PartialEq, Eq, Error)]
pub enum CfgError {
    /// The text is outside the grammar.
    #[error("bad cfg expression")]
    Syntax,
    /// A beginning of the text opens a 128th nested form, without a fault before it.
    #[error("cfg expression too deep")]
    TooDeep,
    /// Memory ran out.
    #[error("out of memory")]
    Memory,
}

impl From<AllocError> for CfgError {
    ghost from_gives = { λ _ e. e ≡ Memory };

    fn from(_e: AllocError) -> CfgError {
        CfgError::Memory
    }
}

impl<T: Drop> From<AllocFailed<T>> for CfgError {
    ghost from_gives = { λ _ e. e ≡ Memory };

    fn from(_e: AllocFailed<T>) -> CfgError {
        CfgError::Memory
    }
}
