//! Why a crate is kept.

ghost use Rattle.std.specs.Prelude.{IfErr, IfOk, string_bytes};
ghost use Rattle.krates_cli.specs.WhyKept.{ExplainsKept, IsUnexplained};

use crate::listed::Listed;
use crate::run_error::RunError;
use krates::{Kid, Krates};
use std::alloc::Global;

/// The lines of the derivation of a crate. It is refused as `NotKept` or `Memory`.
pub(crate) fn why_kept(
    alloc: Global,
    krates: &Krates<Listed>,
    krate: &Kid,
) -> Result<String, RunError>
    ensures explained { IfOk result (λ lines. ExplainsKept krates.now krate.now (string_bytes lines)) }
    ensures refused { IfErr result (IsUnexplained krates.now krate.now) }
{
    // the crates come first among its nodes, so that the crate's number is that of its node
    let _ = krates.graph();
    let Some(node) = krates.nid_for_kid(krate) else {
        return Err(RunError::NotKept(krate.clone()?));
    };
    let Some(derivation) = krates.why(node)? else {
        unreachable!()
    };
    Ok(format!(in alloc; "{derivation}")?)
}
