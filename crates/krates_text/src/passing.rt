//! Whether the target text of a dependency lets it pass at some targets.
//!
//! Source: the Cargo Book, "Platform specific dependencies".
ghost use Rattle.std.specs.Prelude.{◌≡◌, IfOk, map};
ghost use Rattle.krates_text.specs.Passing.{TellsPassingOf, expression_passes, triple_passes};
ghost use Rattle.krates_text.specs.AskedTargets.{asked_of};
ghost use Rattle.krates_text.specs.CfgExpression.{tree};

use crate::cfg::{CfgError, Expression};
use crate::target::Target;
use std::alloc::{AllocError, Global};

/// Whether a target text passes. A dependency without one always passes. A text that is a cfg expression passes if a single
/// target makes the whole of it true; any other passes if it is the printed text of a target. Without targets all pass, except a
/// false expression without predicates, such as `cfg(any())`. The only error is running out of memory.
///
/// Time O(length of the text), and for each target O(predicates of the expression × features of the target).
///
/// ```text
/// // no target is set, so all pass
/// assert!(rt; passes(alloc, Some("cfg(windows)"), &[])?);
/// ```
pub fn passes(
    alloc: Global,
    text: Option<&str>,
    targets: &[(Target, Vec<String>)],
) -> Result<bool, AllocError>
    ensures { IfOk result (λ b. TellsPassingOf text.entry (map asked_of targets.now) b) }
{
    let Some(text) = text else {
        return Ok(true);
    };
    match Expression::parse(alloc, text) {
        Ok(expression) => Ok(expression_passes(alloc, &expression, targets)),
        Err(CfgError::Memory) => Err(AllocError),
        Err(CfgError::Syntax | CfgError::TooDeep) => Ok(triple_passes(text, targets)),
    }
}

fn expression_passes(
    alloc: Global,
    expression: &Expression,
    targets: &[(Target, Vec<String>)],
) -> bool
    ensures { result ≡ expression_passes (tree expression.now) (map asked_of targets.now) }
{
    if targets.is_empty() {
        let nowhere = Target::Unknown(String::new(alloc));
        return expression.predicates() > 0 || expression.eval(&nowhere, &[]);
    }
    for (target, features) in targets {
        if expression.eval(target, features.as_slice()) {
            return true;
        }
    }
    false
}

fn triple_passes(text: &str, targets: &[(Target, Vec<String>)]) -> bool
    ensures { result ≡ triple_passes text.now (map asked_of targets.now) }
{
    if targets.is_empty() {
        return true;
    }
    for (target, _) in targets {
        if target.as_str() == text {
            return true;
        }
    }
    false
}
