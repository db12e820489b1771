//! A cfg expression that was read.
ghost use Rattle.std.specs.Prelude.{◌≡◌, ◌^◌, ◌<◌, IfOk, IfErr, map, string_bytes};
ghost use Rattle.krates_text.specs.CfgView.{tree_of};
ghost use Rattle.krates_text.specs.CfgValue.{count};

use crate::cfg::predicate::{self, Predicate};
use crate::cfg::reader::read;
use crate::cfg::{CfgError, holding};
use crate::target::Target;
use std::alloc::Global;

/// A cfg expression, such as `cfg(all(unix, not(target_os = "linux")))`.
#[derive(Debug, Drop)]
pub struct Expression {
    predicate: Predicate,
    ghost countable: { count (tree_of predicate) < 2 ^ 64 },
}

impl Expression {
    ghost use Rattle.krates_text.specs.CfgGrammar.{IsExpression};
    ghost use Rattle.krates_text.specs.CfgFault.{IsFault};
    ghost use Rattle.krates_text.specs.CfgValue.{value};
    ghost use Rattle.krates_text.specs.CfgHolding.{value_among, pair_bytes};
    ghost use Rattle.krates_text.specs.CfgExpression.{tree};
    ghost use Rattle.krates_text.specs.TargetTable.{target_of};

    /// The expression that a text is. `TooDeep` comes where a beginning of the text opens a 128th nested form
    /// without a fault before it; `Syntax` for every other text outside the grammar. Any call may instead
    /// return `Memory`. Time O(length), without recursion.
    ///
    /// ```text
    /// let unix = Expression::parse(alloc, "cfg(all(unix, not(target_os = \"macos\")))")?;
    /// ```
    pub fn parse(alloc: Global, text: &str) -> Result<Expression, CfgError>
        ensures found { IfOk result (λ e. IsExpression text.now (tree e)) }
        ensures fault { IfErr result (λ e. IsFault text.now e) }
    {
        let Some(behind) = text.strip_prefix("cfg(") else {
            return Err(CfgError::Syntax);
        };
        let predicate = read(alloc, behind)?;
        Ok(Expression { predicate })
    }

    /// How many words and pairs the expression has; `true` and `false` don't count. Time O(size).
    ///
    /// ```text
    /// assert_eq!(rt; Expression::parse(alloc, "cfg(any(unix, windows))")?.predicates(), 2);
    /// ```
    pub fn predicates(&self) -> usize
        ensures { result ≡ count (tree self.now) }
    {
        predicate::count(&self.predicate)
    }

    /// Whether the expression is true at a target that has these features. Time O(size × features).
    ///
    /// ```text
    /// let linux = Target::new(alloc, "x86_64-unknown-linux-gnu")?;
    /// assert!(rt; Expression::parse(alloc, "cfg(unix)")?.eval(&linux, &[]));
    /// ```
    pub fn eval(&self, target: &Target, features: &[String]) -> bool
        ensures { result ≡ value (target_of target.now) (map string_bytes features.now) (tree self.now) }
    {
        predicate::eval(&self.predicate, target, features)
    }

    /// Whether the expression is true where these words and these pairs of a key and its string hold, and no others:
    /// what `rustc --print cfg` prints of a target, with any `--cfg` that rustc is given. Time O(size × (words + pairs)).
    ///
    /// ```text
    /// let words = vec![in alloc; String::from_str(alloc, "debug_assertions")?]?;
    /// assert!(rt; Expression::parse(alloc, "cfg(debug_assertions)")?.holds(words.as_slice(), &[]));
    /// ```
    pub fn holds(&self, words: &[String], pairs: &[(String, String)]) -> bool
        ensures { result ≡ value_among (map string_bytes words.now) (map pair_bytes pairs.now) (tree self.now) }
    {
        holding::holds(&self.predicate, words, pairs)
    }
}
