//! How facts, steps and derivations are printed: ids by their texts, and a derivation as one step per line.

ghost use Rattle.std.specs.Prelude.{◌≡◌, Some};
ghost use Rattle.krates_rules.specs.DerivationTexts.{derivation_lines, fact_text, kind_suffix};
ghost use Rattle.krates_rules.specs.DerivationTexts.{step_text, uses_text};

use crate::derivation::{Derivation, Fact, Step};
use crate::kind::DepKind;
use std::fmt;

impl DepKind {
    /// A space and the kind in brackets, and nothing for the normal one.
    fn suffix(self) -> &'static str
        ensures { result.now ≡ kind_suffix self }
    {
        match self {
            DepKind::Normal => "",
            DepKind::Build => " (build)",
            DepKind::Dev => " (dev)",
        }
    }
}

/// `crate ID`, `feature NAME of ID`, `kept PARENT -> CHILD`, or `toggled NAME of CHILD by PARENT`, with the texts of
/// the ids. A kept edge is followed by ` (build)` or ` (dev)` where its kind isn't the normal one, and then by its target in
/// single quotes where it has one.
///
/// ```text
/// kept path+file:///w/a#0.1.0 -> path+file:///w/b#0.1.0 (build) 'cfg(unix)'
/// ```
impl fmt::Display for Fact {
    ghost output = { λ fact. Some (fact_text fact) };

    fn fmt<W: fmt::Write>(&self, f: &mut fmt::Formatter<W>) -> fmt::Result {
        match self {
            Fact::Crate(krate) => write!(f, "crate {krate}"),
            Fact::Feature { krate, name } => write!(f, "feature {name} of {krate}"),
            Fact::Kept {
                parent,
                child,
                kind,
                cfg,
            } => {
                write!(f, "kept {parent} -> {child}{}", kind.suffix())?;
                match cfg {
                    Some(cfg) => write!(f, " '{cfg}'"),
                    None => Ok(()),
                }
            }
            Fact::Toggled {
                parent,
                child,
                name,
            } => write!(f, "toggled {name} of {child} by {parent}"),
        }
    }
}

/// The numbers of the steps that a step uses, in its order.
#[derive(Clone, Copy)]
struct UsedSteps<'a>(&'a [usize]);

/// ` from ` and the numbers, with a comma between each two, and nothing where there are none.
impl fmt::Display for UsedSteps<'_> {
    ghost output = { λ used. Some (uses_text used.0.now) };

    fn fmt<W: fmt::Write>(&self, f: &mut fmt::Formatter<W>) -> fmt::Result {
        let Some((first, rest)) = self.0.split_first() else {
            return Ok(());
        };
        write!(f, " from {first}")?;
        for used in rest {
            write!(f, ", {used}")?;
        }
        Ok(())
    }
}

/// `rule NUMBER: `, its fact, and, where it uses steps, ` from ` and their numbers. Its own number is printed by its
/// derivation.
///
/// ```text
/// rule 7: toggled j of path+file:///w/b#0.1.0 by path+file:///w/a#0.1.0 from 0, 1
/// ```
impl fmt::Display for Step {
    ghost output = { λ step. Some (step_text step) };

    fn fmt<W: fmt::Write>(&self, f: &mut fmt::Formatter<W>) -> fmt::Result {
        write!(
            f,
            "rule {}: {}{}",
            self.rule,
            self.fact,
            UsedSteps(&self.uses)
        )
    }
}

/// A line for each step, in their order: its number, counted from 0, a space, the step, and a line feed. Nothing
/// where there is no step. Time: O(length).
///
/// ```text
/// 0 rule 1: crate path+file:///w/a#0.1.0
/// 1 rule 5: kept path+file:///w/a#0.1.0 -> path+file:///w/b#0.1.0 from 0
/// 2 rule 5: crate path+file:///w/b#0.1.0 from 1
/// ```
impl fmt::Display for Derivation {
    ghost output = { λ derivation. Some (derivation_lines derivation.steps.items) };

    fn fmt<W: fmt::Write>(&self, f: &mut fmt::Formatter<W>) -> fmt::Result {
        for (number, step) in self.steps.iter().enumerate() {
            writeln!(f, "{number} {step}")?;
        }
        Ok(())
    }
}
