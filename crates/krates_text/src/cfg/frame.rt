//! The forms of a cfg expression that are open while it is read, the innermost last.
ghost use Rattle.std.specs.Prelude.{◌≡◌, ◌∷◌, [], MatchOption, MatchResult, length, string_bytes};
ghost use Rattle.krates_text.specs.CfgGrammar.{added};
ghost use Rattle.krates_text.specs.CfgReader.{frame_for};
ghost use Rattle.krates_text.specs.CfgView.{tree_of, trees_of};
ghost use Rattle.krates_text.specs.CfgFrames.{frame_of, stack};
ghost use Rattle.krates_text.specs.declared.cfg.CfgError.TheVariants.{Memory};

use crate::cfg::CfgError;
use crate::cfg::predicate::Predicate;
use std::alloc::Global;

/// A form that is open, with what is in it before the place where the next predicate may begin.
#[derive(Drop)]
pub(crate) enum Frame {
    Not,
    All(Vec<Predicate>),
    Any(Vec<Predicate>),
}

/// The form of this name.
pub(crate) fn frame_for(alloc: Global, word: &str) -> Frame
    ensures { frame_of result ≡ frame_for word.now }
{
    if word == "all" {
        Frame::All(Vec::new(alloc))
    } else if word == "any" {
        Frame::Any(Vec::new(alloc))
    } else {
        Frame::Not
    }
}

/// How many forms are open.
pub(crate) fn depth(frames: &Vec<Frame>) -> usize
    ensures { result ≡ length (stack frames.now.items) }
{
    frames.len()
}

/// Opens a form in the others.
pub(crate) fn push(frames: &mut Vec<Frame>, frame: Frame) -> Result<(), CfgError>
    ensures { MatchResult result (λ _. stack frames.new.items ≡ frame_of frame ∷ stack frames.old.items)
        (λ e. e ≡ Memory) }
{
    frames.push(frame)?;
    Ok(())
}

/// Removes the innermost form.
pub(crate) fn pop(frames: &mut Vec<Frame>) -> Option<Frame>
    ensures { MatchOption result ((stack frames.old.items ≡ []) × (stack frames.new.items ≡ []))
        (λ f. stack frames.old.items ≡ frame_of f ∷ stack frames.new.items) }
{
    frames.pop()
}

/// The predicates with one more at their end.
pub(crate) fn with_last(
    mut predicates: Vec<Predicate>,
    last: Predicate,
) -> Result<Vec<Predicate>, CfgError>
    ensures { MatchResult result (λ v. trees_of v.items ≡ added (trees_of predicates.items) (tree_of last))
        (λ e. e ≡ Memory) }
{
    predicates.push(last)?;
    Ok(predicates)
}
