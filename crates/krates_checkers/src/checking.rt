//! The two checkers.

ghost use Rattle.std.specs.Prelude.{◌↔◌, ◌<◌, ◌∷◌, [], IfErr, IfOk, IsTrue, OnOk, Some, length};
ghost use Rattle.krates_cm.specs.Document.{metadata_view};
ghost use Rattle.krates_questions.specs.Context.{rules_of};
ghost use Rattle.krates_checkers.specs.CheckRefusals.{IsCheckRefused, IsClosedRefused, IsRefusedThrough, IsStepFault, IsUnread};
ghost use Rattle.krates_checkers.specs.CheckedDocument.{HoldsOfChecked, answer_of};
ghost use Rattle.krates_checkers.specs.Using.{using};
ghost use Rattle.krates_document.specs.Ids.{ids_view};
ghost use Rattle.krates_ids.specs.Correction.{index_view};
ghost use Rattle.krates_rules.specs.Admission.{IsAdmitted};
ghost use Rattle.krates_rules.specs.Checks.{Answers, IsAcceptedFor, IsClosedFor};
ghost use Rattle.krates_rules.specs.Derivation.{IsClosed};
ghost use Rattle.krates_rules.specs.StepViews.{facts_view, step_view, steps_view};
ghost use Rattle.krates_rules.specs.Steps.{EachFollows, StepFollows};

use crate::check_error::CheckError;
use crate::closed::is_closed;
use crate::corrected_copy::corrected_copy;
use krates_cm::Metadata;
use krates_derive::following::{from_nothing, from_one, from_two};
use krates_document::{Ids, Setting, admit};
use krates_ids::{CachingIndex, Error};
use krates_questions::Document;
use krates_questions::context::Context;
use krates_rules::{Derivation, Fact, Step};
use std::alloc::{AllocError, Global};

/// Checks a list of steps for a document and a setting: the document is admitted, there is a step, and each step follows by its
/// rule from the facts of the earlier steps that it uses, in the order of the rule. So the fact of each step is derivable from
/// the roots, that of the last among them (`laws::accepted_lists` of the rules).
///
/// With an index each package counts as the index corrects it; the index isn't asked again.
///
/// It is refused as `Document`, `Empty` or `Step`, the first of these that applies; `Step` names the first step that doesn't
/// follow. It may instead return `Memory`.
///
/// Time: O((n + d) log d) for n steps and a document of d crates, features and dependencies, and for each step the
/// dependencies of the node, and the references of the feature, that it is about.
pub fn check(
    alloc: Global,
    metadata: &Metadata,
    setting: &Setting,
    index: Option<&CachingIndex>,
    derivation: &Derivation,
) -> Result<(), CheckError>
    ensures accepted { OnOk result (HoldsOfChecked (answer_of index.entry) (metadata_view metadata.now)
        (λ m. IsAcceptedFor m setting.now (steps_view derivation.now.steps.items))) }
    ensures refused { IfErr result (IsRefusedThrough (answer_of index.entry) (metadata_view metadata.now)
        (λ m. IsCheckRefused m setting.now (steps_view derivation.now.steps.items))) }
{
    match index {
        None => check_seen(alloc, metadata, setting, derivation),
        Some(index) => check_corrected(alloc, metadata, setting, index, derivation),
    }
}

/// Checks that a list of facts is closed for a document and a setting: the document is admitted, and each fact that follows by
/// one rule from facts of the list is in it, and nothing lost follows. So each fact that is derivable from the roots is
/// in it (`laws::closed_lists` of the rules): a package whose crate isn't in it is unreachable.
///
/// With an index each package counts as the index corrects it; the index isn't asked again.
///
/// It is refused as `Document`, otherwise as `Open`. It may instead return `Memory`.
///
/// Time: O((n + d) log (n + d)) for n facts and a document of d crates, features and dependencies, and for each fact the
/// dependencies of its crate's node, once for each edge of it that is looked up.
pub fn check_closed(
    alloc: Global,
    metadata: &Metadata,
    setting: &Setting,
    index: Option<&CachingIndex>,
    facts: &[Fact],
) -> Result<(), CheckError>
    ensures closed { OnOk result (HoldsOfChecked (answer_of index.entry) (metadata_view metadata.now)
        (λ m. IsClosedFor m setting.now (facts_view facts.now))) }
    ensures refused { IfErr result (IsRefusedThrough (answer_of index.entry) (metadata_view metadata.now)
        (λ m. IsClosedRefused m setting.now (facts_view facts.now))) }
{
    match index {
        None => check_closed_seen(alloc, metadata, setting, facts),
        Some(index) => check_closed_corrected(alloc, metadata, setting, index, facts),
    }
}

/// Checks a list of steps for a document as an index corrects it.
fn check_corrected(
    alloc: Global,
    metadata: &Metadata,
    setting: &Setting,
    index: &CachingIndex,
    derivation: &Derivation,
) -> Result<(), CheckError>
    ensures accepted { OnOk result (HoldsOfChecked (Some (index_view index.now.answer))
        (metadata_view metadata.now)
        (λ m. IsAcceptedFor m setting.now (steps_view derivation.now.steps.items))) }
    ensures refused { IfErr result (IsRefusedThrough (Some (index_view index.now.answer))
        (metadata_view metadata.now)
        (λ m. IsCheckRefused m setting.now (steps_view derivation.now.steps.items))) }
{
    let seen = corrected_copy(alloc, index, metadata)?;
    let told = check_seen(alloc, &seen, setting, derivation);
    seen.let_go();
    told
}

/// Checks a list of facts for a document as an index corrects it.
fn check_closed_corrected(
    alloc: Global,
    metadata: &Metadata,
    setting: &Setting,
    index: &CachingIndex,
    facts: &[Fact],
) -> Result<(), CheckError>
    ensures closed { OnOk result (HoldsOfChecked (Some (index_view index.now.answer))
        (metadata_view metadata.now) (λ m. IsClosedFor m setting.now (facts_view facts.now))) }
    ensures refused { IfErr result (IsRefusedThrough (Some (index_view index.now.answer))
        (metadata_view metadata.now) (λ m. IsClosedRefused m setting.now (facts_view facts.now))) }
{
    let seen = corrected_copy(alloc, index, metadata)?;
    let told = check_closed_seen(alloc, &seen, setting, facts);
    seen.let_go();
    told
}

/// Checks a list of steps for a document as it is.
fn check_seen(
    alloc: Global,
    metadata: &Metadata,
    setting: &Setting,
    derivation: &Derivation,
) -> Result<(), CheckError>
    ensures accepted { OnOk result (IsAcceptedFor (metadata_view metadata.now) setting.now
        (steps_view derivation.now.steps.items)) }
    ensures refused { IfErr result (IsCheckRefused (metadata_view metadata.now) setting.now
        (steps_view derivation.now.steps.items)) }
{
    let ids = admitted_ids(alloc, metadata)?;
    check_admitted(alloc, metadata, &ids, setting, derivation)
}

/// Checks a list of steps for a document that was admitted with these ids.
fn check_admitted(
    alloc: Global,
    metadata: &Metadata,
    ids: &Ids,
    setting: &Setting,
    derivation: &Derivation,
) -> Result<(), CheckError>
    requires { IsAdmitted (metadata_view metadata.now) (ids_view ids.now) }
    ensures accepted { OnOk result (IsAcceptedFor (metadata_view metadata.now) setting.now
        (steps_view derivation.now.steps.items)) }
    ensures refused { IfErr result (IsCheckRefused (metadata_view metadata.now) setting.now
        (steps_view derivation.now.steps.items)) }
{
    if derivation.steps.is_empty() {
        return Err(CheckError::Empty);
    }
    let document = Document::new(alloc, metadata, ids)?;
    let context = Context {
        alloc,
        document: &document,
        setting,
    };
    check_steps(&context, &derivation.steps)
}

/// Checks a list of facts for a document as it is.
fn check_closed_seen(
    alloc: Global,
    metadata: &Metadata,
    setting: &Setting,
    facts: &[Fact],
) -> Result<(), CheckError>
    ensures closed { OnOk result (IsClosedFor (metadata_view metadata.now) setting.now
        (facts_view facts.now)) }
    ensures refused { IfErr result (IsClosedRefused (metadata_view metadata.now) setting.now
        (facts_view facts.now)) }
{
    let ids = admitted_ids(alloc, metadata)?;
    check_closed_admitted(alloc, metadata, &ids, setting, facts)
}

/// Checks a list of facts for a document that was admitted with these ids.
fn check_closed_admitted(
    alloc: Global,
    metadata: &Metadata,
    ids: &Ids,
    setting: &Setting,
    facts: &[Fact],
) -> Result<(), CheckError>
    requires { IsAdmitted (metadata_view metadata.now) (ids_view ids.now) }
    ensures closed { OnOk result (IsClosedFor (metadata_view metadata.now) setting.now
        (facts_view facts.now)) }
    ensures refused { IfErr result (IsClosedRefused (metadata_view metadata.now) setting.now
        (facts_view facts.now)) }
{
    if is_closed_admitted(alloc, metadata, ids, setting, facts)? {
        return Ok(());
    }
    Err(CheckError::Open)
}

/// Whether a list of facts is closed for a document that was admitted with these ids.
fn is_closed_admitted(
    alloc: Global,
    metadata: &Metadata,
    ids: &Ids,
    setting: &Setting,
    facts: &[Fact],
) -> Result<bool, AllocError>
    requires { IsAdmitted (metadata_view metadata.now) (ids_view ids.now) }
    ensures { let m = metadata_view metadata.now in
        let fs = facts_view facts.now in
        IfOk result (λ b. Answers m setting.now (λ q. IsTrue b ↔ IsClosed q fs)) }
{
    let document = Document::new(alloc, metadata, ids)?;
    let context = Context {
        alloc,
        document: &document,
        setting,
    };
    is_closed(&context, facts)
}

/// The ids of a document that is admitted.
fn admitted_ids(alloc: Global, metadata: &Metadata) -> Result<Ids, CheckError>
    ensures admitted { IfOk result (λ ids. IsAdmitted (metadata_view metadata.now) (ids_view ids)) }
    ensures refused { IfErr result (IsUnread (metadata_view metadata.now)) }
{
    match admit(alloc, metadata) {
        Ok(ids) => Ok(ids),
        Err(Error::Memory) => Err(CheckError::Memory),
        Err(_) => Err(CheckError::Document),
    }
}

/// Checks each step.
fn check_steps<'a>(context: &Context<'a, '_>, steps: &'a [Step]) -> Result<(), CheckError>
    ensures follows { OnOk result (EachFollows (rules_of context.now) (steps_view steps.now)) }
    ensures refused { IfErr result (IsStepFault (rules_of context.now) (steps_view steps.now)) }
{
    for (number, step) in steps.iter().enumerate() {
        if !follows(context, steps, number, step)? {
            return Err(CheckError::Step(number));
        }
    }
    Ok(())
}

/// Whether a step follows from the steps that it uses, all before it.
fn follows<'a>(
    context: &Context<'a, '_>,
    steps: &'a [Step],
    number: usize,
    step: &'a Step,
) -> Result<bool, AllocError>
    requires { number < length steps.now }
    ensures { IfOk result
        (λ b. IsTrue b ↔ StepFollows (rules_of context.now) (steps_view steps.now) number
        (step_view step.now)) }
{
    match step.uses.as_slice() {
        [] => Ok(from_nothing(context, step.rule, &step.fact)),
        [used] => follows_one(context, steps, number, step, *used),
        [first, second] => Ok(follows_two(context, steps, number, step, (*first, *second))),
        _ => Ok(false),
    }
}

/// Whether a step follows if it uses this step and no other.
fn follows_one<'a>(
    context: &Context<'a, '_>,
    steps: &'a [Step],
    number: usize,
    step: &'a Step,
    used: usize,
) -> Result<bool, AllocError>
    requires { number < length steps.now }
    ensures { IfOk result
        (λ b. IsTrue b ↔ StepFollows (rules_of context.now) (steps_view steps.now) number
        (using step.now (used ∷ []))) }
{
    if used >= number {
        return Ok(false);
    }
    from_one(context, step.rule, &steps[used].fact, &step.fact)
}

/// Whether a step follows if it uses these two steps and no other.
fn follows_two<'a>(
    context: &Context<'a, '_>,
    steps: &'a [Step],
    number: usize,
    step: &'a Step,
    used: (usize, usize),
) -> bool
    requires { number < length steps.now }
    ensures { IsTrue result ↔ StepFollows (rules_of context.now) (steps_view steps.now) number
        (using step.now (used.0 ∷ used.1 ∷ [])) }
{
    let (first, second) = used;
    if first >= number || second >= number {
        return false;
    }
    from_two(
        context,
        step.rule,
        &steps[first].fact,
        &steps[second].fact,
        &step.fact,
    )
}
