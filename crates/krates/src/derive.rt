//! Answers that can be checked without trusting the search: lists of steps by which facts follow, and closed lists of facts.
//!
//! Both checkers use the document, what a builder has set, and what an index answered. The builder's own index isn't
//! used. A yes of `check` means that each fact of the steps has a derivation from the roots; a yes of
//! `check_closed` means that every fact that has one is in the list.

ghost use Rattle.std.specs.Prelude.{IfErr, OnOk};
ghost use Rattle.krates_cm.specs.Document.{metadata_view};
ghost use Rattle.krates_checkers.specs.CheckRefusals.{IsCheckRefused, IsClosedRefused, IsRefusedThrough};
ghost use Rattle.krates_checkers.specs.CheckedDocument.{HoldsOfChecked, answer_of};
ghost use Rattle.krates_rules.specs.Checks.{IsAcceptedFor, IsClosedFor};
ghost use Rattle.krates_rules.specs.StepViews.{facts_view, steps_view};

use crate::builder::Builder;
pub use krates_checkers::CheckError;
use krates_checkers::checking;
use krates_cm::Metadata;
use krates_ids::CachingIndex;
pub use krates_rules::{Derivation, Fact, Step};

/// Checks a list of steps for a document and what a builder has set: the document is admitted, there is a step, and each step
/// follows by its rule from the facts of the earlier steps that it uses, in the order of the rule. So the fact of each step,
/// that of the last among them, has a derivation from the roots.
///
/// With an index each package is looked at as the index corrects it; the index isn't asked again.
///
/// It is refused as `Document`, `Empty` or `Step`, the first of these that applies; `Step` names the first step that doesn't
/// follow. It may instead return `Memory`.
///
/// Time: O((n + d) log d) for n steps and a document of d crates, features and dependencies, and for each step the
/// dependencies of the node, and the references of the feature, that it is about.
///
/// ```text
/// let steps = vec![in alloc; Step { rule: 1, fact: Fact::Crate(kid), uses: Vec::new(alloc) }]?;
/// let is_root = check(&metadata, &builder, None, &Derivation { steps }).is_ok();
/// ```
pub fn check(
    metadata: &Metadata,
    builder: &Builder,
    index: Option<&CachingIndex>,
    derivation: &Derivation,
) -> Result<(), CheckError>
    ensures accepted { OnOk result (HoldsOfChecked (answer_of index.entry) (metadata_view metadata.now)
        (λ m. IsAcceptedFor m builder.now.setting (steps_view derivation.now.steps.items))) }
    ensures refused { IfErr result (IsRefusedThrough (answer_of index.entry) (metadata_view metadata.now)
        (λ m. IsCheckRefused m builder.now.setting (steps_view derivation.now.steps.items))) }
{
    let alloc = builder.allocator();
    checking::check(alloc, metadata, builder.setting(), index, derivation)
}

/// Checks that a list of facts is closed for a document and what a builder has set: the document is admitted, and each fact that
/// follows by one rule from facts of the list is in it, and nothing lost follows. So each fact that has a derivation from
/// the roots is in it: a package whose crate isn't in the list is unreachable.
///
/// With an index each package is looked at as the index corrects it; the index isn't asked again.
///
/// It is refused as `Document`, or else as `Open`. It may instead return `Memory`.
///
/// Time: O((n + d) log (n + d)) for n facts and a document of d crates, features and dependencies, and for each fact the
/// dependencies of its crate's node, once for each edge of it that is looked up.
///
/// ```text
/// let facts = vec![in alloc; Fact::Crate(kid)]?;
/// let is_alone = check_closed(&metadata, &builder, None, &facts).is_ok();
/// ```
pub fn check_closed(
    metadata: &Metadata,
    builder: &Builder,
    index: Option<&CachingIndex>,
    facts: &[Fact],
) -> Result<(), CheckError>
    ensures closed { OnOk result (HoldsOfChecked (answer_of index.entry) (metadata_view metadata.now)
        (λ m. IsClosedFor m builder.now.setting (facts_view facts.now))) }
    ensures refused { IfErr result (IsRefusedThrough (answer_of index.entry) (metadata_view metadata.now)
        (λ m. IsClosedRefused m builder.now.setting (facts_view facts.now))) }
{
    let alloc = builder.allocator();
    checking::check_closed(alloc, metadata, builder.setting(), index, facts)
}
