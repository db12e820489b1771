//! Resolution: from an admitted document and a setting to what is kept of it.

ghost use Rattle.std.specs.Prelude.{◌≡◌, ◌<◌, IfOk, IfErr, length, map};
ghost use Rattle.krates_cm.specs.Document.{metadata_view};
ghost use Rattle.krates_rules.specs.Admission.{IsAdmitted};
ghost use Rattle.krates_selection.specs.Selection.{IsExplained, IsExplainedOf, IsSelection, IsSelectionOf};
ghost use Rattle.krates_document.specs.Ids.{ids_view};
ghost use Rattle.krates_questions.specs.Lookup.{resolved_view};
ghost use Rattle.krates_questions.specs.Context.{document_of};
ghost use Rattle.krates_document.specs.CrateTable.{AreNumbersOf};
ghost use Rattle.krates_resolve.specs.Saturation.{HasExactly, HasCountedAll};
ghost use Rattle.krates_rules.specs.Resolution.{RefusesSelection};
ghost use Rattle.krates_rules.specs.NamedIds.{NamesIdsOf, NamesReadIds};
ghost use Rattle.krates_rules.specs.Questions.{questions};
ghost use Rattle.krates_rules.specs.Resolved.{id_of};
ghost use Rattle.krates_rules.specs.SelectionRefusals.{SelectionRefusal};
ghost use Rattle.krates_search.specs.SearchState.{IsSound};

use crate::kept_crates::KeptCrates;
use crate::saturation::saturate;
use krates_cm::Metadata;
use krates_document::ids::Ids;
use krates_document::setting::Setting;
use krates_ids::{Error, laws};
use krates_questions::Document;
use krates_questions::context::Context;
use krates_search::kept_lists::{kept_edges, kept_features, kept_toggled};
use krates_search::search_state::SearchState;
use krates_selection::kept_tables::KeptTables;
use krates_selection::selection::Selection;
use krates_selection::trace::NumberedStep;
use krates_selection::work::Work;
use std::alloc::{AllocError, Global};

/// What is kept of a document that was admitted with these ids: exactly what has a derivation from the roots by the rules.
///
/// It is refused as `Lost` exactly where the document lacks what some derivation asks for, naming something that it truly lacks; and as
/// `NoRootKrates` exactly where nothing is lacking and no crate is kept. It may instead return `Memory`. Each id that a refusal names is
/// one as which a text of the document is read, its text included.
///
/// Time: O(n log n) for n crates, dependencies with their kinds, features, and references as they are counted; and for each
/// dependency the exclusions of the setting.
pub fn select(
    alloc: Global,
    metadata: &Metadata,
    ids: &Ids,
    setting: &Setting,
) -> Result<Selection, Error>
    requires { IsAdmitted (metadata_view metadata.now) (ids_view ids.now) }
    ensures selected { IfOk result (IsSelectionOf (metadata_view metadata.now) setting.now) }
    ensures explained { IfOk result (IsExplainedOf (metadata_view metadata.now) setting.now) }
    ensures refused { IfErr result (RefusesSelection (metadata_view metadata.now) setting.now) }
    ensures named { IfErr result (NamesReadIds (metadata_view metadata.now)) }
{
    let document = Document::new(alloc, metadata, ids)?;
    let NumberedSelection { selection, .. } = select_in(alloc, &document, setting)?;
    Ok(selection)
}

/// What is kept of a document, with the numbers among the kept crates of all crates of the document, by their numbers in it.
#[derive(Drop)]
pub struct NumberedSelection {
    /// What is kept.
    pub selection: Selection,
    /// By the number of a crate in the document, its number among the kept ones, where it is kept.
    pub numbers: Vec<Option<usize>>,
}

/// What is kept of a document, found in look-ups that were made of it: as [`select`], for a caller that goes on to use them.
///
/// Time: as of [`select`].
pub fn select_in<'a>(
    alloc: Global,
    document: &Document<'a>,
    setting: &Setting,
) -> Result<NumberedSelection, Error>
    ensures selected { IfOk result (λ x. IsSelection (resolved_view document.now) setting.now x.selection) }
    ensures explained { IfOk result (λ x. IsExplained (resolved_view document.now) setting.now x.selection) }
    ensures numbered { IfOk result (λ x. AreNumbersOf (map id_of x.selection.krates.items)
        document.now.ids.now.table.ids.items x.numbers.items) }
    ensures refused { IfErr result (SelectionRefusal (questions (resolved_view document.now) setting.now)) }
    ensures named { IfErr result (NamesIdsOf (resolved_view document.now)) }
{
    let context = Context {
        alloc,
        document,
        setting,
    };
    let mut work = Work::new();
    let found = saturate(&context, &mut work)?;
    if found.krates.numbers().is_empty() {
        return Err(Error::NoRootKrates);
    }
    let mut numbered = selection_of(&context, &found, work)?;
    numbered.selection.steps = trace_of(found);
    Ok(numbered)
}

/// What was found, with the work that it was, in the order of the ids: a selection that has no steps yet.
fn selection_of<'a>(
    context: &Context<'a, '_>,
    found: &SearchState<'a>,
    work: Work,
) -> Result<NumberedSelection, AllocError>
    requires exact { HasExactly context.now found.now }
    requires sound { IsSound context.now found.now }
    requires counted { HasCountedAll context.now found.now work }
    requires some { 0 < length found.now.krates.put }
    ensures selected { IfOk result (λ x. IsSelection (document_of context.now) context.now.setting.now x.selection) }
    ensures numbered { IfOk result (λ x. AreNumbersOf (map id_of x.selection.krates.items)
        context.now.document.now.ids.now.table.ids.items x.numbers.items) }
{
    context.document.agrees();
    laws::one_reading();
    let alloc = context.alloc;
    let document = context.document;
    let KeptCrates { krates, numbers } = KeptCrates::new(alloc, document, found.krates.numbers())?;
    let tables = KeptTables::new(*context, &krates, &numbers);
    let edges = kept_edges(&tables, &found.edges)?;
    let features = kept_features(&tables, found.features.numbers())?;
    let toggled = kept_toggled(&tables, &found.toggled)?;
    let selection = Selection {
        krates,
        edges,
        features,
        toggled,
        steps: Vec::new(alloc),
        work,
    };
    Ok(NumberedSelection { selection, numbers })
}

/// The steps by which all was found, in no more room than they need, since they are kept as long as the graph.
fn trace_of(found: SearchState<'_>) -> Vec<NumberedStep>
    ensures { result.items ≡ found.entry.trace.items }
{
    let mut steps = found.trace;
    steps.shrink_to_fit();
    steps
}
