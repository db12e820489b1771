//! Lists of facts that are closed.
#![tactic(auto, using(crate::proofs::FoundRows::nothing_found, crate::proofs::FoundRows::none_more, crate::proofs::FoundRows::found_at, crate::proofs::FoundRows::none_at_all))]

ghost use Rattle.std.specs.Prelude.{◌↔◌, IfErr, IfOk, IsTrue, OnOk, map};
ghost use Rattle.std.specs.List.{flat_map};
ghost use Rattle.krates_build_facts.specs.FactModels.{Available, fact_view};
ghost use Rattle.krates_build_facts.specs.Rows.{rows_of};
ghost use Rattle.krates_build_checkers.specs.Closedness.{IsClosed, IsClosedRefused, available_rows, available_to_crate, available_to_target};
ghost use Rattle.krates_build_checkers.specs.Finding.{Finds};
ghost use Rattle.krates_build_checkers.specs.GivenFacts.{HasFacts};

use crate::build_check_error::BuildCheckError;
use crate::given::set_of;
use crate::initial::finds_initial;
use crate::rows::{finds_begun, finds_begun_by_some};
use crate::sought::Sought;
use krates_build_facts::BuildFact;
use krates_build_tables::{CrateEntry, Tables, TargetEntry};
use std::alloc::{AllocError, Global};
use std::collections::BTreeSet;

/// Checks that a list of facts is closed for the tables of a document and a build: each fact that follows by an instance of a rule from
/// facts of the list is in it. A fact that says a text is available has to be in it only where a target of the crate requires the text.
/// So each fact that follows is in the list (`laws::closed_lists`): what isn't in it isn't built. The facts that `Derived::facts` of
/// `krates_grounding` gives are accepted, since they are all that follow and may matter.
///
/// It is refused as `Open`. It may instead return `Memory`.
///
/// Time: O(n log n) for n facts and instances of rules that begin with them.
///
/// ```text
/// check_built_closed(alloc, derived.tables(), &derived.facts(alloc)?)?;
/// ```
pub fn check_built_closed<'a>(
    alloc: Global,
    tables: &Tables<'a>,
    facts: &[BuildFact<'a>],
) -> Result<(), BuildCheckError>
    ensures closed { OnOk result (IsClosed tables.now (map fact_view facts.now)) }
    ensures refused { IfErr result (IsClosedRefused tables.now (map fact_view facts.now)) }
{
    if is_closed(alloc, tables, facts)? {
        return Ok(());
    }
    Err(BuildCheckError::Open)
}

/// Whether a list is closed.
fn is_closed<'a>(
    alloc: Global,
    tables: &Tables<'a>,
    facts: &[BuildFact<'a>],
) -> Result<bool, AllocError>
    ensures { IfOk result (λ b. IsTrue b ↔ IsClosed tables.now (map fact_view facts.now)) }
{
    let given = set_of(alloc, facts)?;
    Ok(has_all(tables, facts, &given))
}

/// Whether the list of these facts, which are given, is closed.
fn has_all<'a>(
    tables: &Tables<'a>,
    facts: &[BuildFact<'a>],
    given: &BTreeSet<BuildFact<'a>>,
) -> bool
    ensures { HasFacts given.now (map fact_view facts.now)
        → IsTrue result ↔ IsClosed tables.now (map fact_view facts.now) }
{
    let sought = Sought::Open(given);
    if finds_initial(tables, &sought) {
        return false;
    }
    if finds_begun_by_some(tables, facts, &sought) {
        return false;
    }
    !finds_available(tables, &sought)
}

/// Whether what is sought gives a text that some target requires.
fn finds_available<'a>(tables: &Tables<'a>, sought: &Sought<'_, 'a>) -> bool
    ensures { Finds result sought.now (available_rows tables.now) }
{
    for entry in &tables.crates {
        if finds_for_crate(tables, entry, sought) {
            return true;
        }
    }
    false
}

/// Whether it gives a text that a target of a crate requires.
fn finds_for_crate<'a>(tables: &Tables<'a>, entry: &CrateEntry<'a>, sought: &Sought<'_, 'a>) -> bool
    ensures { Finds result sought.now (available_to_crate tables.now entry.now) }
{
    for target in &entry.targets {
        if finds_for_target(tables, target, sought) {
            return true;
        }
    }
    false
}

/// Whether it gives a text that a target requires.
fn finds_for_target<'a>(
    tables: &Tables<'a>,
    target: &TargetEntry<'a>,
    sought: &Sought<'_, 'a>,
) -> bool
    ensures { Finds result sought.now (available_to_target tables.now target.now) }
{
    finds_text(tables, target.place.krate, &target.required, sought)
}

/// Whether it gives one of these texts, for a crate.
fn finds_text<'a>(
    tables: &Tables<'a>,
    krate: usize,
    texts: &[&'a str],
    sought: &Sought<'_, 'a>,
) -> bool
    ensures { Finds result sought.now (flat_map
        (λ text. rows_of tables.now (Available krate text.now)) texts.now) }
{
    for text in texts {
        let available = BuildFact::Available(krate, text);
        if finds_begun(tables, &available, sought) {
            return true;
        }
    }
    false
}
