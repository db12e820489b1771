//! Shows, without trusting what derives the facts of a build, that a crate isn't built.
ghost use Rattle.std.specs.Prelude.{◌↔◌, IfErr, IfOk, IsTrue, map};
ghost use Rattle.krates_build_facts.specs.FactModels.{fact_view};
ghost use Rattle.krates_build_answers.specs.Unbuilt.{IsUntold, SayBuilt, SaysBuilt, TellsUnbuilt};

use krates_build_checkers::BuildCheckError;
use krates_build_checkers::closed::check_built_closed;
use krates_build_checkers::laws::closed_lists;
use krates_build_facts::BuildFact;
use krates_build_tables::Tables;
use std::alloc::Global;

/// Whether the crate with that number isn't built, for the host or for any machine: yes only where the facts, such as those that
/// `Derived::facts` gives, are closed, which `check_built_closed` says, and none of them says that a unit or the build script of the crate is
/// compiled; no exactly where one of them says so.
///
/// Where none does, it is refused as `check_built_closed` refuses the facts: as `Open`. It may instead return `Memory`. Time: that of
/// `check_built_closed`.
///
/// ```text
/// let is_left_out = is_unbuilt(alloc, derived.tables(), &derived.facts(alloc)?, number)?;
/// ```
pub fn is_unbuilt<'a>(
    alloc: Global,
    tables: &Tables<'a>,
    facts: &[BuildFact<'a>],
    krate: usize,
) -> Result<bool, BuildCheckError>
    ensures told { IfOk result (TellsUnbuilt tables.now (map fact_view facts.now) krate) }
    ensures refused { IfErr result (IsUntold tables.now (map fact_view facts.now) krate) }
{
    closed_lists();
    if say_built(facts, krate) {
        return Ok(false);
    }
    check_built_closed(alloc, tables, facts)?;
    Ok(true)
}

/// Whether one of the facts says that a unit or the build script of the crate is compiled.
fn say_built(facts: &[BuildFact<'_>], krate: usize) -> bool
    ensures { IsTrue result ↔ SayBuilt krate (map fact_view facts.now) }
{
    for fact in facts {
        if says_built(fact, krate) {
            return true;
        }
    }
    false
}

/// Whether the fact says that a unit or the build script of the crate is compiled.
fn says_built(fact: &BuildFact<'_>, krate: usize) -> bool
    ensures { IsTrue result ↔ SaysBuilt krate (fact_view fact.now) }
{
    match fact {
        BuildFact::Compiled(unit) => unit.target.krate == krate,
        BuildFact::ScriptCompiled(number, _) => *number == krate,
        _ => false,
    }
}
