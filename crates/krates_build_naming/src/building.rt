//! Facts about what is compiled and run.

ghost use Rattle.std.specs.Prelude.{map, string_bytes};
ghost use Rattle.krates_build_facts.specs.FactModels.{fact_view};
ghost use Rattle.krates_build_naming.specs.NamedFacts.{building_of, compiled, needed, run_needed, script_compiled, script_run};
ghost use Rattle.krates_build_naming.specs.Naming.{Gives};

use crate::links::link_at;
use crate::names::{FactNames, NameFault};
use crate::parts::side_at;
use crate::places::{crate_at, placement_at, platform_at, unit_at};
use krates_build_facts::BuildFact;

/// The fact of this form.
#[tactic(auto, unfolding(crate::specs::NamedFacts::building_of))]
pub(crate) fn building_of<'a>(
    form: &str,
    names: &FactNames<'_, '_>,
    words: &'a [String],
) -> Result<BuildFact<'a>, NameFault>
    ensures { Gives fact_view result (building_of form.now names.now (map string_bytes words.now)) }
{
    match form {
        "compiled" => compiled(names, words),
        "needed" => needed(names, words),
        "script run" => script_run(names, words),
        "script compiled" => script_compiled(names, words),
        "run needed" => run_needed(names, words),
        _ => Err(NameFault::Form(0)),
    }
}

/// That a unit is compiled.
#[tactic(auto, unfolding(crate::specs::NamedFacts::compiled))]
fn compiled<'a>(names: &FactNames<'_, '_>, words: &'a [String]) -> Result<BuildFact<'a>, NameFault>
    ensures { Gives fact_view result (compiled names.now (map string_bytes words.now)) }
{
    let unit = unit_at(names, words, 1)?;
    Ok(BuildFact::Compiled(unit))
}

/// That a library is needed.
#[tactic(auto, unfolding(crate::specs::NamedFacts::needed))]
fn needed<'a>(names: &FactNames<'_, '_>, words: &'a [String]) -> Result<BuildFact<'a>, NameFault>
    ensures { Gives fact_view result (needed names.now (map string_bytes words.now)) }
{
    let link = link_at(names, words, 1)?;
    let from = platform_at(names, words, 6)?;
    let library = unit_at(names, words, 7)?;
    Ok(BuildFact::Needed(link, from, library))
}

/// That a build script is run.
#[tactic(auto, unfolding(crate::specs::NamedFacts::script_run))]
fn script_run<'a>(
    names: &FactNames<'_, '_>,
    words: &'a [String],
) -> Result<BuildFact<'a>, NameFault>
    ensures { Gives fact_view result (script_run names.now (map string_bytes words.now)) }
{
    let krate = crate_at(names, words, 1)?;
    let placement = placement_at(names, words, 2)?;
    Ok(BuildFact::ScriptRun(krate, placement))
}

/// That a build script is compiled.
#[tactic(auto, unfolding(crate::specs::NamedFacts::script_compiled))]
fn script_compiled<'a>(
    names: &FactNames<'_, '_>,
    words: &'a [String],
) -> Result<BuildFact<'a>, NameFault>
    ensures { Gives fact_view result (script_compiled names.now (map string_bytes words.now)) }
{
    let krate = crate_at(names, words, 1)?;
    let side = side_at(words, 2)?;
    Ok(BuildFact::ScriptCompiled(krate, side))
}

/// That the run of a build script needs that of another.
#[tactic(auto, unfolding(crate::specs::NamedFacts::run_needed))]
fn run_needed<'a>(
    names: &FactNames<'_, '_>,
    words: &'a [String],
) -> Result<BuildFact<'a>, NameFault>
    ensures { Gives fact_view result (run_needed names.now (map string_bytes words.now)) }
{
    let link = link_at(names, words, 1)?;
    let from = placement_at(names, words, 6)?;
    let run = placement_at(names, words, 8)?;
    Ok(BuildFact::RunNeeded(link, from, run))
}
