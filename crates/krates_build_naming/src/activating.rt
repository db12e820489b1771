//! Facts about the features of each side.

ghost use Rattle.std.specs.Prelude.{map, string_bytes};
ghost use Rattle.krates_build_facts.specs.FactModels.{fact_view};
ghost use Rattle.krates_build_naming.specs.NamedFacts.{activated, activated_feature, activated_name, activated_reference, activating_of, available, used};
ghost use Rattle.krates_build_naming.specs.Naming.{Gives};

use crate::building::building_of;
use crate::links::link_at;
use crate::names::{FactNames, NameFault};
use crate::parts::{reference_at, side_at};
use crate::places::crate_at;
use crate::reading::word_at;
use krates_build_facts::BuildFact;

/// The fact of this form.
#[tactic(auto, unfolding(crate::specs::NamedFacts::activating_of))]
pub(crate) fn activating_of<'a>(
    form: &str,
    names: &FactNames<'_, '_>,
    words: &'a [String],
) -> Result<BuildFact<'a>, NameFault>
    ensures { Gives fact_view result (activating_of form.now names.now (map string_bytes words.now)) }
{
    match form {
        "activated" => activated(names, words),
        "activated reference" => activated_reference(names, words),
        "activated feature" => activated_feature(names, words),
        "activated name" => activated_name(names, words),
        "used" => used(names, words),
        "available" => available(names, words),
        _ => building_of(form, names, words),
    }
}

/// That a crate takes part, on a side.
#[tactic(auto, unfolding(crate::specs::NamedFacts::activated))]
fn activated<'a>(names: &FactNames<'_, '_>, words: &'a [String]) -> Result<BuildFact<'a>, NameFault>
    ensures { Gives fact_view result (activated names.now (map string_bytes words.now)) }
{
    let krate = crate_at(names, words, 1)?;
    let side = side_at(words, 2)?;
    Ok(BuildFact::Activated(krate, side))
}

/// That a reference counts, on a side.
#[tactic(auto, unfolding(crate::specs::NamedFacts::activated_reference))]
fn activated_reference<'a>(
    names: &FactNames<'_, '_>,
    words: &'a [String],
) -> Result<BuildFact<'a>, NameFault>
    ensures { Gives fact_view result (activated_reference names.now (map string_bytes words.now)) }
{
    let krate = crate_at(names, words, 1)?;
    let side = side_at(words, 2)?;
    let reference = reference_at(words, 3)?;
    Ok(BuildFact::ActivatedReference(krate, side, reference))
}

/// That a feature is enabled, on a side.
#[tactic(auto, unfolding(crate::specs::NamedFacts::activated_feature))]
fn activated_feature<'a>(
    names: &FactNames<'_, '_>,
    words: &'a [String],
) -> Result<BuildFact<'a>, NameFault>
    ensures { Gives fact_view result (activated_feature names.now (map string_bytes words.now)) }
{
    let krate = crate_at(names, words, 1)?;
    let side = side_at(words, 2)?;
    let name = word_at(words, 3)?;
    Ok(BuildFact::ActivatedFeature(krate, side, name))
}

/// That dependencies of a name are turned on, on a side.
#[tactic(auto, unfolding(crate::specs::NamedFacts::activated_name))]
fn activated_name<'a>(
    names: &FactNames<'_, '_>,
    words: &'a [String],
) -> Result<BuildFact<'a>, NameFault>
    ensures { Gives fact_view result (activated_name names.now (map string_bytes words.now)) }
{
    let krate = crate_at(names, words, 1)?;
    let side = side_at(words, 2)?;
    let name = word_at(words, 3)?;
    Ok(BuildFact::ActivatedName(krate, side, name))
}

/// That a dependency counts, from a side.
#[tactic(auto, unfolding(crate::specs::NamedFacts::used))]
fn used<'a>(names: &FactNames<'_, '_>, words: &'a [String]) -> Result<BuildFact<'a>, NameFault>
    ensures { Gives fact_view result (used names.now (map string_bytes words.now)) }
{
    let link = link_at(names, words, 1)?;
    let side = side_at(words, 6)?;
    Ok(BuildFact::Used(link, side))
}

/// That a text is an enabled feature, for a target that requires it.
#[tactic(auto, unfolding(crate::specs::NamedFacts::available))]
fn available<'a>(names: &FactNames<'_, '_>, words: &'a [String]) -> Result<BuildFact<'a>, NameFault>
    ensures { Gives fact_view result (available names.now (map string_bytes words.now)) }
{
    let krate = crate_at(names, words, 1)?;
    let text = word_at(words, 2)?;
    Ok(BuildFact::Available(krate, text))
}
