//! Facts about which dependencies exist.

ghost use Rattle.std.specs.Prelude.{map, string_bytes};
ghost use Rattle.krates_build_facts.specs.FactModels.{fact_view};
ghost use Rattle.krates_build_naming.specs.NamedFacts.{linked, linked_feature, linked_name, linked_reference, linking_of, lost, met};
ghost use Rattle.krates_build_naming.specs.Naming.{Gives};

use crate::activating::activating_of;
use crate::links::{lacking_at, link_at};
use crate::names::{FactNames, NameFault};
use crate::parts::{meeting_at, reference_at};
use crate::places::crate_at;
use crate::reading::word_at;
use krates_build_facts::BuildFact;

/// The fact of this form.
#[tactic(auto, unfolding(crate::specs::NamedFacts::linking_of))]
pub(crate) fn linking_of<'a>(
    form: &str,
    names: &FactNames<'_, '_>,
    words: &'a [String],
) -> Result<BuildFact<'a>, NameFault>
    ensures { Gives fact_view result (linking_of form.now names.now (map string_bytes words.now)) }
{
    match form {
        "met" => met(names, words),
        "linked reference" => linked_reference(names, words),
        "linked feature" => linked_feature(names, words),
        "linked name" => linked_name(names, words),
        "linked" => linked(names, words),
        "lost" => lost(names, words),
        _ => activating_of(form, names, words),
    }
}

/// That a crate is met.
#[tactic(auto, unfolding(crate::specs::NamedFacts::met))]
fn met<'a>(names: &FactNames<'_, '_>, words: &'a [String]) -> Result<BuildFact<'a>, NameFault>
    ensures { Gives fact_view result (met names.now (map string_bytes words.now)) }
{
    let krate = crate_at(names, words, 1)?;
    let meeting = meeting_at(words, 2)?;
    Ok(BuildFact::Met(krate, meeting))
}

/// That a reference counts, before sides.
#[tactic(auto, unfolding(crate::specs::NamedFacts::linked_reference))]
fn linked_reference<'a>(
    names: &FactNames<'_, '_>,
    words: &'a [String],
) -> Result<BuildFact<'a>, NameFault>
    ensures { Gives fact_view result (linked_reference names.now (map string_bytes words.now)) }
{
    let krate = crate_at(names, words, 1)?;
    let meeting = meeting_at(words, 2)?;
    let reference = reference_at(words, 3)?;
    Ok(BuildFact::LinkedReference(krate, meeting, reference))
}

/// That a feature is enabled, before sides.
#[tactic(auto, unfolding(crate::specs::NamedFacts::linked_feature))]
fn linked_feature<'a>(
    names: &FactNames<'_, '_>,
    words: &'a [String],
) -> Result<BuildFact<'a>, NameFault>
    ensures { Gives fact_view result (linked_feature names.now (map string_bytes words.now)) }
{
    let krate = crate_at(names, words, 1)?;
    let meeting = meeting_at(words, 2)?;
    let name = word_at(words, 3)?;
    Ok(BuildFact::LinkedFeature(krate, meeting, name))
}

/// That dependencies of a name are turned on, before sides.
#[tactic(auto, unfolding(crate::specs::NamedFacts::linked_name))]
fn linked_name<'a>(
    names: &FactNames<'_, '_>,
    words: &'a [String],
) -> Result<BuildFact<'a>, NameFault>
    ensures { Gives fact_view result (linked_name names.now (map string_bytes words.now)) }
{
    let krate = crate_at(names, words, 1)?;
    let meeting = meeting_at(words, 2)?;
    let name = word_at(words, 3)?;
    Ok(BuildFact::LinkedName(krate, meeting, name))
}

/// That a dependency exists.
#[tactic(auto, unfolding(crate::specs::NamedFacts::linked))]
fn linked<'a>(names: &FactNames<'_, '_>, words: &'a [String]) -> Result<BuildFact<'a>, NameFault>
    ensures { Gives fact_view result (linked names.now (map string_bytes words.now)) }
{
    let link = link_at(names, words, 1)?;
    Ok(BuildFact::Linked(link))
}

/// That a dependency is lacking.
#[tactic(auto, unfolding(crate::specs::NamedFacts::lost))]
fn lost<'a>(names: &FactNames<'_, '_>, words: &'a [String]) -> Result<BuildFact<'a>, NameFault>
    ensures { Gives fact_view result (lost names.now (map string_bytes words.now)) }
{
    let (krate, index) = lacking_at(names, words, 1)?;
    Ok(BuildFact::Lost(krate, index))
}
