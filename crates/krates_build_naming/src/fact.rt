//! Facts that words name.

ghost use Rattle.std.specs.Prelude.{◌≡◌, map, string_bytes};
ghost use Rattle.krates_build_facts.specs.FactModels.{fact_view};
ghost use Rattle.krates_build_naming.specs.NamedFacts.{ended, fact_of, fact_read, word_count};
ghost use Rattle.krates_build_naming.specs.Naming.{Gives};

use crate::linking::linking_of;
use crate::names::{FactNames, NameFault};
use crate::reading::word_in;
use krates_build_facts::BuildFact;

/// The fact that words name in a document and a build. The first word is its form, and those behind it name its parts.
///
/// - `met CRATE MEETING`, `linked reference CRATE MEETING REFERENCE`, `linked feature CRATE MEETING NAME`, `linked name CRATE MEETING NAME`,
///   `linked LINK`, `lost CRATE KIND TARGET NAME`
/// - `activated CRATE SIDE`, `activated reference CRATE SIDE REFERENCE`, `activated feature CRATE SIDE NAME`, `activated name CRATE SIDE NAME`,
///   `used LINK SIDE`, `available CRATE TEXT`
/// - `compiled UNIT`, `needed LINK PLATFORM UNIT`, `script run CRATE PLACEMENT`, `script compiled CRATE SIDE`,
///   `run needed LINK PLACEMENT PLACEMENT`
///
/// The form is one word, as `"linked name"`. A crate is its id text; a meeting `root` or `dependency`; a side `targets` or `host`. A
/// reference is three words: `dep NAME` and an empty word, `weak NAME FEATURE`, `strong NAME FEATURE`, or `feature NAME` and an empty
/// word. A link is five: the crate that has the dependency, the other crate, `normal`, `dev` or `build`, the target text or `*` where there
/// is none, and the name under which the manifest knows it. A platform is `host`, or the triple of a machine; a placement a platform and
/// a side; a unit a crate, the kind and the name of one of its targets, `build` or `test`, and a placement. Where several fit, the first is
/// meant.
///
/// It is refused for the first word that isn't there or names nothing, and for the first that follows. Time O(c + l + t) for c crates, and l dependencies and t targets of
/// one of them.
///
/// ```text
/// let names = FactNames { ids: document.crate_ids(), tables: &tables };
/// let fact = fact_named(&names, &words)?;
/// ```
#[tactic(auto, unfolding(crate::specs::NamedFacts::fact_of))]
pub fn fact_named<'a>(
    names: &FactNames<'_, '_>,
    words: &'a [String],
) -> Result<BuildFact<'a>, NameFault>
    ensures { Gives fact_view result (fact_of names.now (map string_bytes words.now)) }
{
    let fact = fact_read(names, words)?;
    ended(words, fact)
}

/// The fact that words begin with.
#[tactic(auto, unfolding(crate::specs::NamedFacts::fact_read))]
fn fact_read<'a>(names: &FactNames<'_, '_>, words: &'a [String]) -> Result<BuildFact<'a>, NameFault>
    ensures { Gives fact_view result (fact_read names.now (map string_bytes words.now)) }
{
    let form = word_in(words, 0).ok_or(NameFault::Missing(0))?;
    linking_of(form, names, words)
}

/// The fact, where no other word follows those that name it.
#[tactic(auto, unfolding(crate::specs::NamedFacts::ended))]
fn ended<'a>(words: &[String], fact: BuildFact<'a>) -> Result<BuildFact<'a>, NameFault>
    ensures { Gives fact_view result (ended (map string_bytes words.now) (fact_view fact.entry)) }
{
    let count = word_count(&fact);
    if count < words.len() {
        return Err(NameFault::Further(count));
    }
    Ok(fact)
}

/// How many words name the fact.
fn word_count(fact: &BuildFact<'_>) -> usize
    ensures { result ≡ word_count (fact_view fact.now) }
{
    match fact {
        BuildFact::Met(..)
        | BuildFact::Activated(..)
        | BuildFact::Available(..)
        | BuildFact::ScriptCompiled(..) => 3,
        BuildFact::LinkedFeature(..)
        | BuildFact::LinkedName(..)
        | BuildFact::ActivatedFeature(..)
        | BuildFact::ActivatedName(..)
        | BuildFact::ScriptRun(..) => 4,
        BuildFact::Lost(..) => 5,
        BuildFact::LinkedReference(..) | BuildFact::ActivatedReference(..) | BuildFact::Linked(_) =>
            6,
        BuildFact::Used(..) | BuildFact::Compiled(_) => 7,
        BuildFact::RunNeeded(..) => 10,
        BuildFact::Needed(..) => 13,
    }
}
