//! The parts of facts that need no document.

ghost use Rattle.std.specs.Prelude.{◌≡◌, ◌<◌, map, option_map, string_bytes};
ghost use Rattle.krates_build_tables.specs.References.{reference_view};
ghost use Rattle.krates_build_naming.specs.NamedParts.{meeting_at, mode_at, reference_at, side_at};
ghost use Rattle.krates_build_naming.specs.Naming.{Gives};
ghost use Rattle.krates_build_naming.specs.PartTexts.{meeting_named, mode_named, reference_named, side_named, unless_said};

use crate::names::NameFault;
use crate::reading::{word_at, word_in};
use krates_build_tables::FeatureReference;
use krates_units::{Meeting, Mode, Side};

/// How a crate is met.
#[tactic(auto, unfolding(crate::specs::NamedParts::meeting_at))]
pub(crate) fn meeting_at(words: &[String], place: usize) -> Result<Meeting, NameFault>
    ensures { Gives (λ m. m) result (meeting_at place (map string_bytes words.now)) }
{
    let word = word_in(words, place).ok_or(NameFault::Missing(place))?;
    meeting_named(word).ok_or(NameFault::Meeting(place))
}

#[tactic(auto, unfolding(crate::specs::PartTexts::meeting_named))]
fn meeting_named(word: &str) -> Option<Meeting>
    ensures { result ≡ meeting_named word.now }
{
    match word {
        "root" => Some(Meeting::Root),
        "dependency" => Some(Meeting::Dependency),
        _ => None,
    }
}

/// A side.
#[tactic(auto, unfolding(crate::specs::NamedParts::side_at))]
pub(crate) fn side_at(words: &[String], place: usize) -> Result<Side, NameFault>
    ensures { Gives (λ n. n) result (side_at place (map string_bytes words.now)) }
{
    let word = word_in(words, place).ok_or(NameFault::Missing(place))?;
    side_named(word).ok_or(NameFault::Side(place))
}

#[tactic(auto, unfolding(crate::specs::PartTexts::side_named))]
fn side_named(word: &str) -> Option<Side>
    ensures { result ≡ side_named word.now }
{
    match word {
        "targets" => Some(Side::Targets),
        "host" => Some(Side::Host),
        _ => None,
    }
}

/// How a target is compiled.
#[tactic(auto, unfolding(crate::specs::NamedParts::mode_at))]
pub(crate) fn mode_at(words: &[String], place: usize) -> Result<Mode, NameFault>
    ensures { Gives (λ m. m) result (mode_at place (map string_bytes words.now)) }
{
    let word = word_in(words, place).ok_or(NameFault::Missing(place))?;
    mode_named(word).ok_or(NameFault::Mode(place))
}

#[tactic(auto, unfolding(crate::specs::PartTexts::mode_named))]
fn mode_named(word: &str) -> Option<Mode>
    ensures { result ≡ mode_named word.now }
{
    match word {
        "build" => Some(Mode::Build),
        "test" => Some(Mode::Test),
        _ => None,
    }
}

/// A feature reference, of three words.
#[tactic(auto, unfolding(crate::specs::NamedParts::reference_at))]
pub(crate) fn reference_at<'a>(
    words: &'a [String],
    place: usize,
) -> Result<FeatureReference<'a>, NameFault>
    requires { place < 16 }
    ensures { Gives reference_view result (reference_at place (map string_bytes words.now)) }
{
    let form = word_at(words, place)?;
    let name = word_at(words, place + 1)?;
    let feature = word_at(words, place + 2)?;
    reference_named(form, name, feature).ok_or(NameFault::Reference(place))
}

#[tactic(auto, unfolding(crate::specs::PartTexts::reference_named))]
fn reference_named<'a>(form: &str, name: &'a str, feature: &'a str) -> Option<FeatureReference<'a>>
    ensures { option_map reference_view result ≡ reference_named form.now name.now feature.now }
{
    match form {
        "dep" => unless_said(feature, FeatureReference::Krate(name)),
        "weak" => Some(FeatureReference::Weak(name, feature)),
        "strong" => Some(FeatureReference::Strong(name, feature)),
        "feature" => unless_said(feature, FeatureReference::Simple(name)),
        _ => None,
    }
}

/// The reference, where the word for a feature is empty.
fn unless_said<'a>(feature: &str, reference: FeatureReference<'a>) -> Option<FeatureReference<'a>>
    ensures { option_map reference_view result
        ≡ unless_said feature.now (reference_view reference.entry) }
{
    if feature == "" {
        return Some(reference);
    }
    None
}
