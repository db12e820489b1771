//! Words, each where it stands.

ghost use Rattle.std.specs.Prelude.{◌≡◌, map, option_map, slice_get, string_bytes};
ghost use Rattle.krates_build_naming.specs.NamedParts.{word_at};
ghost use Rattle.krates_build_naming.specs.Naming.{Gives};

use crate::names::NameFault;

/// The word at a place, if there is one.
pub(crate) fn word_in<'a>(words: &'a [String], place: usize) -> Option<&'a str>
    ensures { option_map (λ w. w.now) result ≡ slice_get (map string_bytes words.now) place }
{
    match words.get(place) {
        Some(word) => Some(word.as_str()),
        None => None,
    }
}

/// The word at a place.
#[tactic(auto, unfolding(crate::specs::NamedParts::word_at))]
pub(crate) fn word_at<'a>(words: &'a [String], place: usize) -> Result<&'a str, NameFault>
    ensures { Gives (λ w. w.now) result (word_at place (map string_bytes words.now)) }
{
    word_in(words, place).ok_or(NameFault::Missing(place))
}
