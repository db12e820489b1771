//! The value of a predicate where given words and pairs hold, as rustc prints them of a target.
ghost use Rattle.std.specs.Prelude.{◌≡◌, map, string_bytes};
ghost use Rattle.krates_text.specs.CfgHolding.{value_among, all_among, some_among, has_pair, pair_bytes};
ghost use Rattle.krates_text.specs.CfgView.{tree_of, trees_of};

use crate::cfg::predicate::Predicate;
use crate::texts::has_text;

/// The value where these words and pairs hold.
#[cycle(holds)]
pub(crate) fn holds(predicate: &Predicate, words: &[String], pairs: &[(String, String)]) -> bool
    ensures { result ≡ value_among (map string_bytes words.now) (map pair_bytes pairs.now) (tree_of predicate.now) }
{
    match predicate {
        Predicate::All(predicates) => all_hold(predicates.as_slice(), words, pairs),
        Predicate::Any(predicates) => any_holds(predicates.as_slice(), words, pairs),
        Predicate::Not(inner) => !holds(&**inner, words, pairs),
        Predicate::Constant(b) => *b,
        Predicate::Word(word) => has_text(words, word.as_str()),
        Predicate::Pair { key, string } => has_pair(pairs, key.as_str(), string.as_str()),
    }
}

#[cycle(holds)]
fn all_hold(predicates: &[Predicate], words: &[String], pairs: &[(String, String)]) -> bool
    ensures { result ≡ all_among (map string_bytes words.now) (map pair_bytes pairs.now) (trees_of predicates.now) }
{
    for predicate in predicates {
        if !holds(predicate, words, pairs) {
            return false;
        }
    }
    true
}

#[cycle(holds)]
fn any_holds(predicates: &[Predicate], words: &[String], pairs: &[(String, String)]) -> bool
    ensures { result ≡ some_among (map string_bytes words.now) (map pair_bytes pairs.now) (trees_of predicates.now) }
{
    for predicate in predicates {
        if holds(predicate, words, pairs) {
            return true;
        }
    }
    false
}

/// Whether a key with this string is among the pairs.
fn has_pair(pairs: &[(String, String)], key: &str, string: &str) -> bool
    ensures { result ≡ has_pair (map pair_bytes pairs.now) key.now string.now }
{
    for (one, other) in pairs {
        if one.as_str() == key && other.as_str() == string {
            return true;
        }
    }
    false
}
