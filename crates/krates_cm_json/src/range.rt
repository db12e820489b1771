//! Numbers that `serde_json` reads: an integer of 64 bits, or a number whose nearest float is finite.

ghost use Rattle.std.specs.Prelude.{◌≡◌, ◌↔◌, ◌<◌, ◌==◌, true, false, IsTrue, is_some, length, slice_index};
ghost use Rattle.fast_float.specs.Text.{minus};
ghost use Rattle.json.specs.Value.{value_view, items_view, members_view};
ghost use Rattle.serde_json.specs.Read.{number_from};
ghost use Rattle.krates_cm_json.specs.Readable.{IsInRange, AreItemsInRange, AreMembersInRange, IsNumberInRange};

use fast_float::Numeral;
use json::Value as Tree;

/// Whether each number of a value is in range.
#[cycle(range)]
pub(crate) fn is_in_range(tree: &Tree<'_>) -> bool
    ensures { IsTrue result ↔ IsInRange (value_view tree.now) }
{
    match tree {
        Tree::Number(text) => is_number_in_range(text),
        Tree::Array(items) => are_items_in_range(items),
        Tree::Object(members) => are_members_in_range(members),
        Tree::Null | Tree::Bool(_) | Tree::String(_) => true,
    }
}

/// Whether each number of these items is in range.
#[cycle(range)]
fn are_items_in_range(items: &Vec<Tree<'_>>) -> bool
    ensures { IsTrue result ↔ AreItemsInRange (items_view items.now.items) }
{
    for item in items {
        if !is_in_range(item) {
            return false;
        }
    }
    true
}

/// Whether each number of these members is in range.
#[cycle(range)]
fn are_members_in_range(members: &Vec<(&str, Tree<'_>)>) -> bool
    ensures { IsTrue result ↔ AreMembersInRange (members_view members.now.items) }
{
    for member in members {
        if !is_in_range(&member.1) {
            return false;
        }
    }
    true
}

/// Whether a number is in range.
fn is_number_in_range(text: &str) -> bool
    ensures { IsTrue result ↔ IsNumberInRange text.now }
{
    let bytes = text.as_bytes();
    if has_minus(bytes) {
        is_negative_in_range(&Numeral::scan(&bytes[1..]))
    } else {
        is_unsigned_in_range(&Numeral::scan(bytes))
    }
}

/// Whether a number without a sign is in range. The float of an integer of 64 bits is finite too, so that is asked last.
fn is_unsigned_in_range(numeral: &Numeral<'_>) -> bool
    ensures { result ≡ is_some (number_from false numeral.now) }
{
    numeral.to_float::<f64>(false).is_finite() || numeral.to_u64().is_some()
}

/// The same for a number after a minus. `-0` is a float.
fn is_negative_in_range(numeral: &Numeral<'_>) -> bool
    ensures { result ≡ is_some (number_from true numeral.now) }
{
    numeral.to_float::<f64>(true).is_finite() || numeral.to_i64(true).is_some_and(|n| n < 0)
}

/// Whether a number has a sign.
fn has_minus(bytes: &[u8]) -> bool
    ensures value { result ≡ (slice_index bytes.now 0 == minus) }
    ensures some { IsTrue result → 0 < length bytes.now }
{
    !bytes.is_empty() && bytes[0] == b'-'
}
