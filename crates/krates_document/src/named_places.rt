//! Places of a list by the names of the items there: an index, made once, in which those of one name are found by binary search.

ghost use Rattle.std.specs.Prelude.{◌≡◌, ℕ, Contains, IfOk};
ghost use Rattle.std.specs.Ordering.{is_le, is_lt};
ghost use Rattle.krates_cm.specs.Document.{Text, node_dep_view};
ghost use Rattle.krates_document.specs.NamedPlaces.{AreInOrder, AreNamed, StandsUnder, key_cmp, key_of, no_target, places_in, sought_key};

use crate::folded_name::{FoldedName, folded_order};
use krates_cm::NodeDep;
use krates_ids::Kid;
use std::alloc::{AllocError, Global};
use std::cmp::Ordering;

/// A place of a list, under the name of the item there, `-` as `_`, and a target.
#[derive(Clone, Copy, Debug, PartialEq, Eq, PartialOrd, Ord)]
pub struct NamedPlace<'a> {
    /// The name.
    pub name: FoldedName<'a>,
    /// The text of the target, or an empty one.
    pub target: &'a str,
    /// The place.
    pub place: usize,
}

/// What is found by a name and a target.
pub trait HasName {
    /// The name.
    ghost name: { Self → Text };

    /// The text of the target, or an empty one.
    ghost target: { Self → Text };

    fn known_name(&self) -> &str
        ensures { result.now ≡ name self.now };

    fn known_target(&self) -> &str
        ensures { result.now ≡ target self.now };
}

impl HasName for NodeDep {
    ghost name = { λ d. (node_dep_view d).name };

    ghost target = { λ d. no_target };

    fn known_name(&self) -> &str {
        self.name.as_str()
    }

    fn known_target(&self) -> &str {
        ""
    }
}

impl HasName for Kid {
    ghost name = { λ k. k.name };

    ghost target = { λ k. no_target };

    fn known_name(&self) -> &str {
        self.name()
    }

    fn known_target(&self) -> &str {
        ""
    }
}

/// The places of a list by the names and targets of its items, in order. The only error is running out of memory.
///
/// Time: O(n log n).
pub fn named_places<T: HasName>(
    alloc: Global,
    items: &[T],
) -> Result<Vec<NamedPlace<'_>>, AllocError>
    ensures { IfOk result (λ places. AreNamed T.name T.target items.now places.items) }
{
    let mut places = Vec::with_capacity(alloc, items.len())?;
    for (place, item) in items.iter().enumerate() {
        places.push(NamedPlace {
            name: FoldedName {
                text: item.known_name(),
            },
            target: item.known_target(),
            place,
        })?;
    }
    places.sort()?;
    Ok(places)
}

/// Those of the places, which are in order, that are listed under this name and target; there may be others among them.
///
/// Time: O(log n).
pub fn places_under<'a, 's>(
    places: &'s [NamedPlace<'a>],
    name: &str,
    target: &str,
) -> &'s [NamedPlace<'a>]
    requires { AreInOrder places.now }
    ensures { (k : ℕ) → StandsUnder places.now name.now target.now k → Contains (places_in result.now) k }
{
    let first = places.partition_point(|place| is_before(place, name, target));
    let rest = &places[first..];
    let count = rest.partition_point(|place| is_not_behind(place, name, target));
    &rest[..count]
}

/// Whether the place comes before those under this name and target.
fn is_before(place: &NamedPlace<'_>, name: &str, target: &str) -> bool
    ensures { result ≡ is_lt (key_cmp (key_of place.now) (sought_key name.now target.now)) }
{
    order_of(place, name, target).is_lt()
}

/// Whether the place doesn't come after those under this name and target.
fn is_not_behind(place: &NamedPlace<'_>, name: &str, target: &str) -> bool
    ensures { result ≡ is_le (key_cmp (key_of place.now) (sought_key name.now target.now)) }
{
    order_of(place, name, target).is_le()
}

/// How the name and target of a place compare with these.
fn order_of(place: &NamedPlace<'_>, name: &str, target: &str) -> Ordering
    ensures { result ≡ key_cmp (key_of place.now) (sought_key name.now target.now) }
{
    match folded_order(place.name.text, name) {
        Ordering::Equal => place.target.cmp(&target),
        order => order,
    }
}
