//! Names, in an order in which `-` and `_` are one character.

ghost use Rattle.std.specs.Prelude.{◌≡◌};
ghost use Rattle.std.proofs.Common.{rules};
ghost use Rattle.std.specs.Cmp.Rules.{comparing};
ghost use Rattle.std.specs.Ordering.{as_partial_cmp};
ghost use Rattle.krates_document.specs.FoldedNames.{folded_byte, folded_order, name_cmp, same_name};

use std::cmp::Ordering;

/// A name, compared by its bytes as if each `-` in it were `_`: the name of a resolved dependency equals each declared
/// name that it may mean.
#[derive(Clone, Copy, Debug)]
pub struct FoldedName<'a> {
    /// The name as it is written.
    pub text: &'a str,
}

impl<'a> PartialEq for FoldedName<'a> {
    ghost eq = { same_name };

    ghost laws = { Prim.search (comparing, rules) depth 9 };

    fn eq(&self, other: &FoldedName<'a>) -> bool {
        folded_order(self.text, other.text).is_eq()
    }
}

impl<'a> Eq for FoldedName<'a> {
    ghost laws = { Prim.search (comparing, rules) depth 9 };
}

impl<'a> Ord for FoldedName<'a> {
    ghost cmp = { name_cmp };

    ghost total = { Prim.search (comparing, rules) depth 9 };

    ghost matches_partial_cmp = { Prim.search (comparing, rules) depth 9 };

    ghost matches_eq = { Prim.search (comparing, rules) depth 9 };

    fn cmp(&self, other: &FoldedName<'a>) -> Ordering {
        folded_order(self.text, other.text)
    }
}

impl<'a> PartialOrd for FoldedName<'a> {
    ghost partial_cmp = { as_partial_cmp name_cmp };

    ghost laws = { Prim.search (comparing, rules) depth 9 };

    fn partial_cmp(&self, other: &FoldedName<'a>) -> Option<Ordering> {
        Some(self.cmp(other))
    }
}

/// How two names compare, by their bytes, where `-` is `_`. Time O(length of the shorter).
pub fn folded_order(one: &str, other: &str) -> Ordering
    ensures { result ≡ folded_order one.now other.now }
{
    let ours = one.as_bytes();
    let theirs = other.as_bytes();
    let shared = if ours.len() < theirs.len() {
        ours.len()
    } else {
        theirs.len()
    };
    for at in 0..shared {
        match folded_byte(ours[at]).cmp(&folded_byte(theirs[at])) {
            Ordering::Equal => {}
            order => return order,
        }
    }
    ours.len().cmp(&theirs.len())
}

/// The byte, `-` as `_`.
fn folded_byte(byte: u8) -> u8
    ensures { result ≡ folded_byte byte }
{
    if byte == b'-' { b'_' } else { byte }
}
