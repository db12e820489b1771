//! When the name of a resolved dependency is a declared one.

ghost use Rattle.std.specs.Prelude.{◌↔◌, IsTrue};
ghost use Rattle.krates_rules.specs.DependencyName.{IsByteOf, IsNameOf};

/// Whether the name of a resolved dependency is the declared one: equally long, and equal byte by byte, except that `_`
/// in the resolved name may replace `-` in the declared one, since cargo resolves the name `a-b` as `a_b` (Cargo
/// Book, "cargo metadata", `resolve`). Time O(length).
pub fn is_name_of(resolved: &str, declared: &str) -> bool
    ensures { IsTrue result ↔ IsNameOf resolved.now declared.now }
{
    resolved.len() == declared.len()
        && resolved
            .as_bytes()
            .iter()
            .zip(declared.as_bytes())
            .all(|(byte, other)| is_byte_of(*byte, *other))
}

/// Whether the byte is the declared one, or may replace it.
fn is_byte_of(resolved: u8, declared: u8) -> bool
    ensures { IsTrue result ↔ IsByteOf resolved declared }
{
    resolved == declared || resolved == b'_' && declared == b'-'
}
