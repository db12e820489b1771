//! How a text begins, as one number, by which most texts can be ordered in one comparison.

ghost use Rattle.std.specs.Prelude.{◌≡◌, get_or};
ghost use Rattle.krates_ids.specs.Beginning.{IsBeginning};

/// The first eight bytes of a text as one number, the first of them the most significant. A shorter text is padded with zeros.
pub(crate) fn beginning_of(text: &[u8]) -> u64
    ensures { IsBeginning text.now result }
{
    u64::from_be_bytes([
        byte_or_zero(text, 0),
        byte_or_zero(text, 1),
        byte_or_zero(text, 2),
        byte_or_zero(text, 3),
        byte_or_zero(text, 4),
        byte_or_zero(text, 5),
        byte_or_zero(text, 6),
        byte_or_zero(text, 7),
    ])
}

/// The byte at a place, and zero after the end.
fn byte_or_zero(text: &[u8], place: usize) -> u8
    ensures { result ≡ get_or text.now place 0 }
{
    if place < text.len() { text[place] } else { 0 }
}
