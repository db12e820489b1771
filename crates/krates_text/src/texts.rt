//! Lists of texts.
ghost use Rattle.std.specs.Prelude.{◌≡◌, map, string_bytes};
ghost use Rattle.krates_text.specs.Texts.{has_text};

/// Whether a text is among these. Time O(n) comparisons of texts.
pub fn has_text(texts: &[String], text: &str) -> bool
    ensures { result ≡ has_text (map string_bytes texts.now) text.now }
{
    for other in texts {
        if text == other.as_str() {
            return true;
        }
    }
    false
}
