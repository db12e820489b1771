//! Laws of what is shown, for all texts. Each is the contract of a function that does nothing.

ghost use Rattle.std.specs.Prelude.{◌≡◌, List, ℕ};
ghost use Rattle.std.specs.Str.{IsUtf8, NoCharPasses};
ghost use Rattle.krates_shown.specs.Shown.{HasNoEscape, is_hidden, shown_text};

/// Nothing that is shown ends a line, moves the cursor or turns the direction.
pub fn nothing_hidden()
    ensures { (text : List ℕ) → IsUtf8 text → NoCharPasses is_hidden (shown_text text) }
{}

/// What is shown is of one text alone, so it can be read back.
pub fn one_text()
    ensures { (one other : List ℕ) → IsUtf8 one → IsUtf8 other → shown_text one ≡ shown_text other → one ≡ other }
{}

/// A text that has nothing of this kind, and nothing that reads as the number of a character, is shown as it is.
pub fn plain_as_it_is()
    ensures { (text : List ℕ) → IsUtf8 text → NoCharPasses is_hidden text → HasNoEscape text → shown_text text ≡ text }
{}
