//! Texts that are cut at an ASCII character.

ghost use Rattle.std.specs.Prelude.{◌<◌};
ghost use Rattle.krates_text.specs.Cuts.{CutsFirst, CutsLast, FollowsFront, ComesBeforeEnd, TellsHas};

/// The parts before and after the first such character.
pub(crate) fn cut_first(text: &str, c: char) -> Option<(&str, &str)>
    requires { c < 128 }
    ensures { CutsFirst c text.now result }
{
    text.split_once(c)
}

/// The parts before and after the last such character.
pub(crate) fn cut_last(text: &str, c: char) -> Option<(&str, &str)>
    requires { c < 128 }
    ensures { CutsLast c text.now result }
{
    text.rsplit_once(c)
}

/// Whether the character is there.
pub(crate) fn has(text: &str, c: char) -> bool
    requires { c < 128 }
    ensures { TellsHas c text.now result }
{
    cut_first(text, c).is_some()
}

/// What follows this first character.
pub(crate) fn after_front(text: &str, c: char) -> Option<&str>
    requires { c < 128 }
    ensures { FollowsFront c text.now result }
{
    text.strip_prefix(c)
}

/// What comes before this last character.
pub(crate) fn before_end(text: &str, c: char) -> Option<&str>
    requires { c < 128 }
    ensures { ComesBeforeEnd c text.now result }
{
    text.strip_suffix(c)
}
