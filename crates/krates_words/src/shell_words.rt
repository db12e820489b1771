//! What the words say of how a program talks to people.

use clap::ArgMatches;

/// How a program talks to people.
#[derive(Clone, Copy, Debug, PartialEq, Eq)]
pub struct ShellWords {
    /// Whether notes are left out: `--quiet`.
    pub is_quiet: bool,
    /// When there are colours: `--color`.
    pub color: ColorChoice,
}

/// When there are colours.
#[derive(Clone, Copy, Debug, PartialEq, Eq)]
pub enum ColorChoice {
    /// Where a terminal shows them, and the variable `NO_COLOR` isn't set.
    Auto,
    /// Always.
    Always,
    /// Never.
    Never,
}

impl ShellWords {
    /// What is meant where the words don't say anything of it, or can't be read. Time O(1).
    pub fn unsaid() -> ShellWords {
        ShellWords {
            is_quiet: false,
            color: ColorChoice::Auto,
        }
    }

    /// What the words say of it.
    pub(crate) fn of(found: &ArgMatches<'_>) -> ShellWords {
        ShellWords {
            is_quiet: found.get_flag("quiet"),
            color: color(found.get_str("color")),
        }
    }
}

/// When there are colours by this word. `clap` lets no other through.
fn color(word: Option<&str>) -> ColorChoice {
    match word {
        Some("always") => ColorChoice::Always,
        Some("never") => ColorChoice::Never,
        _ => ColorChoice::Auto,
    }
}
