//! The rules by which a word is answered.

use crate::build_words::BuildWords;
use crate::choice::Choice;
use clap::ArgMatches;

/// The rules by which a word is answered where `--by` isn't there.
pub(crate) static DEFAULT: &str = "build";

/// What `--by` takes.
pub(crate) static NAMES: [&str; 2] = ["build", "krates"];

/// The rules by which a word is answered, and what the words say of each.
#[derive(Debug, Drop)]
pub enum Rules {
    /// Those of a build, for what cargo builds: `--by build`, the default.
    Build(BuildWords),
    /// Those of the Rust crate `krates`, for its graph: `--by krates`.
    Krates(Choice),
}

/// Which rules.
#[derive(Clone, Copy)]
pub(crate) enum By {
    /// Those of a build.
    Build,
    /// Those of the Rust crate `krates`.
    Krates,
}

impl By {
    /// The rules that are named. A word without `--by` is about the build.
    pub(crate) fn of(found: &ArgMatches<'_>) -> By {
        match found.get_str("by") {
            Some("krates") => By::Krates,
            _ => By::Build,
        }
    }
}
