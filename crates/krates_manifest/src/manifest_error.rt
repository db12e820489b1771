//! Why a manifest doesn't say which resolver is used.
ghost use Rattle.std.specs.Prelude.{◌≡◌};
ghost use Rattle.krates_manifest.specs.ManifestFaults.{TomlBecomes};
ghost use Rattle.krates_manifest.specs.declared.manifest_error.ManifestError.TheVariants.{Memory};

use krates_shown::ShownValue;
use std::alloc::AllocError;
use std::fmt;
use std::fmt::InlineText;
use toml::{Value, de};

/// Why a manifest doesn't say which resolver is used.
#[derive(Debug, Drop, thiserror::Error)]
pub enum ManifestError {
    /// The text isn't TOML: what is wrong with it, and where.
    NotToml(de::Error),
    /// Both the workspace and the package name a resolver, which cargo refuses.
    TwoResolvers,
    /// What is named as the resolver is this value, and none of the texts `1`, `2` and `3`.
    BadResolver(Value),
    /// The manifest has a package, whose edition says which resolver is used, and the document has none with that manifest.
    NoPackage,
    /// Memory ran out.
    Memory,
}

/// The value of a manifest is printed as `ShownValue` shows it.
impl fmt::Display for ManifestError {
    fn fmt<W: fmt::Write>(&self, f: &mut fmt::Formatter<W>) -> fmt::Result {
        match self {
            ManifestError::NotToml(error) => print_place(f, error),
            ManifestError::TwoResolvers => {
                f.write_str("both `workspace` and `package` of the manifest name a resolver")
            }
            ManifestError::BadResolver(value) => {
                let value = ShownValue(value);
                write!(
                    f,
                    "{value} is no resolver: there are \"1\", \"2\" and \"3\""
                )
            }
            ManifestError::NoPackage => {
                f.write_str("the document has no package with the manifest of the workspace's root")
            }
            ManifestError::Memory => f.write_str("out of memory"),
        }
    }
}

/// Prints where a text isn't TOML, which the error's own first line says, and what is wrong there.
fn print_place<W: fmt::Write>(f: &mut fmt::Formatter<W>, error: &de::Error) -> fmt::Result {
    let printed = InlineText::<128>::of(*error);
    let place = printed.as_str().lines().next().unwrap_or("");
    write!(f, "{place}: {}", error.message())
}

/// What an error of TOML becomes.
impl From<de::Error> for ManifestError {
    ghost from_gives = { TomlBecomes };

    fn from(error: de::Error) -> ManifestError {
        if error.is_memory() {
            ManifestError::Memory
        } else {
            ManifestError::NotToml(error)
        }
    }
}

impl From<AllocError> for ManifestError {
    ghost from_gives = { λ _ error. error ≡ Memory };

    fn from(_: AllocError) -> ManifestError {
        ManifestError::Memory
    }
}
