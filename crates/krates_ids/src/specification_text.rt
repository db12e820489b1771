//! How a package specification is printed.

ghost use Rattle.std.specs.Prelude.{◌≡◌, Some};
ghost use Rattle.krates_ids.specs.PackageSpecification.{spec_view};
ghost use Rattle.krates_ids.specs.SpecificationText as printing;
ghost use Rattle.krates_ids.specs.SpecificationText.{spec_text};

use crate::cuts::cut_last;
use crate::pkgspec::PkgSpec;
use std::fmt;

/// As cargo prints a specification (Cargo Book, "Package ID Specifications"): `NAME` or `NAME@VERSION` without a
/// url, and `URL#NAME` or `URL#NAME@VERSION` with one, but `URL` or `URL#VERSION` where the name is the last piece
/// of the url.
///
/// A specification that was read is printed as a text that reads as an equal one (`laws::printed_specification`).
/// Time O(length).
///
/// ```text
/// let spec = PkgSpec::from_str(alloc, "crates.io/foo#foo:1.2.3")?;
/// println!(rt; "{spec}")?; // cargo://crates.io/foo#1.2.3
/// ```
impl fmt::Display for PkgSpec {
    ghost output = { λ spec. Some (spec_text (spec_view spec)) };

    fn fmt<W: fmt::Write>(&self, f: &mut fmt::Formatter<W>) -> fmt::Result {
        if let Some(url) = &self.url {
            f.write_str(url.as_str())?;
            if after_last_slash(url.as_str()) == self.name.as_str() {
                return match &self.version {
                    Some(version) => write!(f, "#{version}"),
                    None => Ok(()),
                };
            }
            f.write_str("#")?;
        }
        f.write_str(self.name.as_str())?;
        match &self.version {
            Some(version) => write!(f, "@{version}"),
            None => Ok(()),
        }
    }
}

/// What follows the last `/` of a text, or all of it where it has none.
fn after_last_slash(text: &str) -> &str
    ensures { result.now ≡ printing.after_last_slash text.now }
{
    match cut_last(text, '/') {
        Some((_, piece)) => piece,
        None => text,
    }
}
