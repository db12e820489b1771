//! A document that is larger than any number in the sources.

use crate::documents::document;
use krates_text::text::Text;
use std::alloc::Global;
use std::ops::Range;
use std::test::Fail;

/// The numbers of many packages.
pub const PACKAGES: Range<u32> = 1_000..3_000;

/// The numbers of many features, of which each names the next.
pub const FEATURES: Range<u32> = 1_000..6_000;

/// The number of bytes of a long name.
const BYTES: usize = 70_000;

/// A long name.
pub fn long_name(alloc: Global) -> Result<String, Fail> {
    Ok("x".repeat(alloc, BYTES)?)
}

/// Adds the name of each of the many packages, between these texts.
pub fn push_names(text: &mut Text, before: &str, after: &str) {
    for number in PACKAGES {
        write!(text, "{before}b{number}{after}");
    }
}

/// Adds the many features.
pub fn push_features(line: &mut Text) {
    for number in FEATURES {
        write!(line, "f{number}=f{} ", number.saturating_add(1));
    }
}

/// Adds the many features of the member `a`, the many packages and one of a long name, which it needs, and `z`, which nobody needs.
fn push_packages(line: &mut Text, long: &str) {
    line.push_str("a");
    push_names(line, " ", "");
    write!(line, " {long};");
    push_features(line);
    line.push_str("f6000=");
    push_names(line, "|", "");
    write!(line, "|{long}|z");
}

/// The text of a document of these packages.
pub fn large_document(alloc: Global) -> Result<String, Fail> {
    let long = long_name(alloc)?;
    let mut line = Text::new(alloc);
    push_packages(&mut line, long.as_str());
    document(alloc, line.whole()?.as_str())
}
