//! Texts that are written without an error at each write.

use krates_samples::table::{Row, Tell, hold};
use krates_text::text::Text;
use std::alloc::AllocError;
use std::fmt;
use std::test::Fail;

/// Words, and the text to which they are added one after another, each with a line break and a dash before it; a `?` is a value that can't be
/// printed.
static WRITTEN: &[Row] = &[
    ("a", "\n-a"),
    ("a bc", "\n-a\n-bc"),
    ("a ?", "not whole"),
    ("? a", "not whole"),
];

/// A value that can't be printed.
#[derive(Clone, Copy)]
struct Unprintable;

impl fmt::Display for Unprintable {
    fn fmt<W: fmt::Write>(&self, _: &mut fmt::Formatter<W>) -> fmt::Result {
        Err(fmt::Error)
    }
}

/// Adds a word.
fn add(text: &mut Text, word: &str) {
    if word == "?" {
        text.write_fmt(Unprintable);
    } else {
        writeln!(text);
        text.push_str("-");
        text.write_fmt(word);
    }
}

/// The text to which the words of a line are added, or that it isn't whole.
struct Written;

impl Tell for Written {
    fn tell(told: &mut Text, line: &str) -> Result<(), Fail> {
        let mut text = Text::new(told.allocator());
        for word in line.split(' ') {
            add(&mut text, word);
        }
        match text.whole() {
            Ok(whole) => told.push_str(whole.as_str()),
            Err(AllocError) => told.push_str("not whole"),
        }
        Ok(())
    }
}

#[test]
fn is_whole_or_refused(rt: HostRuntime) -> Result<(), Fail> {
    hold::<Written>(rt.alloc(), WRITTEN)
}
