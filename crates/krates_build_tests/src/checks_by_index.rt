//! Both checks by a builder with an index: what it adds to the features of a package counts, and without it doesn't.

use crate::indexed::answer_of;
use crate::lists::{Ask, Facts, Given, List, OfLine, Steps, list_in};
use krates::Builder;
use krates_ids::CachingIndex;
use krates_samples::documents::section;
use krates_samples::table::hold_lines;
use krates_text::text::Text;
use std::test::Fail;

/// Adds what the check of the list of a line answers with an index, and without it.
fn push_both<L: List>(
    told: &mut Text,
    given: &Given<'_, Builder>,
    index: &CachingIndex,
    line: &str,
) -> Result<(), Fail> {
    L::push_by_builder(told, given, Some(index), list_in::<L>(line))?;
    told.push_str(", without ");
    L::push_by_builder(told, given, None, list_in::<L>(line))
}

/// What the check of the list of a line answers with the index of the line, and without it.
struct ByIndex<L> {
    list: L,
}

impl<L: List> Ask for ByIndex<L> {
    type Set = Builder;

    fn push(told: &mut Text, given: &Given<'_, Builder>, line: &str) -> Result<(), Fail> {
        let answer = answer_of(given.alloc, section(line, "index ").unwrap_or(""))?;
        push_both::<L>(told, given, &CachingIndex { answer }, line)
    }
}

static STEPS: &str = "
// the index knows that the default feature of the crate names another
a b!|b@1.0.0&crates.io / nodes a b@1.0.0&crates.io|b@1.0.0&crates.io;default std / index b@1.0.0 default=std / steps 1 +a; 5 a>b@1.0.0&crates.io 0; 6 b@1.0.0&crates.io/default 1; 3 b@1.0.0&crates.io/std 2 => yes, without step 3
// it knows another version, or the crate isn't of its registry
a b!|b@1.0.0&crates.io / nodes a b@1.0.0&crates.io|b@1.0.0&crates.io;default std / index b@1.0.1 default=std / steps 1 +a; 5 a>b@1.0.0&crates.io 0; 6 b@1.0.0&crates.io/default 1; 3 b@1.0.0&crates.io/std 2 => step 3, without step 3
a b!|b@1.0.0 / nodes a b@1.0.0|b@1.0.0;default std / index b@1.0.0 default=std / steps 1 +a; 5 a>b@1.0.0 0; 6 b@1.0.0/default 1; 3 b@1.0.0/std 2 => step 3, without step 3
a / no graph / index a@1.0.0 x= / steps => document, without document
";

// An index only adds features, so a list that is closed with it is closed without it.
static FACTS: &str = "
a b!|b@1.0.0&crates.io / nodes a b@1.0.0&crates.io|b@1.0.0&crates.io;default std / index b@1.0.0 default=std / facts +a a>b@1.0.0&crates.io +b@1.0.0&crates.io b@1.0.0&crates.io/default b@1.0.0&crates.io/std => yes, without yes
a b!|b@1.0.0&crates.io / nodes a b@1.0.0&crates.io|b@1.0.0&crates.io;default std / index b@1.0.0 default=std / facts +a a>b@1.0.0&crates.io +b@1.0.0&crates.io b@1.0.0&crates.io/default => open, without yes
// and what it names may be lost
a b!|b@1.0.0&crates.io / nodes a b@1.0.0&crates.io|b@1.0.0&crates.io;default / index b@1.0.0 default=std / facts +a a>b@1.0.0&crates.io +b@1.0.0&crates.io b@1.0.0&crates.io/default => open, without yes
a / no graph / index a@1.0.0 x= / facts +a => document, without document
";

#[test]
fn lists_by_an_index(rt: HostRuntime) -> Result<(), Fail> {
    hold_lines::<OfLine<ByIndex<Steps>>>(rt.alloc(), STEPS)?;
    hold_lines::<OfLine<ByIndex<Facts>>>(rt.alloc(), FACTS)
}
