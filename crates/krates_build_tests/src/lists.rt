//! The two kinds of lists that the checkers are asked about, and what is given with them.

use crate::facts::push_answer;
use crate::real_documents::metadata_of;
use krates::Builder;
use krates_cm::Metadata;
use krates_document::Setting;
use krates_ids::CachingIndex;
use krates_samples::documents::section;
use krates_samples::facts::{facts_of, steps_of};
use krates_samples::table::Tell;
use krates_text::text::Text;
use std::alloc::Global;
use std::test::Fail;

/// What the sections of a line set.
pub(crate) trait Sections: Sized + Drop {
    /// What those of this line set.
    fn of_line(alloc: Global, line: &str) -> Result<Self, Fail>;
}

/// A document, and what is set.
#[derive(Drop)]
pub(crate) struct Given<'a, S: Drop> {
    pub(crate) alloc: Global,
    pub(crate) metadata: &'a Metadata,
    pub(crate) set: &'a S,
}

/// What is asked of a document under what is set.
pub(crate) trait Ask {
    /// What is set.
    type Set: Sections;

    /// Adds the answer to a line.
    fn push(told: &mut Text, given: &Given<'_, Self::Set>, line: &str) -> Result<(), Fail>;
}

/// What is asked of the document of a line under what its sections set.
pub(crate) struct OfLine<A> {
    asked: A,
}

impl<A: Ask> Tell for OfLine<A> {
    fn tell(told: &mut Text, line: &str) -> Result<(), Fail> {
        let alloc = told.allocator();
        let metadata = metadata_of(alloc, line)?;
        let set: A::Set = Sections::of_line(alloc, line)?;
        let given = Given {
            alloc,
            metadata: &metadata,
            set: &set,
        };
        A::push(told, &given, line)
    }
}

/// A kind of list, which has a checker.
pub(crate) trait List {
    /// The section of a line that has the list.
    const SECTION: &'static str;

    /// Adds what the check answers of the list of a text under a setting, without an index.
    fn push_by_setting(told: &mut Text, given: &Given<'_, Setting>, text: &str) -> Result<(), Fail>;

    /// Adds what the check answers of the list of a text by a builder, with an index or without one.
    fn push_by_builder(
        told: &mut Text,
        given: &Given<'_, Builder>,
        index: Option<&CachingIndex>,
        text: &str,
    ) -> Result<(), Fail>;
}

/// The list of a line, as the text of its section.
pub(crate) fn list_in<L: List>(line: &str) -> &str {
    section(line, L::SECTION).unwrap_or("")
}

/// Lists of steps.
pub(crate) struct Steps;

impl List for Steps {
    const SECTION: &'static str = "steps";

    fn push_by_setting(
        told: &mut Text,
        given: &Given<'_, Setting>,
        text: &str,
    ) -> Result<(), Fail> {
        let steps = steps_of(given.alloc, text)?;
        let answer = krates_checkers::check(given.alloc, given.metadata, given.set, None, &steps);
        push_answer(told, answer);
        Ok(())
    }

    fn push_by_builder(
        told: &mut Text,
        given: &Given<'_, Builder>,
        index: Option<&CachingIndex>,
        text: &str,
    ) -> Result<(), Fail> {
        let steps = steps_of(given.alloc, text)?;
        push_answer(
            told,
            krates::derive::check(given.metadata, given.set, index, &steps),
        );
        Ok(())
    }
}

/// Lists of facts.
pub(crate) struct Facts;

impl List for Facts {
    const SECTION: &'static str = "facts";

    fn push_by_setting(
        told: &mut Text,
        given: &Given<'_, Setting>,
        text: &str,
    ) -> Result<(), Fail> {
        let facts = facts_of(given.alloc, text)?;
        push_answer(
            told,
            krates_checkers::check_closed(given.alloc, given.metadata, given.set, None, &facts),
        );
        Ok(())
    }

    fn push_by_builder(
        told: &mut Text,
        given: &Given<'_, Builder>,
        index: Option<&CachingIndex>,
        text: &str,
    ) -> Result<(), Fail> {
        let facts = facts_of(given.alloc, text)?;
        push_answer(
            told,
            krates::derive::check_closed(given.metadata, given.set, index, &facts),
        );
        Ok(())
    }
}

/// What the check of the list of a line answers.
pub(crate) struct Checked<L> {
    list: L,
}

impl<L: List> Ask for Checked<L> {
    type Set = Setting;

    fn push(told: &mut Text, given: &Given<'_, Setting>, line: &str) -> Result<(), Fail> {
        L::push_by_setting(told, given, list_in::<L>(line))
    }
}
