//! Questions to the build of a line's document. What has to be read, admitted and derived first may fail, and is owned: one function for each
//! of these does so for all tests, and a test's own part borrows what it asks.

use crate::builds::{Told, setting_of};
use krates_build_facts::BuildFact;
use krates_build_tables::tables_of::tables_of;
use krates_built::{Units, units_of};
use krates_cm::Metadata;
use krates_document::admission::admit;
use krates_grounding::Derived;
use krates_questions::Document;
use krates_samples::table::Tell;
use krates_samples::targets::document_of;
use krates_text::text::Text;
use krates_units::BuildSetting;
use std::alloc::AllocError;
use std::marker::PhantomData;
use std::test::Fail;

/// The program `a`, which depends on the library `b`.
pub(crate) const PROGRAM: &str = "a b|b / targets a:bin b:lib / build 2";

/// What is asked of a document that is admitted, and of what is to be built of it.
pub(crate) trait ToldOfBuild<S> {
    /// Adds what is answered to these words.
    fn push<'a>(
        told: &mut Text,
        document: &Document<'a>,
        asked: &'a S,
        words: &str,
    ) -> Result<(), Fail>;
}

/// Adds what is answered to these words of a document, once it is admitted.
pub(crate) fn push_admitted<S, T: ToldOfBuild<S>>(
    told: &mut Text,
    metadata: &Metadata,
    asked: &S,
    words: &str,
) -> Result<(), Fail> {
    let ids = admit(told.allocator(), metadata)?;
    let document = Document::new(told.allocator(), metadata, &ids)?;
    T::push(told, &document, asked, words)
}

/// Adds what is answered to these words of a document and of what a line asks for.
pub(crate) fn push_asked<T: ToldOfBuild<BuildSetting>>(
    told: &mut Text,
    metadata: &Metadata,
    line: &str,
    words: &str,
) -> Result<(), Fail> {
    let setting = setting_of(told.allocator(), line)?;
    let pushed = push_admitted::<BuildSetting, T>(told, metadata, &setting, words);
    drop(setting);
    pushed
}

/// Adds what is answered to these words of a line's document and of what the line asks for.
pub(crate) fn push_told<T: ToldOfBuild<BuildSetting>>(
    told: &mut Text,
    line: &str,
    words: &str,
) -> Result<(), Fail> {
    let metadata = document_of(told.allocator(), line)?;
    let pushed = push_asked::<T>(told, &metadata, line, words);
    metadata.let_go();
    pushed
}

/// What is told of the build of each line's own document.
pub(crate) struct OfBuild<T: ToldOfBuild<BuildSetting>> {
    of: PhantomData<T>,
}

impl<T: ToldOfBuild<BuildSetting>> Tell for OfBuild<T> {
    fn tell(told: &mut Text, line: &str) -> Result<(), Fail> {
        push_told::<T>(told, line, line)
    }
}

/// What is told of the build of the one program, whose questions are the lines.
pub(crate) struct OfProgram<T: ToldOfBuild<BuildSetting>> {
    of: PhantomData<T>,
}

impl<T: ToldOfBuild<BuildSetting>> Tell for OfProgram<T> {
    fn tell(told: &mut Text, line: &str) -> Result<(), Fail> {
        push_told::<T>(told, PROGRAM, line)
    }
}

/// What is asked of the tables of a build.
pub(crate) trait ToldOfTables {
    /// Adds what is answered to these words.
    fn push(told: &mut Text, of: Told<'_, '_>, words: &str) -> Result<(), Fail>;
}

/// What is told of the tables of a build.
pub(crate) struct OfTables<T: ToldOfTables> {
    of: PhantomData<T>,
}

impl<T: ToldOfTables> ToldOfBuild<BuildSetting> for OfTables<T> {
    fn push<'a>(
        told: &mut Text,
        document: &Document<'a>,
        asked: &'a BuildSetting,
        words: &str,
    ) -> Result<(), Fail> {
        let tables = tables_of(told.allocator(), document, asked)?;
        let of = Told {
            document,
            tables: &tables,
        };
        T::push(told, of, words)
    }
}

/// What is asked of the facts that are derived of a build.
pub(crate) trait ToldOfDerived {
    /// Adds what is answered.
    fn push<'a>(
        told: &mut Text,
        of: Told<'a, '_>,
        derived: &Derived<'a>,
        facts: &[BuildFact<'a>],
    ) -> Result<(), Fail>;
}

/// What is told of the facts that are derived of a build.
pub(crate) struct OfDerived<T: ToldOfDerived> {
    of: PhantomData<T>,
}

impl<T: ToldOfDerived> ToldOfBuild<BuildSetting> for OfDerived<T> {
    fn push<'a>(
        told: &mut Text,
        document: &Document<'a>,
        asked: &'a BuildSetting,
        _words: &str,
    ) -> Result<(), Fail> {
        let tables = tables_of(told.allocator(), document, asked)?;
        let derived = Derived::of(told.allocator(), tables)?;
        let facts = derived.facts(told.allocator())?;
        let of = Told {
            document,
            tables: derived.tables(),
        };
        T::push(told, of, &derived, &facts)
    }
}

/// What is asked of the lists of a build.
pub(crate) trait ToldOfUnits {
    /// Adds what is answered.
    fn push(told: &mut Text, of: Told<'_, '_>, units: &Units<'_>) -> Result<(), AllocError>;
}

/// What is told of the lists of a build, or the text of the refusal.
pub(crate) struct OfUnits<T: ToldOfUnits> {
    of: PhantomData<T>,
}

/// Adds what is told of lists.
fn push_units<'a, T: ToldOfUnits>(
    told: &mut Text,
    document: &Document<'a>,
    units: Units<'a>,
) -> Result<(), AllocError> {
    let of = Told {
        document,
        tables: units.tables(),
    };
    let pushed = T::push(told, of, &units);
    drop(units);
    pushed
}

impl<T: ToldOfUnits> ToldOfBuild<BuildSetting> for OfUnits<T> {
    fn push<'a>(
        told: &mut Text,
        document: &Document<'a>,
        asked: &'a BuildSetting,
        _words: &str,
    ) -> Result<(), Fail> {
        match units_of(told.allocator(), document, asked) {
            Ok(units) => push_units::<T>(told, document, units)?,
            Err(refusal) => write!(told, "{refusal}"),
        }
        Ok(())
    }
}
