//! The words of facts about a build of a small document, and which words name none.

use crate::builds::Told;
use crate::of_build::{
    OfBuild, OfDerived, OfProgram, OfTables, PROGRAM, ToldOfDerived, ToldOfTables,
};
use krates_build_facts::BuildFact;
use krates_build_naming::{FactNames, fact_named, words_of};
use krates_grounding::Derived;
use krates_samples::table::{Row, hold, hold_lines};
use krates_text::text::Text;
use std::alloc::{AllocError, Global};
use std::test::Fail;

/// A document, and what is asked for; and the words of each fact that follows, in the order of facts.
static WRITTEN: &[Row] = &[(
    PROGRAM,
    "met|path+file:///w/a#0.1.0|root\n\
        met|path+file:///w/b#0.1.0|dependency\n\
        linked|path+file:///w/a#0.1.0|path+file:///w/b#0.1.0|normal|*|b\n\
        activated|path+file:///w/a#0.1.0|targets\n\
        activated|path+file:///w/b#0.1.0|targets\n\
        used|path+file:///w/a#0.1.0|path+file:///w/b#0.1.0|normal|*|b|targets\n\
        compiled|path+file:///w/a#0.1.0|bin|a|build|linux|targets\n\
        compiled|path+file:///w/b#0.1.0|lib|b|build|linux|targets\n\
        needed|path+file:///w/a#0.1.0|path+file:///w/b#0.1.0|normal|*|b|linux|path+file:///w/b#0.1.0|lib|b|build|linux|targets\n",
)];

/// Words, of which `A` and `B` are the ids of the crates; and the fact that they name, or the fault.
static READ: &str = r#"
met A root => Met(0, Root)
met B dependency => Met(1, Dependency)
activated B host => Activated(1, Host)
linked_feature A root std => LinkedFeature(0, Root, "std")
linked_reference A root weak b f => LinkedReference(0, Root, Weak("b", "f"))
activated_reference A host dep b  => ActivatedReference(0, Host, Krate("b"))
linked A B normal * b => Linked(LinkPlace { krate: 0, index: 0 })
// words that aren't there, or name nothing
 => Form(0)
Met A root => Form(0)
met => Missing(1)
met a root => Crate(1)
met A => Missing(2)
met A host => Meeting(2)
activated A root => Side(2)
linked_reference A root krate b - => Reference(3)
activated_reference A host dep b - => Reference(3)
linked B A normal * a => Link(1)
linked A B dev * b => Link(1)
linked A B normal cfg(unix) b => Link(1)
lost A normal * c => Lacking(1)
met B dependency and more => Further(3)
compiled A lib a build linux targets => Target(1)
compiled A bin a check linux targets => Mode(4)
compiled A bin a build windows targets => Platform(5)
"#;

/// What the words of facts are read against.
fn names_in<'a, 's>(of: Told<'a, 's>) -> FactNames<'s, 'a> {
    FactNames {
        ids: of.document.crate_ids(),
        tables: of.tables,
    }
}

/// Writes the words of a fact, or that it has none that name it.
fn push_words(
    told: &mut Text,
    names: &FactNames<'_, '_>,
    fact: &BuildFact<'_>,
) -> Result<(), Fail> {
    let words = words_of(told.allocator(), names, fact)?.ok_or("it has no words")?;
    for (number, word) in words.iter().enumerate() {
        let between = if number == 0 { "" } else { "|" };
        write!(told, "{between}{word}");
    }
    told.push_str("\n");
    Ok(())
}

/// The words of each fact that follows.
struct Written;

impl ToldOfDerived for Written {
    fn push<'a>(
        told: &mut Text,
        of: Told<'a, '_>,
        _derived: &Derived<'a>,
        facts: &[BuildFact<'a>],
    ) -> Result<(), Fail> {
        let names = names_in(of);
        for fact in facts {
            push_words(told, &names, fact)?;
        }
        Ok(())
    }
}

/// The words of a line.
fn words_in(alloc: Global, line: &str) -> Result<Vec<String>, AllocError> {
    let mut words = Vec::new(alloc);
    for word in line.split(' ') {
        let word = match word {
            "A" => String::from_str(alloc, "path+file:///w/a#0.1.0")?,
            "B" => String::from_str(alloc, "path+file:///w/b#0.1.0")?,
            _ => word.replace(alloc, "_", " ")?,
        };
        words.push(word)?;
    }
    Ok(words)
}

/// The fact that words name.
struct Named;

impl ToldOfTables for Named {
    fn push(told: &mut Text, of: Told<'_, '_>, line: &str) -> Result<(), Fail> {
        let words = words_in(told.allocator(), line)?;
        match fact_named(&names_in(of), &words) {
            Ok(fact) => write!(told, "{fact:?}"),
            Err(fault) => write!(told, "{fault:?}"),
        }
        Ok(())
    }
}

#[test]
fn facts_have_words(rt: HostRuntime) -> Result<(), Fail> {
    hold::<OfBuild<OfDerived<Written>>>(rt.alloc(), WRITTEN)
}

#[test]
fn words_name_facts(rt: HostRuntime) -> Result<(), Fail> {
    hold_lines::<OfProgram<OfTables<Named>>>(rt.alloc(), READ)
}
