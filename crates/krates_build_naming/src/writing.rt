//! Words for facts.

ghost use Rattle.std.specs.Prelude.{◌≡◌, ◌↔◌, IfNone, IfOk, IfSome, IsFalse, IsTrue, map, string_bytes};
ghost use Rattle.krates_build_facts.specs.FactModels.{fact_view};
ghost use Rattle.krates_build_naming.specs.FactWords.{IsNameless, Name, fact_words};

use crate::fact::fact_named;
use crate::names::FactNames;
use crate::written_facts::fact_words;
use krates_build_facts::BuildFact;
use std::alloc::{AllocError, Global};

/// Words that name the fact, as `fact_named` reads them.
///
/// There are none exactly where no words name it: where a number or a place is not one of the tables, or where an earlier crate, machine,
/// link or target is named alike. The only error is running out of memory. Time: that of `fact_named`.
///
/// ```text
/// if let Some(words) = words_of(alloc, &names, &fact)? {
///     let same = fact_named(&names, &words)?;
/// }
/// ```
pub fn words_of(
    alloc: Global,
    names: &FactNames<'_, '_>,
    fact: &BuildFact<'_>,
) -> Result<Option<Vec<String>>, AllocError>
    ensures named { IfOk result (λ found. IfSome found (λ words.
        Name names.now (map string_bytes words.items) (fact_view fact.now))) }
    ensures nameless { IfOk result (λ found. IfNone found (IsNameless names.now (fact_view fact.now))) }
{
    let words = fact_words(alloc, names, fact)?;
    if has_name(names, &words, fact) {
        return Ok(Some(words));
    }
    Ok(None)
}

/// Whether those words name the fact that are written for it. If they don't, no words do.
fn has_name(names: &FactNames<'_, '_>, words: &[String], fact: &BuildFact<'_>) -> bool
    requires { map string_bytes words.now ≡ fact_words names.now (fact_view fact.now) }
    ensures named { IsTrue result → Name names.now (map string_bytes words.now) (fact_view fact.now) }
    ensures nameless { IsFalse result → IsNameless names.now (fact_view fact.now) }
{
    is_named(names, words, fact)
}

/// Whether words name the fact.
fn is_named(names: &FactNames<'_, '_>, words: &[String], fact: &BuildFact<'_>) -> bool
    ensures { IsTrue result
        ↔ Name names.now (map string_bytes words.now) (fact_view fact.now) }
{
    match fact_named(names, words) {
        Ok(named) => is_same(&named, fact),
        Err(_) => false,
    }
}

/// Whether two facts are the same.
fn is_same(fact: &BuildFact<'_>, other: &BuildFact<'_>) -> bool
    ensures { IsTrue result ↔ (fact_view fact.now ≡ fact_view other.now) }
{
    fact.cmp(other).is_eq()
}
