//! The declared dependencies of a crate that the document has no edge for.

ghost use Rattle.std.specs.Prelude.{◌≡◌, IfOk, map};
ghost use Rattle.krates_cm.specs.Document.{dependency_view};
ghost use Rattle.krates_questions.specs.Lookup.{resolved_view};
ghost use Rattle.krates_rules.specs.Resolved.{id_of};
ghost use Rattle.krates_build_tables.specs.Entries.{AreLackingEntries};
ghost use Rattle.krates_build_tables.specs.TablesOf.{AreLackingOf, LackingSays};

use crate::package_names::declared_name;
use crate::pairs::unresolved_of;
use crate::pushing::push;
use crate::tables::Lacking;
use krates_cm::Dependency;
use krates_ids::Kid;
use krates_questions::Document;
use std::alloc::{AllocError, Global};

/// What is lacking of the crate with this number and this id.
pub(crate) fn lacking_of<'a>(
    alloc: Global,
    document: &Document<'a>,
    number: usize,
    krate: &Kid,
) -> Result<Vec<Lacking<'a>>, AllocError>
    ensures { IfOk result (λ lacking.
        AreLackingOf (resolved_view document.now) number (id_of krate.now) lacking.items) }
{
    let unresolved = unresolved_of(alloc, document, krate)?;
    entries_of(alloc, number, &unresolved)
}

/// The entries of these dependencies, of the crate with this number.
fn entries_of<'a>(
    alloc: Global,
    number: usize,
    unresolved: &[&'a Dependency],
) -> Result<Vec<Lacking<'a>>, AllocError>
    ensures { IfOk result (λ entries.
        AreLackingEntries number (map (λ d. dependency_view d.now) unresolved.now) entries.items) }
{
    let mut entries = Vec::new(alloc);
    for declared in unresolved {
        let entry = entry_of(number, entries.len(), declared);
        push(&mut entries, entry)?;
    }
    Ok(entries)
}

/// The entry of a dependency.
fn entry_of<'a>(krate: usize, index: usize, declared: &'a Dependency) -> Lacking<'a>
    ensures says { LackingSays result (dependency_view declared.now) }
    ensures krate { result.krate ≡ krate }
    ensures index { result.index ≡ index }
{
    Lacking {
        krate,
        index,
        declared,
        kind: declared.kind,
        name: declared_name(declared),
        is_optional: declared.optional,
    }
}
