//! What a build derives, with its lists.
ghost use Rattle.std.specs.Prelude.{IfOk, map};
ghost use Rattle.krates_build_tables.specs.CrateParts.{AreTablesOf};
ghost use Rattle.krates_built.specs.BuildLists.{AreListsIn, IsListed};
ghost use Rattle.krates_questions.specs.Lookup.{resolved_view};
ghost use Rattle.krates_rules.specs.Resolved.{id_of};
ghost use Rattle.krates_units.specs.BuildSetting.{build_setting_view};

use crate::lists::{Lists, lists_of};
use krates_build_tables::tables_of::tables_of;
use krates_grounding::Derived;
use krates_questions::Document;
use krates_units::BuildSetting;
use std::alloc::{AllocError, Global};

/// What a build derives, with a list of each kind.
#[derive(Drop)]
pub struct Listed<'a> {
    /// What is derived.
    pub derived: Derived<'a>,
    /// The lists.
    pub lists: Lists<'a>,
}

/// What a build of a document derives, in ascending order.
pub(crate) fn listed_of<'a>(
    alloc: Global,
    document: &Document<'a>,
    setting: &'a BuildSetting,
) -> Result<Listed<'a>, AllocError>
    ensures tables { IfOk result (λ listed. AreTablesOf (resolved_view document.now)
        (build_setting_view setting.now) (map id_of document.now.ids.now.table.ids.items) listed.derived) }
    ensures lists { IfOk result IsListed }
{
    let tables = tables_of(alloc, document, setting)?;
    let derived = Derived::of(alloc, tables)?;
    let lists = lists_in(alloc, &derived)?;
    Ok(Listed { derived, lists })
}

/// The lists of what is derived.
fn lists_in<'a>(alloc: Global, derived: &Derived<'a>) -> Result<Lists<'a>, AllocError>
    ensures { IfOk result (AreListsIn derived.now) }
{
    let facts = derived.facts(alloc)?;
    let lists = lists_of(alloc, &facts)?;
    Ok(lists)
}
