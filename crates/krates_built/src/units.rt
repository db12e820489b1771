//! What cargo builds.
ghost use Rattle.std.specs.Prelude.{◌≡◌, ◌↔◌, IfErr, IfOk, IsTrue, map};
ghost use Rattle.std.specs.Cmp.Lexicographic.{slice_cmp};
ghost use Rattle.std.specs.Ordering.{nat_cmp};
ghost use Rattle.krates_build_tables.specs.CrateParts.{AreTablesOf};
ghost use Rattle.krates_built.specs.BuildLists.{IsListOf, IsListed};
ghost use Rattle.krates_built.specs.Refusals.{IsRefusal};
ghost use Rattle.krates_build_facts.specs.FactModels.{ActivatedFeature, ActivatedName};
ghost use Rattle.krates_build_facts.specs.Meanings.{Follows};
ghost use Rattle.krates_questions.specs.Lookup.{resolved_view};
ghost use Rattle.krates_rules.specs.Facts.{Id};
ghost use Rattle.krates_rules.specs.Resolved.{id_of};
ghost use Rattle.krates_units.specs.Answered.{IsAnswered};
ghost use Rattle.krates_units.specs.BuildSetting.{build_setting_view};
ghost use Rattle.krates_units.specs.Built.{IsComplete};
ghost use Rattle.krates_units.specs.VisitOrder.{DependsOnOrder};

use crate::features::names_of;
use crate::listed::{Listed, listed_of};
use crate::not_built::NotBuilt;
use crate::places::{FeaturePlace, NeedPlace, RunNeedPlace, RunPlace, ScriptPlace};
use crate::refusal::refusal;
use krates_build_facts::{BuildFact, UnitPlace, laws};
use krates_build_tables::Tables;
use krates_build_tables::unanswered::first_unanswered;
use krates_grounding::Derived;
use krates_questions::Document;
use krates_units::{BuildSetting, Side};
use std::alloc::{AllocError, Global};
use std::marker::Model;

/// What cargo builds: each list is in ascending order, by the numbers and places of the tables, and has each element once.
#[derive(Drop)]
pub struct Units<'a> {
    listed: Listed<'a>,
}

impl<'a> Model for Units<'a> {
    ghost use Rattle.krates_built.specs.BuildLists.{IsListed};
    ghost use Rattle.krates_built.specs.contracts.listed.Listed as told;
    ghost use Rattle.krates_built.specs.declared.listed.Listed.{Listed};
    ghost use Rattle.krates_grounding.specs.Numbers.{at_any};
    ghost use Rattle.std.specs.Coded.{codes};

    ghost Value = { Listed };

    ghost coded = { Prim.hlevel (codes, (told.the_row at_any).coded) };

    ghost view = { λ u. u.listed };

    ghost invariant = { λ u. IsListed u.listed };
}

impl<'a> Units<'a> {
    /// What always holds: the lists have exactly what follows from the tables.
    pub fn agrees(&self)
        ensures { IsListed self.now }
    {
        let _ = &self.listed;
    }

    /// The tables of the document and the build, which say what is at each number and place. Time O(1).
    pub fn tables(&self) -> &Tables<'a>
        ensures { result.now ≡ self.now.derived }
    {
        self.listed.derived.tables()
    }

    /// What follows, from which the lists are. Time O(1).
    pub fn derived(&self) -> &Derived<'a>
        ensures { result.now ≡ self.now.derived }
    {
        &self.listed.derived
    }

    /// The units that are compiled: targets of crates, each in a mode, by what they are compiled for. Build scripts aren't among them. Time
    /// O(1).
    pub fn units(&self) -> &[UnitPlace]
        ensures { result.now ≡ self.now.lists.units.items }
    {
        &self.listed.lists.units
    }

    /// The build scripts that are compiled, each with the side of its features. Time O(1).
    pub fn scripts(&self) -> &[ScriptPlace]
        ensures { result.now ≡ self.now.lists.scripts.items }
    {
        &self.listed.lists.scripts
    }

    /// The runs of build scripts, each with what it is run for. Time O(1).
    pub fn runs(&self) -> &[RunPlace]
        ensures { result.now ≡ self.now.lists.runs.items }
    {
        &self.listed.lists.runs
    }

    /// The libraries that are needed, by the links over which they are. Time O(1).
    pub fn needs(&self) -> &[NeedPlace]
        ensures { result.now ≡ self.now.lists.needs.items }
    {
        &self.listed.lists.needs
    }

    /// The runs that runs of build scripts need, by the links over which they do. Time O(1).
    pub fn run_needs(&self) -> &[RunNeedPlace]
        ensures { result.now ≡ self.now.lists.run_needs.items }
    {
        &self.listed.lists.run_needs
    }

    /// The features that are enabled, also of crates that aren't compiled. Time O(1).
    pub fn features(&self) -> &[FeaturePlace<'a>]
        ensures { result.now ≡ self.now.lists.features.items }
    {
        &self.listed.lists.features
    }

    /// The names of the features of the crate with that number, on that side, in ascending order. By the first resolver all features are on
    /// the side of the targets. The only error is running out of memory. Time O(n) for n features that are enabled.
    ///
    /// ```text
    /// let names = units.features_of(alloc, unit.target.krate, Side::Targets)?;
    /// ```
    pub fn features_of(
        &self,
        alloc: Global,
        krate: usize,
        side: Side,
    ) -> Result<Vec<&'a str>, AllocError>
        ensures { IfOk result (λ names. IsListOf self.now.derived (ActivatedFeature krate side)
            (slice_cmp nat_cmp) (map (λ n. n.now) names.items)) }
    {
        self.agrees();
        let names = names_of(alloc, &self.listed.lists.features, krate, side)?;
        Ok(names)
    }

    /// Whether the feature of the crate with that number is enabled, on that side. By the first resolver all features are on the side of the
    /// targets. Takes no memory. Time O(log n) in the facts that may follow.
    pub fn is_feature(&self, krate: usize, side: Side, name: &'a str) -> bool
        ensures { IsTrue result ↔ Follows self.now.derived (ActivatedFeature krate side name.now) }
    {
        let feature = BuildFact::ActivatedFeature(krate, side, name);
        self.listed.derived.holds(&feature)
    }

    /// Whether the dependencies of this name are turned on, of the crate with that number and for the features of that side. Takes no memory.
    /// Time O(log n) in the facts that may follow.
    pub fn is_turned_on(&self, krate: usize, side: Side, name: &'a str) -> bool
        ensures { IsTrue result ↔ Follows self.now.derived (ActivatedName krate side name.now) }
    {
        let dependencies = BuildFact::ActivatedName(krate, side, name);
        self.listed.derived.holds(&dependencies)
    }
}

/// What cargo builds for a document and a build.
///
/// It is refused as `NamesNothing` where a request names nothing, which gives the first as `first_unanswered` does; otherwise as `Lost` where
/// the document has no edge for a dependency that the build needs, which names the first of these by the number of its crate and by its
/// place there; otherwise as `DependsOnOrder` where the dependencies of a build script depend on the order of cargo's
/// visits, which names the first such crate by number. It may instead return `Memory`. Time as `tables_of`, and O(n log n) for n instances of
/// rules that begin with facts that may follow; and where dependencies of build scripts differ, that of all features for each of these.
///
/// ```text
/// let units = units_of(alloc, &document, &setting)?;
/// for unit in units.units() {
///     println!(rt; "{unit:?}")?;
/// }
/// ```
pub fn units_of<'a>(
    alloc: Global,
    document: &Document<'a>,
    setting: &'a BuildSetting,
) -> Result<Units<'a>, NotBuilt<'a>>
    ensures tables { IfOk result (λ built. AreTablesOf (resolved_view document.now)
        (build_setting_view setting.now) (map id_of document.now.ids.now.table.ids.items) built.derived) }
    ensures lists { IfOk result IsListed }
    ensures answered { IfOk result (λ _. IsAnswered (resolved_view document.now)
        (build_setting_view setting.now)) }
    ensures complete { IfOk result (λ _. IsComplete (resolved_view document.now)
        (build_setting_view setting.now)) }
    ensures settled { IfOk result (λ _. (i : Id) → ¬ DependsOnOrder (resolved_view document.now)
        (build_setting_view setting.now) i) }
    ensures refused { IfErr result (IsRefusal (resolved_view document.now) (build_setting_view setting.now)
        (map id_of document.now.ids.now.table.ids.items)) }
{
    laws::meaning();
    refuse_unanswered(alloc, document, setting)?;
    let listed = listed_of(alloc, document, setting)?;
    match refusal(document, &listed) {
        Some(refusal) => Err(refusal),
        None => Ok(Units { listed }),
    }
}

/// Refuses a build of which a request names nothing.
fn refuse_unanswered<'a>(
    alloc: Global,
    document: &Document<'a>,
    setting: &'a BuildSetting,
) -> Result<(), NotBuilt<'a>>
    ensures answered { IfOk result (λ _. IsAnswered (resolved_view document.now)
        (build_setting_view setting.now)) }
    ensures refused { IfErr result (IsRefusal (resolved_view document.now) (build_setting_view setting.now)
        (map id_of document.now.ids.now.table.ids.items)) }
{
    match first_unanswered(alloc, document, setting)? {
        Some(request) => Err(NotBuilt::NamesNothing(request)),
        None => Ok(()),
    }
}
