//! The numbers of the kept crates, and numbered facts by them.

ghost use Rattle.std.proofs.Props.{props};
ghost use Rattle.std.specs.List.Sorted.{IsStrictlySortedBy};
ghost use Rattle.std.specs.Prelude.{map};
ghost use Rattle.krates_document.specs.CrateTable.{AreNumbersOf};
ghost use Rattle.krates_document.specs.NumberedOnce.{numbers_once};
ghost use Rattle.krates_ids.specs.Identity.{id_cmp};
ghost use Rattle.krates_rules.specs.Resolved.{id_of};

use crate::key::{FeatureKey, KeptEdgeKey, KeptFactKey, ToggleKey};
use crate::trace::{NumberedFact, NumberedStep};
use krates_cm::DepKindInfo;
use krates_ids::{Kid, laws};
use krates_questions::NodePlace;
use krates_questions::context::Context;
use krates_questions::feature_table::listed_feature;
use krates_questions::lookup::at_number;
use krates_questions::node_entry::{child_number_at, node_number};
use krates_rules::DepKind;
use std::alloc::AllocError;

/// The kept crates of a document under a setting, in the order of their ids, by the numbers that they have in the document.
#[derive(Clone, Copy)]
pub struct KeptTables<'a, 's> {
    /// The document and the setting.
    pub context: Context<'a, 's>,
    /// The kept crates.
    pub krates: &'s [Kid],
    /// By the number of a crate in the document, its number among the kept ones, where it is kept.
    pub numbers: &'s [Option<usize>],
    /// The kept crates are in order, each once.
    pub ghost ascending: { IsStrictlySortedBy id_cmp krates.now } by { Prim.hlevel props },
    /// The numbers are those among them of the crates of the document.
    pub ghost numbered: { AreNumbersOf (map id_of krates.now) context.document.now.ids.now.table.ids.items numbers.now } by { numbers_once _ _ _ },
}

impl<'a, 's> KeptTables<'a, 's> {
    ghost use Rattle.std.specs.Prelude.{◌≡◌, IfOk};
    ghost use Rattle.std.specs.List.{AllZip};
    ghost use Rattle.krates_cm.specs.Document.{dep_kind_info_view};
    ghost use Rattle.krates_selection.specs.KeptTables.{AreKeptFacts, IsChildAt, IsEdgeIn, IsFeatureIn, IsKeptChild, IsKeptEdge, IsKeptFact, IsKeptFeature, IsKeptNode, IsKeyOf, IsNumberAt, document_in, numbered_facts};
    ghost use Rattle.krates_selection.specs.Trace.{EdgeAt};
    ghost use Rattle.krates_rules.specs.Facts.{Edge};
    ghost use Rattle.krates_rules.specs.Questions.{kind_info_of};

    /// These kept crates, which are in order, with the numbers among them of the crates of the document.
    pub fn new(
        context: Context<'a, 's>,
        krates: &'s [Kid],
        numbers: &'s [Option<usize>],
    ) -> KeptTables<'a, 's>
        requires ascending { IsStrictlySortedBy id_cmp krates.now }
        requires numbered { AreNumbersOf (map id_of krates.now)
            context.document.now.ids.now.table.ids.items numbers.now }
        ensures context { result.context ≡ context.entry }
        ensures krates { result.krates.now ≡ krates.now }
        ensures numbers { result.numbers.now ≡ numbers.now }
    {
        KeptTables {
            context,
            krates,
            numbers,
        }
    }

    /// The key of the fact of each step.
    pub(crate) fn keys_of(&self, steps: &[NumberedStep]) -> Result<Vec<KeptFactKey<'a>>, AllocError>
        requires kept { AreKeptFacts self.now steps.now }
        ensures { IfOk result (λ keys. AllZip (IsKeyOf self.now) (numbered_facts steps.now) keys.items) }
    {
        let mut keys = Vec::with_capacity(self.context.alloc, steps.len())?;
        for step in steps {
            keys.push(self.key_at(step.fact))?;
        }
        Ok(keys)
    }

    /// The key of a fact.
    fn key_at(&self, fact: NumberedFact) -> KeptFactKey<'a>
        requires kept { IsKeptFact self.now fact }
        ensures { IsKeyOf self.now fact result }
    {
        match fact {
            NumberedFact::Crate { place } => KeptFactKey::Crate(self.crate_at(place)),
            NumberedFact::Feature { number } => KeptFactKey::Feature(self.feature_at(number)),
            NumberedFact::Kept { place, index, kind } => {
                KeptFactKey::Kept(self.kept_edge_key(place, index, kind))
            }
            NumberedFact::Toggled { place, number } => {
                KeptFactKey::Toggled(ToggleKey {
                    by: self.crate_at(place),
                    feature: self.feature_at(number),
                })
            }
        }
    }

    /// The number of the kept crate whose node is at a place. Time O(1).
    pub fn crate_at(&self, place: NodePlace) -> usize
        requires kept { IsKeptNode self.now place.index }
        ensures { IsNumberAt self.now place.index result }
    {
        laws::one_reading();
        let number = node_number(self.context.document, place);
        let Some(kept) = at_number(self.numbers, number) else {
            unreachable!()
        };
        kept
    }

    /// The number of the crate that a dependency leads to.
    fn child_at(&self, place: NodePlace, index: usize) -> usize
        requires kept { IsKeptChild self.now place.index index }
        ensures { IsChildAt self.now place.index index result }
    {
        laws::one_reading();
        let number = child_number_at(self.context.document, place, index);
        let Some(kept) = at_number(self.numbers, number) else {
            unreachable!()
        };
        kept
    }

    /// The key of the feature of a number.
    fn feature_at(&self, number: usize) -> FeatureKey<'a>
        requires kept { IsKeptFeature self.now number }
        ensures { IsFeatureIn self.now number result }
    {
        let feature = listed_feature(self.context.document, number);
        FeatureKey {
            krate: self.crate_at(feature.place),
            name: feature.name,
        }
    }

    /// The key of the edge at these places.
    fn kept_edge_key(&self, place: NodePlace, index: usize, kind: usize) -> KeptEdgeKey<'a>
        requires kept { IsKeptEdge self.now place.index index kind }
        ensures { IsEdgeIn self.now place.index index kind result }
    {
        let info = self.edge_info(place, index, kind);
        KeptEdgeKey {
            parent: self.crate_at(place),
            child: self.child_at(place, index),
            kind: DepKind::from(info.kind),
            cfg: &info.target,
        }
    }

    /// The kind and target at these places.
    fn edge_info(&self, place: NodePlace, index: usize, kind: usize) -> &'a DepKindInfo
        requires there { (e : Edge) × EdgeAt (document_in self.now) e place.index index kind }
        ensures { (e : Edge) → EdgeAt (document_in self.now) e place.index index kind
            → dep_kind_info_view result.now ≡ kind_info_of e }
    {
        &self.context.document.nodes()[place.index].deps[index].dep_kinds[kind]
    }
}
