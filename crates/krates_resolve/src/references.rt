//! What the references of an enabled feature give.

ghost use Rattle.krates_cm.specs.Document.{Text};
ghost use Rattle.krates_questions.specs.NodeEntry.{krate_of};
ghost use Rattle.krates_search.specs.SearchState.{HasFound, HasFollowed, HasFollowedReferences, IsFeatureStep, IsSound, Advances, IsValueOfEnabled};
ghost use Rattle.krates_resolve.specs.References.{CountsReferenceOf, CountsTextOf, HasFollowedText, FindsToggledAt, HasAskedAt, HasFollowedAt, HasItsParts, HasToggledAt, MayToggleAt, NamesDependency, name_of, RefersTo, Refers, DemandsAt};
ghost use Rattle.krates_questions.specs.Context.{Refuses, IsFeatureAt};
ghost use Rattle.std.specs.Prelude.{◌≡◌, ◌<◌, Contains, IfErr, IfOk, OnOk, length};
ghost use Rattle.krates_text.specs.FeatureReference.{reference_of};
ghost use Rattle.krates_rules.specs.Facts.{Crate, Id};
ghost use Rattle.krates_search.specs.Links.{IsMarked};
ghost use Rattle.krates_search.specs.SearchContext.{IsValueStep};
ghost use Rattle.krates_resolve.specs.Saturation.{TakenHasReferences};

use krates_graph::agenda::Taken;
use krates_ids::{Error, laws};
use krates_questions::context::Context;
use krates_questions::feature_table::listed_feature;
use krates_questions::node_entry::{NodeParts, child_place, parts_of, values_at};
use krates_questions::referent::referents_of;
use krates_search::enabling::{KeptNode, NamedFeature, enable, toggle};
use krates_search::expansion::expand_entry;
use krates_search::links::Waiting;
use krates_search::search_state::SearchState;
use krates_selection::trace::Reason;
use krates_text::features::{Feature, ParsedFeature};

/// A kept crate with an enabled feature, whose references are followed.
#[derive(Clone, Copy)]
pub(crate) struct Referrer<'a, 's> {
    /// What the search goes by.
    pub context: Context<'a, 's>,
    /// The crate's node.
    pub parts: NodeParts<'a>,
    /// The step by which the feature was found.
    pub step: usize,
}

/// Follows each reference of an enabled feature.
///
/// It is handed the feature as it was taken, so that the references of each are followed once, and the step by which the feature
/// was found. It answers how many references the feature has, as they count.
pub(crate) fn follow_references<'a>(
    context: &Context<'a, '_>,
    taken: Taken,
    step: usize,
    found: &mut SearchState<'a>,
) -> Result<u64, Error>
    requires sound { IsSound context.now found.old }
    requires put { Contains found.old.features.put taken }
    requires within { taken < found.old.features.size }
    requires step { IsFeatureStep context.now found.old.trace.items taken step }
    ensures advanced { OnOk result (Advances context.now found.old found.new) }
    ensures followed_all { OnOk result ((krate : Id) (f : Text) → IsFeatureAt context.now krate f taken
        → HasFollowedReferences context.now found.new krate f) }
    ensures counted { IfOk result (TakenHasReferences context.now taken) }
    ensures refused { IfErr result (Refuses context.now) }
{
    laws::one_reading();
    let feature = listed_feature(context.document, taken.number());
    let parts = parts_of(context.document, feature.place);
    let values = values_at(context.document, &parts, feature.name);
    let referrer = Referrer {
        context: *context,
        parts,
        step,
    };
    let mut references: u64 = 0;
    for text in values {
        let counts = referrer.follow(text.as_str(), found)?;
        references = references.saturating_add(counts as u64);
    }
    Ok(references)
}

/// The name that a reference begins with: that of a dependency, or of a feature of its own crate.
fn name_in<'a>(reference: Feature<'a>) -> &'a str
    ensures { result.now ≡ name_of (reference_of reference.entry) }
{
    match reference {
        Feature::Simple(name) => name,
        Feature::Krate(krate) => krate,
        Feature::Strong { krate, .. } => krate,
        Feature::Weak { krate, .. } => krate,
    }
}

impl<'a> Referrer<'a, '_> {
    /// Follows a reference of the feature. It answers how often the reference counts.
    fn follow(&self, text: &'a str, found: &mut SearchState<'a>) -> Result<usize, Error>
        requires parts { HasItsParts self.now }
        requires sound { IsSound self.now.context found.old }
        requires kept { HasFound self.now.context found.old (Crate (krate_of self.now.parts)) }
        requires value { IsValueOfEnabled self.now.context (krate_of self.now.parts) text.now }
        requires step { IsValueStep self.now.context found.old.trace.items self.now.step
            (krate_of self.now.parts) text.now }
        ensures advanced { OnOk result (Advances self.now.context found.old found.new) }
        ensures followed { OnOk result (HasFollowedText self.now.context found.new (krate_of self.now.parts)
            text.now) }
        ensures counted { IfOk result (CountsTextOf self.now.context (krate_of self.now.parts) text.now) }
        ensures refused { IfErr result (Refuses self.now.context) }
    {
        krates_text::laws::one_reference();
        let reference = ParsedFeature::from(text).feat();
        match reference {
            Feature::Simple(name) => {
                let node = KeptNode {
                    id: self.parts.parent,
                    place: self.parts.place,
                };
                let reason = Reason::by_one(3, self.step);
                enable(&self.context, node, NamedFeature { name, reason }, found)?;
                Ok(1)
            }
            _ => self.follow_each(reference, found),
        }
    }

    /// Follows a reference at each dependency that its name means. It answers how often the reference counts: once for each, and
    /// once where its name means none.
    fn follow_each(
        &self,
        reference: Feature<'a>,
        found: &mut SearchState<'a>,
    ) -> Result<usize, Error>
        requires parts { HasItsParts self.now }
        requires sound { IsSound self.now.context found.old }
        requires named { NamesDependency (reference_of reference) }
        requires refers { Refers self.now found.old (reference_of reference) }
        ensures advanced { OnOk result (Advances self.now.context found.old found.new) }
        ensures followed { OnOk result (HasFollowed self.now.context found.new (krate_of self.now.parts)
            (reference_of reference.entry)) }
        ensures counted { IfOk result (CountsReferenceOf self.now.context (krate_of self.now.parts)
            (reference_of reference.entry)) }
        ensures refused { IfErr result (Refuses self.now.context) }
    {
        self.context.document.agrees();
        laws::one_reading();
        let name = name_in(reference);
        let all = self.context.setting.is_all_named();
        let alloc = self.context.alloc;
        let referents = referents_of(self.context.document, alloc, &self.parts, name, all)?;
        for referent in &referents {
            self.follow_at(reference, referent.place, found)?;
        }
        Ok(referents.len().max(1))
    }

    /// Follows a reference at a dependency that its name means. It asks for the edges, unless it is weak, and toggles its feature
    /// where one is kept; a weak one waits for one otherwise.
    fn follow_at(
        &self,
        reference: Feature<'a>,
        index: usize,
        found: &mut SearchState<'a>,
    ) -> Result<(), Error>
        requires parts { HasItsParts self.now }
        requires sound { IsSound self.now.context found.old }
        requires within { index < length self.now.parts.children.now }
        requires refers { RefersTo self.now found.old (reference_of reference) index }
        ensures advanced { OnOk result (Advances self.now.context found.old found.new) }
        ensures followed { OnOk result (HasFollowedAt self.now found.new (reference_of reference.entry)
            index) }
        ensures refused { IfErr result (Refuses self.now.context) }
    {
        laws::one_reading();
        let place = self.parts.place;
        let step = self.step;
        match reference {
            Feature::Simple(_) => Ok(()),
            Feature::Krate(_) => self.ask_at(index, found),
            Feature::Strong { feature: name, .. } => {
                self.ask_at(index, found)?;
                let Some(kept) = found.links.kept(place, index) else {
                    return Ok(());
                };
                let reason = Reason::by_two(4, step, kept);
                self.toggle_at(name, reason, index, found)
            }
            Feature::Weak { feature: name, .. } => {
                if let Some(kept) = found.links.kept(place, index) {
                    let reason = Reason::by_two(7, step, kept);
                    return self.toggle_at(name, reason, index, found);
                }
                found.links.let_wait(place, index, Waiting { name, step })?;
                Ok(())
            }
        }
    }

    /// Keeps the edges by a dependency, also where it is optional, unless that was done before.
    fn ask_at(&self, index: usize, found: &mut SearchState<'a>) -> Result<(), Error>
        requires parts { HasItsParts self.now }
        requires sound { IsSound self.now.context found.old }
        requires within { index < length self.now.parts.children.now }
        requires demands { DemandsAt self.now found.old index }
        ensures advanced { OnOk result (Advances self.now.context found.old found.new) }
        ensures asked { OnOk result (HasAskedAt self.now found.new index) }
        ensures refused { IfErr result (Refuses self.now.context) }
    {
        self.context.document.agrees();
        laws::one_reading();
        if found.links.is_asked(self.parts.place, index) {
            return Ok(());
        }
        let entry = self.parts.entry_at(index);
        let reason = Reason::by_one(4, self.step);
        expand_entry(&self.context, &entry, true, reason, found)
    }

    /// Toggles a feature of a dependency to which an edge is kept.
    fn toggle_at(
        &self,
        name: &'a str,
        reason: Reason,
        index: usize,
        found: &mut SearchState<'a>,
    ) -> Result<(), Error>
        requires parts { HasItsParts self.now }
        requires within { index < length self.now.parts.children.now }
        requires sound { IsSound self.now.context found.old }
        requires marked { IsMarked found.old.links self.now.parts.place.index index }
        requires may { MayToggleAt self.now name.now index }
        requires step { FindsToggledAt self.now found.old reason name.now index }
        ensures advanced { OnOk result (Advances self.now.context found.old found.new) }
        ensures toggled { OnOk result (HasToggledAt self.now found.new name.now index) }
        ensures same_links { OnOk result (found.new.links ≡ found.old.links) }
        ensures refused { IfErr result (Refuses self.now.context) }
    {
        laws::one_reading();
        let entry = self.parts.entry_at(index);
        let Some(place) = child_place(self.context.document, &entry) else {
            unreachable!()
        };
        let by = KeptNode {
            id: self.parts.parent,
            place: self.parts.place,
        };
        let node = KeptNode {
            id: entry.child,
            place,
        };
        let feature = NamedFeature { name, reason };
        toggle(&self.context, by, node, feature, found)
    }
}
