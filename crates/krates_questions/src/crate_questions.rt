//! What a document and a setting answer of single crates, and of their features.

ghost use Rattle.std.specs.Prelude.{◌↔◌, Contains, IsTrue, map};
ghost use Rattle.krates_cm.specs.Document.{Text, text_view};
ghost use Rattle.krates_questions.specs.FeatureTable.{AreNamed, AreValuesOf};
ghost use Rattle.krates_questions.specs.Lookup.{IsLookup, resolved_view};
ghost use Rattle.krates_rules.specs.Features.{ListsFeature};
ghost use Rattle.krates_rules.specs.Resolved.{id_of};
ghost use Rattle.krates_rules.specs.Roots.{IsRoot};

use crate::questions::{Document, is_same};
use crate::root_choice::{RootChoice, is_root_member};
use krates_document::setting::Setting;
use krates_ids::{Kid, laws};

impl<'a> Document<'a> {
    /// Whether a crate is kept for itself under a setting, also where the setting excludes it. Time: O(log n) in the crates of
    /// the document, and the manifests that the setting asks for.
    pub fn is_root(&self, setting: &Setting, krate: &'a Kid) -> bool
        ensures { IsTrue result ↔ IsRoot (resolved_view self.now) setting.now (id_of krate.now) }
    {
        match self.root_choice(setting) {
            RootChoice::Root(root) => is_same(root, krate),
            RootChoice::Members { all } => {
                self.is_member(krate) && is_root_member(self, setting, all, krate)
            }
        }
    }

    /// The features that the node of a crate lists, in the order of the document; none where it has no node. Time: O(log n) in
    /// the crates of the document.
    pub fn features(&self, krate: &Kid) -> &'a [String]
        ensures { (f : Text) → ListsFeature (resolved_view self.now) (id_of krate.now) f
            ↔ Contains (map text_view result.now) f }
    {
        match self.node_place(krate) {
            Some(place) => self.lookup.resolve.nodes[place.index].features.as_slice(),
            None => &[],
        }
    }

    /// Whether the node of a crate lists a feature. Time: O(log n) in the crates and listed features of the document.
    pub fn lists(&self, krate: &Kid, name: &'a str) -> bool
        ensures { IsTrue result ↔ ListsFeature (resolved_view self.now) (id_of krate.now) name.now }
    {
        match self.node_place(krate) {
            Some(place) => self.feature_number(place, name).is_some(),
            None => false,
        }
    }

    /// The references of a feature, as the package of the crate has them, in its order; none where it lacks the feature.
    /// Time: O(log n) in the crates of the document and the features of the package.
    pub fn values(&self, krate: &Kid, name: &str) -> &'a [String]
        ensures references { AreValuesOf (resolved_view self.now) (id_of krate.now) name.now
            (map text_view result.now) }
        ensures named { AreNamed (resolved_view self.now) (id_of krate.now) name.now (map text_view result.now) }
    {
        self.agrees();
        laws::one_reading();
        let Some(pkg) = self.package_of(krate) else {
            return &[];
        };
        match pkg.features.get(name) {
            Some(values) => values,
            None => &[],
        }
    }
}
