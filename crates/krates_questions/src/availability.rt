//! What there is for a crate.

ghost use Rattle.krates_cm.specs.Document.{PackageModel};
ghost use Rattle.krates_questions.specs.Availability.{AreExclusions, IsAvailability, TellsExcluded};
ghost use Rattle.krates_questions.specs.Context.{document_of};
ghost use Rattle.krates_questions.specs.Lookup.{IsLookup, IsNumber, IsNumberIn, resolved_view};
ghost use Rattle.krates_rules.specs.Facts.{Id};
ghost use Rattle.krates_rules.specs.Questions.{Stands};
ghost use Rattle.krates_rules.specs.Resolved.{HasPackage, id_of};
ghost use Rattle.krates_rules.specs.Setting.{SettingModel};
ghost use Rattle.std.specs.Prelude.{◌↔◌, IfOk, IsTrue};

use crate::context::Context;
use crate::lookup::NodePlace;
use crate::questions::Document;
use krates_document::setting::Setting;
use krates_ids::Kid;
use std::alloc::AllocError;

/// What a document and a setting have for a crate.
#[derive(Clone, Copy, Debug, PartialEq, Eq)]
pub enum Availability {
    /// A package that isn't excluded, and a node at this place.
    Available(NodePlace),
    /// No package.
    NoPackage,
    /// A package that isn't excluded, and no node.
    NoNode,
    /// A package that is excluded.
    Excluded,
}

impl<'a> Document<'a> {
    /// What there is for a crate under a setting: a package and a node, or what of them is missing. Time: O(log n) in the
    /// crates of the document, and the exclusions of the setting.
    pub fn availability(&self, setting: &Setting, krate: &Kid) -> Availability
        ensures { IsAvailability (resolved_view self.now) setting.now (id_of krate.now) result }
    {
        let number = self.crate_number(krate);
        let Some(pkg) = self.package_at(number) else {
            return Availability::NoPackage;
        };
        self.availability_with(setting.excludes(pkg), number)
    }

    /// Whether a crate has a node and a package that the setting doesn't exclude. Time: as `availability`.
    pub fn stands(&self, setting: &Setting, krate: &Kid) -> bool
        ensures { IsTrue result ↔ Stands (resolved_view self.now) setting.now (id_of krate.now) }
    {
        match self.availability(setting, krate) {
            Availability::Available(_) => true,
            Availability::NoPackage => false,
            Availability::NoNode => false,
            Availability::Excluded => false,
        }
    }

    /// What there is for the crate with the number, which has a package that is excluded or isn't.
    fn availability_with(&self, excluded: bool, number: Option<usize>) -> Availability
        requires number { IsNumber self.now number }
        ensures { (s : SettingModel) (i : Id) (p : PackageModel) → IsNumberIn self.now i number
            → HasPackage (resolved_view self.now) i p → TellsExcluded s p excluded
            → IsAvailability (resolved_view self.now) s i result }
    {
        self.agrees();
        if excluded {
            return Availability::Excluded;
        }
        match self.node_place_at(number) {
            Some(place) => Availability::Available(place),
            None => Availability::NoNode,
        }
    }
}

impl<'a, 's> Context<'a, 's> {
    /// Whether each of the document's packages is excluded, in their order.
    ///
    /// The only error is running out of memory. Time: that of `Setting::excludes` for each of them.
    pub fn exclusions(&self) -> Result<Vec<bool>, AllocError>
        ensures { IfOk result (λ answers. AreExclusions (document_of self.now) self.now.setting.now answers.items) }
    {
        let packages = self.document.packages();
        let mut answers = Vec::with_capacity(self.alloc, packages.len())?;
        for pkg in packages {
            answers.push(self.setting.excludes(pkg))?;
        }
        Ok(answers)
    }

    /// What there is for the crate with the number, where it is known which packages are excluded. Time O(1).
    pub fn availability_at(&self, excluded: &[bool], number: Option<usize>) -> Availability
        requires excluded { AreExclusions (document_of self.now) self.now.setting.now excluded.now }
        requires number { IsNumber self.now.document.now number }
        ensures { (i : Id) → IsNumberIn self.now.document.now i number
            → IsAvailability (document_of self.now) self.now.setting.now i result }
    {
        let Some(place) = self.document.package_place_at(number) else {
            return Availability::NoPackage;
        };
        self.document.availability_with(excluded[place], number)
    }
}
