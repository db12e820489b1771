//! What is asked about a build, answered.

ghost use Rattle.krates_cm.specs.Document.{metadata_view};
ghost use Rattle.krates_document.specs.Ids.{ids_view};
ghost use Rattle.krates_rules.specs.Admission.{IsAdmitted};

use crate::bill::bill_of;
use crate::build::Build;
use crate::certificate::{Certified, certificate_of};
use crate::error::BuildReportError;
use crate::features::BuiltFeatures;
use crate::list::BuiltList;
use crate::stated::{of_build, of_two_builds};
use crate::unbuilt::Unbuilt;
use crate::uses::UsedCrates;
use crate::why::{WhyBuilt, built_fact, words_of_steps};
use krates::{Metadata, NodeId, Package};
use krates_answers::direct_links::DirectLinks;
use krates_answers::licences::licences;
use krates_answers::naming::NamingError;
use krates_build_answers::{BuiltCrates, build_uses};
use krates_build_checkers::check_built_closed;
use krates_built::{Units, units_of};
use krates_cm_json::ToValue;
use krates_questions::{Document, Ids, admit};
use krates_report::Report;
use krates_report::absent::Absent;
use krates_report::answer::{Answer, printed};
use krates_report::difference::Difference;
use krates_report::drawn_tree::DrawnTree;
use krates_report::duplicates::Duplicates;
use krates_report::order::OrderedCrates;
use krates_report::picture::PictureFrame;
use krates_report::tree::{Tree, without};
use krates_units::BuildSetting;
use krates_words::{Asked, BuildSide, PictureWords, TreeWords, WhyForm, Word};
use serde_json::Value;
use std::alloc::{AllocError, Global};

/// Answers what is asked about a build, over the document that it is given.
#[derive(Clone, Copy)]
pub struct BuildReporter<'a> {
    alloc: Global,
    asked: &'a Asked,
    setting: &'a BuildSetting,
    /// Of the second build, where there are two.
    second: &'a BuildSetting,
    /// What `rustc --print cfg` prints of the machine that builds, and of each that the build is for.
    cfgs: &'a [String],
}

impl<'a> BuildReporter<'a> {
    /// A reporter for this question about this build. The second setting is the same with all targets for the words `uses` and `sbom`, which
    /// tell what only tests need, and that of the document of before for `diff`; no other word looks at it. The texts are what `rustc --print cfg`
    /// prints of the machine that builds, and then of each that the build is for; only `certify` looks at them. Time O(1).
    pub fn new(
        alloc: Global,
        asked: &'a Asked,
        setting: &'a BuildSetting,
        second: &'a BuildSetting,
        cfgs: &'a [String],
    ) -> BuildReporter<'a> {
        BuildReporter {
            alloc,
            asked,
            setting,
            second,
            cfgs,
        }
    }

    /// What went and what came between two documents, of which the second setting is that of the first, old one. It is refused as `answer` is;
    /// it may instead return `Memory`. Time: that of both `units_of`, and O(n e) for n crates and e links or features of both.
    pub fn difference<'m>(
        &self,
        old: &'m Metadata,
        new: &'m Metadata,
    ) -> Result<Report, BuildReportError> {
        let ids = (admit(self.alloc, old)?, admit(self.alloc, new)?);
        let (old, new) = self.documents((old, new), &ids)?;
        self.difference_of(old, new)
    }

    /// Both documents, whose ids are read.
    fn documents<'m>(
        &self,
        metadata: (&'m Metadata, &'m Metadata),
        ids: &'m (Ids, Ids),
    ) -> Result<(Document<'m>, Document<'m>), AllocError>
        requires first { IsAdmitted (metadata_view metadata.0.now) (ids_view ids.now.0) }
        requires second { IsAdmitted (metadata_view metadata.1.now) (ids_view ids.now.1) }
    {
        let first = Document::new(self.alloc, metadata.0, &ids.0)?;
        let second = Document::new(self.alloc, metadata.1, &ids.1)?;
        Ok((first, second))
    }

    /// What went and what came between the builds of two documents.
    fn difference_of<'d>(
        &self,
        old: Document<'d>,
        new: Document<'d>,
    ) -> Result<Report, BuildReportError>
    where
        'a: 'd,
    {
        match self.build(old, self.second) {
            Ok(old) => self.difference_from(&old, new),
            Err(refusal) => {
                drop(new);
                Err(refusal)
            }
        }
    }

    /// What went and what came between a build and that of a document.
    fn difference_from<'d>(
        &self,
        old: &Build<'d>,
        new: Document<'d>,
    ) -> Result<Report, BuildReportError>
    where
        'a: 'd,
    {
        let new = self.build(new, self.setting)?;
        self.difference_between(old, &new)
    }

    /// What went and what came between two builds. With an exit code it is a no where anything did.
    fn difference_between(
        &self,
        old: &Build<'_>,
        new: &Build<'_>,
    ) -> Result<Report, BuildReportError> {
        let before = old.snapshot(self.alloc)?;
        let after = new.snapshot(self.alloc)?;
        let answer = Difference::between(self.alloc, &before, &after)?;
        Ok(Report {
            text: self.text(&answer)?,
            is_yes: !self.has_exit_code() || answer.is_empty(),
        })
    }

    /// Whether a difference is a no.
    fn has_exit_code(&self) -> bool {
        matches!(
            &self.asked.word,
            Word::Diff {
                exit_code: true,
                ..
            }
        )
    }

    /// What is printed of a document. It is refused as `Document` where that can't be admitted, as `NotBuilt` or `Lost` where it isn't said what
    /// cargo builds, as `Naming` where a word doesn't mean one package that is built, as `Check` where the checker doesn't accept the facts of
    /// the build, as `NoAnswer` where the word isn't answered by build, as `Unnamed` where a certificate has no words for a fact; it may instead
    /// return `Memory`. Time: that of `units_of`, and of the answer.
    pub fn answer(&self, metadata: &Metadata) -> Result<Report, BuildReportError> {
        let ids = admit(self.alloc, metadata)?;
        let document = Document::new(self.alloc, metadata, &ids)?;
        self.about(document)
    }

    /// The same where the document is admitted.
    fn about<'d>(&self, document: Document<'d>) -> Result<Report, BuildReportError>
    where
        'a: 'd,
    {
        match &self.asked.word {
            Word::Uses | Word::Sbom { .. } => self.beside_all(document),
            _ => self.about_one(document),
        }
    }

    /// The answer to a word about the build of a document.
    fn about_one<'d>(&self, document: Document<'d>) -> Result<Report, BuildReportError>
    where
        'a: 'd,
    {
        let build = self.build(document, self.setting)?;
        self.in_build(&build)
    }

    /// The answer to a word about the build of a document and the same with all targets.
    fn beside_all<'d>(&self, document: Document<'d>) -> Result<Report, BuildReportError>
    where
        'a: 'd,
    {
        match self.crates(&document) {
            Ok(built) => self.beside(&built, document),
            Err(refusal) => {
                drop(document);
                Err(refusal)
            }
        }
    }

    /// The same where these are the crates of the build.
    fn beside<'d>(
        &self,
        built: &BuiltCrates,
        document: Document<'d>,
    ) -> Result<Report, BuildReportError>
    where
        'a: 'd,
    {
        let all = self.build(document, self.second)?;
        self.with_all(built, &all)
    }

    /// The crates of the build of a document.
    fn crates<'d>(&self, document: &Document<'d>) -> Result<BuiltCrates, BuildReportError>
    where
        'a: 'd,
    {
        let units = self.units(document, self.setting)?;
        Ok(BuiltCrates::of(self.alloc, &units)?)
    }

    /// The build of a document, which it owns from then on.
    fn build<'d>(
        &self,
        document: Document<'d>,
        setting: &'d BuildSetting,
    ) -> Result<Build<'d>, BuildReportError>
    where
        'a: 'd,
    {
        match self.units(&document, setting) {
            Ok(units) => Ok(Build::of(self.alloc, document, units)?),
            Err(refusal) => {
                drop(document);
                Err(refusal)
            }
        }
    }

    /// What a build of the document builds.
    fn units<'d>(
        &self,
        document: &Document<'d>,
        setting: &'d BuildSetting,
    ) -> Result<Units<'d>, BuildReportError>
    where
        'a: 'd,
    {
        match units_of(self.alloc, document, setting) {
            Ok(units) => Ok(units),
            Err(refusal) => Err(BuildReportError::of_build(self.alloc, &refusal)?),
        }
    }

    /// What is printed of an answer.
    fn text<T: Answer>(&self, answer: &T) -> Result<String, AllocError> {
        if !self.asked.is_json {
            return printed(self.alloc, answer, false);
        }
        let whole = self.stated(answer.json(self.alloc))?;
        let mut text = whole.to_string_pretty(self.alloc)?;
        text.push_str("\n")?;
        Ok(text)
    }

    /// What JSON says of an answer.
    fn stated(&self, answer: Result<Value, AllocError>) -> Result<Value, AllocError> {
        match &self.asked.word {
            Word::Diff { .. } => of_two_builds(self.alloc, (self.setting, self.second), answer),
            _ => of_build(self.alloc, self.setting, answer),
        }
    }

    /// The answer to a word about one build.
    fn in_build(&self, build: &Build<'_>) -> Result<Report, BuildReportError> {
        match &self.asked.word {
            Word::List { side, ids, units } => self.list(build, *side, *ids, *units),
            Word::Duplicates => self.duplicates(build),
            Word::Licences => self.licences(build),
            Word::Tree { spec, words } => self.tree_below(build, spec.as_ref(), words),
            Word::Dependents { spec, words } => self.tree_above(build, spec.as_str(), words),
            Word::Why { spec, form } => self.why(build, spec.as_str(), *form),
            Word::Order => self.order(build),
            Word::Graph { words } => self.picture(build, words),
            Word::Features { spec } => self.features(build, spec.as_str()),
            Word::Unreachable { spec, side } => self.unbuilt(build, spec.as_str(), *side),
            Word::Certify { spec } => self.certificate(build, spec.as_ref()),
            _ => Err(BuildReportError::NoAnswer),
        }
    }

    /// The crates that are built.
    fn list(
        &self,
        build: &Build<'_>,
        side: Option<BuildSide>,
        has_ids: bool,
        has_units: bool,
    ) -> Result<Report, BuildReportError> {
        let crates = build.crates(self.alloc)?;
        let answer = BuiltList {
            build,
            crates,
            side,
            has_ids,
            has_units,
        };
        Ok(yes(self.text(&answer)?))
    }

    /// The names that several of them have.
    fn duplicates(&self, build: &Build<'_>) -> Result<Report, BuildReportError> {
        let crates = build.crates(self.alloc)?;
        let dependents = build.dependents(self.alloc)?;
        let answer = Duplicates::of(self.alloc, crates, dependents)?;
        Ok(yes(self.text(&answer)?))
    }

    /// Their licences.
    fn licences(&self, build: &Build<'_>) -> Result<Report, BuildReportError> {
        let crates = build.crates(self.alloc)?;
        let answer = licences(self.alloc, &crates)?;
        Ok(yes(self.text(&answer)?))
    }

    /// The tree of what a crate needs, or the packages that are asked for where none is named.
    fn tree_below(
        &self,
        build: &Build<'_>,
        spec: Option<&String>,
        words: &TreeWords,
    ) -> Result<Report, BuildReportError> {
        let roots = match spec {
            Some(spec) => self.root(build, spec.as_str())?,
            None => build.asked(self.alloc)?,
        };
        let links = build.links_by_kind(self.alloc, false)?;
        self.tree(build, links, &roots, words)
    }

    /// The tree of those that need a crate.
    fn tree_above(
        &self,
        build: &Build<'_>,
        spec: &str,
        words: &TreeWords,
    ) -> Result<Report, BuildReportError> {
        let roots = self.root(build, spec)?;
        let links = build.links_by_kind(self.alloc, true)?;
        self.tree(build, links, &roots, words)
    }

    /// The tree of what these links lead to, below roots, as the words draw it.
    fn tree(
        &self,
        build: &Build<'_>,
        links: DirectLinks,
        roots: &[NodeId],
        words: &TreeWords,
    ) -> Result<Report, BuildReportError> {
        let pruned = self.pruned(build, &words.pruned)?;
        let links = without(self.alloc, links, &pruned)?;
        let features = self.features_in(build, words)?;
        let crates = build.crates(self.alloc)?;
        let tree = Tree::drawn_by(self.alloc, crates, Ok(links), roots, words)?;
        let answer = DrawnTree {
            tree,
            words,
            features,
        };
        Ok(yes(self.text(&answer)?))
    }

    /// The positions of the crates that are left out.
    fn pruned(&self, build: &Build<'_>, specs: &[String]) -> Result<Vec<NodeId>, BuildReportError> {
        let mut pruned = Vec::new(self.alloc);
        for spec in specs {
            pruned.extend(self.root(build, spec.as_str())?)?;
        }
        Ok(pruned)
    }

    /// The picture of the crates that are built, as the words draw it.
    fn picture(&self, build: &Build<'_>, words: &PictureWords) -> Result<Report, BuildReportError> {
        let pruned = self.pruned(build, &words.pruned)?;
        let roots = build.asked(self.alloc)?;
        let linked = build.linked(self.alloc)?;
        let frame = PictureFrame {
            roots: &roots,
            pruned: &pruned,
            words,
        };
        let answer = linked.picture(self.alloc, frame)?;
        Ok(yes(self.text(&answer)?))
    }

    /// An order in which the crates can be built. It is a no where there is none.
    fn order(&self, build: &Build<'_>) -> Result<Report, BuildReportError> {
        let crates = build.crates(self.alloc)?;
        let features = build.enabled_features(self.alloc)?;
        let links = build.dependencies(self.alloc);
        let answer = OrderedCrates::of(self.alloc, crates, links, features)?;
        Ok(Report {
            text: self.text(&answer)?,
            is_yes: answer.is_order(),
        })
    }

    /// The features of each crate, where the format of a tree has them.
    fn features_in(&self, build: &Build<'_>, words: &TreeWords) -> Result<Vec<String>, AllocError> {
        if words.has_features() {
            build.features(self.alloc)
        } else {
            Ok(Vec::new(self.alloc))
        }
    }

    /// The position of the crate that a word means, as a list.
    fn root(&self, build: &Build<'_>, spec: &str) -> Result<Vec<NodeId>, BuildReportError> {
        let number = build.one(self.alloc, spec)?;
        let mut roots = Vec::new(self.alloc);
        if let Some(position) = build.position(number) {
            roots.push(position)?;
        }
        Ok(roots)
    }

    /// Why a crate is built.
    fn why(
        &self,
        build: &Build<'_>,
        spec: &str,
        form: WhyForm,
    ) -> Result<Report, BuildReportError> {
        let number = build.one(self.alloc, spec)?;
        let (Some(package), Some(fact)) = (build.package(number), built_fact(build, number)) else {
            return Err(BuildReportError::NoAnswer);
        };
        let Some(steps) = build.units.derived().why(self.alloc, &fact)? else {
            return Err(BuildReportError::NoAnswer);
        };
        let words = words_of_steps(self.alloc, build, &steps)?;
        let answer = WhyBuilt {
            build,
            package,
            steps,
            words,
            form,
        };
        Ok(yes(self.text(&answer)?))
    }

    /// The features of a crate.
    fn features(&self, build: &Build<'_>, spec: &str) -> Result<Report, BuildReportError> {
        let number = build.one(self.alloc, spec)?;
        let Some(package) = build.package(number) else {
            return Err(BuildReportError::NoAnswer);
        };
        let answer = BuiltFeatures::of(self.alloc, build, number, package)?;
        Ok(yes(self.text(&answer)?))
    }

    /// Whether it is certain that a package isn't built. One that the document lacks can't be.
    fn unbuilt(
        &self,
        build: &Build<'_>,
        spec: &str,
        side: Option<BuildSide>,
    ) -> Result<Report, BuildReportError> {
        match build.any(self.alloc, spec) {
            Ok(package) => self.unbuilt_package(build, package, side),
            Err(NamingError::Unknown { word, near }) => {
                Ok(yes(self.text(&Absent { word, near })?))
            }
            Err(cause) => Err(BuildReportError::from(cause)),
        }
    }

    /// The same for a package of the document.
    fn unbuilt_package(
        &self,
        build: &Build<'_>,
        package: &Package,
        side: Option<BuildSide>,
    ) -> Result<Report, BuildReportError> {
        let facts = build.units.derived().facts(self.alloc)?;
        check_built_closed(self.alloc, build.tables(), &facts)?;
        let is_certain = !is_built(build, package, side);
        let facts = facts.len();
        let answer = Unbuilt {
            package,
            side,
            is_certain,
            facts,
        };
        Ok(Report {
            text: self.text(&answer)?,
            is_yes: is_certain,
        })
    }

    /// A certificate, as JSON.
    fn certificate(
        &self,
        build: &Build<'_>,
        spec: Option<&String>,
    ) -> Result<Report, BuildReportError> {
        let certified = Certified {
            setting: self.setting,
            cfgs: self.cfgs,
        };
        let certificate = certificate_of(self.alloc, build, certified, spec)?;
        let value = certificate.to_value(self.alloc)?;
        let mut text = value.to_string_pretty(self.alloc)?;
        text.push_str("\n")?;
        Ok(yes(text))
    }

    /// What the crates are used for, or the bill of materials, which says it too.
    fn with_all(&self, built: &BuiltCrates, all: &Build<'_>) -> Result<Report, BuildReportError> {
        let used = build_uses(self.alloc, built, &all.built)?;
        match &self.asked.word {
            Word::Sbom { words } => {
                let bill = bill_of(self.alloc, all, &used, words)?;
                Ok(yes(bill.text(self.alloc)?))
            }
            _ => {
                let answer = UsedCrates { build: all, used };
                Ok(yes(self.text(&answer)?))
            }
        }
    }
}

/// The report of a yes.
fn yes(text: String) -> Report {
    Report { text, is_yes: true }
}

/// Whether a package is built, for this side where there is one.
fn is_built(build: &Build<'_>, package: &Package, side: Option<BuildSide>) -> bool {
    match build.number_of_package(package) {
        Some(number) => build.is_for(number, side),
        None => false,
    }
}
