//! What is asked of a document, answered.

ghost use Rattle.std.specs.Prelude.{[], IfOk};
ghost use Rattle.krates_cm.specs.Document.{metadata_view};
ghost use Rattle.krates_report.specs.Builds.{IsBuildOf, IsDivisionOf};
ghost use Rattle.krates_words.specs.Choice.{IsSettingOf};

use crate::absent::Absent;
use crate::answer::{Answer, pretty, printed};
use crate::bill::{Bill, BillSubject};
use crate::builds::{builds, built};
use crate::difference::{Difference, Snapshot};
use crate::divided::{Divided, Others};
use crate::drawn_tree::DrawnTree;
use crate::duplicates::Duplicates;
use crate::error::ReportError;
use crate::feature_list::FeatureList;
use crate::kept::{List, UsedKrates};
use crate::order::OrderedCrates;
use crate::picture::{LinkedCrates, PictureFrame};
use crate::tree::{Tree, without};
use crate::why::{Certainty, ExplainedFeatures, Why};
use krates::derive::{Derivation, Fact};
use krates::resolve::Setting;
use krates::{Builder, Kid, Krates, Metadata, Node, NodeId, Package};
use krates_answers::builds::Builds;
use krates_answers::direct_links::DirectLinks;
use krates_answers::enabled_feature::EnabledFeature;
use krates_answers::kept::kept_crates;
use krates_answers::licences::licences;
use krates_answers::meaning::Meant;
use krates_answers::naming::NamingError;
use krates_answers::unreachable::is_unreachable;
use krates_certificate::{Certificate, CertificatePart};
use krates_words::{Asked, BillWords, Choice, PictureWords, TreeWords, WhyForm, Word};
use std::alloc::{AllocError, Global};

/// What is printed, and whether it is a yes.
#[derive(Debug, Drop)]
pub struct Report {
    /// The lines, or the JSON.
    pub text: String,
    /// Whether the answer is yes: false only if it was asked whether a crate is unreachable, and it isn't, or whether two documents differ,
    /// and they do, or for an order, and there is none.
    pub is_yes: bool,
}

impl Report {
    /// A yes.
    fn yes(text: String) -> Report {
        Report { text, is_yes: true }
    }
}

/// The enabled features of each kept crate, by number, with commas between them, where the format of a tree has them.
fn features_by_krate(
    alloc: Global,
    krates: &Krates,
    words: &TreeWords,
) -> Result<Vec<String>, AllocError> {
    let mut features = Vec::new(alloc);
    if words.has_features() {
        for found in krates.krate_nodes() {
            features.push(features_of(alloc, krates, found.kid)?)?;
        }
    }
    Ok(features)
}

/// The enabled features of a kept crate, with commas between them.
fn features_of(alloc: Global, krates: &Krates, kid: &Kid) -> Result<String, AllocError> {
    let mut list = FeatureList::new(alloc);
    if let Some(features) = krates.get_enabled_features(kid) {
        for feature in features {
            list.push(feature.as_str());
        }
    }
    list.whole()
}

/// The numbers of the kept members of the workspace.
fn members_of(alloc: Global, krates: &Krates) -> Result<Vec<NodeId>, AllocError> {
    let mut members = Vec::new(alloc);
    for node in krates.workspace_members() {
        if let Node::Krate { id, .. } = node {
            if let Some(number) = krates.nid_for_kid(id) {
                members.push(number)?;
            }
        }
    }
    Ok(members)
}

/// Answers what is asked of the graph of krates, over the documents that it is given.
#[derive(Clone, Copy)]
pub struct Reporter<'a> {
    alloc: Global,
    asked: &'a Asked,
    choice: &'a Choice,
}

impl<'a> Reporter<'a> {
    /// A reporter for this question, under this choice. Time O(1).
    pub fn new(alloc: Global, asked: &'a Asked, choice: &'a Choice) -> Reporter<'a> {
        Reporter {
            alloc,
            asked,
            choice,
        }
    }
}

impl Reporter<'_> {
    /// What is printed of a document, and of a second one where two are compared. It is refused as `Build` where a document can't be
    /// built, as `Naming` where a word doesn't mean one package, as `Check` where the checker doesn't accept the facts of the build,
    /// as `NoOther` where a second document is missing; it may instead return `Memory`. Time: that of the builds, and of the answer.
    pub fn answer(
        &self,
        metadata: Metadata,
        other: Option<Metadata>,
    ) -> Result<Report, ReportError> {
        let Some(other) = other else {
            return self.of_one(metadata);
        };
        match &self.asked.word {
            Word::Diff { exit_code, .. } => self.difference(other, metadata, *exit_code),
            // only a word that compares takes the second document
            _ => {
                other.let_go();
                self.of_one(metadata)
            }
        }
    }

    /// What is printed of one document.
    fn of_one(&self, metadata: Metadata) -> Result<Report, ReportError> {
        match &self.asked.word {
            Word::List { .. } | Word::Duplicates | Word::Licences | Word::Order => {
                self.of_graph(metadata)
            }
            Word::Tree { .. }
            | Word::Dependents { .. }
            | Word::Why { .. }
            | Word::Features { .. }
            | Word::Graph { .. }
            | Word::Certify { .. } => self.of_divided(metadata),
            Word::Uses => self.of_builds(metadata),
            Word::Sbom { words } => self.bill(metadata, words),
            Word::Unreachable { spec, .. } => self.unreachable(metadata, spec.as_str()),
            Word::Diff { .. } => {
                metadata.let_go();
                Err(ReportError::NoOther)
            }
        }
    }

    /// What is printed of the graph of a document.
    fn of_graph(&self, metadata: Metadata) -> Result<Report, ReportError> {
        let krates = self.built(metadata)?;
        self.in_graph(&krates)
    }

    /// What is printed of the graph of a document and the packages that it doesn't keep.
    fn of_divided(&self, metadata: Metadata) -> Result<Report, ReportError> {
        let divided = self.divided(metadata)?;
        self.in_divided(&divided)
    }

    /// What the crates of a document are used for, by its three graphs.
    fn of_builds(&self, metadata: Metadata) -> Result<Report, ReportError> {
        let builds = builds(self.alloc, self.choice, metadata)?;
        self.shown(UsedKrates::of(self.alloc, &builds))
    }

    /// The bill of materials of a document.
    fn bill(&self, metadata: Metadata, words: &BillWords) -> Result<Report, ReportError> {
        let Ok(root) = metadata.workspace_root.clone() else {
            metadata.let_go();
            return Err(ReportError::Memory);
        };
        let builds = builds(self.alloc, self.choice, metadata)?;
        self.bill_of(&builds, root.as_str(), words)
    }

    /// What is printed of an answer that is a yes, if there was memory to make it.
    fn shown<T: Answer + Drop>(
        &self,
        answer: Result<T, AllocError>,
    ) -> Result<Report, ReportError> {
        let answer = answer?;
        let text = printed(self.alloc, &answer, self.asked.is_json)?;
        Ok(Report::yes(text))
    }

    /// The graph of a document.
    fn built(&self, metadata: Metadata) -> Result<Krates, ReportError>
        ensures { IfOk result (IsBuildOf (metadata_view metadata) self.now.choice.now []) }
    {
        built(self.alloc, self.choice, &[], metadata)
    }

    /// The graph of a document and the packages that it doesn't keep.
    fn divided(&self, metadata: Metadata) -> Result<Divided, ReportError>
        ensures { IfOk result (λ divided. IsDivisionOf metadata self.now.choice.now
            divided.krates divided.others.items) }
    {
        let Ok(setting) = self.setting() else {
            metadata.let_go();
            return Err(ReportError::Memory);
        };
        let mut others = Others {
            packages: Vec::new(self.alloc),
            is_whole: true,
        };
        let builder = Builder::under(self.alloc, setting);
        let krates = builder.build_with_metadata(metadata, &mut others)?;
        others.beside(krates)
    }

    /// What is chosen.
    fn setting(&self) -> Result<Setting, AllocError>
        ensures { IfOk result (IsSettingOf self.now.choice.now []) }
    {
        self.choice.setting(self.alloc, &[])
    }

    /// What went and what came between the graphs of two documents. With an exit code it is a no where anything did.
    fn difference(
        &self,
        old: Metadata,
        new: Metadata,
        has_exit_code: bool,
    ) -> Result<Report, ReportError> {
        match self.built(old) {
            Ok(old) => self.difference_from(&old, new, has_exit_code),
            Err(refusal) => {
                new.let_go();
                Err(refusal)
            }
        }
    }

    /// What went and what came between a graph and the graph of a document.
    fn difference_from(
        &self,
        old: &Krates,
        new: Metadata,
        has_exit_code: bool,
    ) -> Result<Report, ReportError> {
        let new = self.built(new)?;
        self.difference_between(old, &new, has_exit_code)
    }

    /// What went and what came between two graphs. With an exit code it is a no where anything did.
    fn difference_between(
        &self,
        old: &Krates,
        new: &Krates,
        has_exit_code: bool,
    ) -> Result<Report, ReportError> {
        let before = Snapshot::of_graph(self.alloc, old)?;
        let after = Snapshot::of_graph(self.alloc, new)?;
        let answer = Difference::between(self.alloc, &before, &after)?;
        Ok(Report {
            text: printed(self.alloc, &answer, self.asked.is_json)?,
            is_yes: !has_exit_code || answer.is_empty(),
        })
    }

    /// Whether it is certain that a package isn't reached.
    fn unreachable(&self, metadata: Metadata, spec: &str) -> Result<Report, ReportError> {
        let answer = self.unreachable_in(&metadata, spec);
        metadata.let_go();
        answer
    }

    /// The same for a borrowed document.
    fn unreachable_in(&self, metadata: &Metadata, spec: &str) -> Result<Report, ReportError> {
        let divided = self.divided(metadata.clone()?)?;
        self.certainty(metadata, &divided, spec)
    }
}

/// What is printed of what was built. Nothing large is owned here, so that no refusal has to drop it.
impl Reporter<'_> {
    /// The answer to a word about the graph alone: the kept crates, the names that several of them have, or their licences.
    fn in_graph(&self, krates: &Krates) -> Result<Report, ReportError> {
        match &self.asked.word {
            Word::List { ids, .. } => {
                let crates = kept_crates(self.alloc, krates)?;
                self.shown(Ok(List {
                    crates: &crates,
                    has_ids: *ids,
                }))
            }
            Word::Duplicates => self.duplicates_in(krates),
            Word::Order => self.order_in(krates),
            // the word `licences`
            _ => {
                let crates = kept_crates(self.alloc, krates)?;
                self.shown(licences(self.alloc, &crates))
            }
        }
    }

    /// The names that several kept crates have.
    fn duplicates_in(&self, krates: &Krates) -> Result<Report, ReportError> {
        let crates = kept_crates(self.alloc, krates)?;
        let dependents = DirectLinks::dependents(self.alloc, krates)?;
        self.shown(Duplicates::of(self.alloc, crates, dependents))
    }

    /// An order in which the kept crates can be built. It is a no where there is none.
    fn order_in(&self, krates: &Krates) -> Result<Report, ReportError> {
        let crates = kept_crates(self.alloc, krates)?;
        let features = EnabledFeature::all_in(self.alloc, krates)?;
        let links = DirectLinks::dependencies(self.alloc, krates);
        let answer = OrderedCrates::of(self.alloc, crates, links, features)?;
        Ok(Report {
            text: printed(self.alloc, &answer, self.asked.is_json)?,
            is_yes: answer.is_order(),
        })
    }

    /// The answer to a word about one crate: the tree of what it needs or of those that need it, why it is kept, its enabled features,
    /// or a certificate.
    fn in_divided(&self, divided: &Divided) -> Result<Report, ReportError> {
        match &self.asked.word {
            Word::Tree { spec, words } => self.tree_below(divided, spec.as_ref(), words),
            Word::Dependents { spec, words } => self.tree_above(divided, spec.as_str(), words),
            Word::Why { spec, form } => self.why_in(divided, spec.as_str(), *form),
            Word::Graph { words } => self.picture_in(divided, words),
            Word::Features { spec } => self.features_in(divided, spec.as_str()),
            Word::Certify { spec } => self.certificate_in(divided, spec.as_ref()),
            // no other word comes here
            _ => Err(ReportError::NoOther),
        }
    }

    /// The bill of materials of these builds.
    fn bill_of(
        &self,
        builds: &Builds,
        root: &str,
        words: &BillWords,
    ) -> Result<Report, ReportError> {
        let asked = members_of(self.alloc, builds.all())?;
        let subject = BillSubject { root, asked, words };
        let bill = Bill::of(self.alloc, builds, subject)?;
        Ok(Report::yes(bill.text(self.alloc)?))
    }

    /// The tree of what a crate needs, or the members where none is named.
    fn tree_below(
        &self,
        divided: &Divided,
        spec: Option<&String>,
        words: &TreeWords,
    ) -> Result<Report, ReportError> {
        let roots = match spec {
            Some(spec) => self.root(divided, spec.as_str())?,
            None => members_of(self.alloc, &divided.krates)?,
        };
        let links = DirectLinks::dependencies(self.alloc, &divided.krates)?;
        self.tree(divided, links, &roots, words)
    }

    /// The tree of those that need a crate.
    fn tree_above(
        &self,
        divided: &Divided,
        spec: &str,
        words: &TreeWords,
    ) -> Result<Report, ReportError> {
        let roots = self.root(divided, spec)?;
        let links = DirectLinks::dependents(self.alloc, &divided.krates)?;
        self.tree(divided, links, &roots, words)
    }

    /// The tree of what these links lead to, below roots, as the words draw it.
    fn tree(
        &self,
        divided: &Divided,
        links: DirectLinks,
        roots: &[NodeId],
        words: &TreeWords,
    ) -> Result<Report, ReportError> {
        let pruned = self.pruned(divided, &words.pruned)?;
        let crates = kept_crates(self.alloc, &divided.krates)?;
        let features = features_by_krate(self.alloc, &divided.krates, words)?;
        let links = without(self.alloc, links, &pruned);
        let tree = Tree::drawn_by(self.alloc, crates, links, roots, words)?;
        self.shown(Ok(DrawnTree {
            tree,
            words,
            features,
        }))
    }

    /// The picture of the kept crates, as the words draw it.
    fn picture_in(&self, divided: &Divided, words: &PictureWords) -> Result<Report, ReportError> {
        let pruned = self.pruned(divided, &words.pruned)?;
        let members = members_of(self.alloc, &divided.krates)?;
        let crates = kept_crates(self.alloc, &divided.krates)?;
        let linked = LinkedCrates::of_graph(self.alloc, &divided.krates, crates, &members)?;
        let frame = PictureFrame {
            roots: &members,
            pruned: &pruned,
            words,
        };
        self.shown(linked.picture(self.alloc, frame))
    }

    /// The numbers of the crates that are left out.
    fn pruned(&self, divided: &Divided, specs: &[String]) -> Result<Vec<NodeId>, ReportError> {
        let mut pruned = Vec::new(self.alloc);
        for spec in specs {
            let found = divided.one(self.alloc, spec.as_str())?;
            pruned.push(found.node_id)?;
        }
        Ok(pruned)
    }

    /// The number of the crate that a word means, as a list.
    fn root(&self, divided: &Divided, spec: &str) -> Result<Vec<NodeId>, ReportError> {
        let found = divided.one(self.alloc, spec)?;
        Ok(vec![in self.alloc; found.node_id]?)
    }

    /// Why a crate is kept.
    fn why_in(&self, divided: &Divided, spec: &str, form: WhyForm) -> Result<Report, ReportError> {
        let found = divided.one(self.alloc, spec)?;
        match divided.krates.why(found.node_id)? {
            Some(derivation) => self.shown(Ok(Why {
                krate: found.krate,
                derivation,
                form,
            })),
            None => Ok(Report::yes(String::new(self.alloc))),
        }
    }

    /// The enabled features of a crate.
    fn features_in(&self, divided: &Divided, spec: &str) -> Result<Report, ReportError> {
        let found = divided.one(self.alloc, spec)?;
        self.shown(ExplainedFeatures::of(self.alloc, &divided.krates, found))
    }

    /// The requested certificate as JSON.
    fn certificate_in(
        &self,
        divided: &Divided,
        spec: Option<&String>,
    ) -> Result<Report, ReportError> {
        let certificate = self.certificate(divided, spec)?;
        let text = pretty(self.alloc, certificate.to_value(self.alloc))?;
        Ok(Report::yes(text))
    }

    /// Whether it is certain that a package isn't reached. One that the document lacks can't be.
    fn certainty(
        &self,
        metadata: &Metadata,
        divided: &Divided,
        spec: &str,
    ) -> Result<Report, ReportError> {
        match divided.any(self.alloc, spec) {
            Ok(Meant::Kept(found)) => self.certainty_of(metadata, divided, found.krate),
            Ok(Meant::Other(package)) => self.certainty_of(metadata, divided, package),
            Err(NamingError::Unknown { word, near }) => self.shown(Ok(Absent { word, near })),
            Err(cause) => Err(ReportError::from(cause)),
        }
    }

    /// The same for a package of the document.
    fn certainty_of(
        &self,
        metadata: &Metadata,
        divided: &Divided,
        package: &Package,
    ) -> Result<Report, ReportError> {
        let facts = divided.krates.facts()?;
        let is_unreachable = self.is_unreachable(metadata, &facts, package)?;
        let answer = Certainty {
            package,
            is_unreachable,
            facts: facts.len(),
        };
        Ok(Report {
            text: printed(self.alloc, &answer, self.asked.is_json)?,
            is_yes: is_unreachable,
        })
    }

    /// Whether it is certain, by these facts, that a package isn't reached.
    fn is_unreachable(
        &self,
        metadata: &Metadata,
        facts: &[Fact],
        package: &Package,
    ) -> Result<bool, ReportError> {
        // each id of a document that is built is read, so only memory can be lacking
        let Ok(kid) = Kid::try_from(package.id.clone()?) else {
            return Err(ReportError::Memory);
        };
        let builder = Builder::under(self.alloc, self.setting()?);
        Ok(is_unreachable(metadata, &builder, facts, &kid)?)
    }

    /// The requested certificate.
    fn certificate(
        &self,
        divided: &Divided,
        spec: Option<&String>,
    ) -> Result<Certificate, ReportError> {
        let setting = self.choice.words(self.alloc)?;
        match self.derivation(divided, spec)? {
            Some(derivation) => Ok(Certificate::Derivation {
                setting,
                derivation,
            }),
            None => {
                let facts = divided.krates.facts()?;
                Ok(Certificate::Closed { setting, facts })
            }
        }
    }

    /// The steps that lead to the crate in question, if there is one and it is kept.
    fn derivation(
        &self,
        divided: &Divided,
        spec: Option<&String>,
    ) -> Result<Option<Derivation>, ReportError> {
        let Some(spec) = spec else {
            return Ok(None);
        };
        match divided.any(self.alloc, spec.as_str())? {
            Meant::Kept(found) => Ok(divided.krates.why(found.node_id)?),
            Meant::Other(_) => Ok(None),
        }
    }
}
