//! What cargo builds of a document, as crates that are numbered from 0 on, for the answers that are about lists of crates.

use krates::{DepKind, Kid, KrateMatch, NodeId, Package};
use krates_answers::difference::DependencyEdge;
use krates_answers::direct_links::DirectLinks;
use krates_answers::enabled_feature::EnabledFeature;
use krates_answers::meaning::{Meant, Packages};
use krates_answers::naming::NamingError;
use krates_build_answers::{BuiltCrates, build_links};
use krates_build_tables::Tables;
use krates_built::Units;
use krates_questions::Document;
use krates_report::difference::Snapshot;
use krates_report::feature_list::FeatureList;
use krates_report::picture::{CrateMark, KindLink, LinkedCrates};
use krates_report::tree::head_number;
use krates_units::Side;
use krates_words::BuildSide;
use std::alloc::{AllocError, Global};
use std::collections::BTreeSet;

/// What cargo builds of a document. The crates that it builds are at positions from 0 on, in the order of their ids; what is built
/// both for the host and for another machine has one position.
#[derive(Drop)]
pub struct Build<'a> {
    /// The document.
    pub document: Document<'a>,
    /// What is built.
    pub units: Units<'a>,
    /// The crates that are built, each with what for.
    pub built: BuiltCrates,
    /// The number of the crate at each position, ascending.
    pub numbers: Vec<usize>,
}

impl<'a> Build<'a> {
    /// What these units are of. The only error is running out of memory. Time O(n log n) for n units.
    pub fn of(
        alloc: Global,
        document: Document<'a>,
        units: Units<'a>,
    ) -> Result<Build<'a>, AllocError> {
        match crates_of(alloc, &units) {
            Ok((built, numbers)) => Ok(Build {
                document,
                units,
                built,
                numbers,
            }),
            Err(error) => {
                drop((document, units));
                Err(error)
            }
        }
    }

    /// The tables by which it is numbered.
    pub(crate) fn tables(&self) -> &Tables<'a> {
        self.units.tables()
    }

    /// The id of the crate with that number.
    pub(crate) fn id(&self, number: usize) -> Option<&Kid> {
        self.document.crate_ids().get(number)
    }

    /// The package of the crate with that number.
    pub(crate) fn package(&self, number: usize) -> Option<&Package> {
        self.document.package_of(self.id(number)?)
    }

    /// Whether the crate with that number is built, for this side where there is one.
    pub(crate) fn is_for(&self, number: usize, side: Option<BuildSide>) -> bool {
        match side {
            None => self.built.is_built(number),
            Some(BuildSide::Host) => self.built.is_for_host(number),
            Some(BuildSide::Target) => self.built.is_for_targets(number),
        }
    }

    /// How many crates are built. As numbers of nodes do, positions end at 4,294,967,295.
    pub(crate) fn count(&self) -> u32 {
        u32::try_from(self.numbers.len()).unwrap_or(u32::MAX)
    }

    /// The position of the crate with that number, if it is built.
    pub(crate) fn position(&self, number: usize) -> Option<NodeId> {
        match self.numbers.binary_search(&number) {
            Ok(position) => Some(NodeId::new(u32::try_from(position).ok()?)),
            Err(_) => None,
        }
    }

    /// The crates that are built, each at its position. The only error is running out of memory. Time O(n log n) for n crates.
    pub fn crates(&self, alloc: Global) -> Result<Vec<KrateMatch<'_, Package>>, AllocError> {
        let mut crates = Vec::new(alloc);
        for number in &self.numbers {
            if let Some(found) = self.found(*number) {
                push(&mut crates, found)?;
            }
        }
        Ok(crates)
    }

    /// The crate with that number, at its position.
    pub(crate) fn found(&self, number: usize) -> Option<KrateMatch<'_, Package>> {
        let node_id = self.position(number)?;
        let kid = self.id(number)?;
        let krate = self.package(number)?;
        Some(KrateMatch {
            krate,
            kid,
            node_id,
        })
    }

    /// The crate at this position.
    fn at(&self, position: NodeId) -> Option<KrateMatch<'_, Package>> {
        match self.numbers.get(position.index()) {
            Some(number) => self.found(*number),
            None => None,
        }
    }

    /// What the crate at one position needs of the one at another.
    fn edge(&self, parent: NodeId, child: NodeId) -> Option<DependencyEdge<'_>> {
        match (self.at(parent), self.at(child)) {
            (Some(parent), Some(child)) => Some(DependencyEdge { parent, child }),
            _ => None,
        }
    }

    /// The features that are enabled of the crates that are built, each on its side. The only error is running out of memory.
    pub(crate) fn enabled_features(
        &self,
        alloc: Global,
    ) -> Result<Vec<EnabledFeature<'_>>, AllocError> {
        let mut features = Vec::new(alloc);
        for feature in self.units.features() {
            if let Some(krate) = self.built_package(feature.krate) {
                push(
                    &mut features,
                    EnabledFeature {
                        krate,
                        is_for_host: Some(feature.side == Side::Host),
                        name: feature.name,
                    },
                )?;
            }
        }
        Ok(features)
    }

    /// The package of the crate with that number, if it is built.
    fn built_package(&self, number: usize) -> Option<&Package> {
        if self.position(number).is_some() {
            self.package(number)
        } else {
            None
        }
    }

    /// What it says of its workspace, as far as it is compared with another's. The only error is running out of memory.
    pub(crate) fn snapshot(&self, alloc: Global) -> Result<Snapshot<'_>, AllocError> {
        let crates = self.crates(alloc)?;
        let dependencies = self.edges(alloc)?;
        let features = self.enabled_features(alloc)?;
        Ok(Snapshot {
            root: self.document.metadata().workspace_root.as_str(),
            crates,
            dependencies,
            features,
        })
    }

    /// What the crates that are built need of each other, by the position of the crate that is needed, and then by that of the other.
    fn edges(&self, alloc: Global) -> Result<Vec<DependencyEdge<'_>>, AllocError> {
        let dependents = self.dependents(alloc)?;
        let mut edges = Vec::new(alloc);
        for position in 0..self.count() {
            let child = NodeId::new(position);
            let parents = dependents.of(child).unwrap_or(&[]);
            self.push_edges(child, parents, &mut edges)?;
        }
        Ok(edges)
    }

    /// Adds what these need of one crate.
    fn push_edges<'s>(
        &'s self,
        child: NodeId,
        parents: &[NodeId],
        edges: &mut Vec<DependencyEdge<'s>>,
    ) -> Result<(), AllocError> {
        for parent in parents {
            if let Some(edge) = self.edge(*parent, child) {
                push(edges, edge)?;
            }
        }
        Ok(())
    }

    /// The crates that are built, with what they need, for a picture. The only error is running out of memory.
    pub(crate) fn linked(&self, alloc: Global) -> Result<LinkedCrates<'_>, AllocError> {
        let crates = self.crates(alloc)?;
        let marks = self.marks(alloc)?;
        let links = self.kind_links(alloc)?;
        Ok(LinkedCrates {
            crates,
            marks,
            links,
        })
    }

    /// What a picture says of each crate, by position.
    fn marks(&self, alloc: Global) -> Result<Vec<CrateMark>, AllocError> {
        let mut marks = Vec::new(alloc);
        for number in &self.numbers {
            marks.push(CrateMark {
                is_member: self.is_member(*number),
                is_for_host: !self.built.is_for_targets(*number),
            })?;
        }
        Ok(marks)
    }

    /// Whether the crate with that number is a member of the workspace.
    fn is_member(&self, number: usize) -> bool {
        match self.package(number) {
            Some(package) => self
                .document
                .metadata()
                .workspace_members
                .contains(&package.id),
            None => false,
        }
    }

    /// What the crates that are built need of each other, by position and kind, ascending, each once.
    fn kind_links(&self, alloc: Global) -> Result<Vec<KindLink>, AllocError> {
        let mut links = Vec::new(alloc);
        for link in build_links(alloc, &self.units)? {
            if let Some((from, to)) = self.pair(link.from.krate, link.to.krate) {
                links.push(KindLink {
                    from,
                    to,
                    kind: link.kind,
                })?;
            }
        }
        links.sort()?;
        links.dedup();
        Ok(links)
    }

    /// The features of the crate at each position, on either side, with commas between them.
    pub(crate) fn features(&self, alloc: Global) -> Result<Vec<String>, AllocError> {
        let mut features = Vec::new(alloc);
        for number in &self.numbers {
            features.push(self.features_of(alloc, *number)?)?;
        }
        Ok(features)
    }

    /// The features of the crate with that number.
    fn features_of(&self, alloc: Global, number: usize) -> Result<String, AllocError> {
        let mut names = BTreeSet::new(alloc);
        for feature in self.units.features() {
            if feature.krate == number {
                names.insert(feature.name)?;
            }
        }
        let mut list = FeatureList::new(alloc);
        for name in &names {
            list.push(name);
        }
        list.whole()
    }

    /// The packages that aren't built, in the order of their ids.
    fn others(&self, alloc: Global) -> Result<Vec<&Package>, AllocError> {
        let mut others = Vec::new(alloc);
        for number in 0..self.document.crate_ids().len() {
            if self.position(number).is_none() {
                if let Some(package) = self.package(number) {
                    others.push(package)?;
                }
            }
        }
        Ok(others)
    }

    /// The number of the one built crate that a word means, as `Packages::one` reads it.
    pub(crate) fn one(&self, alloc: Global, word: &str) -> Result<usize, NamingError> {
        let kept = self.crates(alloc)?;
        let others = self.others(alloc)?;
        let packages = Packages {
            kept: &kept,
            others: &others,
        };
        let found = packages.one(alloc, word)?;
        Ok(self.number_of(found.kid))
    }

    /// The one package that a word means, built or not, as `Packages::any` reads it.
    pub(crate) fn any<'s>(&'s self, alloc: Global, word: &str) -> Result<&'s Package, NamingError> {
        let kept = self.crates(alloc)?;
        let others = self.others(alloc)?;
        let packages = Packages {
            kept: &kept,
            others: &others,
        };
        match packages.any(alloc, word)? {
            Meant::Kept(found) => Ok(found.krate),
            Meant::Other(package) => Ok(package),
        }
    }

    /// The number of the crate with that id.
    fn number_of(&self, kid: &Kid) -> usize {
        self.document.crate_number(kid).unwrap_or(0)
    }

    /// Which position leads to which, by what the crates that are built need.
    pub(crate) fn dependencies(&self, alloc: Global) -> Result<DirectLinks, AllocError> {
        let mut pairs = Vec::new(alloc);
        for link in build_links(alloc, &self.units)? {
            if let Some(pair) = self.pair(link.from.krate, link.to.krate) {
                pairs.push(pair)?;
            }
        }
        DirectLinks::of_pairs(alloc, self.count(), &pairs)
    }

    /// Which position is needed by which.
    pub(crate) fn dependents(&self, alloc: Global) -> Result<DirectLinks, AllocError> {
        let mut pairs = Vec::new(alloc);
        for link in build_links(alloc, &self.units)? {
            if let Some(pair) = self.pair(link.to.krate, link.from.krate) {
                pairs.push(pair)?;
            }
        }
        DirectLinks::of_pairs(alloc, self.count(), &pairs)
    }

    /// Which position or head leads to which in a tree: to what is needed, or where it `is_above`, to those that need it.
    pub(crate) fn links_by_kind(
        &self,
        alloc: Global,
        is_above: bool,
    ) -> Result<DirectLinks, AllocError> {
        let mut pairs = Vec::new(alloc);
        for link in build_links(alloc, &self.units)? {
            let (from, to) = (link.from.krate, link.to.krate);
            let pair = if is_above {
                self.pair(to, from)
            } else {
                self.pair(from, to)
            };
            if let Some(pair) = pair {
                self.push_by_kind(pair, link.kind, &mut pairs)?;
            }
        }
        DirectLinks::of_pairs(alloc, self.count().saturating_mul(3), &pairs)
    }

    /// Adds a pair of positions: as it is, or over the head of this kind.
    fn push_by_kind(
        &self,
        pair: (usize, usize),
        kind: DepKind,
        pairs: &mut Vec<(usize, usize)>,
    ) -> Result<(), AllocError> {
        let (from, to) = pair;
        match head_number(self.numbers.len(), from, kind) {
            None => pairs.push(pair)?,
            Some(head) => {
                pairs.push((from, head))?;
                pairs.push((head, to))?;
            }
        }
        Ok(())
    }

    /// The positions of the crates with these numbers, if both are built.
    fn pair(&self, from: usize, to: usize) -> Option<(usize, usize)> {
        let from = self.position(from)?;
        let to = self.position(to)?;
        Some((from.index(), to.index()))
    }

    /// The positions of the packages that are asked for.
    pub(crate) fn asked(&self, alloc: Global) -> Result<Vec<NodeId>, AllocError> {
        let mut asked = Vec::new(alloc);
        for entry in &self.tables().crates {
            if entry.is_selected {
                if let Some(position) = self.position(entry.number) {
                    asked.push(position)?;
                }
            }
        }
        Ok(asked)
    }

    /// The number of the crate of a package.
    pub(crate) fn number_of_package(&self, package: &Package) -> Option<usize> {
        for number in 0..self.document.crate_ids().len() {
            if let Some(other) = self.package(number) {
                if other.id == package.id {
                    return Some(number);
                }
            }
        }
        None
    }
}

/// The crates of which these are the units, each with what for, and their numbers.
fn crates_of(alloc: Global, units: &Units<'_>) -> Result<(BuiltCrates, Vec<usize>), AllocError> {
    let built = BuiltCrates::of(alloc, units)?;
    let numbers = built.krates(alloc)?;
    Ok((built, numbers))
}

/// Adds an item that borrows.
pub(crate) fn push<T: Drop>(list: &mut Vec<T>, item: T) -> Result<(), AllocError> {
    list.push(item)?;
    Ok(())
}
