//! The tables.
ghost use Rattle.std.specs.Prelude.{◌≡◌, option_copied, slice_get};

use crate::reference::FeatureReference;
use krates_cm::{Dependency, DependencyKind, Target};
use krates_units::{Machine, Side};
use std::collections::BTreeMap;

/// Where a link is: the number of the crate that has the dependency, and the place among its links.
#[derive(Clone, Copy, Debug, PartialEq, Eq, PartialOrd, Ord)]
pub struct LinkPlace {
    /// The number of the crate.
    pub krate: usize,
    /// The place among its links.
    pub index: usize,
}

/// Where a target is: the number of its crate, and the place among the targets of its package.
#[derive(Clone, Copy, Debug, PartialEq, Eq, PartialOrd, Ord)]
pub struct TargetPlace {
    /// The number of the crate.
    pub krate: usize,
    /// The place among the targets of the package.
    pub index: usize,
}

/// Everything that the rules ask of a document and of a build.
#[derive(Drop)]
pub struct Tables<'a> {
    /// Whether the first resolver is asked for.
    pub is_first: bool,
    /// The machines that the build is for, each at its number: each once, in the order in which they were asked for first.
    pub machines: Vec<&'a Machine>,
    /// The crates of the document, each at its number: in the order of their ids.
    pub crates: Vec<CrateEntry<'a>>,
}

/// A crate, by what its package says.
#[derive(Drop)]
pub struct CrateEntry<'a> {
    /// Its number.
    pub number: usize,
    /// Whether its features are resolved as those of a root.
    pub is_root: bool,
    /// Whether they count for the host too, if they are.
    pub starts_on_host: bool,
    /// Whether it is asked for.
    pub is_selected: bool,
    /// Whether it has a build script.
    pub has_script: bool,
    /// Whether its package says that it links to a native library.
    pub links_natively: bool,
    /// What is requested of it, if it is a root.
    pub requested: Vec<FeatureReference<'a>>,
    /// Its features, each with the references that it lists.
    pub features: BTreeMap<&'a str, Vec<FeatureReference<'a>>>,
    /// The names of its optional dependencies that are features too.
    pub implied: Vec<&'a str>,
    /// Its declared dependencies that the document has edges for, once for each edge.
    pub links: Vec<Link<'a>>,
    /// Those that it has none for.
    pub lacking: Vec<Lacking<'a>>,
    /// Its targets, in the order of the document.
    pub targets: Vec<TargetEntry<'a>>,
}

/// A declared dependency of a crate, with an edge of the document by which it is resolved.
#[derive(Drop)]
pub struct Link<'a> {
    /// Where it is.
    pub place: LinkPlace,
    /// The number of the crate that the edge leads to.
    pub child: usize,
    /// What the dependency is needed for.
    pub kind: DependencyKind,
    /// The target text that it is for.
    pub cfg: Option<&'a str>,
    /// The dependency, as it is declared.
    pub declared: &'a Dependency,
    /// The name under which the manifest knows it.
    pub name: &'a str,
    /// Whether it is left out unless it is turned on.
    pub is_optional: bool,
    /// Whether the crate has a feature of that name.
    pub is_feature: bool,
    /// The features that it gives to the other crate.
    pub given: Vec<&'a str>,
    /// Whether it counts for the features of the targets' side.
    pub counts_for_targets: bool,
    /// Whether it counts for those of the host's side.
    pub counts_for_host: bool,
    /// The side to which it leads from the targets' side.
    pub leads_to: Side,
    /// The side on which a target that requires features looks for those of the other crate.
    pub looks_on: Side,
    /// Whether its target text holds at the host.
    pub passes_on_host: bool,
    /// Whether it holds at each machine that the build is for.
    pub passes_on: Vec<bool>,
}

/// A declared dependency that the document has no edge for.
#[derive(Drop)]
pub struct Lacking<'a> {
    /// The number of the crate that declares it.
    pub krate: usize,
    /// The place among those of the crate that are lacking.
    pub index: usize,
    /// The dependency, as it is declared.
    pub declared: &'a Dependency,
    /// What it is needed for.
    pub kind: DependencyKind,
    /// The name under which the manifest knows it.
    pub name: &'a str,
    /// Whether it is left out unless it is turned on.
    pub is_optional: bool,
}

/// A target of a crate, by its kinds and by what a build asks for.
#[derive(Drop)]
pub struct TargetEntry<'a> {
    /// Where it is.
    pub place: TargetPlace,
    /// The target.
    pub target: &'a Target,
    /// Whether it is a library.
    pub is_library: bool,
    /// Whether it is one that Rust code is linked with.
    pub is_linkable: bool,
    /// Whether it is a build script.
    pub is_script: bool,
    /// Whether it is a procedural macro.
    pub is_macro: bool,
    /// Whether it is a program.
    pub is_program: bool,
    /// Whether it has dev dependencies, whatever its mode.
    pub always_uses_dev: bool,
    /// Whether it may run the programs of its package, if it is compiled with its tests.
    pub may_run_programs: bool,
    /// Whether it is asked for, as itself.
    pub is_asked: bool,
    /// Whether it is asked for with its tests.
    pub is_asked_with_tests: bool,
    /// The features that it requires.
    pub required: Vec<&'a str>,
}

impl<'a> Tables<'a> {
    /// The crate with that number; `None` where there is none. Time O(1).
    pub fn entry(&self, number: usize) -> Option<&CrateEntry<'a>>
        ensures { option_copied result ≡ slice_get self.now.crates.items number }
    {
        self.crates.get(number)
    }

    /// The machine with that number; `None` where there is none. Time O(1).
    pub fn machine(&self, number: usize) -> Option<&'a Machine>
        ensures { result ≡ slice_get self.now.machines.items number }
    {
        self.machines.get(number).copied()
    }
}

impl<'a> CrateEntry<'a> {
    /// Its link at that place; `None` where there is none. Time O(1).
    pub fn link(&self, index: usize) -> Option<&Link<'a>>
        ensures { option_copied result ≡ slice_get self.now.links.items index }
    {
        self.links.get(index)
    }

    /// Its target at that place; `None` where there is none. Time O(1).
    pub fn target(&self, index: usize) -> Option<&TargetEntry<'a>>
        ensures { option_copied result ≡ slice_get self.now.targets.items index }
    {
        self.targets.get(index)
    }
}
