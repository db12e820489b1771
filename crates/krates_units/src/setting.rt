//! What a build is asked for, in the words of `cargo build`.
ghost use Rattle.std.specs.Prelude.{◌≡◌};
ghost use Rattle.krates_units.specs.BuildSetting.{asks_kinds, asks_dev};
ghost use Rattle.krates_units.specs.AskedKinds.{ask_to_build, ask_to_test};

use crate::machine::Machine;
use krates_ids::PkgSpec;

/// The version of the resolver, which says how features are united (Cargo Book, "Resolver versions").
#[derive(Clone, Copy, Debug, PartialEq, Eq)]
pub enum Resolver {
    /// `1`: a crate has one set of features.
    V1,
    /// `2`: a crate has one set of features for the targets, and one for the host.
    V2,
    /// `3`: as `2`; versions of packages are chosen in another way.
    V3,
}

/// The kinds of targets that are asked for. If none is, libraries and programs are (Cargo Book, "cargo build", "Target
/// Selection").
#[derive(Clone, Copy, Debug, PartialEq, Eq)]
pub struct TargetFlags {
    /// `--lib`
    pub lib: bool,
    /// `--bins`
    pub bins: bool,
    /// `--examples`
    pub examples: bool,
    /// `--tests`
    pub tests: bool,
    /// `--benches`
    pub benches: bool,
    /// `--all-targets`
    pub all: bool,
}

impl TargetFlags {
    /// Whether some kind of target is asked for. Time O(1).
    pub fn asks_kinds(self) -> bool
        ensures { result ≡ asks_kinds self }
    {
        self.lib || self.bins || self.examples || self.tests || self.benches || self.all
    }

    /// Whether a kind of target is asked for that has dev dependencies. Time O(1).
    pub fn asks_dev(self) -> bool
        ensures { result ≡ asks_dev self }
    {
        self.examples || self.tests || self.benches || self.all
    }

    /// Whether the flags ask for a target that is such a library, program or example as itself.
    pub(crate) fn ask_to_build(self, library: bool, program: bool, example: bool) -> bool
        ensures { result ≡ ask_to_build self library program example }
    {
        (!self.asks_kinds() && (library || program))
            || ((self.lib || self.all) && library)
            || ((self.bins || self.all) && program)
            || ((self.examples || self.all) && example)
    }

    /// Whether the flags ask for a target with its tests, where it has some, or is such a library, program or benchmark.
    pub(crate) fn ask_to_test(
        self,
        tests: bool,
        library: bool,
        program: bool,
        benchmark: bool,
    ) -> bool
        ensures { result ≡ ask_to_test self tests library program benchmark }
    {
        ((self.tests || self.all) && tests)
            || ((self.benches || self.all) && (library || program || benchmark))
    }
}

/// Which packages are asked for (Cargo Book, "cargo build", "Package Selection").
#[derive(Debug, Drop)]
pub enum PackageSelection {
    /// The default members, where nothing is said.
    DefaultMembers,
    /// Every member, `--workspace`.
    Workspace,
    /// Those that fit one of these specifications, `--package` for each.
    Packages(Vec<PkgSpec>),
}

/// What a build is asked for.
#[derive(Debug, Drop)]
pub struct BuildSetting {
    /// The version of the resolver, which the document doesn't say.
    pub resolver: Resolver,
    /// The machine that builds.
    pub host: Machine,
    /// The machines that it builds for, `--target` for each. If there are none, it builds for itself.
    pub targets: Vec<Machine>,
    /// Which packages are asked for.
    pub selection: PackageSelection,
    /// The features that are asked for, each as the command line has it.
    pub features: Vec<String>,
    /// `--all-features`
    pub all_features: bool,
    /// `--no-default-features`
    pub no_default_features: bool,
    /// The kinds of targets that are asked for.
    pub kinds: TargetFlags,
}
