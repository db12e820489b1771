//! What the words say of a build.

ghost use Rattle.std.specs.Prelude.{◌≡◌, IfOk, map, string_bytes};
ghost use Rattle.krates_units.specs.BuildSetting.{build_setting_view, selection_view};
ghost use Rattle.krates_units.specs.Machines.{machine_view};
ghost use Rattle.krates_words.specs.BuildWords.{features_of, selection_of, setting_of};

use crate::feature_names::feature_names;
use krates_ids::PkgSpec;
use krates_units::{BuildSetting, Machine, PackageSelection, Resolver, TargetFlags};
use std::alloc::{AllocError, Global};

/// What the words say of a build (Cargo Book, "cargo build"). They don't say how rustc describes a machine, nor which resolver a workspace
/// has whose manifest says it.
#[derive(Debug, Drop)]
pub struct BuildWords {
    /// Whether every member is asked for, whatever packages are named: `--workspace`.
    pub workspace: bool,
    /// The packages that one of these fits are asked for: `--package`. Where none is given, the default members are.
    pub packages: Vec<PkgSpec>,
    /// The kinds of targets that are asked for: `--lib`, `--bins`, `--examples`, `--tests`, `--benches` and `--all-targets`.
    pub kinds: TargetFlags,
    /// The names of features, several in one text with commas or spaces between them: `--features`.
    pub features: Vec<String>,
    /// Whether all features are enabled: `--all-features`.
    pub all_features: bool,
    /// Whether the feature `default` is left out: `--no-default-features`.
    pub no_default_features: bool,
    /// The triples of the machines that the build is for: `--target`. Where none is given, it is for the machine that builds.
    pub triples: Vec<String>,
    /// The files that describe the first of these machines, in their order: `--cfg`. There are at most as many as triples.
    pub cfgs: Vec<String>,
    /// The triple of the machine that builds: `--host`. Where it isn't given, it is the one for which rustc itself is built.
    pub host: Option<String>,
    /// The file that describes the machine that builds: `--host-cfg`.
    pub host_cfg: Option<String>,
    /// The version of the resolver: `--resolver`. Where it isn't given, the workspace says it.
    pub resolver: Option<Resolver>,
}

impl BuildWords {
    /// What a build is asked for by these words, with this resolver, on this host and for these machines. Each feature is a name of its own: a
    /// text with several is cut at its commas and spaces, and what is empty between them is left out (Cargo Book, "cargo build", "Feature
    /// Selection"). The only error is running out of memory. Time O(length of the words).
    ///
    /// ```text
    /// let setting = words.setting(alloc, Resolver::V2, host, Vec::new(alloc))?;
    /// ```
    pub fn setting(
        &self,
        alloc: Global,
        resolver: Resolver,
        host: Machine,
        targets: Vec<Machine>,
    ) -> Result<BuildSetting, AllocError>
        ensures { IfOk result (λ setting. build_setting_view setting
            ≡ setting_of self.now resolver (machine_view host) (map machine_view targets.items)) }
    {
        let (selection, features) = self.requests(alloc)?;
        Ok(BuildSetting {
            resolver,
            host,
            targets,
            selection,
            features,
            all_features: self.all_features,
            no_default_features: self.no_default_features,
            kinds: self.kinds,
        })
    }

    /// Which packages are asked for, and which features.
    fn requests(&self, alloc: Global) -> Result<(PackageSelection, Vec<String>), AllocError>
        ensures packages { IfOk result (λ asked. selection_view asked.0 ≡ selection_of self.now) }
        ensures features { IfOk result (λ asked. map string_bytes asked.1.items ≡ features_of self.now) }
    {
        let selection = self.selection()?;
        let features = feature_names(alloc, &self.features)?;
        Ok((selection, features))
    }

    /// Which packages are asked for.
    fn selection(&self) -> Result<PackageSelection, AllocError>
        ensures { IfOk result (λ selection. selection_view selection ≡ selection_of self.now) }
    {
        if self.workspace {
            Ok(PackageSelection::Workspace)
        } else if self.packages.is_empty() {
            Ok(PackageSelection::DefaultMembers)
        } else {
            Ok(PackageSelection::Packages(self.packages.clone()?))
        }
    }
}
