//! The build: from a document to the graph of its kept crates.

ghost use Rattle.std.specs.Prelude.{◌≡◌, ◌↔◌, Contains, None, MatchOption, IfOk, IfErr, OnOk, OnErr};
ghost use Rattle.std.specs.Bool.{MatchBool};
ghost use Rattle.std.specs.Borrow.{sem};
ghost use Rattle.krates_cm.specs.Document.{metadata_view};
ghost use Rattle.krates_rules.specs.Admission.{IsAdmitted};
ghost use Rattle.krates_rules.specs.NamedIds.{NamesReadIds};
ghost use Rattle.krates_document.specs.Ids.{ids_view};
ghost use Rattle.krates_rules.specs.Kind.{IgnoresMore};
ghost use Rattle.krates_rules.specs.PlainSetting.{plain_setting};
ghost use Rattle.krates.specs.Build.{IsResolvable, IsBuilt, GraphRefusal, BuildRefusal};
ghost use Rattle.krates.specs.Builder.{RestsUnchanged};
ghost use Rattle.krates.specs.BuilderModel.{AsksForCrates, at_targets, excluding, ignoring, with_setting};
ghost use Rattle.krates.specs.Cargo.{CargoBuildRefusal, IsWritten, NamesWrittenIds};
ghost use Rattle.krates.specs.Indexed.{HasNames, IsAskable, IsSeen, Sees};
ghost use Rattle.krates_cargo.specs.Running.{IsSomeAnswer};

use crate::drawn::{Sketch, graph_of, places_of, sketch_of};
use krates_cargo::MetadataCommand;
use krates_cm::{Metadata, Package};
use krates_document::corrected_document::corrected;
use krates_drawing::division::{Division, OnFilter, divide, handed_over};
use krates_drawing::laws as drawing_laws;
use krates_drawing::limits::Limits;
use krates_drawing::store::FromEdge;
use krates_ids::{BuildIndexCache, CachingIndex, Error, Kid, PackageNames, PkgSpec, laws};
use krates_queries::from_package::FromPackage;
use krates_queries::kept::{Findings, Krates, krates_of};
use krates_resolve::{DepKind, Ids, Scope, Setting, admit};
use krates_text::target::Target;
use std::alloc::{AllocError, Global};
use std::collections::BTreeSet;
use std::marker::Model;
use std::process::Processes;

/// Where packages are looked up by name: the index that a builder is given.
#[derive(Drop)]
pub struct IndexSource {
    /// The cache, which a build asks once.
    pub build: BuildIndexCache,
}

/// Builds the graph of crates of a document under a setting.
///
/// The setters may be called in any order and again: what is ignored, excluded or included is added to what already
/// was. Each returns the builder, so that calls chain. Those that append to a list can run out of memory, and
/// then leave the builder as it was.
///
/// ```text
/// let mut builder = Builder::new(alloc);
/// builder.exclude(specs)?.workspace(true).include_targets(targets)?;
/// let krates: Krates = builder.build_with_metadata(metadata, &mut NoneFilter)?;
/// ```
///
/// The parameter is the type of the index, an `IndexSource`. Only the setter of the index depends on it.
#[derive(Drop)]
pub struct Builder<S: Drop = IndexSource> {
    alloc: Global,
    setting: Setting,
    index: Option<S>,
}

impl<S: Drop> Model for Builder<S> {
    ghost use Rattle.krates.specs.BuilderModel.{BuilderModel};

    ghost Value = { BuilderModel S };

    ghost view = { λ builder. record { setting = builder.setting; index = builder.index } };
}

impl<S: Drop + 'static> Builder<S> {
    /// Ignores this kind of dependency, in addition to those that are ignored already: where a member of the workspace has
    /// it, where another crate has it, or everywhere, as the scope says. Never refused. Time O(1).
    ///
    /// ```text
    /// // what is shipped: the workspace without its tests, and all that it needs
    /// builder.ignore_kind(DepKind::Dev, Scope::All);
    /// ```
    pub fn ignore_kind(&mut self, kind: DepKind, scope: Scope) -> &mut Self
        ensures ignored { IgnoresMore self.old.setting.ignored result.now.setting.ignored kind scope }
        ensures rest { result.now ≡ ignoring self.old result.now.setting.ignored }
        ensures same_reference { result.ghost_name ≡ self.entry.ghost_name }
    {
        self.setting.ignore_kind(kind, scope);
        self
    }

    /// Whether every member of the workspace is a root, even where the graph has a root of its own; the last call
    /// counts. It changes nothing where `include_workspace_crates` has set manifests. Never refused. Time O(1).
    ///
    /// ```text
    /// builder.workspace(true);
    /// ```
    pub fn workspace(&mut self, is_on: bool) -> &mut Self
        ensures set { result.now ≡ with_setting self.old (record (self.old.setting) { workspace = is_on }) }
        ensures same_reference { result.ghost_name ≡ self.entry.ghost_name }
    {
        self.setting.workspace(is_on);
        self
    }

    /// Whether a dependency's name in a feature reference, as in `dep:NAME` or `NAME/FEATURE`, means all dependencies that
    /// match it, rather than only the least of them by id; the last call counts. Never refused. Time O(1).
    ///
    /// ```text
    /// builder.all_named(true);
    /// ```
    pub fn all_named(&mut self, is_on: bool) -> &mut Self
        ensures set { result.now ≡ with_setting self.old (record (self.old.setting) { all_named = is_on }) }
        ensures same_reference { result.ghost_name ≡ self.entry.ghost_name }
    {
        self.setting.all_named(is_on);
        self
    }

    /// Leaves out the packages that one of the specifications fits, in addition to those that are left out already: they
    /// aren't kept, and neither is what only they need. The only refusal is running out of memory, and then the
    /// builder is as it was. Time O(specifications).
    ///
    /// ```text
    /// let specs = vec![in alloc; PkgSpec::from_str(alloc, "openssl@0.10.64")?]?;
    /// builder.exclude(specs)?;
    /// ```
    pub fn exclude(&mut self, specs: Vec<PkgSpec>) -> Result<&mut Self, AllocError>
        ensures* refused { sem 𝓛 (RestsUnchanged S.row self.entry result) }
        ensures appended { IfOk result (λ b. b.now ≡ excluding self.old specs.items) }
        ensures same_reference { IfOk result (λ b. b.ghost_name ≡ self.entry.ghost_name) }
    {
        if self.has_excluded(specs) {
            Ok(self)
        } else {
            Err(AllocError)
        }
    }

    /// What is set, except for the index.
    pub(crate) fn setting(&self) -> &Setting
        ensures { result.now ≡ self.now.setting }
    {
        &self.setting
    }

    /// Where memory comes from.
    pub(crate) fn allocator(&self) -> Global {
        self.alloc
    }

    /// Leaves out more packages, and returns whether that succeeded.
    fn has_excluded(&mut self, specs: Vec<PkgSpec>) -> bool
        ensures { MatchBool result (self.new ≡ excluding self.old specs.items) (self.new ≡ self.old) }
    {
        self.setting.exclude(specs).is_ok()
    }

    /// Makes the members with these manifests roots, in addition to those that were given already. A path that
    /// doesn't end in `Cargo.toml` means the manifest in that directory; paths are compared by components, as the
    /// document writes them. The workspace's manifest alone means every member. The only refusal is running out
    /// of memory, and then the builder is as it was. Time O(length of the paths).
    ///
    /// ```text
    /// builder.include_workspace_crates(&["/w/tools/a", "/w/tools/b/Cargo.toml"])?;
    /// ```
    pub fn include_workspace_crates(&mut self, paths: &[&str]) -> Result<&mut Self, AllocError>
        ensures* refused { sem 𝓛 (RestsUnchanged S.row self.entry result) }
        ensures appended { IfOk result (λ b. AsksForCrates self.old b.now paths.now) }
        ensures same_reference { IfOk result (λ b. b.ghost_name ≡ self.entry.ghost_name) }
    {
        if self.has_included_crates(paths) {
            Ok(self)
        } else {
            Err(AllocError)
        }
    }

    /// Makes more crates roots, and returns whether that succeeded.
    fn has_included_crates(&mut self, paths: &[&str]) -> bool
        ensures { MatchBool result (AsksForCrates self.old self.new paths.now) (self.new ≡ self.old) }
    {
        self.setting
            .include_workspace_crates(self.alloc, paths)
            .is_ok()
    }

    /// Keeps only dependencies whose target text passes at one of these targets, each with the features that it has, in
    /// addition to those that are set already. Where none is set, every text passes except one like `cfg(any())`, which asks
    /// about no target and is false. The only refusal is running out of memory, and then the builder is as it was.
    /// Time O(targets).
    ///
    /// A target that isn't known ([`Target::is_known`](krates_text::target::Target::is_known)) has no properties: `cfg(unix)`,
    /// `cfg(windows)` and `cfg(target_os = "..")` are false there, so that the dependencies under them are left out, and
    /// nothing reports it. Ask first, or describe the target by `TargetInfo::from_rustc`. What build scripts and
    /// procedural macros need passes at the host, which is another target when one compiles for a second machine.
    ///
    /// ```text
    /// let linux = Target::new(alloc, "x86_64-unknown-linux-gnu")?;
    /// builder.include_targets(vec![in alloc; (linux, Vec::new(alloc))]?)?;
    /// ```
    pub fn include_targets(
        &mut self,
        targets: Vec<(Target, Vec<String>)>,
    ) -> Result<&mut Self, AllocError>
        ensures* refused { sem 𝓛 (RestsUnchanged S.row self.entry result) }
        ensures appended { IfOk result (λ b. b.now ≡ at_targets self.old targets.items) }
        ensures same_reference { IfOk result (λ b. b.ghost_name ≡ self.entry.ghost_name) }
    {
        if self.has_included_targets(targets) {
            Ok(self)
        } else {
            Err(AllocError)
        }
    }

    /// Keeps dependencies for more targets, and returns whether that succeeded.
    fn has_included_targets(&mut self, targets: Vec<(Target, Vec<String>)>) -> bool
        ensures { MatchBool result (self.new ≡ at_targets self.old targets.items) (self.new ≡ self.old) }
    {
        self.setting.include_targets(targets).is_ok()
    }
}

impl Builder {
    /// A builder with nothing set, and without an index: the root, or every member where the graph has none, is kept
    /// with all that it needs. Time O(1).
    ///
    /// ```text
    /// let mut builder = Builder::new(alloc);
    /// ```
    pub fn new(alloc: Global) -> Builder
        ensures setting { result.setting ≡ plain_setting }
        ensures index { result.index ≡ None }
    {
        Builder::under(alloc, Setting::new(alloc))
    }

    /// A builder under this setting, and without an index. Time O(1).
    ///
    /// ```text
    /// let mut setting = Setting::new(alloc);
    /// setting.exclude(specs)?;
    /// let builder = Builder::under(alloc, setting);
    /// ```
    pub fn under(alloc: Global, setting: Setting) -> Builder
        ensures setting { result.setting ≡ setting }
        ensures index { result.index ≡ None }
    {
        Builder {
            alloc,
            setting,
            index: None,
        }
    }

    /// Looks all packages up in this index, and corrects their features by it, before anything else is looked at. A
    /// second index takes the place of the first. Never refused. Time O(1).
    ///
    /// It is asked once by a build, with the names of all packages, and not at all where the document can't be
    /// resolved. So it has to be callable only with those names, of a document that can be; the build requires
    /// that. Set the index and build in one function.
    ///
    /// ```text
    /// let known: BuildIndexCache = Box::new(alloc, move |_names: PackageNames| IndexAnswer { krates })?;
    /// builder.with_crates_io_index(known);
    /// ```
    pub fn with_crates_io_index(&mut self, build: BuildIndexCache) -> &mut Self
        ensures index { MatchOption result.now.index ⊥ (λ source. source.build ≡ build) }
        ensures setting { result.now.setting ≡ self.old.setting }
        ensures same_reference { result.ghost_name ≡ self.entry.ghost_name }
    {
        self.index = Some(IndexSource { build });
        self
    }

    /// Keeps exactly the crates, the enabled features and the dependency edges of the document that have a derivation
    /// from the roots by the rules, and draws exactly their graph, with what `N` makes of each package and `E` of
    /// each edge. When the graph is finished, it hands every other package to the filter, once, in the order of their
    /// ids.
    ///
    /// Where no two kept crates come by one declared dependency of a kept crate, that crate depends directly on exactly
    /// the crates that have it as a direct dependent: `d` is in `direct_dependencies(p)` exactly if `p` is in
    /// `direct_dependents(d)`. Where one declared dependency brings two versions of a crate, each has it as a
    /// dependent, and it depends on the one that comes last by id.
    ///
    /// With an index, all of this is about the document whose packages are corrected by what the index answers;
    /// only whether the document can be resolved is asked of it as it is given, and that does not depend on the
    /// correction.
    ///
    /// It is refused, in this order of precedence: as `NoResolveGraph`, `InvalidId` or `Doubled` where the document
    /// can't be resolved, as `Lost` where it lacks what some derivation needs, as `NoRootKrates` where no crate
    /// would be kept, and as `TooMany` where none of these holds and the graph has more than 4,294,967,295 nodes or
    /// edges. It may instead return `Memory`. Each id that a refusal names is read from a text of the document, and
    /// keeps that text. After each refusal the filter is as it was.
    ///
    /// Each crate and each feature that is found is followed once, and so is each reference (`Krates::work` counts
    /// them); what they name is looked up in time O(log n).
    ///
    /// ```text
    /// let metadata = MetadataCommand::parse(alloc, text)?;
    /// let mut others = FilterFn(|pkg: Package| drop(pkg));
    /// let krates: Krates = Builder::new(alloc).build_with_metadata(metadata, &mut others)?;
    /// ```
    pub fn build_with_metadata<N: FromPackage + Drop, E: FromEdge + Drop, F: OnFilter>(
        self,
        metadata: Metadata,
        filter: &mut F,
    ) -> Result<Krates<N, E>, Error>
        requires askable { IsResolvable (metadata_view metadata)
            → IsAskable (λ source. BuildIndexCache.pre source.build) self.index metadata }
        requires callable { F.can_filter filter.old }
        ensures admitted { OnOk result (IsResolvable (metadata_view metadata)) }
        ensures built { IfOk result (λ krates. Sees (λ source. BuildIndexCache.post source.build) self.index
            metadata (λ seen. IsBuilt F.filters N.made_from E.made_from_edge seen
            self.setting filter.old filter.new krates)) }
        ensures callable { F.can_filter filter.new }
        ensures refused { IfErr result
            (BuildRefusal (λ source. BuildIndexCache.post source.build) self.index metadata self.setting) }
        ensures named { IfErr result (NamesReadIds (metadata_view metadata)) }
        ensures unchanged { OnErr result (filter.new ≡ filter.old) }
    {
        let Builder {
            alloc,
            setting,
            index,
        } = self;
        let ids = admit(alloc, &metadata)?;
        let metadata = seen_through(alloc, index, metadata)?;
        build_admitted(alloc, &setting, metadata, ids, filter)
    }

    /// Runs the command, and builds from the document that cargo writes what `build_with_metadata` builds from it. The
    /// program is the one that the command sets, else the one that is passed in, for example from the variable `CARGO`, else
    /// `cargo`.
    ///
    /// It is refused as `Metadata` where there is no document, for the reason that `MetadataCommand::exec` gives; else
    /// as the build of the document is. It may instead return `Memory`. Each id that a refusal names is read from a
    /// text of the document, and keeps that text. After each refusal the filter is as it was. Time: that of the
    /// run, and of the build.
    ///
    /// An index has to be callable on the names of each document that cargo may write.
    ///
    /// ```text
    /// let command = Cmd::new(alloc).into_command()?;
    /// let krates: Krates = Builder::new(alloc).build(command, Some("cargo"), rt, &mut NoneFilter)?;
    /// ```
    pub fn build<N: FromPackage + Drop, E: FromEdge + Drop, F: OnFilter>(
        self,
        command: MetadataCommand,
        cargo: Option<&str>,
        processes: &impl Processes,
        filter: &mut F,
    ) -> Result<Krates<N, E>, Error>
        requires askable { (m : Metadata) → IsSomeAnswer (metadata_view m) → IsResolvable (metadata_view m)
            → IsAskable (λ source. BuildIndexCache.pre source.build) self.index m }
        requires callable { F.can_filter filter.old }
        ensures built { IfOk result (λ krates. IsWritten (λ m. IsResolvable (metadata_view m)
            × Sees (λ source. BuildIndexCache.post source.build) self.index m
            (λ seen. IsBuilt F.filters N.made_from E.made_from_edge seen self.setting filter.old filter.new krates))) }
        ensures callable { F.can_filter filter.new }
        ensures refused { IfErr result
            (CargoBuildRefusal (λ source. BuildIndexCache.post source.build) self.index self.setting) }
        ensures named { IfErr result NamesWrittenIds }
        ensures unchanged { OnErr result (filter.new ≡ filter.old) }
    {
        let metadata = command.exec(cargo, processes)?;
        self.build_with_metadata(metadata, filter)
    }
}

/// The document that a build looks at: with an index, which is asked once for the names of all packages, each package is
/// corrected by its answer; without one, the document as it is. Returns `AllocError` if memory runs out. Time O(n log n) in the
/// size of the packages, plus the time of the index.
fn seen_through(
    alloc: Global,
    index: Option<IndexSource>,
    metadata: Metadata,
) -> Result<Metadata, AllocError>
    requires askable { IsAskable (λ source. BuildIndexCache.pre source.build) index metadata }
    ensures seen { IfOk result (IsSeen (λ source. BuildIndexCache.post source.build) index metadata) }
{
    let Some(IndexSource { build }) = index else {
        return Ok(metadata);
    };
    let names = package_names(alloc, &metadata.packages)?;
    corrected(alloc, &CachingIndex::new(build, names), metadata)
}

/// The names of the packages.
fn package_names(alloc: Global, packages: &[Package]) -> Result<PackageNames, AllocError>
    ensures { IfOk result (HasNames packages.now) }
{
    let mut names = BTreeSet::new(alloc);
    for pkg in packages {
        names.insert(pkg.name.clone()?)?;
    }
    Ok(PackageNames { names })
}

/// Builds the graph of a document that was admitted with these ids.
fn build_admitted<N: FromPackage + Drop, E: FromEdge + Drop, F: OnFilter>(
    alloc: Global,
    setting: &Setting,
    metadata: Metadata,
    ids: Ids,
    filter: &mut F,
) -> Result<Krates<N, E>, Error>
    requires admitted { IsAdmitted (metadata_view metadata) (ids_view ids) }
    requires callable { F.can_filter filter.old }
    ensures built { IfOk result (IsBuilt F.filters N.made_from E.made_from_edge metadata setting.now
        filter.old filter.new) }
    ensures callable { F.can_filter filter.new }
    ensures refused { IfErr result (GraphRefusal (metadata_view metadata) setting.now) }
    ensures named { IfErr result (NamesReadIds (metadata_view metadata)) }
    ensures unchanged { OnErr result (filter.new ≡ filter.old) }
{
    laws::one_reading();
    laws::comparison();
    drawing_laws::ends_stand();
    drawing_laws::connected();
    drawing_laws::dependencies_agree();
    let limits = Limits {
        nodes: u32::MAX,
        edges: u32::MAX,
    };
    let sketch = sketch_of(alloc, &metadata, &ids, setting)?;
    let Sketch {
        outline,
        steps,
        work,
    } = sketch;
    let rest = rest_of(metadata, ids);
    let (packages, kids, members, workspace_root) = rest;
    let division = divide(alloc, packages, kids, &outline.krates)?;
    let Division { kept, others } = division;
    let count = kept.len();
    let graph = graph_of(alloc, limits, outline, kept)?;
    let found = places_of(alloc, graph.raw_nodes(), count, &members);
    let places = handed_over(found, others, filter)?;
    let findings = Findings { work, steps };
    Ok(krates_of(graph, count, places, workspace_root, findings))
}

/// The packages of a document, their ids, those of the workspace's members, and its root: what a build still needs, once the document
/// has been sketched. Everything else is dropped here, once, rather than at each refusal of a build.
fn rest_of(metadata: Metadata, ids: Ids) -> (Vec<Package>, Vec<Kid>, Vec<Kid>, String)
    ensures { result ≡ (metadata.packages, ids.packages, ids.members, metadata.workspace_root) }
{
    (
        metadata.packages,
        ids.packages,
        ids.members,
        metadata.workspace_root,
    )
}
