//! The caller's setting.

ghost use Rattle.std.specs.Prelude.{◌≡◌, ◌↔◌, [], false, IfOk, IsTrue, OnOk, OnErr, map, string_bytes, option_map};
ghost use Rattle.std.specs.List.{AllZip};
ghost use Rattle.krates_cm.specs.Document.{package_view, text_view};
ghost use Rattle.krates_ids.specs.PackageSpecification.{spec_view};
ghost use Rattle.krates_text.specs.AskedTargets.{asked_of};
ghost use Rattle.krates_rules.specs.Kind.{kind_of, ignores, IgnoresMore};
ghost use Rattle.krates_rules.specs.Setting.{SettingModel, IsManifestOf, AsksForPaths, IsExcluded, Passes};
ghost use Rattle.krates_rules.specs.PlainSetting.{plain_setting};
ghost use Rattle.krates_document.specs.SettingChanges.{with_exclusions, with_targets};

use krates_cm::{DependencyKind, Package};
use krates_ids::PkgSpec;
use krates_rules::kind::{DepKind, IgnoredKinds, NO_KINDS, Scope};
use krates_text::passing;
use krates_text::path::{ends_with, join};
use krates_text::target::Target;
use std::alloc::{AllocError, Global};
use std::marker::Model;

/// What the caller sets.
#[derive(Debug, Drop)]
pub struct Setting {
    targets: Vec<(Target, Vec<String>)>,
    manifests: Vec<String>,
    exclusions: Vec<PkgSpec>,
    ignored: IgnoredKinds,
    workspace: bool,
    all_named: bool,
}

impl Model for Setting {
    ghost Value = { SettingModel };

    ghost view = { λ s. record {
      targets = map asked_of s.targets.items;
      manifests = map text_view s.manifests.items;
      exclusions = map spec_view s.exclusions.items;
      ignored = s.ignored;
      workspace = s.workspace;
      all_named = s.all_named;
    } };
}

impl Setting {
    /// Nothing is set: the root, or every member, is kept with all that it needs. Time O(1).
    pub fn new(alloc: Global) -> Setting
        ensures { result ≡ plain_setting }
    {
        Setting {
            targets: Vec::new(alloc),
            manifests: Vec::new(alloc),
            exclusions: Vec::new(alloc),
            ignored: IgnoredKinds {
                of_members: NO_KINDS,
                of_others: NO_KINDS,
            },
            workspace: false,
            all_named: false,
        }
    }

    /// Ignores the dependencies of this kind of the crates of the scope, in addition to those that are ignored already. Time O(1).
    pub fn ignore_kind(&mut self, kind: DepKind, scope: Scope)
        ensures ignored { IgnoresMore self.old.ignored self.new.ignored kind scope }
        ensures rest { self.new ≡ record self.old { ignored = self.new.ignored } }
    {
        self.ignored = self.ignored.with(kind, scope);
    }

    /// Whether every member of the workspace is a root, even where the graph has a root of its own. The last call
    /// counts. Time O(1).
    pub fn workspace(&mut self, is_on: bool)
        ensures { self.new ≡ record self.old { workspace = is_on } }
    {
        self.workspace = is_on;
    }

    /// Whether a dependency's name in a feature reference, as in `dep:NAME` or `NAME/FEATURE`, means all dependencies that
    /// match it, rather than only the least of them by id. The last call counts. Time O(1).
    pub fn all_named(&mut self, is_on: bool)
        ensures { self.new ≡ record self.old { all_named = is_on } }
    {
        self.all_named = is_on;
    }

    /// Leaves out the packages that one of the specifications fits, in addition to those that are left out already. After a
    /// refusal the setting is as it was. Time O(specifications).
    pub fn exclude(&mut self, mut specs: Vec<PkgSpec>) -> Result<(), AllocError>
        ensures appended { OnOk result (self.new ≡ with_exclusions self.old (map spec_view specs.items)) }
        ensures refused { OnErr result (self.new ≡ self.old) }
    {
        self.exclusions.append(&mut specs)
    }

    /// Keeps only dependencies whose target text passes at one of the targets, in addition to those that are set already.
    /// After a refusal the setting is as it was. Time O(targets).
    pub fn include_targets(
        &mut self,
        mut targets: Vec<(Target, Vec<String>)>,
    ) -> Result<(), AllocError>
        ensures appended { OnOk result (self.new ≡ with_targets self.old (map asked_of targets.items)) }
        ensures refused { OnErr result (self.new ≡ self.old) }
    {
        self.targets.append(&mut targets)
    }

    /// Makes the members with these manifests roots, in addition to those that were given already. A path that
    /// doesn't end in `Cargo.toml` means the manifest in that directory. After a refusal the setting is as it was.
    /// Time O(length of the paths).
    pub fn include_workspace_crates(
        &mut self,
        alloc: Global,
        paths: &[&str],
    ) -> Result<(), AllocError>
        ensures appended { OnOk result (AsksForPaths self.old self.new paths.now) }
        ensures refused { OnErr result (self.new ≡ self.old) }
    {
        let mut manifests = manifests_of(alloc, paths)?;
        self.manifests.append(&mut manifests)
    }

    /// Whether the package is left out: one of the specifications fits it (Cargo Book, "Package ID Specifications").
    /// Time: that of `PkgSpec::matches` for each specification.
    pub fn excludes(&self, pkg: &Package) -> bool
        ensures { IsTrue result ↔ IsExcluded self.now (package_view pkg.now) }
    {
        for spec in &self.exclusions {
            if spec.matches(pkg) {
                return true;
            }
        }
        false
    }

    /// Whether dependencies of this kind are ignored, where a member of the workspace has them, or another crate. Time O(1).
    pub fn ignores(&self, kind: DependencyKind, is_member: bool) -> bool
        ensures { result ≡ ignores self.now.ignored (kind_of kind) is_member }
    {
        self.ignored.has(DepKind::from(kind), is_member)
    }

    /// Whether a dependency with this target text passes: the text that follows `target` in a manifest
    /// (Cargo Book, "Platform specific dependencies").
    ///
    /// A dependency without a text always passes. A text that is a cfg expression passes where one target that is
    /// set, with its features, makes the whole of it true, and any other text where it is the triple of one of them. Where
    /// no target is set, every text passes except a false expression without predicates, as `cfg(any())`.
    ///
    /// The only error is running out of memory. Time: that of `krates_text::passing::passes`.
    pub fn passes(&self, alloc: Global, cfg: &Option<String>) -> Result<bool, AllocError>
        ensures { IfOk result (λ b. IsTrue b ↔ Passes self.now (option_map text_view cfg.now)) }
    {
        match cfg {
            Some(text) => passing::passes(alloc, Some(text.as_str()), &self.targets),
            None => Ok(true),
        }
    }

    /// The manifests of the crates that were made roots, in the order in which they were given. Time O(1).
    pub fn manifests(&self) -> &[String]
        ensures { map text_view result.now ≡ self.now.manifests }
    {
        &self.manifests
    }

    /// Whether every member of the workspace was made a root. Time O(1).
    pub fn is_workspace(&self) -> bool
        ensures { result ≡ self.now.workspace }
    {
        self.workspace
    }

    /// Whether a name in a feature reference means all dependencies that match it. Time O(1).
    pub fn is_all_named(&self) -> bool
        ensures { result ≡ self.now.all_named }
    {
        self.all_named
    }
}

/// The manifests that these paths mean.
fn manifests_of(alloc: Global, paths: &[&str]) -> Result<Vec<String>, AllocError>
    ensures { IfOk result (λ manifests.
        AllZip IsManifestOf (map (λ path. path.now) paths.now) (map text_view manifests.items)) }
{
    let mut manifests = Vec::new(alloc);
    for &path in paths {
        manifests.push(manifest_of(alloc, path)?)?;
    }
    Ok(manifests)
}

/// The manifest that a path means.
fn manifest_of(alloc: Global, path: &str) -> Result<String, AllocError>
    ensures { IfOk result (λ manifest. IsManifestOf path.now (text_view manifest)) }
{
    if ends_with(path, "Cargo.toml") {
        String::from_str(alloc, path)
    } else {
        join(alloc, path, "Cargo.toml")
    }
}
