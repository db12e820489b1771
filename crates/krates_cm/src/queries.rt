//! What can be asked of a document: its root, the packages of its workspace, the files that a package names.

ghost use Rattle.std.specs.Prelude.{◌≡◌, ◌↔◌, Contains, IfOk, IsSome, IsTrue, Some, bytes_eq, map, option_copied, option_map};
ghost use Rattle.std.specs.List.{list_any};
ghost use Rattle.krates_cm.specs.Document.{id_view, ids_view, source_view, text_view};
ghost use Rattle.krates_cm.specs.Queries.{crates_io, package_of, packages_among, source_kind, IsBeside, IsLocal, IsManifestIn, IsRootPackage};
ghost use Rattle.krates_cm.specs.declared.target.TargetKind.TheVariants as kinds;

use crate::metadata::{Metadata, WorkspaceDefaultMembers};
use crate::package::{Package, Source, SourceKind};
use crate::package_id::PackageId;
use crate::target::{Target, TargetKind};
use krates_text::path;
use std::alloc::{AllocError, Global};
use std::ops::Index;

impl Metadata {
    /// The package that the document was made for: with a resolved graph the first whose id is that of the graph's root, and
    /// `None` if it has no root; without one the first whose manifest is `Cargo.toml`
    /// in the workspace's root, paths being compared by components. Time `O(packages)`.
    ///
    /// ```text
    /// let metadata = MetadataCommand::parse(alloc, text)?;
    /// let name = metadata.root_package().map(|root| root.name.as_str());
    /// ```
    pub fn root_package(&self) -> Option<&Package>
        ensures { IsRootPackage self.now (option_copied result) }
    {
        match &self.resolve {
            Some(graph) => match &graph.root {
                Some(id) => self.package(id),
                None => None,
            },
            None => self.packages.iter().find(|p| is_manifest_in(
                self.workspace_root.as_str(),
                p.manifest_path.as_str(),
            )),
        }
    }

    /// The first package of this id; `None` if the document has none. Time `O(packages)`.
    ///
    /// ```text
    /// for member in metadata.workspace_members.iter() {
    ///     if let Some(pkg) = metadata.package(member) {
    ///         println!(rt; "{} {}", pkg.name, pkg.version)?;
    ///     }
    /// }
    /// ```
    pub fn package(&self, id: &PackageId) -> Option<&Package>
        ensures { option_copied result ≡ package_of self.now.packages.items (id_view id.now) }
    {
        self.packages.iter().find(|p| p.id == *id)
    }

    /// The packages whose ids are those of members, in the order of the document.
    /// The only error is running out of memory. Time `O(packages · members)`.
    ///
    /// ```text
    /// for pkg in &metadata.workspace_packages(alloc)? {
    ///     println!(rt; "{} {}", pkg.name, pkg.version)?;
    /// }
    /// ```
    pub fn workspace_packages(&self, alloc: Global) -> Result<Vec<&Package>, AllocError>
        ensures { IfOk result (λ v. map (λ p. p.now) v.items
            ≡ packages_among self.now.packages.items (ids_view self.now.workspace_members)) }
    {
        among(
            alloc,
            self.packages.as_slice(),
            self.workspace_members.as_slice(),
        )
    }

    /// The packages whose ids are those of default members, in the order of the document; `None` if the document names no default
    /// members. The only error is running out of memory. Time `O(packages · members)`.
    ///
    /// ```text
    /// let defaults = metadata.workspace_default_packages(alloc)?;
    /// ```
    pub fn workspace_default_packages(
        &self,
        alloc: Global,
    ) -> Result<Option<Vec<&Package>>, AllocError>
        ensures { IfOk result (λ o. option_map (λ v. map (λ p. p.now) v.items) o
            ≡ option_map (λ ids. packages_among self.now.packages.items (ids_view ids))
            self.now.workspace_default_members.0) }
    {
        match &self.workspace_default_members.0 {
            Some(ids) => Ok(Some(among(alloc, self.packages.as_slice(), ids.as_slice())?)),
            None => Ok(None),
        }
    }
}

/// The first package with an id; there must be one. Time `O(packages)`.
impl Index<&PackageId> for Metadata {
    type Output = Package;

    ghost can_index = { λ m id. IsSome (package_of m.packages.items (id_view id.now)) };

    ghost index_gives = { λ m id p. package_of m.packages.items (id_view id.now) ≡ Some p };

    fn index(&self, id: &PackageId) -> &Package {
        self.package(id).unwrap()
    }
}

impl WorkspaceDefaultMembers {
    /// The default members, in the order of the document; `None` if it doesn't name them. Time O(1).
    ///
    /// ```text
    /// let named = metadata.workspace_default_members.as_slice();
    /// ```
    pub fn as_slice(&self) -> Option<&[PackageId]>
        ensures { option_map (λ ids. ids.now) result ≡ option_map (λ ids. ids.items) self.now.0 }
    {
        match &self.0 {
            Some(ids) => Some(ids.as_slice()),
            None => None,
        }
    }
}

impl Package {
    /// The path of the licence file, if the manifest names one: joined to the manifest's directory. The only error
    /// is running out of memory. Time O(length of the paths).
    ///
    /// ```text
    /// if let Some(path) = pkg.license_file(alloc)? {
    ///     println!(rt; "{}: {path}", pkg.name)?;
    /// }
    /// ```
    pub fn license_file(&self, alloc: Global) -> Result<Option<String>, AllocError>
        ensures { IfOk result (λ path. IsBeside (text_view self.now.manifest_path)
            (option_map text_view self.now.license_file) (option_map text_view path)) }
    {
        beside(alloc, self.manifest_path.as_str(), &self.license_file)
    }

    /// The path of the readme, if the manifest names one: joined to the manifest's directory. The only error is
    /// running out of memory. Time O(length of the paths).
    ///
    /// ```text
    /// let readme = pkg.readme(alloc)?; // `/w/a/README.md`, say
    /// ```
    pub fn readme(&self, alloc: Global) -> Result<Option<String>, AllocError>
        ensures { IfOk result (λ path. IsBeside (text_view self.now.manifest_path)
            (option_map text_view self.now.readme) (option_map text_view path)) }
    {
        beside(alloc, self.manifest_path.as_str(), &self.readme)
    }

    /// Whether the package lies in a directory of this machine: it has no source, or one of the kind `SourceKind::Path`.
    /// `cargo metadata` gives members of the workspace and path dependencies no source (Cargo Book, "cargo metadata");
    /// the second form is that of ids. Looks at no other field. Time O(1), as that of `Source::kind`.
    ///
    /// ```text
    /// let is_checked_out = pkg.is_local(); // and not fetched from a registry or by git
    /// ```
    pub fn is_local(&self) -> bool
        ensures { IsTrue result ↔ IsLocal (option_map source_view self.now.source) }
    {
        match &self.source {
            Some(source) => source.kind() == SourceKind::Path,
            None => true,
        }
    }
}

impl Source {
    /// Whether this is the registry crates.io. Time O(length).
    ///
    /// ```text
    /// let is_published = match &pkg.source {
    ///     Some(source) => source.is_crates_io(),
    ///     None => false,
    /// };
    /// ```
    pub fn is_crates_io(&self) -> bool
        ensures { result ≡ bytes_eq (source_view self.now) crates_io }
    {
        self.repr.as_str() == "registry+https://github.com/rust-lang/crates.io-index"
    }

    /// What kind of place the source is, by exactly the part before the first `+` of its text: `registry`, `sparse`,
    /// `git` or `path`, in lower case. Any other text is `SourceKind::Other`, as is one without a `+`. What follows
    /// the `+` isn't read. Time O(1): four times at most nine bytes at the beginning of the text are compared.
    ///
    /// ```text
    /// let kind = source.kind(); // SourceKind::Git for `git+https://host/repository?branch=main#0a1b2c`
    /// ```
    pub fn kind(&self) -> SourceKind
        ensures { result ≡ source_kind (source_view self.now) }
    {
        let text = self.repr.as_str();
        if text.starts_with("registry+") {
            SourceKind::Registry
        } else if text.starts_with("sparse+") {
            SourceKind::SparseRegistry
        } else if text.starts_with("git+") {
            SourceKind::Git
        } else if text.starts_with("path+") {
            SourceKind::Path
        } else {
            SourceKind::Other
        }
    }
}

impl Target {
    /// Whether `lib` is among the kinds. Time O(kinds).
    ///
    /// ```text
    /// let has_library = pkg.targets.iter().any(|target| target.is_lib());
    /// ```
    pub fn is_lib(&self) -> bool
        ensures { IsTrue result ↔ Contains self.now.kind.items kinds.Lib }
    {
        has_kind(self, TargetKind::Lib)
    }

    /// Whether `bin` is among the kinds. Time O(kinds).
    pub fn is_bin(&self) -> bool
        ensures { IsTrue result ↔ Contains self.now.kind.items kinds.Bin }
    {
        has_kind(self, TargetKind::Bin)
    }

    /// Whether `example` is among the kinds. Time O(kinds).
    pub fn is_example(&self) -> bool
        ensures { IsTrue result ↔ Contains self.now.kind.items kinds.Example }
    {
        has_kind(self, TargetKind::Example)
    }

    /// Whether `test` is among the kinds. Time O(kinds).
    pub fn is_test(&self) -> bool
        ensures { IsTrue result ↔ Contains self.now.kind.items kinds.Test }
    {
        has_kind(self, TargetKind::Test)
    }

    /// Whether `bench` is among the kinds. Time O(kinds).
    pub fn is_bench(&self) -> bool
        ensures { IsTrue result ↔ Contains self.now.kind.items kinds.Bench }
    {
        has_kind(self, TargetKind::Bench)
    }

    /// Whether `custom-build` is among the kinds. Time O(kinds).
    pub fn is_custom_build(&self) -> bool
        ensures { IsTrue result ↔ Contains self.now.kind.items kinds.CustomBuild }
    {
        has_kind(self, TargetKind::CustomBuild)
    }

    /// Whether `proc-macro` is among the kinds. Time O(kinds).
    pub fn is_proc_macro(&self) -> bool
        ensures { IsTrue result ↔ Contains self.now.kind.items kinds.ProcMacro }
    {
        has_kind(self, TargetKind::ProcMacro)
    }
}

/// Whether a target has this kind.
fn has_kind(target: &Target, kind: TargetKind) -> bool
    ensures { IsTrue result ↔ Contains target.now.kind.items kind }
{
    target.kind.contains(&kind)
}

/// The packages of some ids, in the order of the document.
fn among<'a>(
    alloc: Global,
    packages: &'a [Package],
    ids: &[PackageId],
) -> Result<Vec<&'a Package>, AllocError>
    ensures { IfOk result (λ v. map (λ p. p.now) v.items
        ≡ packages_among packages.now (map id_view ids.now)) }
{
    let mut found = Vec::new(alloc);
    for pkg in packages {
        if is_among(ids, &pkg.id) {
            found.push(pkg)?;
        }
    }
    Ok(found)
}

/// Whether an id is among some.
fn is_among(ids: &[PackageId], id: &PackageId) -> bool
    ensures { result ≡ list_any (λ one. bytes_eq one (id_view id.now)) (map id_view ids.now) }
{
    ids.contains(id)
}

/// Whether a path is that of the manifest in a directory, by components.
fn is_manifest_in(directory: &str, path: &str) -> bool
    ensures { IsTrue result ↔ IsManifestIn directory.now path.now }
{
    match path::parent(path) {
        Some(parent) => path::same(parent, directory) && path::ends_with(path, "Cargo.toml"),
        None => false,
    }
}

/// Where a file is that a manifest names.
fn beside(
    alloc: Global,
    manifest: &str,
    file: &Option<String>,
) -> Result<Option<String>, AllocError>
    ensures { IfOk result (λ path. IsBeside manifest.now
        (option_map text_view file.now) (option_map text_view path)) }
{
    match file {
        Some(name) => {
            let directory = path::parent(manifest).unwrap_or(manifest);
            Ok(Some(path::join(alloc, directory, name.as_str())?))
        }
        None => Ok(None),
    }
}
