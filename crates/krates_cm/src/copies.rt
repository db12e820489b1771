//! Copies: each is equal to its original, field by field.

ghost use Rattle.std.specs.Prelude.{◌≡◌, IfOk};
ghost use Rattle.krates_cm.specs.Document.{default_members_view, dep_kind_info_view, dependency_view, id_view, metadata_view, node_dep_view, node_view, package_view, resolve_view, source_view, target_view};
ghost use Rattle.krates_cm.specs.PackageParts.{about_view, settings_view};
ghost use Rattle.krates_cm.specs.PackageParts as parts;

use crate::dependency::Dependency;
use crate::metadata::{Metadata, WorkspaceDefaultMembers};
use crate::package::{Package, Source};
use crate::package_id::PackageId;
use crate::package_parts::{About, Settings};
use crate::resolve::{DepKindInfo, Node, NodeDep, Resolve};
use crate::target::Target;
use krates_text::copies::four_copies;
use std::alloc::AllocError;

impl Clone for PackageId {
    ghost is_clone = { λ id copy. id_view copy ≡ id_view id };

    fn clone(&self) -> Result<PackageId, AllocError> {
        Ok(PackageId {
            repr: self.repr.clone()?,
        })
    }
}

impl Clone for Source {
    ghost is_clone = { λ source copy. source_view copy ≡ source_view source };

    fn clone(&self) -> Result<Source, AllocError> {
        Ok(Source {
            repr: self.repr.clone()?,
        })
    }
}

impl Clone for DepKindInfo {
    ghost is_clone = { λ info copy. dep_kind_info_view copy ≡ dep_kind_info_view info };

    fn clone(&self) -> Result<DepKindInfo, AllocError> {
        Ok(DepKindInfo {
            kind: self.kind,
            target: self.target.clone()?,
        })
    }
}

impl Clone for NodeDep {
    ghost is_clone = { λ dep copy. node_dep_view copy ≡ node_dep_view dep };

    fn clone(&self) -> Result<NodeDep, AllocError> {
        Ok(NodeDep {
            name: self.name.clone()?,
            pkg: self.pkg.clone()?,
            dep_kinds: self.dep_kinds.clone()?,
        })
    }
}

impl Clone for Node {
    ghost is_clone = { λ node copy. node_view copy ≡ node_view node };

    fn clone(&self) -> Result<Node, AllocError> {
        Ok(Node {
            id: self.id.clone()?,
            deps: self.deps.clone()?,
            dependencies: self.dependencies.clone()?,
            features: self.features.clone()?,
        })
    }
}

impl Clone for Resolve {
    ghost is_clone = { λ graph copy. resolve_view copy ≡ resolve_view graph };

    fn clone(&self) -> Result<Resolve, AllocError> {
        Ok(Resolve {
            nodes: self.nodes.clone()?,
            root: self.root.clone()?,
        })
    }
}

impl Clone for Dependency {
    ghost is_clone = { λ dep copy. dependency_view copy ≡ dependency_view dep };

    fn clone(&self) -> Result<Dependency, AllocError> {
        let named = four_copies(&self.name, &self.source, &self.req, &self.features)?;
        let told = four_copies(&self.target, &self.rename, &self.registry, &self.path)?;
        Ok(Dependency {
            name: named.0,
            source: named.1,
            req: named.2,
            kind: self.kind,
            optional: self.optional,
            uses_default_features: self.uses_default_features,
            features: named.3,
            target: told.0,
            rename: told.1,
            registry: told.2,
            path: told.3,
        })
    }
}

impl Clone for Target {
    ghost is_clone = { λ target copy. target_view copy ≡ target_view target };

    fn clone(&self) -> Result<Target, AllocError> {
        let named = four_copies(
            &self.name,
            &self.kind,
            &self.crate_types,
            &self.required_features,
        )?;
        let src_path = self.src_path.clone()?;
        Ok(Target {
            name: named.0,
            kind: named.1,
            crate_types: named.2,
            required_features: named.3,
            src_path,
            edition: self.edition,
            doctest: self.doctest,
            test: self.test,
            doc: self.doc,
        })
    }
}

impl Clone for Package {
    ghost is_clone = { λ pkg copy. package_view copy ≡ package_view pkg };

    fn clone(&self) -> Result<Package, AllocError> {
        let named = four_copies(&self.name, &self.version, &self.id, &self.source)?;
        let parts = four_copies(
            &self.dependencies,
            &self.targets,
            &self.features,
            &self.manifest_path,
        )?;
        let about = about_of(self)?;
        let settings = settings_of(self)?;
        Ok(Package {
            name: named.0,
            version: named.1,
            authors: about.authors,
            id: named.2,
            source: named.3,
            description: about.description,
            dependencies: parts.0,
            license: about.license,
            license_file: about.license_file,
            targets: parts.1,
            features: parts.2,
            manifest_path: parts.3,
            categories: about.categories,
            keywords: about.keywords,
            readme: about.readme,
            repository: about.repository,
            homepage: about.homepage,
            documentation: about.documentation,
            edition: settings.edition,
            metadata: settings.metadata,
            links: settings.links,
            publish: settings.publish,
            default_run: settings.default_run,
            rust_version: settings.rust_version,
        })
    }
}

/// A copy of what a package says about itself.
fn about_of(pkg: &Package) -> Result<About, AllocError>
    ensures { IfOk result (λ about. about_view about ≡ parts.about_of (package_view pkg.now)) }
{
    let authors = pkg.authors.clone()?;
    let description = pkg.description.clone()?;
    let rights = four_copies(
        &pkg.license,
        &pkg.license_file,
        &pkg.categories,
        &pkg.keywords,
    )?;
    let places = four_copies(
        &pkg.readme,
        &pkg.repository,
        &pkg.homepage,
        &pkg.documentation,
    )?;
    Ok(About {
        authors,
        description,
        license: rights.0,
        license_file: rights.1,
        categories: rights.2,
        keywords: rights.3,
        readme: places.0,
        repository: places.1,
        homepage: places.2,
        documentation: places.3,
    })
}

/// A copy of how a package is built and published.
fn settings_of(pkg: &Package) -> Result<Settings, AllocError>
    ensures { IfOk result (λ settings. settings_view settings ≡ parts.settings_of (package_view pkg.now)) }
{
    let metadata = pkg.metadata.clone()?;
    let told = four_copies(
        &pkg.links,
        &pkg.publish,
        &pkg.default_run,
        &pkg.rust_version,
    )?;
    Ok(Settings {
        edition: pkg.edition,
        metadata,
        links: told.0,
        publish: told.1,
        default_run: told.2,
        rust_version: told.3,
    })
}

impl Clone for WorkspaceDefaultMembers {
    ghost is_clone = { λ members copy. default_members_view copy ≡ default_members_view members };

    fn clone(&self) -> Result<WorkspaceDefaultMembers, AllocError> {
        Ok(WorkspaceDefaultMembers(self.0.clone()?))
    }
}

impl Clone for Metadata {
    ghost is_clone = { λ m copy. metadata_view copy ≡ metadata_view m };

    fn clone(&self) -> Result<Metadata, AllocError> {
        let graph = four_copies(
            &self.packages,
            &self.workspace_members,
            &self.workspace_default_members,
            &self.resolve,
        )?;
        let places = four_copies(
            &self.workspace_root,
            &self.target_directory,
            &self.build_directory,
            &self.workspace_metadata,
        )?;
        Ok(Metadata {
            packages: graph.0,
            workspace_members: graph.1,
            workspace_default_members: graph.2,
            resolve: graph.3,
            workspace_root: places.0,
            target_directory: places.1,
            build_directory: places.2,
            workspace_metadata: places.3,
            version: self.version,
        })
    }
}
