//! Which crates are the roots.

ghost use Rattle.std.specs.Prelude.{◌↔◌, IsTrue, map};
ghost use Rattle.krates_cm.specs.Document.{text_view};
ghost use Rattle.krates_questions.specs.Lookup.{IsLookup, resolved_view};
ghost use Rattle.krates_rules.specs.Resolved.{id_of, IsMember};
ghost use Rattle.krates_questions.specs.DocumentAnswers.{IsChoice, AsksFor, HasOneOf};
ghost use Rattle.krates_rules.specs.Roots.{IsRoot, HasManifest, IsWorkspaceManifest};

use crate::questions::Document;
use krates_document::setting::Setting;
use krates_ids::{Kid, laws};
use krates_text::path::{parent, same};

/// Which crates are the roots.
pub enum RootChoice<'a> {
    /// The graph's root.
    Root(&'a Kid),
    /// Members of the workspace: all of them, or those with one of the manifests that are asked for.
    Members { all: bool },
}

impl<'a> Document<'a> {
    /// Which crates the setting asks for. Time O(length of the manifests).
    pub fn root_choice(&self, setting: &Setting) -> RootChoice<'a>
        ensures { IsChoice (resolved_view self.now) setting.now result }
    {
        laws::one_reading();
        if setting.manifests().is_empty() {
            return match &self.lookup.ids.root {
                Some(root) if !setting.is_workspace() => RootChoice::Root(root),
                _ => RootChoice::Members { all: true },
            };
        }
        let workspace_root = self.lookup.metadata.workspace_root.as_str();
        RootChoice::Members {
            all: asks_for_workspace(setting.manifests(), workspace_root),
        }
    }
}

/// Whether there is one manifest, and it is that of the workspace itself.
fn asks_for_workspace(manifests: &[String], workspace_root: &str) -> bool
    ensures { IsTrue result ↔ IsWorkspaceManifest (map text_view manifests.now) workspace_root.now }
{
    let [manifest] = manifests else {
        return false;
    };
    match parent(manifest.as_str()) {
        Some(directory) => same(directory, workspace_root),
        None => false,
    }
}

/// Whether a member is a root, where all are, or those with one of the manifests. Time O(log n) in the crates, and the manifests
/// that the setting asks for.
pub fn is_root_member<'a>(
    document: &Document<'a>,
    setting: &Setting,
    all: bool,
    member: &'a Kid,
) -> bool
    requires asks { AsksFor (resolved_view document.now) setting.now all }
    requires member { IsMember (resolved_view document.now) (id_of member.now) }
    ensures { IsTrue result ↔ IsRoot (resolved_view document.now) setting.now (id_of member.now) }
{
    all || document.has_manifest(setting, member)
}

impl<'a> Document<'a> {
    /// Whether the package of a crate has one of the manifests that are asked for.
    fn has_manifest(&self, setting: &Setting, id: &'a Kid) -> bool
        ensures { IsTrue result ↔ HasManifest (resolved_view self.now) setting.now (id_of id.now) }
    {
        self.agrees();
        match self.package_of(id) {
            Some(pkg) => is_one_of(setting.manifests(), pkg.manifest_path.as_str()),
            None => false,
        }
    }
}

/// Whether one of the paths has the components of this one.
fn is_one_of(paths: &[String], path: &str) -> bool
    ensures { IsTrue result ↔ HasOneOf (map text_view paths.now) path.now }
{
    for other in paths {
        if same(other.as_str(), path) {
            return true;
        }
    }
    false
}
