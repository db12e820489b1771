//! The difference of two answers about a workspace as it is shown.

use crate::answer::Answer;
use crate::crate_name::{ShortId, ShortName};
use crate::json::{InJson, JsonObject, list_json};
use crate::lines::Lines;
use krates::semver::Version;
use krates::{KrateMatch, Krates, Package};
use krates_answers::changed::Changed;
use krates_answers::compared::lacking;
use krates_answers::difference::DependencyEdge;
use krates_answers::enabled_feature::EnabledFeature;
use krates_answers::kept::kept_crates;
use serde_json::Value;
use std::alloc::{AllocError, Global};

/// What an answer says of a workspace, as far as it is compared with another's.
#[derive(Drop)]
pub struct Snapshot<'a> {
    /// The root of the workspace.
    pub root: &'a str,
    /// The crates, by number.
    pub crates: Vec<KrateMatch<'a, Package>>,
    /// What they need of each other, by the number of the crate that is needed, and then by that of the other.
    pub dependencies: Vec<DependencyEdge<'a>>,
    /// Their features that are enabled.
    pub features: Vec<EnabledFeature<'a>>,
}

impl<'a> Snapshot<'a> {
    /// What a graph says of its workspace. The only refusal is running out of memory. Time O(n + e log e) for n nodes and e edges.
    pub fn of_graph(alloc: Global, krates: &'a Krates) -> Result<Snapshot<'a>, AllocError> {
        let crates = kept_crates(alloc, krates)?;
        let dependencies = DependencyEdge::all_in(alloc, krates)?;
        let features = EnabledFeature::all_in(alloc, krates)?;
        Ok(Snapshot {
            root: krates.workspace_root(),
            crates,
            dependencies,
            features,
        })
    }

    /// What this answer has, and another about the same workspace lacks: packages of this machine are the same where they have one place below the
    /// root, so that two checkouts don't differ.
    fn only_here(&self, alloc: Global, there: &Snapshot<'a>) -> Result<OnlyHere<'a>, AllocError> {
        let crates = lacking(alloc, self.root, &self.crates, there.root, &there.crates)?;
        let dependencies = lacking(
            alloc,
            self.root,
            &self.dependencies,
            there.root,
            &there.dependencies,
        )?;
        let features = lacking(
            alloc,
            self.root,
            &self.features,
            there.root,
            &there.features,
        )?;
        let features = of_others(alloc, &features, &crates)?;
        Ok(OnlyHere {
            crates,
            dependencies,
            features,
        })
    }
}

/// What one answer has and another lacks.
#[derive(Drop)]
struct OnlyHere<'a> {
    crates: Vec<KrateMatch<'a, Package>>,
    dependencies: Vec<DependencyEdge<'a>>,
    features: Vec<EnabledFeature<'a>>,
}

/// The features but those of these crates.
fn of_others<'a>(
    alloc: Global,
    features: &[EnabledFeature<'a>],
    crates: &[KrateMatch<'a, Package>],
) -> Result<Vec<EnabledFeature<'a>>, AllocError> {
    let mut others = Vec::new(alloc);
    for feature in features {
        if !crates
            .iter()
            .any(|found| found.krate.id == feature.krate.id)
        {
            others.push(*feature)?;
        }
    }
    Ok(others)
}

/// What went and what came between two answers.
#[derive(Drop)]
pub struct Difference<'a> {
    /// The crates that only the first has, by number.
    pub removed: Vec<KrateMatch<'a, Package>>,
    /// The crates that only the second has, by number.
    pub added: Vec<KrateMatch<'a, Package>>,
    /// The direct dependencies that only the first has.
    pub removed_dependencies: Vec<DependencyEdge<'a>>,
    /// The direct dependencies that only the second has.
    pub added_dependencies: Vec<DependencyEdge<'a>>,
    /// The features that only the first enables, of crates that both have.
    pub removed_features: Vec<EnabledFeature<'a>>,
    /// The features that only the second enables, of crates that both have.
    pub added_features: Vec<EnabledFeature<'a>>,
    /// The names for which some crates were removed and others added.
    pub changed: Vec<Changed<'a>>,
}

impl<'a> Difference<'a> {
    /// What differs between two answers. The only refusal is running out of memory. Time O(n log n) for n crates, dependencies and features of both, and for
    /// those of one name each pair.
    pub fn between(
        alloc: Global,
        first: &Snapshot<'a>,
        second: &Snapshot<'a>,
    ) -> Result<Difference<'a>, AllocError> {
        let OnlyHere {
            crates: removed,
            dependencies: removed_dependencies,
            features: removed_features,
        } = first.only_here(alloc, second)?;
        let OnlyHere {
            crates: added,
            dependencies: added_dependencies,
            features: added_features,
        } = second.only_here(alloc, first)?;
        let changed = Changed::between(alloc, &removed, &added)?;
        Ok(Difference {
            removed,
            added,
            removed_dependencies,
            added_dependencies,
            removed_features,
            added_features,
            changed,
        })
    }
}

impl Difference<'_> {
    /// Whether nothing went and nothing came. A name under which a version changed is one of both.
    pub fn is_empty(&self) -> bool {
        self.removed.is_empty()
            && self.added.is_empty()
            && self.removed_dependencies.is_empty()
            && self.added_dependencies.is_empty()
            && self.removed_features.is_empty()
            && self.added_features.is_empty()
    }
}

/// Adds versions, with a comma between each two.
fn push_versions(versions: &[&Version], lines: &mut Lines) {
    for (place, version) in versions.iter().enumerate() {
        let comma = if place == 0 { "" } else { ", " };
        write!(lines, "{comma}{version}");
    }
}

/// Adds a name with its versions before and after.
fn push_changed(changed: &Changed<'_>, lines: &mut Lines) {
    write!(lines, "~ {} ", changed.name);
    push_versions(&changed.from, lines);
    lines.push_str(" -> ");
    push_versions(&changed.to, lines);
    lines.end();
}

impl InJson for Changed<'_> {
    /// `name` and the versions `from` and `to`.
    fn json(&self, alloc: Global) -> Result<Value, AllocError> {
        JsonObject::new(alloc)
            .text("name", self.name)
            .put("from", list_json(alloc, &self.from))
            .put("to", list_json(alloc, &self.to))
            .object()
    }
}

/// Adds a line for each crate.
fn push_krates(mark: &str, krates: &[KrateMatch<'_, Package>], lines: &mut Lines) {
    for found in krates {
        write!(lines, "{mark} {}", ShortName(found.krate));
        lines.end();
    }
}

/// Adds a line for each dependency.
fn push_dependencies(mark: &str, dependencies: &[DependencyEdge<'_>], lines: &mut Lines) {
    for dependency in dependencies {
        let (parent, child) = (dependency.parent.kid, dependency.child.kid);
        write!(lines, "{mark} {} -> {}", ShortId(parent), ShortId(child));
        lines.end();
    }
}

/// Adds a line for each feature.
fn push_features(mark: &str, features: &[EnabledFeature<'_>], lines: &mut Lines) {
    for feature in features {
        let side = match feature.is_for_host {
            Some(true) => ", for what the build itself runs",
            Some(false) | None => "",
        };
        write!(
            lines,
            "{mark} {} feature `{}`{side}",
            ShortName(feature.krate),
            feature.name
        );
        lines.end();
    }
}

impl InJson for DependencyEdge<'_> {
    /// The ids `from` and `to` of both crates.
    fn json(&self, alloc: Global) -> Result<Value, AllocError> {
        JsonObject::new(alloc)
            .text("from", self.parent.krate.id.repr.as_str())
            .text("to", self.child.krate.id.repr.as_str())
            .object()
    }
}

/// The name of a side of a build, as JSON has it.
pub(crate) fn side_name(is_for_host: bool) -> &'static str {
    if is_for_host { "host" } else { "targets" }
}

impl InJson for EnabledFeature<'_> {
    /// `id` and `name`, and where sides are told apart the `side`.
    fn json(&self, alloc: Global) -> Result<Value, AllocError> {
        let members = JsonObject::new(alloc)
            .text("id", self.krate.id.repr.as_str())
            .text("name", self.name);
        match self.is_for_host {
            Some(is_for_host) => members.text("side", side_name(is_for_host)).object(),
            None => members.object(),
        }
    }
}

impl Answer for Difference<'_> {
    /// A line `~ NAME VERSION -> VERSION` for each name whose versions changed; then `- ` and each crate that only the first
    /// answer has, and `+ ` and each that only the second does; then the same of direct dependencies, `PARENT -> CHILD`, and of features of crates that
    /// both have.
    fn push_lines(&self, lines: &mut Lines) -> Result<(), AllocError> {
        for changed in &self.changed {
            push_changed(changed, lines);
        }
        push_krates("-", &self.removed, lines);
        push_krates("+", &self.added, lines);
        push_dependencies("-", &self.removed_dependencies, lines);
        push_dependencies("+", &self.added_dependencies, lines);
        push_features("-", &self.removed_features, lines);
        push_features("+", &self.added_features, lines);
        Ok(())
    }

    /// `changed`, with `name` and the versions `from` and `to`; the crates `removed` and `added`; `removed_dependencies` and
    /// `added_dependencies`, each with the ids `from` and `to`; and `removed_features` and `added_features`, each with `id`, `name` and by build
    /// the `side`.
    fn json(&self, alloc: Global) -> Result<Value, AllocError> {
        let lost = list_json(alloc, &self.removed_dependencies);
        let won = list_json(alloc, &self.added_dependencies);
        JsonObject::new(alloc)
            .put("changed", list_json(alloc, &self.changed))
            .put("removed", list_json(alloc, &self.removed))
            .put("added", list_json(alloc, &self.added))
            .put("removed_dependencies", lost)
            .put("added_dependencies", won)
            .put("removed_features", list_json(alloc, &self.removed_features))
            .put("added_features", list_json(alloc, &self.added_features))
            .object()
    }
}
