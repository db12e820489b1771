//! The bill of materials as CycloneDX (ECMA-424; <https://cyclonedx.org/docs/1.5/json/>, <https://cyclonedx.org/docs/1.6/json/>).

use crate::answer::pretty;
use crate::component::Component;
use crate::json::{JsonObject, Values, string};
use crate::package_url::reference;
use krates::{KrateMatch, NodeId, Package};
use krates_answers::builds::Builds;
use krates_answers::crate_uses::Use;
use krates_answers::kept::kept_crates;
use krates_answers::materials::{Material, materials};
use krates_shown::ShownJson;
use krates_words::{BillWords, SpecVersion};
use serde_json::Value;
use std::alloc::{AllocError, Global};

/// The version of this program, which a bill names.
static TOOL_VERSION: &str = "0.22.0";

/// What a workspace is called in references.
static WORKSPACE: &str = "workspace";

/// For which sides of a build a crate is compiled.
#[derive(Clone, Copy, Debug)]
pub struct BuiltFor {
    /// For a machine that the build is for.
    pub targets: bool,
    /// For the host.
    pub host: bool,
}

/// What a bill is about.
#[derive(Drop)]
pub struct BillSubject<'a> {
    /// The root of the workspace, below which the places of its packages are told.
    pub root: &'a str,
    /// The numbers of the crates that are asked for. Where it is one, the bill is about that, and else about the workspace.
    pub asked: Vec<NodeId>,
    /// What the words say of the bill.
    pub words: &'a BillWords,
}

/// The bill of materials of a document.
#[derive(Drop)]
pub struct Bill<'a> {
    /// The crates, each at its number.
    pub crates: Vec<KrateMatch<'a, Package>>,
    /// What each of them is used for.
    pub uses: Vec<Use>,
    /// For which sides each of them is built; nothing where that isn't known.
    pub sides: Vec<BuiltFor>,
    /// Each of them with those on which it depends.
    pub materials: Vec<Material<'a>>,
    /// What it is about.
    pub subject: BillSubject<'a>,
}

impl<'a> Bill<'a> {
    /// The bill of these builds. The only refusal is running out of memory. Time: O(n log n + e log e) for n crates and e edges.
    pub fn of(
        alloc: Global,
        builds: &'a Builds,
        subject: BillSubject<'a>,
    ) -> Result<Bill<'a>, AllocError> {
        let crates = kept_crates(alloc, builds.all())?;
        let uses = uses_of(alloc, builds, &crates)?;
        let materials = materials(alloc, builds.all())?;
        Ok(Bill {
            crates,
            uses,
            sides: Vec::new(alloc),
            materials,
            subject,
        })
    }
}

/// What each of these crates is used for in the builds.
fn uses_of(
    alloc: Global,
    builds: &Builds,
    crates: &[KrateMatch<'_, Package>],
) -> Result<Vec<Use>, AllocError> {
    let mut uses = Vec::new(alloc);
    for found in crates {
        uses.push(builds.use_of(found.kid))?;
    }
    Ok(uses)
}

impl Bill<'_> {
    /// The number of the crate that the bill is about, if it is about one.
    fn subject(&self) -> Option<NodeId> {
        match self.subject.asked.as_slice() {
            [asked] => Some(*asked),
            _ => None,
        }
    }

    /// A crate, as the bill describes it.
    fn component<'b>(&'b self, krate: &'b Package) -> Component<'b> {
        Component {
            krate,
            root: self.subject.root,
            spec_version: self.subject.words.spec_version,
        }
    }

    /// The crates, without the one that the bill is about.
    fn components(&self, alloc: Global) -> Result<Value, AllocError> {
        let mut components = Values::new(alloc);
        let mut sides = self.sides.iter();
        for (found, usage) in self.crates.iter().zip(&self.uses) {
            let built_for = sides.next();
            if self.subject() != Some(found.node_id) {
                components.add(self.component(found.krate).used(alloc, *usage, built_for));
            }
        }
        components.list()
    }

    /// How the crates at these numbers are called in references.
    fn references(&self, alloc: Global, numbers: &[NodeId]) -> Result<Value, AllocError> {
        let mut references = Values::new(alloc);
        for number in numbers {
            if let Some(found) = self.crates.get(number.index()) {
                references.add(string(reference(alloc, found.krate, self.subject.root)));
            }
        }
        references.list()
    }

    /// A crate with those on which it depends directly.
    fn dependency(&self, alloc: Global, material: &Material<'_>) -> Result<Value, AllocError> {
        let of = reference(alloc, material.krate.krate, self.subject.root);
        JsonObject::new(alloc)
            .put("ref", string(of))
            .put("dependsOn", self.references(alloc, &material.depends_on))
            .object()
    }

    /// Each kept crate with those on which it depends directly, and before them the workspace, where the bill is about that, with those that are asked
    /// for.
    fn dependencies(&self, alloc: Global) -> Result<Value, AllocError> {
        let mut dependencies = Values::new(alloc);
        if self.subject().is_none() {
            dependencies.add(
                JsonObject::new(alloc)
                    .text("ref", WORKSPACE)
                    .put("dependsOn", self.references(alloc, &self.subject.asked))
                    .object(),
            );
        }
        for material in &self.materials {
            dependencies.add(self.dependency(alloc, material));
        }
        dependencies.list()
    }

    /// What the bill is about: the crate that is asked for, or the workspace by the name of its folder.
    fn subject_json(&self, alloc: Global) -> Result<Value, AllocError> {
        let crates = &self.crates;
        match self.subject().and_then(|number| crates.get(number.index())) {
            Some(found) => self.component(found.krate).subject(alloc),
            None => JsonObject::new(alloc)
                .text("type", "application")
                .text("bom-ref", WORKSPACE)
                .text("name", folder_name(self.subject.root))
                .object(),
        }
    }

    /// What is said of the bill: what made it, when, and what it is about.
    fn metadata(&self, alloc: Global) -> Result<Value, AllocError> {
        let members = JsonObject::new(alloc)
            .put("component", self.subject_json(alloc))
            .put("tools", tools(alloc));
        match &self.subject.words.timestamp {
            Some(time) => members.text("timestamp", time.as_str()).object(),
            None => members.object(),
        }
    }
}

/// The last part of a path, or what a workspace is called where it has none.
fn folder_name(path: &str) -> &str {
    match path.rsplit(['/', '\\']).next() {
        Some(name) if !name.is_empty() => name,
        _ => WORKSPACE,
    }
}

/// What made the bill.
fn tools(alloc: Global) -> Result<Value, AllocError> {
    let tool = JsonObject::new(alloc)
        .text("type", "application")
        .text("name", "cargo-krates")
        .text("version", TOOL_VERSION);
    let mut components = Values::new(alloc);
    components.add(tool.object());
    JsonObject::new(alloc)
        .put("components", components.list())
        .object()
}

impl Bill<'_> {
    /// What is printed of it: its JSON, indented, with a line break after it. Characters that move the cursor or turn the direction are
    /// escaped. The only refusal is running out of memory. Time: O(length).
    pub fn text(&self, alloc: Global) -> Result<String, AllocError> {
        let text = pretty(alloc, self.json(alloc))?;
        format!(in alloc; "{}", ShownJson(text.as_str()))
    }

    /// `metadata`; `components`, the kept crates without the one that it is about; and `dependencies`, with an entry for each of them. There is no time and
    /// no serial number in it unless the words say one, so that the same document gives the same bytes.
    fn json(&self, alloc: Global) -> Result<Value, AllocError> {
        let (schema, version) = match self.subject.words.spec_version {
            SpecVersion::V1_5 => ("http://cyclonedx.org/schema/bom-1.5.schema.json", "1.5"),
            SpecVersion::V1_6 => ("http://cyclonedx.org/schema/bom-1.6.schema.json", "1.6"),
        };
        let members = JsonObject::new(alloc)
            .text("$schema", schema)
            .text("bomFormat", "CycloneDX")
            .text("specVersion", version)
            .put("version", Ok(Value::from(1u64)))
            .put("metadata", self.metadata(alloc))
            .put("components", self.components(alloc))
            .put("dependencies", self.dependencies(alloc));
        match &self.subject.words.serial {
            Some(serial) => members
                .put(
                    "serialNumber",
                    string(format!(in alloc; "urn:uuid:{serial}")),
                )
                .object(),
            None => members.object(),
        }
    }
}
