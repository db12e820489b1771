//! Duplicate versions as they are shown.

use crate::answer::Answer;
use crate::crate_name::ShortName;
use crate::json::{InJson, JsonObject, Values, ids_json};
use crate::lines::Lines;
use krates::{KrateMatch, NodeId, Package};
use krates_answers::direct_links::DirectLinks;
use krates_answers::duplicates::{Duplicate, duplicates};
use serde_json::Value;
use std::alloc::{AllocError, Global};

/// The names that several crates have, and who needs each of these crates.
#[derive(Drop)]
pub struct Duplicates<'a> {
    /// The crates, each at its number.
    pub crates: Vec<KrateMatch<'a, Package>>,
    /// The names, in their order.
    pub names: Vec<Duplicate<'a>>,
    /// Who needs each crate directly.
    pub dependents: DirectLinks,
}

impl<'a> Duplicates<'a> {
    /// Those of crates, each at its number, of which these links say who needs which. The only refusal is running out of memory.
    /// Time: O(n log n) for n crates.
    pub fn of(
        alloc: Global,
        crates: Vec<KrateMatch<'a, Package>>,
        dependents: DirectLinks,
    ) -> Result<Duplicates<'a>, AllocError> {
        let names = duplicates(alloc, &crates)?;
        Ok(Duplicates {
            crates,
            names,
            dependents,
        })
    }

    /// The numbers of the crates that need one directly.
    fn dependents_of(&self, krate: &KrateMatch<'_, Package>) -> &[NodeId] {
        self.dependents.of(krate.node_id).unwrap_or(&[])
    }

    /// Adds a crate, and below it those that need it.
    fn push_krate(&self, krate: &KrateMatch<'_, Package>, lines: &mut Lines) {
        write!(lines, "{}", ShortName(krate.krate));
        lines.end();
        for number in self.dependents_of(krate) {
            if let Some(found) = self.crates.get(number.index()) {
                write!(lines, "    {}", ShortName(found.krate));
                lines.end();
            }
        }
    }

    /// Adds the crates of a name.
    fn push_name(&self, name: &Duplicate<'_>, lines: &mut Lines) {
        for krate in &name.krates {
            self.push_krate(krate, lines);
        }
    }

    /// What JSON says of a crate.
    fn krate_json(
        &self,
        alloc: Global,
        krate: &KrateMatch<'_, Package>,
    ) -> Result<Value, AllocError> {
        let dependents = self.dependents_of(krate);
        JsonObject::new(alloc)
            .put("crate", krate.json(alloc))
            .put("dependents", ids_json(alloc, &self.crates, dependents))
            .object()
    }

    /// What JSON says of a name.
    fn name_json(&self, alloc: Global, name: &Duplicate<'_>) -> Result<Value, AllocError> {
        let mut krates = Values::new(alloc);
        for krate in &name.krates {
            krates.add(self.krate_json(alloc, krate));
        }
        JsonObject::new(alloc)
            .text("name", name.name)
            .put("crates", krates.list())
            .object()
    }
}

impl Answer for Duplicates<'_> {
    /// For each name its crates, and below each of them those that need it; between two names an empty line.
    fn push_lines(&self, lines: &mut Lines) -> Result<(), AllocError> {
        for name in &self.names {
            if !lines.is_empty() {
                lines.end();
            }
            self.push_name(name, lines);
        }
        Ok(())
    }

    /// A list of objects with `name` and `crates`, each of these with `crate` and the ids of its `dependents`.
    fn json(&self, alloc: Global) -> Result<Value, AllocError> {
        let mut values = Values::new(alloc);
        for name in &self.names {
            values.add(self.name_json(alloc, name));
        }
        values.list()
    }
}
