//! The kept crates as they are shown: their list, what they are used for, and their licences.

ghost use Rattle.std.specs.Prelude.{◌≡◌, All, IfOk, map};
ghost use Rattle.krates_queries.specs.KrateNodes.{crates_of, match_view};
ghost use Rattle.krates_rules.specs.Resolved.{id_of};
ghost use Rattle.krates_answers.specs.CrateUses.{IsUse};

use crate::answer::Answer;
use crate::crate_name::ShortName;
use crate::json::{InJson, JsonObject, Values, list_json};
use crate::lines::Lines;
use krates::{KrateMatch, Package};
use krates_answers::builds::Builds;
use krates_answers::crate_uses::{Use, UsedKrate};
use krates_answers::licences::Licence;
use serde_json::Value;
use std::alloc::{AllocError, Global};

/// Crates, in the order of their ids: by name, then version, then source.
#[derive(Drop)]
pub struct List<'a> {
    /// The crates.
    pub crates: &'a [KrateMatch<'a, Package>],
    /// Whether the text has their ids instead of their names.
    pub has_ids: bool,
}

impl Answer for List<'_> {
    /// A line for each: its short name, or its id.
    fn push_lines(&self, lines: &mut Lines) -> Result<(), AllocError> {
        for found in self.crates {
            let krate = found.krate;
            if self.has_ids {
                lines.push_str(krate.id.repr.as_str());
            } else {
                write!(lines, "{}", ShortName(krate));
            }
            lines.end();
        }
        Ok(())
    }

    /// A list of crates.
    fn json(&self, alloc: Global) -> Result<Value, AllocError> {
        list_json(alloc, self.crates)
    }
}

/// The kept crates, each with what it is used for.
#[derive(Drop)]
pub struct UsedKrates<'a> {
    /// The crates, by number.
    pub used: Vec<UsedKrate<'a>>,
}

impl<'a> UsedKrates<'a> {
    /// The kept crates of these builds, by number, each with what it is used for. The only refusal is running out of memory. Time
    /// O(n log n) for n nodes.
    pub(crate) fn of(alloc: Global, builds: &'a Builds) -> Result<UsedKrates<'a>, AllocError>
        ensures crates { IfOk result (λ shown. map (λ u. match_view u.krate) shown.used.items ≡ crates_of builds.now.all) }
        ensures uses { IfOk result (λ shown. All (λ u. IsUse builds.now.shipped builds.now.without_dev
            (id_of u.krate.kid.now) u.usage) shown.used.items) }
    {
        let used = builds.uses(alloc)?;
        Ok(UsedKrates { used })
    }
}

impl UsedKrates<'_> {
    /// How many are used for this.
    fn count(&self, usage: Use) -> usize {
        self.used.iter().filter(|used| used.usage == usage).count()
    }

    /// Adds a use with the number of its crates, and below it the crates.
    fn push(&self, usage: Use, title: &str, lines: &mut Lines) {
        write!(lines, "{title} ({})", self.count(usage));
        lines.end();
        for used in &self.used {
            if used.usage == usage {
                write!(lines, "    {}", ShortName(used.krate.krate));
                lines.end();
            }
        }
    }

    /// The crates that are used for this.
    fn json_of(&self, alloc: Global, usage: Use) -> Result<Value, AllocError> {
        let mut values = Values::new(alloc);
        for used in &self.used {
            if used.usage == usage {
                values.add(used.krate.json(alloc));
            }
        }
        values.list()
    }
}

impl Answer for UsedKrates<'_> {
    /// `shipped`, `build only` and `dev only`, each with the number of its crates, and below it the crates.
    fn push_lines(&self, lines: &mut Lines) -> Result<(), AllocError> {
        self.push(Use::Shipped, "shipped", lines);
        self.push(Use::Build, "build only", lines);
        self.push(Use::Dev, "dev only", lines);
        Ok(())
    }

    /// An object with the crates of `shipped`, `build` and `dev`.
    fn json(&self, alloc: Global) -> Result<Value, AllocError> {
        JsonObject::new(alloc)
            .put("shipped", self.json_of(alloc, Use::Shipped))
            .put("build", self.json_of(alloc, Use::Build))
            .put("dev", self.json_of(alloc, Use::Dev))
            .object()
    }
}

/// Adds a licence, and below it its crates.
fn push_licence(licence: &Licence<'_>, lines: &mut Lines) {
    let text = if licence.text.is_empty() {
        "no licence"
    } else {
        licence.text
    };
    write!(lines, "{text} ({})", licence.krates.len());
    lines.end();
    for found in &licence.krates {
        write!(lines, "    {}", ShortName(found.krate));
        lines.end();
    }
}

impl InJson for Licence<'_> {
    /// `licence`, which is null where there is none, and `crates`.
    fn json(&self, alloc: Global) -> Result<Value, AllocError> {
        let text = if self.text.is_empty() {
            Ok(Value::Null)
        } else {
            Value::try_from_str(alloc, self.text)
        };
        JsonObject::new(alloc)
            .put("licence", text)
            .put("crates", list_json(alloc, &self.krates))
            .object()
    }
}

/// The kept crates by licence, in the order of the texts.
impl Answer for Vec<Licence<'_>> {
    /// Each licence with the number of its crates, and below it the crates, first those without one.
    fn push_lines(&self, lines: &mut Lines) -> Result<(), AllocError> {
        for licence in self {
            push_licence(licence, lines);
        }
        Ok(())
    }

    /// A list of objects with `licence`, which is null where there is none, and `crates`.
    fn json(&self, alloc: Global) -> Result<Value, AllocError> {
        list_json(alloc, self)
    }
}
