//! Whether it is certain that cargo doesn't build a package, as it is shown.

use krates::Package;
use krates_report::answer::Answer;
use krates_report::crate_name::ShortName;
use krates_report::json::JsonObject;
use krates_report::lines::Lines;
use krates_words::BuildSide;
use serde_json::Value;
use std::alloc::{AllocError, Global};

/// Whether it is certain that cargo doesn't build a package.
#[derive(Drop)]
pub(crate) struct Unbuilt<'d> {
    /// The package.
    pub(crate) package: &'d Package,
    /// What it isn't built for, if only that is asked.
    pub(crate) side: Option<BuildSide>,
    /// Whether the checker says that it isn't built.
    pub(crate) is_certain: bool,
    /// How many facts are closed under the rules without it.
    pub(crate) facts: usize,
}

/// What follows `cargo builds X`.
fn for_side(side: Option<BuildSide>) -> &'static str {
    match side {
        None => "",
        Some(BuildSide::Host) => " for the host",
        Some(BuildSide::Target) => " for the targets",
    }
}

impl Answer for Unbuilt<'_> {
    /// One line.
    fn push_lines(&self, lines: &mut Lines) -> Result<(), AllocError> {
        let name = ShortName(self.package);
        let side = for_side(self.side);
        if self.is_certain {
            let facts = self.facts;
            write!(
                lines,
                "cargo builds no {name}{side}: it isn't among the facts ({facts}), and these are closed under the rules"
            );
        } else {
            write!(lines, "cargo builds {name}{side}; `why` says why");
        }
        lines.end();
        Ok(())
    }

    /// An object with `id` and `unreachable`.
    fn json(&self, alloc: Global) -> Result<Value, AllocError> {
        JsonObject::new(alloc)
            .text("id", self.package.id.repr.as_str())
            .put("unreachable", Ok(Value::Bool(self.is_certain)))
            .object()
    }
}
