//! A word that means no package of the document, as it is shown where it is asked whether one can be reached.

use crate::answer::Answer;
use crate::json::{JsonObject, Values};
use crate::lines::Lines;
use serde_json::Value;
use std::alloc::{AllocError, Global};

/// A word that means no package of the document, so that there is none to reach.
#[derive(Drop)]
pub struct Absent {
    /// The word.
    pub word: String,
    /// What comes near, as specifications: the word may be a slip.
    pub near: Vec<String>,
}

impl Answer for Absent {
    /// One line, and below it what comes near.
    fn push_lines(&self, lines: &mut Lines) -> Result<(), AllocError> {
        let rest = if self.near.is_empty() {
            ""
        } else {
            "; these come near:"
        };
        write!(
            lines,
            "`{}` can't be reached: no package of the document fits{rest}",
            self.word
        );
        lines.end();
        for near in &self.near {
            write!(lines, "    {near}");
            lines.end();
        }
        Ok(())
    }

    /// An object with `id`, which is null, `unreachable`, and the list `near`.
    fn json(&self, alloc: Global) -> Result<Value, AllocError> {
        let mut near = Values::new(alloc);
        for text in &self.near {
            near.add(Value::try_from_str(alloc, text.as_str()));
        }
        JsonObject::new(alloc)
            .put("id", Ok(Value::Null))
            .put("unreachable", Ok(Value::Bool(true)))
            .put("near", near.list())
            .object()
    }
}
