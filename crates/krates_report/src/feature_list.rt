//! Names of features in one text.

use krates_text::text::Text;
use std::alloc::{AllocError, Global};

/// Names of features, with commas between them, as `cargo tree` writes them.
#[derive(Drop)]
pub struct FeatureList {
    text: Text,
}

impl FeatureList {
    /// None. Time O(1).
    pub fn new(alloc: Global) -> FeatureList {
        FeatureList {
            text: Text::new(alloc),
        }
    }

    /// Adds a name. Time O(length), amortized over all calls.
    pub fn push(&mut self, name: &str) {
        if !self.text.as_str().is_empty() {
            self.text.push_str(",");
        }
        self.text.push_str(name);
    }

    /// The text. The only error is that memory ran out for a name. Time O(1).
    pub fn whole(self) -> Result<String, AllocError> {
        self.text.whole()
    }
}
