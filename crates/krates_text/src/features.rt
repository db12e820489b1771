//! Feature references: what an entry in a feature's list in a manifest enables.
//!
//! Source: the Cargo Book, "Features".
ghost use Rattle.std.specs.Prelude.{◌≡◌};
ghost use Rattle.krates_text.specs.FeatureReference.{IsReference, reference_of};

/// What a feature reference enables, its parts borrowed from the text.
#[derive(Clone, Copy, Debug, PartialEq, Eq)]
pub enum Feature<'f> {
    /// `dep:<crate>`: an optional dependency, without a feature of that name.
    Krate(&'f str),
    /// `<crate>?/<feature>`: a feature of a dependency, if something else enables that dependency.
    Weak {
        /// The name of the dependency.
        krate: &'f str,
        /// Its feature.
        feature: &'f str,
    },
    /// `<crate>/<feature>`: a feature of a dependency, which it also enables.
    Strong {
        /// The name of the dependency.
        krate: &'f str,
        /// Its feature.
        feature: &'f str,
    },
    /// A feature of the same crate.
    Simple(&'f str),
}

/// A feature reference as it is written. Any text is one.
#[derive(Clone, Copy, Debug)]
pub struct ParsedFeature<'f> {
    /// The text as it is written.
    pub text: &'f str,
}

impl<'f> From<&'f str> for ParsedFeature<'f> {
    ghost from_gives = { λ text parsed. parsed.text.now ≡ text.now };

    /// The reference with this text; `feat` says what it enables. Time O(1).
    fn from(text: &'f str) -> Self {
        ParsedFeature { text }
    }
}

impl<'f> ParsedFeature<'f> {
    /// The reference that the text is: what follows `dep:` at its start; otherwise the parts on the two sides of its first
    /// `?/`, or else of its first `/`; otherwise all of it, which may be empty. Time O(length).
    ///
    /// ```text
    /// let reference = ParsedFeature::from("serde?/std").feat();
    /// // Feature::Weak { krate: "serde", feature: "std" }
    /// ```
    pub fn feat(&self) -> Feature<'f>
        ensures { IsReference self.now.text.now (reference_of result) }
    {
        if let Some(krate) = self.text.strip_prefix("dep:") {
            return Feature::Krate(krate);
        }
        if let Some((krate, feature)) = self.text.split_once("?/") {
            return Feature::Weak { krate, feature };
        }
        match self.text.split_once("/") {
            Some((krate, feature)) => Feature::Strong { krate, feature },
            None => Feature::Simple(self.text),
        }
    }
}
