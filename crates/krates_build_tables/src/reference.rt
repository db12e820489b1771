//! Feature references as facts name them.
//!
//! Source: the Cargo Book, "Features", "Dependency features".
ghost use Rattle.std.specs.Prelude.{◌≡◌, option_map};
ghost use Rattle.krates_text.specs.FeatureReference.{reference_of};
ghost use Rattle.krates_build_tables.specs.References.{feature_named, reference_view, turns_on};

use krates_text::features::Feature;

/// What a feature reference names, its parts borrowed from the text. References are ordered by their forms and then by their parts.
#[derive(Clone, Copy, Debug, PartialEq, Eq, PartialOrd, Ord)]
pub enum FeatureReference<'a> {
    /// `dep:NAME`: an optional dependency.
    Krate(&'a str),
    /// `NAME?/FEATURE`: a feature of a dependency, if something else turns that on.
    Weak(&'a str, &'a str),
    /// `NAME/FEATURE`: a feature of a dependency, which it also turns on.
    Strong(&'a str, &'a str),
    /// A feature of the same crate.
    Simple(&'a str),
}

impl<'a> From<Feature<'a>> for FeatureReference<'a> {
    ghost from_gives = { λ feature reference. reference_view reference ≡ reference_of feature };

    /// The same reference. Time O(1).
    fn from(feature: Feature<'a>) -> Self {
        match feature {
            Feature::Krate(name) => FeatureReference::Krate(name),
            Feature::Weak { krate, feature } => FeatureReference::Weak(krate, feature),
            Feature::Strong { krate, feature } => FeatureReference::Strong(krate, feature),
            Feature::Simple(name) => FeatureReference::Simple(name),
        }
    }
}

impl<'a> FeatureReference<'a> {
    /// The feature of the dependency of this name that the reference names. Time O(length).
    pub fn feature_named(&self, name: &str) -> Option<&'a str>
        ensures { option_map (λ feature. feature.now) result ≡ feature_named (reference_view self.now) name.now }
    {
        match *self {
            FeatureReference::Weak(dep, feature) | FeatureReference::Strong(dep, feature) => {
                if dep == name { Some(feature) } else { None }
            }
            FeatureReference::Krate(_) | FeatureReference::Simple(_) => None,
        }
    }

    /// Whether the reference turns the dependency of this name on, with a feature of it. Time O(length).
    pub fn turns_on(&self, name: &str) -> bool
        ensures { result ≡ turns_on (reference_view self.now) name.now }
    {
        match *self {
            FeatureReference::Strong(dep, _) => dep == name,
            FeatureReference::Krate(_)
            | FeatureReference::Weak(_, _)
            | FeatureReference::Simple(_) => false,
        }
    }
}
