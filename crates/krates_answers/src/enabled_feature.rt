//! Features that are enabled, as parts of an answer that are compared with those of another.

ghost use Rattle.std.specs.Prelude.{◌≡◌, ◌↔◌, IsTrue};

use crate::compared::Part;
use crate::pushing::push;
use crate::same_package::mean_same;
use krates::{KrateMatch, Krates, Package};
use std::alloc::{AllocError, Global};

/// A feature that is enabled of a crate.
#[derive(Clone, Copy, Drop)]
pub struct EnabledFeature<'a> {
    /// The crate's package.
    pub krate: &'a Package,
    /// Whether it is enabled for the host, where an answer tells the sides of a build apart.
    pub is_for_host: Option<bool>,
    /// The name.
    pub name: &'a str,
}

/// Whether two answers say the same of the side.
fn is_same_side(side: Option<bool>, other: Option<bool>) -> bool
    ensures { IsTrue result ↔ side ≡ other }
{
    match (side, other) {
        (Some(is_for_host), Some(is_other_for_host)) => is_for_host == is_other_for_host,
        (None, None) => true,
        _ => false,
    }
}

/// Features mean the same where their crates do, on the same side.
impl Part for EnabledFeature<'_> {
    ghost use Rattle.krates_cm.specs.Document.{text_view};
    ghost use Rattle.krates_answers.specs.EnabledFeature.{MeanSameFeature};

    ghost named = { λ f. f.name.now };

    ghost MeansSame = { λ root f other_root g. MeanSameFeature root f other_root g };

    fn name(&self) -> &str {
        self.name
    }

    fn means_same(&self, root: &str, other: &Self, other_root: &str) -> bool {
        self.name == other.name
            && is_same_side(self.is_for_host, other.is_for_host)
            && mean_same(root, self.krate, other_root, other.krate)
    }

    fn again(&self) -> Self {
        *self
    }

    ghost one_name = { λ root other_root f g same. same.name };
}

impl<'a> EnabledFeature<'a> {
    /// The enabled features of the kept crates: by the number of the crate, and then by name. The only refusal is running out of memory. Time
    /// O(n + f) for n crates and f features.
    ///
    /// ```text
    /// let features = EnabledFeature::all_in(alloc, &krates)?;
    /// ```
    pub fn all_in(
        alloc: Global,
        krates: &'a Krates,
    ) -> Result<Vec<EnabledFeature<'a>>, AllocError> {
        let mut features = Vec::new(alloc);
        for found in krates.krate_nodes() {
            push_features(krates, &found, &mut features)?;
        }
        Ok(features)
    }
}

/// Adds the enabled features of a crate.
fn push_features<'a>(
    krates: &'a Krates,
    found: &KrateMatch<'a, Package>,
    features: &mut Vec<EnabledFeature<'a>>,
) -> Result<(), AllocError> {
    let Some(names) = krates.get_enabled_features(found.kid) else {
        return Ok(());
    };
    for name in names {
        let feature = EnabledFeature {
            krate: found.krate,
            is_for_host: None,
            name: name.as_str(),
        };
        push(features, feature)?;
    }
    Ok(())
}
