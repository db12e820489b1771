//! Crates by what they say about their licence.

ghost use Rattle.std.specs.Prelude.{◌≡◌, IfOk, map};
ghost use Rattle.krates_queries.specs.KrateNodes.{match_view};
ghost use Rattle.krates_answers.specs.Grouped.{AreGroups};
ghost use Rattle.krates_answers.specs.Labelled.{with_label};
ghost use Rattle.krates_answers.specs.Licences.{licence_view, stated_licence};

use crate::labelled::{Label, labelled};
use crate::pushing::push;
use krates::{KrateMatch, Package};
use std::alloc::{AllocError, Global};

/// Crates with one licence.
#[derive(Debug, Drop)]
pub struct Licence<'a> {
    /// What their manifests say: an SPDX expression (Cargo Book, "The license and license-file fields"), the path of a
    /// licence file where there is no expression, or nothing where there is neither.
    pub text: &'a str,
    /// The crates, in their order.
    pub krates: Vec<KrateMatch<'a, Package>>,
}

/// The licence of a package: its expression, or else the path of its licence file, or else nothing.
fn licence_of(krate: &Package) -> &str
    ensures { result.now ≡ stated_licence krate.now }
{
    match (&krate.license, &krate.license_file) {
        (Some(expression), _) => expression.as_str(),
        (None, Some(file)) => file.as_str(),
        (None, None) => "",
    }
}

/// What a package states about its licence, as a label.
struct Stated;

impl Label for Stated {
    ghost label_of = { stated_licence };

    fn label(pkg: &Package) -> &str {
        licence_of(pkg)
    }
}

/// The licences of these crates, in the order of their bytes, each with its crates in their order. The only refusal is running out of
/// memory. Time O(n log n) for n crates.
pub fn licences<'a>(
    alloc: Global,
    crates: &[KrateMatch<'a, Package>],
) -> Result<Vec<Licence<'a>>, AllocError>
    ensures { IfOk result (λ found. AreGroups (map (with_label stated_licence) (map match_view crates.now))
        (map licence_view found.items)) }
{
    let by_licence = labelled::<Stated>(alloc, crates)?;
    let mut licences = Vec::new(alloc);
    for (text, krates) in by_licence {
        push(&mut licences, Licence { text, krates })?;
    }
    Ok(licences)
}
