//! The text of a package, as a word that means it.

ghost use Rattle.std.specs.Prelude.{◌≡◌, ◌↔◌, List, IfOk, IsTrue, length, map, string_bytes};
ghost use Rattle.std.specs.List.{AllZip};
ghost use Rattle.krates_cm.specs.declared.package.Package.{Package};
ghost use Rattle.krates_answers.specs.PackageText.{IsNamesake, IsTextAmong, named};
ghost use Rattle.krates_answers.specs.Those.{AreThose};

use krates::Package;
use std::alloc::{AllocError, Global};

/// `NAME@VERSION` of a package, which is a specification that fits it.
pub(crate) fn named(alloc: Global, pkg: &Package) -> Result<String, AllocError>
    ensures { IfOk result (λ text. string_bytes text ≡ named pkg.now) }
{
    format!(in alloc; "{}@{}", pkg.name, pkg.version)
}

/// Whether two packages have one name and one version.
fn is_namesake(pkg: &Package, other: &Package) -> bool
    ensures { IsTrue result ↔ IsNamesake pkg.now other.now }
{
    pkg.name == other.name && pkg.version == other.version
}

/// How many of these packages have the name and the version of this one.
fn namesakes(packages: &[&Package], pkg: &Package) -> usize
    ensures { (those : List Package) × AreThose (IsNamesake pkg.now) (map (λ pkg. pkg.now) packages.now) those
        × (result ≡ length those) }
{
    let mut count = 0;
    for other in packages {
        if is_namesake(pkg, other) {
            count += 1;
        }
    }
    count
}

/// The text that names a package apart from all others of these: its name and version, or its id where another has both too.
fn text_among(alloc: Global, packages: &[&Package], pkg: &Package) -> Result<String, AllocError>
    ensures { IfOk result (λ text. IsTextAmong (map (λ pkg. pkg.now) packages.now) pkg.now (string_bytes text)) }
{
    if namesakes(packages, pkg) > 1 {
        pkg.id.repr.clone()
    } else {
        named(alloc, pkg)
    }
}

/// For each package the text that names it apart from all others of these. The only refusal is running out of memory. Time O(k n) for k
/// packages among n.
pub(crate) fn texts_among(
    alloc: Global,
    packages: &[&Package],
    told: &[&Package],
) -> Result<Vec<String>, AllocError>
    ensures { IfOk result (λ texts. AllZip (IsTextAmong (map (λ pkg. pkg.now) packages.now))
        (map (λ pkg. pkg.now) told.now) (map string_bytes texts.items)) }
{
    let mut texts = Vec::new(alloc);
    for pkg in told {
        texts.push(text_among(alloc, packages, pkg)?)?;
    }
    Ok(texts)
}
