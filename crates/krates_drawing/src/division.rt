//! The packages of a document with their ids, divided into the selected ones and the others, which are handed to a filter.

ghost use Rattle.std.specs.Prelude.{◌≡◌, IfOk, OnErr, map, filter, not};
ghost use Rattle.std.specs.List.{AllZip, FoldsTo};
ghost use Rattle.std.specs.List.Sorted.{IsStrictlySortedBy};
ghost use Rattle.krates_cm.specs.Document.{id_view};
ghost use Rattle.krates_cm.specs.declared.package.Package.{Package};
ghost use Rattle.krates_ids.specs.Identity.{Reads, id_cmp};
ghost use Rattle.krates_rules.specs.DistinctIds.{AreDistinct};
ghost use Rattle.krates_drawing.specs.Division.{IsDivision, has_same, is_selected, krate_packages, outline_ids, paired};

use crate::outline;
use krates_cm::Package;
use krates_ids::{Kid, laws};
use std::alloc::{AllocError, Global};

/// A package with its id, as which the text of its id is read.
///
/// Crates are compared by their ids alone.
#[derive(Debug, Drop)]
#[derive_where(PartialEq, Eq, PartialOrd, Ord)]
pub struct Krate {
    pub id: Kid,
    #[derive_where(skip(EqHashOrd))]
    pub pkg: Package,
}

/// The packages of a document with their ids, each list in the order of the ids.
#[derive(Debug, Drop)]
pub struct Division {
    /// Those that are selected.
    pub kept: Vec<Krate>,
    /// All others.
    pub others: Vec<Krate>,
}

/// Divides the packages, whose ids these are, into those with a selected id and the others, each list in the order of the ids.
/// Returns `AllocError` if memory runs out. Time O(n log n) in the number of packages.
pub fn divide(
    alloc: Global,
    packages: Vec<Package>,
    ids: Vec<Kid>,
    selected: &[outline::CrateRow],
) -> Result<Division, AllocError>
    requires read { AllZip Reads (map (λ p. id_view p.id) packages.items) ids.items }
    requires distinct { AreDistinct ids.items }
    requires ascending { IsStrictlySortedBy id_cmp (outline_ids selected.now) }
    ensures { IfOk result (IsDivision packages.items (outline_ids selected.now)) }
{
    laws::one_reading();
    laws::comparison();
    let mut krates = with_ids(alloc, packages, ids)?;
    krates.sort_unstable();
    division_of(alloc, krates, selected)
}

/// Each package with the id at its place.
fn with_ids(alloc: Global, packages: Vec<Package>, ids: Vec<Kid>) -> Result<Vec<Krate>, AllocError>
    ensures { IfOk result (λ krates. krates.items ≡ paired packages.items ids.items) }
{
    packages
        .into_iter()
        .zip(ids)
        .map(|(pkg, id)| Krate { id, pkg })
        .collect(alloc)
}

/// Divides crates, and leaves them in their order.
fn division_of(
    alloc: Global,
    krates: Vec<Krate>,
    selected: &[outline::CrateRow],
) -> Result<Division, AllocError>
    requires { IsStrictlySortedBy id_cmp (outline_ids selected.now) }
    ensures kept { IfOk result
        (λ d. d.kept.items ≡ filter (is_selected (outline_ids selected.now)) krates.items) }
    ensures others { IfOk result
        (λ d. d.others.items ≡ filter (λ k. not (is_selected (outline_ids selected.now) k)) krates.items) }
{
    let mut kept = Vec::with_capacity(alloc, selected.len())?;
    let mut others = Vec::new(alloc);
    for krate in krates {
        if has(selected, &krate.id) {
            kept.push(krate)?;
        } else {
            others.push(krate)?;
        }
    }
    Ok(Division { kept, others })
}

/// Whether an id is that of a crate, among crates in the order of their ids.
fn has(krates: &[outline::CrateRow], id: &Kid) -> bool
    requires { IsStrictlySortedBy id_cmp (outline_ids krates.now) }
    ensures { result ≡ has_same (outline_ids krates.now) id.now }
{
    laws::comparison();
    match krates.binary_search_by(|krate| krate.id.cmp(id)) {
        Ok(_) => true,
        Err(_) => false,
    }
}

/// What is called with each package that isn't kept, in the order of the ids.
///
/// `NoneFilter` lets them go, `FilterFn` hands each to a closure, and a type of a caller's own may count or keep them.
pub trait OnFilter {
    /// Whether the filter may be called in this state.
    ghost can_filter: { Self → Type 0 } = { λ _. Unit {0} };

    /// How the state before and the package relate to the state after.
    ghost filters: { Self → Package → Self → Type 0 };

    /// Takes a package that isn't kept, and may be called again.
    fn filtered(&mut self, pkg: Package)
        requires { can_filter self.old }
        ensures step { filters self.old pkg self.new }
        ensures again { can_filter self.new };
}

/// Lets each package go.
#[derive(Clone, Copy, Debug, PartialEq, Eq)]
pub struct NoneFilter;

impl OnFilter for NoneFilter {
    ghost filters = { λ old _ new. new ≡ old };

    fn filtered(&mut self, pkg: Package) {
        drop(pkg);
    }
}

/// A filter that calls this closure with each package.
///
/// The closure has to be callable again and again, which a build asks for.
#[derive(Drop)]
pub struct FilterFn<F>(pub F);

impl<F: FnMut(Package)> OnFilter for FilterFn<F> {
    ghost can_filter = { λ filter. F.IsAlwaysCallable filter.0 };

    ghost filters = { λ old pkg new. F.step old.0 pkg tt new.0 };

    fn filtered(&mut self, pkg: Package) {
        (self.0)(pkg)
    }
}

/// Hands each package to the filter, in their order. Time: a call of the filter for each.
fn report<F: OnFilter>(others: Vec<Krate>, filter: &mut F)
    requires { F.can_filter filter.old }
    ensures run { FoldsTo F.filters filter.old (krate_packages others.items) filter.new }
    ensures again { F.can_filter filter.new }
{
    for other in others {
        filter.filtered(other.pkg);
    }
}

/// Hands over what was made, and where it was, each of these packages to the filter, in their order. Where it wasn't, the filter is as it
/// was. Time: a call of the filter for each.
pub fn handed_over<T: Drop, E: Drop, F: OnFilter>(
    made: Result<T, E>,
    others: Vec<Krate>,
    filter: &mut F,
) -> Result<T, E>
    requires { F.can_filter filter.old }
    ensures same { result ≡ made }
    ensures run { IfOk made
        (λ _. FoldsTo F.filters filter.old (krate_packages others.items) filter.new) }
    ensures again { F.can_filter filter.new }
    ensures unchanged { OnErr made (filter.new ≡ filter.old) }
{
    let made = made?;
    report(others, filter);
    Ok(made)
}
