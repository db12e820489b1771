//! Laws of comparisons, each the contract of a function that does nothing.

ghost use Rattle.std.specs.Prelude.{◌≡◌, ◌↔◌, true, pos, Some};
ghost use Rattle.std.specs.Cmp.Lexicographic.{slice_cmp};
ghost use Rattle.std.specs.Hash as fed;
ghost use Rattle.std.specs.Ordering.{nat_cmp};
ghost use Rattle.krates_cm.specs.Comparisons.{dependency_kind_place, edition_place, form_place, kind_place};
ghost use Rattle.krates_cm.specs.Document.{id_view, source_view};

use crate::dependency::DependencyKind;
use crate::package::{Source, SourceKind};
use crate::package_id::PackageId;
use crate::target::{CrateType, Edition, TargetKind};
use std::hash::Hash;

/// Sources are equal where their texts are.
pub fn sources_compared()
    ensures equal { (a b : Source) → (⟦<Source as PartialEq>⟧.eq a b ≡ true) ↔ (source_view a ≡ source_view b) }
{}

/// Each kind of a source is equal to itself alone.
pub fn source_kinds_compared()
    ensures equal { (a b : SourceKind) → (⟦<SourceKind as PartialEq>⟧.eq a b ≡ true) ↔ (a ≡ b) }
{}

/// Package ids are equal, are ordered and are hashed as their texts are, by the bytes.
pub fn package_ids_compared()
    ensures equal { (a b : PackageId) → (⟦<PackageId as PartialEq>⟧.eq a b ≡ true) ↔ (id_view a ≡ id_view b) }
    ensures partial_order { (a b : PackageId)
        → ⟦<PackageId as PartialOrd>⟧.partial_cmp a b ≡ Some (slice_cmp nat_cmp (id_view a) (id_view b)) }
    ensures order { (a b : PackageId) → ⟦<PackageId as Ord>⟧.cmp a b ≡ slice_cmp nat_cmp (id_view a) (id_view b) }
    ensures hash { (a : PackageId) → ⟦<PackageId as Hash>⟧.hash_input a ≡ fed.str (id_view a) }
{}

/// Editions are ordered by their years.
pub fn editions_compared()
    ensures equal { (a b : Edition) → (⟦<Edition as PartialEq>⟧.eq a b ≡ true) ↔ (a ≡ b) }
    ensures partial_order { (a b : Edition)
        → ⟦<Edition as PartialOrd>⟧.partial_cmp a b ≡ Some (nat_cmp (edition_place a) (edition_place b)) }
    ensures order { (a b : Edition) → ⟦<Edition as Ord>⟧.cmp a b ≡ nat_cmp (edition_place a) (edition_place b) }
    ensures hash { (a : Edition) → ⟦<Edition as Hash>⟧.hash_input a ≡ fed.isize (pos (edition_place a)) }
{}

/// Kinds of targets are ordered by their places in a list.
pub fn kinds_compared()
    ensures equal { (a b : TargetKind) → (⟦<TargetKind as PartialEq>⟧.eq a b ≡ true) ↔ (a ≡ b) }
    ensures partial_order { (a b : TargetKind)
        → ⟦<TargetKind as PartialOrd>⟧.partial_cmp a b ≡ Some (nat_cmp (kind_place a) (kind_place b)) }
    ensures order { (a b : TargetKind) → ⟦<TargetKind as Ord>⟧.cmp a b ≡ nat_cmp (kind_place a) (kind_place b) }
    ensures hash { (a : TargetKind) → ⟦<TargetKind as Hash>⟧.hash_input a ≡ fed.isize (pos (kind_place a)) }
{}

/// Forms of what the compiler writes are ordered by their places in a list.
pub fn forms_compared()
    ensures equal { (a b : CrateType) → (⟦<CrateType as PartialEq>⟧.eq a b ≡ true) ↔ (a ≡ b) }
    ensures partial_order { (a b : CrateType)
        → ⟦<CrateType as PartialOrd>⟧.partial_cmp a b ≡ Some (nat_cmp (form_place a) (form_place b)) }
    ensures order { (a b : CrateType) → ⟦<CrateType as Ord>⟧.cmp a b ≡ nat_cmp (form_place a) (form_place b) }
    ensures hash { (a : CrateType) → ⟦<CrateType as Hash>⟧.hash_input a ≡ fed.isize (pos (form_place a)) }
{}

/// Each kind of a dependency is equal to itself alone.
pub fn dependency_kinds_compared()
    ensures equal { (a b : DependencyKind) → (⟦<DependencyKind as PartialEq>⟧.eq a b ≡ true) ↔ (a ≡ b) }
    ensures hash { (a : DependencyKind)
        → ⟦<DependencyKind as Hash>⟧.hash_input a ≡ fed.isize (pos (dependency_kind_place a)) }
{}
