//! Laws of package ids, package specifications and index correction, for all texts, ids and packages. Each is the
//! contract of a function that does nothing.

ghost use Rattle.std.specs.Prelude.{◌≡◌, ◌↔◌, ◌⊎◌, true};
ghost use Rattle.std.specs.Cmp.{IsTotalOrder};
ghost use Rattle.std.specs.declared.cmp.Ordering.TheVariants.{Equal};
ghost use Rattle.krates_cm.specs.Document.{Text, PackageModel};
ghost use Rattle.krates_ids.specs.Correction.{named, IndexModel, IsCorrected, with_features};
ghost use Rattle.krates_ids.specs.Identity.{Identity, Reads, NeedsDecoding, Fault, IsFault, IsSameId, same_id, id_cmp, id_hash_input};
ghost use Rattle.krates_ids.specs.PackageSpecification.{Specification, IsSpec, IsSpecFault};
ghost use Rattle.krates_ids.specs.SpecificationText.{spec_text};

/// Each text is an id or has a fault, never both; it is at most one id, and has at most one fault. A text that has an escape to
/// be decoded is an id, so running out of memory never replaces a fault.
pub fn one_reading()
    ensures either { (t : Text) → ((id : Identity) × Reads t id) ⊎ ((fault : Fault) × IsFault t fault) }
    ensures once { (t : Text) (a b : Identity) → Reads t a → Reads t b → a ≡ b }
    ensures no_fault_beside { (t : Text) (id : Identity) (fault : Fault)
        → Reads t id → IsFault t fault → ⊥ }
    ensures one_fault { (t : Text) (fault other : Fault)
        → IsFault t fault → IsFault t other → fault ≡ other }
    ensures decodable { (t : Text) → NeedsDecoding t → (id : Identity) × Reads t id }
{}

/// Ids compare as equal exactly where their three parts are equal, the order of ids is total and agrees with that, and the same
/// ids write the same to a hasher.
pub fn comparison()
    ensures equality { (a b : Identity) → (same_id a b ≡ true) ↔ IsSameId a b }
    ensures order { (a b : Identity) → (id_cmp a b ≡ Equal) ↔ IsSameId a b }
    ensures total { IsTotalOrder id_cmp }
    ensures hash { (a b : Identity) → IsSameId a b → id_hash_input a ≡ id_hash_input b }
{}

/// Each text is a package specification or has a refusal, never both; it is at most one specification, and has at most one
/// refusal.
pub fn one_specification()
    ensures either { (t : Text)
        → ((a : Specification) × IsSpec t a.name a.version a.url) ⊎ ((refusal : Text) × IsSpecFault t refusal) }
    ensures never_both { (t : Text) (a : Specification) (refusal : Text)
        → IsSpec t a.name a.version a.url → IsSpecFault t refusal → ⊥ }
    ensures one { (t : Text) (a b : Specification)
        → IsSpec t a.name a.version a.url → IsSpec t b.name b.version b.url → a ≡ b }
    ensures one_refusal { (t : Text) (refusal other : Text)
        → IsSpecFault t refusal → IsSpecFault t other → refusal ≡ other }
{}

/// A package specification that was read is printed as a text that reads as exactly that specification, whatever the text was; two
/// that differ are printed differently. So `PkgSpec::from_str` of the printed text returns an equal one, unless memory
/// runs out.
pub fn printed_specification()
    ensures again { (t : Text) (a : Specification)
        → IsSpec t a.name a.version a.url → IsSpec (spec_text a) a.name a.version a.url }
    ensures distinct { (t u : Text) (a b : Specification)
        → IsSpec t a.name a.version a.url → IsSpec u b.name b.version b.url
        → spec_text a ≡ spec_text b → a ≡ b }
{}

/// A package that is corrected again by the same answer keeps all features as they are.
pub fn correcting_twice()
    ensures { (index : IndexModel) (before once again : PackageModel)
        → IsCorrected index before once → IsCorrected index once again
        → (name : Text) → named again.features name ≡ named once.features name }
{}

/// A package has one correction by an answer, except for the order in which features are listed: two have the same values under each
/// name, and are equal in everything else.
pub fn one_correction()
    ensures { (index : IndexModel) (before a b : PackageModel)
        → IsCorrected index before a → IsCorrected index before b
        → (b ≡ with_features a b.features) × ((name : Text) → named a.features name ≡ named b.features name) }
{}
