//! Laws of the resolver of a workspace, for all manifests and documents. Each is the contract of a function that does nothing.

ghost use Rattle.std.specs.Prelude.{◌≡◌};
ghost use Rattle.krates_cm.specs.Document.{Text};
ghost use Rattle.krates_cm.specs.declared.metadata.Metadata.{Metadata};
ghost use Rattle.krates_units.specs.declared.setting.Resolver.{Resolver};
ghost use Rattle.krates_manifest.specs.ManifestFaults.{HaveOneCause, IsFault};
ghost use Rattle.krates_manifest.specs.ResolverOf.{IsResolver};
ghost use Rattle.krates_manifest.specs.declared.manifest_error.ManifestError.{ManifestError};
ghost use Rattle.krates_manifest.specs.declared.manifest_error.ManifestError.TheVariants.{Memory};

/// One resolver at most is used.
pub fn one_resolver()
    ensures { (manifest : Text) (document : Metadata) (one other : Resolver)
        → IsResolver manifest document one → IsResolver manifest document other → one ≡ other }
{}

/// Where a resolver is used, no refusal is true but that memory ran out. So `resolver_of` returns the resolver, unless memory runs out.
pub fn no_refusal_of_what_is_used()
    ensures { (manifest : Text) (document : Metadata) (resolver : Resolver) (error : ManifestError)
        → IsResolver manifest document resolver → IsFault manifest document error → error ≡ Memory }
{}

/// Refusals that are true have one cause. So `resolver_of` refuses a manifest for the cause of any refusal that is true, unless memory runs
/// out.
pub fn one_cause()
    ensures { (manifest : Text) (document : Metadata) (one other : ManifestError)
        → IsFault manifest document one → IsFault manifest document other → HaveOneCause one other }
{}
