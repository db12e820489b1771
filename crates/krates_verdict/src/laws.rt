//! Laws of verdicts, for all documents, settings and certificates. Each is the contract of a function that does nothing.

ghost use Rattle.std.specs.Prelude.{ℕ};
ghost use Rattle.krates_cm.specs.Document.{Text};
ghost use Rattle.krates_cm.specs.declared.package_id.PackageId.{PackageId};
ghost use Rattle.krates_certificate.specs.declared.certificate.Certificate.{Certificate};
ghost use Rattle.krates_verdict.specs.Holding.{Holds};
ghost use Rattle.krates_verdict.specs.VerdictRunning.{IsOutside, IsRefusalOf, IsVerdictOf};
ghost use Rattle.krates_verdict.specs.Subject.{SubjectModel};
ghost use Rattle.krates_verdict.specs.Truth.{AreAllReachable, NamesDerivable, NamesWhatIsThere};
ghost use Rattle.krates_verdict.specs.declared.named_fact.NamedFact.{NamedFact};
ghost use Rattle.krates_verdict.specs.declared.named_fact.NamedFact.TheVariants as named;
ghost use Rattle.krates_verdict.specs.declared.refusal.Refusal.{Refusal};
ghost use Rattle.krates_verdict.specs.declared.verdict.Verdict.{Verdict};
ghost use Rattle.krates_verdict.specs.declared.verdict.Verdict.TheVariants as verdicts;

use krates_certificate::laws as certificates;
use krates_ids::laws as ids;
use krates_rules::laws as rules;

/// What a verdict says is true of the document and the setting, whoever made the certificate: the crate that is kept and the fact that
/// follows are derivable, and no crate is derivable except those that were counted.
pub fn verdicts_are_true()
    ensures kept { (s : SubjectModel) (c : Certificate) (krate : PackageId) (steps : ℕ)
        → Holds s c (verdicts.Kept krate steps) → NamesDerivable s (named.Crate krate) }
    ensures follows { (s : SubjectModel) (c : Certificate) (fact : NamedFact) (steps : ℕ)
        → Holds s c (verdicts.Follows fact steps) → NamesDerivable s fact }
    ensures closed { (s : SubjectModel) (c : Certificate) (krates : ℕ)
        → Holds s c (verdicts.Closed krates) → AreAllReachable s krates }
{
    rules::accepted_lists();
    rules::closed_lists();
}

/// What a verdict names is in the document, whoever made the certificate: each id is the id text of one of its packages, and the feature,
/// or the kind and the target of the edge, is one that a node of its graph lists.
pub fn verdicts_name_the_document()
    ensures kept { (s : SubjectModel) (c : Certificate) (krate : PackageId) (steps : ℕ)
        → Holds s c (verdicts.Kept krate steps) → NamesWhatIsThere s.metadata (named.Crate krate) }
    ensures follows { (s : SubjectModel) (c : Certificate) (fact : NamedFact) (steps : ℕ)
        → Holds s c (verdicts.Follows fact steps) → NamesWhatIsThere s.metadata fact }
{
    rules::accepted_lists();
}

/// Bytes that are a certificate which holds are refused only where the reader or the writer fails, or memory runs out: no other
/// refusal is true of them. So, apart from these cases, a run over them succeeds.
pub fn held_or_refused()
    ensures { (s : SubjectModel) (bytes : Text) (verdict : Verdict) (cause : Refusal)
        → IsVerdictOf s bytes verdict → IsRefusalOf s bytes cause → IsOutside cause }
{
    certificates::one_reading();
    certificates::faults_are_true();
    ids::one_reading();
}
