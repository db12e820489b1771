//! What a certificate is judged against, and how it is judged.

ghost use Rattle.std.specs.Prelude.{◌≡◌, ◌↔◌, Err, IfErr, IfOk, IsTrue, IsUtf8, OnOk, map};
ghost use Rattle.krates_cm.specs.Document.{text_view, texts_view};
ghost use Rattle.krates_checkers.specs.CheckRefusals.{IsCheckRefused, IsClosedRefused};
ghost use Rattle.krates_rules.specs.Checks.{IsAcceptedFor, IsClosedFor};
ghost use Rattle.krates_rules.specs.StepViews.{facts_view, steps_view};
ghost use Rattle.krates_verdict.specs.Holding.{Holds, StepsSay};
ghost use Rattle.krates_verdict.specs.VerdictRefusals.{IsObjection, IsOtherSetting, JudgeRefusal};
ghost use Rattle.krates_verdict.specs.VerdictRunning.{IsUnheld, IsVerdictOf};
ghost use Rattle.krates_verdict.specs.Subject.{IsOfOneChoice, subject_view};
ghost use Rattle.krates_verdict.specs.declared.refusal.Refusal.TheVariants as refusals;

use crate::crates_of_facts::count_crates;
use crate::named_fact::NamedFact;
use crate::refusal::Refusal;
use crate::verdict::Verdict;
use krates_certificate::Certificate;
use krates_checkers::{check, check_closed};
use krates_cm::Metadata;
use krates_rules::{Derivation, Fact, Step, laws as rules};
use krates_words::StatedSetting;
use std::alloc::Global;
use std::str;

/// What a certificate is judged against: a document, and a setting with the words that mean it, as a command line has them. There is no
/// subject whose words mean another setting.
#[derive(Clone, Copy)]
pub struct CertificateSubject<'a> {
    /// The document.
    pub metadata: &'a Metadata,
    /// The setting, with its words. A certificate must have the same, in the same order.
    pub stated: &'a StatedSetting,
}

impl CertificateSubject<'_> {
    /// What always holds: there is a choice that means the setting and has the words.
    pub fn agrees(&self)
        ensures { IsOfOneChoice (subject_view self.now) }
    {
        self.stated.agrees();
    }

    /// Judges a certificate: it was made under the words of the subject's setting, and the checkers accept its steps or its facts
    /// for the document and the setting. Then it says what its last step says, with the ids of the document's packages, or how many
    /// crates its facts name.
    ///
    /// It is refused as `Setting` where its words differ, otherwise as `Check` where a checker says no. It may instead return
    /// `Memory`.
    ///
    /// Time: that of the checker, O(n log n) for n facts, and O(length) for the id texts of the packages.
    ///
    /// ```text
    /// let certificate = Certificate::parse(alloc, text)?;
    /// println!(rt; "{}", subject.judge(alloc, certificate)?)?;
    /// ```
    pub fn judge(&self, alloc: Global, certificate: Certificate) -> Result<Verdict, Refusal>
        ensures holds { IfOk result (Holds (subject_view self.now) certificate) }
        ensures refused { IfErr result (JudgeRefusal (subject_view self.now) certificate) }
    {
        match certificate {
            Certificate::Derivation {
                setting,
                derivation,
            } => {
                self.expect_words(setting)?;
                self.expect_steps(alloc, &derivation)?;
                self.said_by_steps(derivation.steps)
            }
            Certificate::Closed { setting, facts } => {
                self.expect_words(setting)?;
                self.expect_closed(alloc, &facts)?;
                let krates = count_crates(alloc, &facts)?;
                Ok(Verdict::Closed { krates })
            }
        }
    }

    /// Judges the bytes of a certificate: they are a text that `Certificate::parse` reads, and `judge` says what it holds.
    ///
    /// It is refused as `Utf8` exactly where the bytes aren't a text. Otherwise it is refused as `Certificate` where they aren't a
    /// certificate, or as by `judge`, and may instead return `Memory`. Time: O(n) for n bytes, and that of `judge`.
    ///
    /// ```text
    /// println!(rt; "{}", subject.judge_bytes(alloc, certificate)?)?;
    /// ```
    pub fn judge_bytes(&self, alloc: Global, certificate: &[u8]) -> Result<Verdict, Refusal>
        ensures holds { IfOk result (IsVerdictOf (subject_view self.now) certificate.now) }
        ensures refused { IfErr result (IsUnheld (subject_view self.now) certificate.now) }
        ensures no_text { (IsUtf8 certificate.now → ⊥) → result ≡ Err refusals.Utf8 }
    {
        let Ok(text) = str::from_utf8(certificate) else {
            return Err(Refusal::Utf8);
        };
        let certificate = Certificate::parse(alloc, text)?;
        self.judge(alloc, certificate)
    }

    /// Refuses other words than those of the setting.
    fn expect_words(&self, claimed: Vec<String>) -> Result<(), Refusal>
        ensures same { OnOk result (texts_view claimed ≡ (subject_view self.now).words) }
        ensures refused { IfErr result (IsOtherSetting (subject_view self.now) (texts_view claimed)) }
    {
        if self.has_words(&claimed) {
            return Ok(());
        }
        Err(Refusal::Setting { claimed })
    }

    /// Whether these are the words of the setting.
    fn has_words(&self, claimed: &[String]) -> bool
        ensures { IsTrue result ↔ (map text_view claimed.now ≡ (subject_view self.now).words) }
    {
        claimed == self.stated.words()
    }

    /// Refuses a list of steps that the checker refuses.
    fn expect_steps(&self, alloc: Global, derivation: &Derivation) -> Result<(), Refusal>
        ensures accepted { let s = subject_view self.now in
            OnOk result (IsAcceptedFor s.metadata s.setting (steps_view derivation.now.steps.items)) }
        ensures refused { let s = subject_view self.now in
            let steps = steps_view derivation.now.steps.items in
            IfErr result (IsObjection (IsCheckRefused s.metadata s.setting steps)) }
    {
        Ok(check(
            alloc,
            self.metadata,
            self.stated.setting(),
            None,
            derivation,
        )?)
    }

    /// Refuses a list of facts that the checker refuses.
    fn expect_closed(&self, alloc: Global, facts: &[Fact]) -> Result<(), Refusal>
        ensures closed { let s = subject_view self.now in
            OnOk result (IsClosedFor s.metadata s.setting (facts_view facts.now)) }
        ensures refused { let s = subject_view self.now in
            IfErr result (IsObjection (IsClosedRefused s.metadata s.setting (facts_view facts.now))) }
    {
        Ok(check_closed(alloc, self.metadata, self.stated.setting(), None, facts)?)
    }

    /// What the last of accepted steps says, as the document names it. The only refusal is `Memory`.
    fn said_by_steps(&self, mut steps: Vec<Step>) -> Result<Verdict, Refusal>
        requires { let s = subject_view self.now in IsAcceptedFor s.metadata s.setting (steps_view steps.items) }
        ensures says { IfOk result (StepsSay (subject_view self.now).metadata steps.items) }
        ensures refused { IfErr result (λ e. e ≡ refusals.Memory) }
    {
        rules::accepted_lists();
        let count = steps.len();
        match steps.pop() {
            Some(last) => {
                let fact = NamedFact::of(self.metadata, last.fact)?;
                Ok(Verdict::of_last(fact, count))
            }
            None => unreachable!(),
        }
    }
}
