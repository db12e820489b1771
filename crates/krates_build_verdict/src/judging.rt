//! From the bytes of a certificate to the line of its verdict.

ghost use Rattle.std.specs.Prelude.{◌≡◌, Err, IfErr, IsUtf8, OnOk};
ghost use Rattle.krates_cm.specs.Document.{metadata_view};
ghost use Rattle.krates_units.specs.BuildSetting.{build_setting_view};
ghost use Rattle.krates_build_verdict.specs.JudgedBytes.{AreHeld, BytesRefusal};
ghost use Rattle.krates_build_verdict.specs.declared.refusal.BuildRefusal.TheVariants as refusals;

use crate::machines::expect_build;
use crate::refusal::BuildRefusal;
use crate::subject::BuildSubject;
use krates_build_certificate::BuildCertificate;
use krates_cm::Metadata;
use krates_questions::{Document, admit};
use krates_units::BuildSetting;
use std::alloc::Global;
use std::str;

/// Judges the bytes of a certificate against a document and what a build is asked for, and returns the line of its verdict.
///
/// It is refused as `Utf8`, `Certificate`, `Setting`, `Count`, `NoMachine`, `Machine`, `Document` or `Unanswered`, and then as
/// `BuildSubject::judge` refuses it, in this order. It may instead return `Memory`. Time: O(n log n) for n bytes, and that of
/// `BuildSubject::new` and `BuildSubject::judge`.
///
/// ```text
/// print!(rt; "{}", judge_bytes(alloc, &metadata, &setting, &certificate)?)?;
/// ```
pub fn judge_bytes(
    alloc: Global,
    metadata: &Metadata,
    setting: &BuildSetting,
    certificate: &[u8],
) -> Result<String, BuildRefusal>
    ensures held { OnOk result (AreHeld (metadata_view metadata.now)
        (build_setting_view setting.now) certificate.now) }
    ensures refused { IfErr result (BytesRefusal (metadata_view metadata.now)
        (build_setting_view setting.now) certificate.now) }
    ensures no_text { (IsUtf8 certificate.now → ⊥) → result ≡ Err refusals.Utf8 }
{
    let Ok(text) = str::from_utf8(certificate) else {
        return Err(BuildRefusal::Utf8);
    };
    let certificate = BuildCertificate::parse(alloc, text)?;
    expect_build(alloc, setting, &certificate)?;
    let ids = admit(alloc, metadata)?;
    let document = Document::new(alloc, metadata, &ids)?;
    let subject = BuildSubject::new(alloc, &document, setting)?;
    let verdict = subject.judge(alloc, &certificate.claim)?;
    Ok(subject.line(alloc, &verdict)?)
}
