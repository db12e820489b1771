//! A run: from the certificate that comes in to the verdict that goes out.

ghost use Rattle.std.specs.Prelude.{IfErr, IfOk, IfSome, OnOk, ◌≡◌};
ghost use Rattle.std.specs.Io.KnownBytes.{IsAtEnd};
ghost use Rattle.krates_cm.specs.Document.{metadata_view};
ghost use Rattle.krates_verdict.specs.VerdictRefusals.{IsOfReader};
ghost use Rattle.krates_verdict.specs.VerdictRunning.{Leaves};
ghost use Rattle.krates_verdict.specs.VerdictRunning.{ChosenRefusal, OfChoice, RunRefusal, WritesVerdict};
ghost use Rattle.krates_verdict.specs.Subject.{subject_view};

use crate::refusal::Refusal;
use crate::subject::CertificateSubject;
use krates_cm::Metadata;
use krates_words::Choice;
use std::alloc::Global;
use std::io::{Read, Write};

/// Reads one certificate up to the end of the input, judges it against the subject, and writes the line of its verdict: what the
/// verdict's `Display` prints, and a line feed.
///
/// It is refused as `Read`, `Utf8`, `Certificate`, `Setting`, `Check` or `Write`, in this order and only where that is true of
/// the reader, of what was read, or of the writer. It may instead return `Memory`. The whole line is made before its first byte is
/// written, so after each refusal but `Write` nothing was written.
///
/// Time: O(n) for n bytes, and that of `CertificateSubject::judge_bytes`.
///
/// ```text
/// run(rt.alloc(), &subject, &mut stdin(&rt), &mut stdout(&rt))?;
/// ```
pub fn run<R: Read, W: Write>(
    alloc: Global,
    subject: &CertificateSubject<'_>,
    input: &mut R,
    output: &mut W,
) -> Result<(), Refusal>
    ensures written { OnOk result (WritesVerdict (subject_view subject.now) (R.remaining input.old)
        (W.contents output.old) (W.contents output.new)) }
    ensures refused { IfErr result (RunRefusal (subject_view subject.now) (R.remaining input.old)) }
    ensures unwritten { IfErr result (Leaves output.old output.new) }
    ensures read { OnOk result (IsAtEnd (R.remaining input.new)) }
{
    let bytes = read_all(alloc, input)?;
    let verdict = subject.judge_bytes(alloc, &bytes)?;
    let line = format!(in alloc; "{verdict}\n")?;
    match output.write_all(line.as_bytes()) {
        Ok(()) => Ok(()),
        Err(cause) => Err(Refusal::Write(cause)),
    }
}

/// The same for what a command line chooses: the certificate is judged against the document under the setting that the choice means, and
/// has to have the words that mean it.
///
/// It may also return `Memory` before anything is read; otherwise it is refused as `run` is. Time: that of `Choice::stated` and `run`.
///
/// ```text
/// run_under(rt.alloc(), &asked.choice, &metadata, &mut rt.reader(), &mut rt.stdout())?;
/// ```
pub fn run_under<R: Read, W: Write>(
    alloc: Global,
    choice: &Choice,
    metadata: &Metadata,
    input: &mut R,
    output: &mut W,
) -> Result<(), Refusal>
    ensures written { OnOk result (OfChoice choice.now (metadata_view metadata.now)
        (λ s. WritesVerdict s (R.remaining input.old) (W.contents output.old) (W.contents output.new))) }
    ensures refused { IfErr result
        (ChosenRefusal choice.now (metadata_view metadata.now) (R.remaining input.old)) }
    ensures unwritten { IfErr result (Leaves output.old output.new) }
    ensures read { OnOk result (IsAtEnd (R.remaining input.new)) }
{
    let stated = choice.stated(alloc)?;
    let subject = CertificateSubject {
        metadata,
        stated: &stated,
    };
    run(alloc, &subject, input, output)
}

/// The bytes that the input has up to its end. It is refused as `Read` or `Memory`.
fn read_all<R: Read>(alloc: Global, input: &mut R) -> Result<Vec<u8>, Refusal>
    ensures whole { IfOk result
        (λ bytes. IfSome (R.remaining input.old) (λ known. bytes.items ≡ known)) }
    ensures end { OnOk result (IsAtEnd (R.remaining input.new)) }
    ensures refused { IfErr result IsOfReader }
{
    let mut bytes = Vec::new(alloc);
    match input.read_to_end(&mut bytes) {
        Ok(_) => Ok(bytes),
        Err(cause) => Err(Refusal::unread(cause)),
    }
}
