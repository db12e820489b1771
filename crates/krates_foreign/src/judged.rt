//! A certificate judged under the setting that options give.

ghost use Rattle.std.specs.Prelude.{◌≡◌, IfErr, IfOk, string_bytes};
ghost use Rattle.krates_cli.specs.Options.{options_view};
ghost use Rattle.krates_foreign.specs.Asked.{IsChoiceOf, stated_of};
ghost use Rattle.krates_foreign.specs.Calls.{JudgedRefusal, Upholds, subject_of};

use crate::refusal::CallRefusal;
use krates::Metadata;
use krates_cli::{Options, targets_of};
use krates_verdict::CertificateSubject;
use krates_words::{Choice, StatedSetting};
use std::alloc::{AllocError, Global};

/// The line of the verdict on a certificate. It is refused as `Certificate` or `Memory`.
pub(crate) fn judged(
    alloc: Global,
    options: &Options,
    metadata: &Metadata,
    certificate: &[u8],
) -> Result<String, CallRefusal>
    ensures upholds { IfOk result
        (λ line. Upholds (subject_of metadata.now (options_view options.now)) certificate.now
        (string_bytes line)) }
    ensures refused { IfErr result
        (JudgedRefusal (subject_of metadata.now (options_view options.now)) certificate.now) }
{
    let stated = stated_for(alloc, options)?;
    let subject = CertificateSubject {
        metadata,
        stated: &stated,
    };
    let verdict = subject.judge_bytes(alloc, certificate)?;
    Ok(format!(in alloc; "{verdict}\n")?)
}

/// The setting of the options, with the words that mean it, as certificates have them.
fn stated_for(alloc: Global, options: &Options) -> Result<StatedSetting, AllocError>
    ensures { IfOk result (λ stated. stated ≡ stated_of (options_view options.now)) }
{
    let choice = choice_of(alloc, options)?;
    choice.stated(alloc)
}

/// What the options choose.
fn choice_of(alloc: Global, options: &Options) -> Result<Choice, AllocError>
    ensures { IfOk result (IsChoiceOf (options_view options.now)) }
{
    let ignored = options.ignored.clone()?;
    let exclusions = options.exclusions.clone()?;
    let targets = targets_of(alloc, &options.targets)?;
    Ok(Choice {
        workspace: options.workspace,
        all_named: options.all_named,
        ignored,
        exclusions,
        packages: Vec::new(alloc),
        triples: Vec::new(alloc),
        cfgs: Vec::new(alloc),
        targets,
    })
}
