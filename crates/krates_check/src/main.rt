//! `krates_check --metadata FILE [OPTIONS]`: checks the certificate in standard input against a document, without the search that found
//! what it says and without a graph. It is one of what cargo builds, or with `--by krates` of the graph of the Rust crate krates.
//! `krates_check --help` lists the options.
//!
//! The status is 0 where the certificate holds, which is printed with what it says; 1 where it is refused; 2 where the words are wrong; and 3
//! where there is no answer, since the document, a machine, a stream or memory is at fault.
#![tactic(auto)]

mod failure;
mod kinds;

use crate::failure::CheckFailure;
use crate::kinds::{is_by_build, is_by_krates};
use krates_build_verdict::judge_bytes;
use krates_cm::Metadata;
use krates_host::build::build_setting;
use krates_host::program::{refuse_asked, refuse_words, words_of};
use krates_host::{Inputs, Shell, document, targets};
use krates_verdict::run_under;
use krates_words::{BuildWords, CheckWords, Choice, Rules, check_words_of};
use std::process::ExitCode;

/// Checks the certificate in standard input, and prints what it says where it holds; returns the status.
fn check(shell: Shell<'_>, asked: CheckWords) -> Result<ExitCode, CheckFailure> {
    let inputs = Inputs {
        shell,
        max_bytes: asked.max_bytes,
    };
    let CheckWords {
        document,
        rules,
        ..
    } = asked;
    match rules {
        Rules::Krates(choice) => by_krates(&inputs, choice, document.as_str()),
        Rules::Build(words) => by_build(&inputs, &words, document.as_str()),
    }
}

/// Checks a certificate about the graph of krates against the document in a file.
fn by_krates(
    inputs: &Inputs<'_>,
    mut choice: Choice,
    file: &str,
) -> Result<ExitCode, CheckFailure> {
    choice.targets = targets::targets_of(inputs, &choice)?;
    let certificate = inputs.bytes_in_standard_input("a certificate")?;
    let metadata = document::in_file(inputs, file)?;
    inputs.shell.note_krates();
    let told = run_under(
        inputs.alloc(),
        &choice,
        &metadata,
        &mut certificate.as_slice(),
        &mut inputs.shell.rt.stdout(),
    );
    metadata.let_go();
    match told {
        Ok(()) => Ok(ExitCode::SUCCESS),
        Err(_) if is_by_build(inputs.alloc(), &certificate) => Err(CheckFailure::OfBuild),
        Err(refusal) => Err(CheckFailure::Refused(refusal)),
    }
}

/// Checks a certificate about a build against the document in a file.
fn by_build(inputs: &Inputs<'_>, words: &BuildWords, file: &str) -> Result<ExitCode, CheckFailure> {
    let certificate = inputs.bytes_in_standard_input("a certificate")?;
    let metadata = document::in_file(inputs, file)?;
    let told = judged(inputs, words, &metadata, &certificate);
    metadata.let_go();
    match told {
        Ok(line) => Ok(inputs.shell.print(line.as_str(), true)),
        Err(_) if is_by_krates(inputs.alloc(), &certificate) => Err(CheckFailure::OfKrates),
        Err(failure) => Err(failure),
    }
}

/// The line of the verdict about a build of a document.
fn judged(
    inputs: &Inputs<'_>,
    words: &BuildWords,
    metadata: &Metadata,
    certificate: &[u8],
) -> Result<String, CheckFailure> {
    let build = build_setting(inputs, words, metadata)?;
    build.note(&inputs.shell)?;
    Ok(judge_bytes(inputs.alloc(), metadata, &build.setting, certificate)?)
}

/// Does what the words say.
fn answer(rt: &HostRuntime, words: &[String]) -> ExitCode {
    let asked = match check_words_of(rt.alloc(), words) {
        Ok(asked) => asked,
        Err(error) => return refuse_asked(rt, &error),
    };
    let shell = Shell {
        rt,
        words: asked.shell,
    };
    match check(shell, asked) {
        Ok(status) => status,
        Err(failure) => {
            let status = failure.status();
            shell.error(failure);
            ExitCode::from(status)
        }
    }
}

/// Does what the words say.
fn main(rt: HostRuntime) -> ExitCode {
    match words_of(&rt) {
        Ok(words) => answer(&rt, &words),
        Err(cause) => refuse_words(&rt, &cause),
    }
}
