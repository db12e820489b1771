//! `cargo krates WORD [OPTIONS]`: answers a question about the crates that a workspace needs. `cargo krates --help` lists the words.
//!
//! The status is 0 where the answer is printed, 1 where it is no, 2 where the words are wrong, and 3 where there is no answer.
#![tactic(auto)]

mod failure;

use crate::failure::AnswerFailure;
use krates::cm::TargetKind;
use krates::{Metadata, Package};
use krates_build_report::BuildReporter;
use krates_host::build::{AskedBuild, build_setting};
use krates_host::program::{refuse_asked, refuse_words, words_of};
use krates_host::status::NO_ANSWER;
use krates_host::{Inputs, Shell, configuration, document, targets};
use krates_report::{Report, Reporter};
use krates_shown::ShownValue;
use krates_words::{Asked, BuildWords, Choice, Rules, Word, asked_of};
use std::process::ExitCode;

/// The answer to the question. What is looked up for it is put into the question.
fn answer_of(shell: Shell<'_>, asked: &mut Asked) -> Result<Report, AnswerFailure> {
    let inputs = Inputs {
        shell,
        max_bytes: asked.max_bytes,
    };
    prepare(&inputs, &mut asked.rules)?;
    of_documents(&inputs, asked)
}

/// The answer about the documents that the question names.
fn of_documents(inputs: &Inputs<'_>, asked: &Asked) -> Result<Report, AnswerFailure> {
    let old = document::old(inputs, &asked.word)?;
    match document::document(inputs, asked) {
        Ok(document) => answer_about(inputs, asked, document, old),
        Err(failure) => {
            drop(old);
            Err(AnswerFailure::Host(failure))
        }
    }
}

/// The answer about a document, and about the one of before where two are compared.
fn answer_about(
    inputs: &Inputs<'_>,
    asked: &Asked,
    document: Metadata,
    old: Option<Metadata>,
) -> Result<Report, AnswerFailure> {
    match &asked.rules {
        Rules::Krates(choice) => {
            note_krates(&inputs.shell, choice, &document.packages);
            let reporter = Reporter::new(inputs.alloc(), asked, choice);
            Ok(reporter.answer(document, old)?)
        }
        Rules::Build(words) => {
            let answer = by_build(inputs, asked, words, (&document, old.as_ref()));
            document.let_go();
            drop(old);
            answer
        }
    }
}

/// Looks up what the words don't describe, and says what isn't looked at.
fn prepare(inputs: &Inputs<'_>, rules: &mut Rules) -> Result<(), AnswerFailure> {
    match rules {
        Rules::Krates(choice) => {
            choice.targets = targets::targets_of(inputs, choice)?;
        }
        Rules::Build(_) => configuration::note_files(inputs)?,
    }
    Ok(())
}

/// The answer by the rules of a build, about a document, and about the one of before where two are compared.
fn by_build(
    inputs: &Inputs<'_>,
    asked: &Asked,
    words: &BuildWords,
    documents: (&Metadata, Option<&Metadata>),
) -> Result<Report, AnswerFailure> {
    let build = build_setting(inputs, words, documents.0)?;
    build.note(&inputs.shell)?;
    match &asked.word {
        Word::Uses | Word::Sbom { .. } | Word::Diff { .. } => {
            by_two(inputs, asked, words, documents, &build)
        }
        _ => {
            let reporter = BuildReporter::new(
                inputs.alloc(),
                asked,
                &build.setting,
                &build.setting,
                &build.cfgs,
            );
            Ok(reporter.answer(documents.0)?)
        }
    }
}

/// The answer by this build and a second one: of the document of before where there is one, or of the same with all targets.
fn by_two(
    inputs: &Inputs<'_>,
    asked: &Asked,
    words: &BuildWords,
    documents: (&Metadata, Option<&Metadata>),
    build: &AskedBuild,
) -> Result<Report, AnswerFailure> {
    let (document, old) = documents;
    let mut second = build_setting(inputs, words, old.unwrap_or(document))?;
    build.note_old(&inputs.shell, &second);
    second.setting.kinds.all = second.setting.kinds.all || old.is_none();
    let reporter = BuildReporter::new(
        inputs.alloc(),
        asked,
        &build.setting,
        &second.setting,
        &build.cfgs,
    );
    match old {
        Some(old) => Ok(reporter.difference(old, document)?),
        None => Ok(reporter.answer(document)?),
    }
}

/// Says by which rules the answer is, and what these leave out or don't.
fn note_krates(shell: &Shell<'_>, choice: &Choice, packages: &[Package]) {
    shell.note_krates();
    note_host(shell, choice, packages);
    note_exclusions(shell, choice, packages);
}

/// Says what targets alone leave out, if there is something that runs on the host.
fn note_host(shell: &Shell<'_>, choice: &Choice, packages: &[Package]) {
    if !choice.triples.is_empty() && packages.iter().any(runs_on_host) {
        shell.note(
            "build scripts and proc-macros run on the host: a --target for it adds all that passes there, --by build what they need",
        );
    }
}

/// Whether a package has a build script, or is a procedural macro.
fn runs_on_host(package: &Package) -> bool {
    package.targets.iter().any(|target| {
        target.kind.contains(&TargetKind::CustomBuild)
            || target.kind.contains(&TargetKind::ProcMacro)
    })
}

/// Says which exclusions leave nothing out.
fn note_exclusions(shell: &Shell<'_>, choice: &Choice, packages: &[Package]) {
    for spec in &choice.exclusions {
        if !packages.iter().any(|pkg| spec.matches(pkg)) {
            let spec = ShownValue(spec);
            shell.note(format_args!("--exclude {spec} fits no package"));
        }
    }
}

/// Prints the answer to the question, or says why there is none.
fn print_answer(rt: &HostRuntime, asked: &mut Asked) -> ExitCode {
    let shell = Shell {
        rt,
        words: asked.shell,
    };
    match answer_of(shell, asked) {
        Ok(answer) => shell.print(answer.text.as_str(), answer.is_yes),
        Err(failure) => {
            shell.error(failure);
            ExitCode::from(NO_ANSWER)
        }
    }
}

/// Does what the words say.
fn run(rt: &HostRuntime, words: &[String]) -> ExitCode {
    match asked_of(rt.alloc(), words) {
        Ok(mut asked) => print_answer(rt, &mut asked),
        Err(error) => refuse_asked(rt, &error),
    }
}

/// Does what the words say.
fn main(rt: HostRuntime) -> ExitCode {
    match words_of(&rt) {
        Ok(words) => run(&rt, &words),
        Err(cause) => refuse_words(&rt, &cause),
    }
}
