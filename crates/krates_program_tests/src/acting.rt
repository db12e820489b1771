//! What this program does in the place of others: as cargo and as rustc, which the programs run, and as whoever asks for an answer, who has
//! variables, streams and a folder of its own. The words that follow the name of the test choose it.

use krates::Metadata;
use krates_host::build::build_setting;
use krates_host::program::words_of;
use krates_host::status::{NO, NO_ANSWER};
use krates_host::{Failure, Inputs, Shell, document, targets};
use krates_report::Reporter;
use krates_samples::stand_in::DOCUMENT;
use krates_words::{Asked, CheckWords, Rules, asked_of, check_words_of};
use std::io::Write;
use std::process::ExitCode;
use std::test::Fail;
use std::{fs, io};

/// Files by which a folder names programs for whoever runs cargo in it (Cargo Book, "Configuration"; rustup book, "Overrides").
static NAMING: [&str; 2] = [".cargo/config.toml", "rust-toolchain.toml"];

/// Where the substitute for cargo notes that cargo would start such a program.
pub(crate) static NOTE: &str = "started";

/// In which manner a substitute is ended by a signal, and what it writes to standard error before.
static KILLED: [(&str, &[u8]); 4] = [
    ("killed", b""),
    ("crash", b"error: no manifest\n"),
    ("hostile", b"error: no \x1b[2Kmanifest\nerror: no cargo\r\n"),
    ("garbled", b"error: no \xffmanifest\n"),
];

/// How this program ends where it doesn't fail.
#[derive(Clone, Copy)]
pub(crate) enum Ending {
    /// As a test that passes.
    Success,
    /// By a signal.
    Killed,
}

/// Acts as the words say that follow the name of the test. Without words there is nothing to do.
pub(crate) fn act(rt: &HostRuntime) -> Result<Ending, Fail> {
    let words = words_of(rt)?;
    match words.get(1..) {
        Some(words) => act_by(rt, words),
        None => Ok(Ending::Success),
    }
}

/// Acts as these words say: as one of the programs that answer, or else as cargo or rustc.
fn act_by(rt: &HostRuntime, words: &[String]) -> Result<Ending, Fail> {
    let Some((first, rest)) = words.split_first() else {
        return Ok(Ending::Success);
    };
    match first.as_str() {
        "krates" => answer(rt, rest)?,
        "krates_check" => check(rt, rest)?,
        _ => return stand_in(rt, manner_of(first, rest)),
    }
    Ok(Ending::Success)
}

/// The manner in which a substitute acts: the name of the file that is run as rustc, which comes first, or the last word for cargo.
fn manner_of<'w>(first: &'w String, rest: &'w [String]) -> &'w str {
    match (first.strip_prefix("./"), rest.last()) {
        (Some(name), _) => name,
        (None, Some(last)) => last.as_str(),
        (None, None) => "",
    }
}

/// Acts as cargo or rustc. First it notes whether the folder that it is run in names programs.
fn stand_in(rt: &HostRuntime, manner: &str) -> Result<Ending, Fail> {
    note_programs(rt)?;
    for &(name, errors) in &KILLED {
        if name == manner {
            rt.stderr().write_all(errors)?;
            return Ok(Ending::Killed);
        }
    }
    write_document(rt, manner)?;
    Ok(Ending::Success)
}

/// Notes whether the folder that this program is run in names programs.
fn note_programs(rt: &HostRuntime) -> io::Result<()> {
    for file in &NAMING {
        if fs::exists(rt, *file)? {
            fs::write(rt, NOTE, *file)?;
        }
    }
    Ok(())
}

/// Writes the document, soon, after much else or never; or nothing, or it fails. Before the document stands a host, as rustc writes it.
fn write_document(rt: &HostRuntime, manner: &str) -> Result<(), Fail> {
    match manner {
        "silent" => return Ok(()),
        "refuse" => return Err(Fail::new("error: no manifest")),
        "endless" => write_lines(rt, u64::MAX)?,
        "loud" => write_lines(rt, 4000)?,
        _ => {}
    }
    Ok(println!(rt; "a warning\nhost: odd\n{DOCUMENT}")?)
}

/// Writes this many lines to each stream.
fn write_lines(rt: &HostRuntime, count: u64) -> io::Result<()> {
    for _ in 0..count {
        println!(rt; "a line of what goes to standard output")?;
        eprintln!(rt; "a line of what goes to standard error")?;
    }
    Ok(())
}

/// Prints an answer as the programs do, and then to standard error with which status they end.
fn print_answer(shell: &Shell<'_>, text: &str, is_yes: bool) -> io::Result<()> {
    let status = shell.print(text, is_yes);
    eprint!(shell.rt; "status {}", number_of(status))
}

/// The number of the status of an answer.
fn number_of(status: ExitCode) -> u8 {
    if status == ExitCode::SUCCESS {
        0
    } else if status == ExitCode::from(NO) {
        NO
    } else {
        NO_ANSWER
    }
}

/// Acts as `cargo krates` with these words.
fn answer(rt: &HostRuntime, words: &[String]) -> Result<(), Fail> {
    let mut asked = asked_of(rt.alloc(), words)?;
    let shell = Shell {
        rt,
        words: asked.shell,
    };
    let answered = answer_to(shell, &mut asked);
    drop(asked);
    answered
}

/// Prints what is answered, or says why nothing is.
fn answer_to(shell: Shell<'_>, asked: &mut Asked) -> Result<(), Fail> {
    match document_for(shell, asked) {
        Ok(document) => report(&shell, asked, document),
        Err(failure) => {
            shell.error(failure);
            Ok(())
        }
    }
}

/// The document that is asked about, of which the targets are known too.
fn document_for(shell: Shell<'_>, asked: &mut Asked) -> Result<Metadata, Failure> {
    let inputs = Inputs {
        shell,
        max_bytes: asked.max_bytes,
    };
    if let Rules::Krates(choice) = &mut asked.rules {
        choice.targets = targets::targets_of(&inputs, choice)?;
    }
    let document = document::document(&inputs, asked)?;
    match described(&inputs, &asked.rules, &document) {
        Ok(()) => Ok(document),
        Err(failure) => {
            document.let_go();
            Err(failure)
        }
    }
}

/// Looks up what a build is asked for, if the answer is about one, and says it.
fn described(inputs: &Inputs<'_>, rules: &Rules, document: &Metadata) -> Result<(), Failure> {
    if let Rules::Build(words) = rules {
        build_setting(inputs, words, document)?.note(&inputs.shell)?;
    }
    Ok(())
}

/// Prints what is answered about a document.
fn report(shell: &Shell<'_>, asked: &Asked, document: Metadata) -> Result<(), Fail> {
    let choice = match &asked.rules {
        Rules::Krates(choice) => choice,
        Rules::Build(_) => {
            document.let_go();
            return Ok(print_answer(shell, "described\n", true)?);
        }
    };
    let report = Reporter::new(shell.rt.alloc(), asked, choice).answer(document, None)?;
    Ok(print_answer(shell, report.text.as_str(), report.is_yes)?)
}

/// Acts as `krates_check` with these words, but only reads.
fn check(rt: &HostRuntime, words: &[String]) -> Result<(), Fail> {
    let asked = check_words_of(rt.alloc(), words)?;
    let shell = Shell::new(rt);
    let is_read = read(shell, &asked);
    drop(asked);
    match is_read {
        Ok(()) => Ok(print_answer(&shell, "read\n", true)?),
        Err(failure) => {
            shell.error(failure);
            Ok(())
        }
    }
}

/// Reads a certificate and a document.
fn read(shell: Shell<'_>, asked: &CheckWords) -> Result<(), Failure> {
    let inputs = Inputs {
        shell,
        max_bytes: asked.max_bytes,
    };
    drop(inputs.bytes_in_standard_input("a certificate")?);
    document::in_file(&inputs, asked.document.as_str())?.let_go();
    Ok(())
}
