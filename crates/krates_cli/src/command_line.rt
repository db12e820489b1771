//! All that the program does, over any reader and writers: words, run, refusal and status.

ghost use Rattle.std.specs.Prelude.{◌≡◌, ◌≢◌, ◌≤◌, ◌⊎◌, IfErr, IfOk, IfSome, IsSome, OnOk, map, string_bytes};
ghost use Rattle.std.specs.IoError.{error_kind};
ghost use Rattle.krates_cm.specs.Document.{Text};
ghost use Rattle.krates_cli.specs.CommandLine.{AskForProgram, Asking, IsCause, IsTold, LeavesEnds, LinesRefusal, TellsCause, WritesFront, WritesLines, no_memory_line, refusal_line, usage_line};
ghost use Rattle.krates_cli.specs.Counted.{inner_of};
ghost use Rattle.krates_cli.specs.Options.{IsUnknown, asked_program, meant_request, request_of};
ghost use Rattle.krates_cli.specs.RunError.{run_error_text};
ghost use Rattle.krates_cli.specs.declared.options.OptionsError.TheVariants as options_errors;
ghost use Rattle.krates_cli.specs.declared.run_error.RunError.{RunError};
ghost use Rattle.krates_cli.specs.declared.run_error.RunError.TheVariants as causes;

use crate::counted::Counted;
use crate::laws;
use crate::listing::{run, run_by_cargo};
use crate::options::{Options, OptionsError, options_of};
use crate::run_error::RunError;
use std::alloc::{AllocError, AllocGlobal, Global};
use std::fmt::Display;
use std::io;
use std::io::{ErrorKind, Read, Write};
use std::process::Processes;

static USAGE_LINE: &str =
    "usage: krates-list [--workspace] [--ignore-kind KIND] [--target TRIPLE] [--exclude SPEC] [--cargo PROGRAM] [--why ID] [--all-named]\n";

static NO_MEMORY_LINE: &str = "refused: out of memory\n";

const DONE: u8 = 0;

const REFUSED: u8 = 1;

const UNKNOWN_WORD: u8 = 2;

/// Does all that `main` does, with the words after the program's name, and returns the exit status: 0 where the run succeeds and
/// the lines were written; 1 where it is refused, with what is printed of the cause in a line on `errors`; 2 where the words
/// aren't options, with the usage line on `errors`. Where memory runs out for the line of a cause, it says that instead.
///
/// All words are read before any input; where memory runs out while they are, the status is 1 and nothing was read. Where the words
/// set a program, `host` runs it as cargo, its document is listed, and no input is read.
///
/// `laws::listed_or_refused` says that a cause is the text's only where there is no listing. Time: that of `run`.
pub fn program<R: Read, W: Write, E: Write>(
    words: &[String],
    input: &mut Counted<R>,
    output: &mut Counted<W>,
    errors: &mut Counted<E>,
    host: &(impl Processes + AllocGlobal),
) -> u8
    ensures status { result ≤ 2 }
    ensures known_words { result ≡ 2 → IsUnknown (map string_bytes words.now)
        × IsTold E.contents errors.old errors.new usage_line }
    ensures unknown_word { IsUnknown (map string_bytes words.now) → (result ≡ 2)
        ⊎ ((result ≡ 1) × IsTold E.contents errors.old errors.new no_memory_line × (input.new ≡ input.old) × (output.new ≡ output.old)) }
    ensures unread { result ≡ 2 → (input.new ≡ input.old) × (output.new ≡ output.old) }
    ensures by_program { AskForProgram (map string_bytes words.now) → input.new ≡ input.old }
    ensures listed { result ≡ 0 → Asking (map string_bytes words.now)
        (λ o. WritesLines o.cargo (request_of o) (R.remaining (inner_of input.old))
        (W.contents (inner_of output.old)) (W.contents (inner_of output.new))) }
    ensures silent { result ≡ 0 → errors.new ≡ errors.old }
    ensures refused { result ≡ 1 → (cause : RunError)
        × IsCause (map string_bytes words.now) (R.remaining (inner_of input.old)) cause
        × LeavesEnds input.old input.new output.old output.new cause
        × TellsCause E.contents errors.old errors.new (run_error_text cause) }
    ensures beginning { result ≡ 1 → (output.new ≡ output.old) ⊎ Asking (map string_bytes words.now)
        (λ o. WritesFront o.cargo (request_of o) (R.remaining (inner_of input.old))
        (W.contents (inner_of output.old)) (W.contents (inner_of output.new))) }
{
    laws::one_command_line();
    let options = match options_of(host.alloc(), words) {
        Ok(options) => options,
        Err(error) => return refuse_options(&error, errors),
    };
    match list(&options, input, output, host) {
        Ok(()) => DONE,
        Err(error) => {
            refuse(host.alloc(), &error, errors);
            REFUSED
        }
    }
}

/// Writes the lines that are requested: of the document that is read, or of the one that the program writes, where one is set.
fn list<R: Read, W: Write>(
    options: &Options,
    input: &mut Counted<R>,
    output: &mut Counted<W>,
    host: &(impl Processes + AllocGlobal),
) -> Result<(), RunError>
    ensures written { OnOk result (WritesLines (asked_program options.now) (meant_request options.now)
        (R.remaining (inner_of input.old))
        (W.contents (inner_of output.old)) (W.contents (inner_of output.new))) }
    ensures refused { IfErr result
        (LinesRefusal (asked_program options.now) (meant_request options.now) (R.remaining (inner_of input.old))) }
    ensures ends { IfErr result (LeavesEnds input.old input.new output.old output.new) }
    ensures beginning { result ≡ Err causes.Write
        → WritesFront (asked_program options.now) (meant_request options.now)
        (R.remaining (inner_of input.old))
        (W.contents (inner_of output.old)) (W.contents (inner_of output.new)) }
    ensures by_program { IsSome (asked_program options.now) → input.new ≡ input.old }
{
    match &options.cargo {
        Some(cargo) => run_by_cargo(host.alloc(), options, cargo.as_str(), host, output),
        None => run(host.alloc(), options, input, output),
    }
}

/// Returns the exit status where the words aren't read: 2 and the usage line, or 1 and the line that memory ran out.
fn refuse_options<E: Write>(error: &OptionsError, errors: &mut Counted<E>) -> u8
    ensures unknown { error.now ≡ options_errors.Unknown → (result ≡ 2)
        × IsTold E.contents errors.old errors.new usage_line }
    ensures no_memory { error.now ≡ options_errors.Memory → (result ≡ 1)
        × IsTold E.contents errors.old errors.new no_memory_line }
{
    match error {
        OptionsError::Unknown => {
            tell(errors, USAGE_LINE);
            UNKNOWN_WORD
        }
        OptionsError::Memory => {
            tell(errors, NO_MEMORY_LINE);
            REFUSED
        }
    }
}

/// Returns the exit status where the arguments couldn't be read: 2 and the usage line where one isn't a text, which is a word that
/// isn't known; else 1 and the line that memory ran out. Time O(1), and one write.
pub fn refuse_words<E: Write>(error: &io::Error, errors: &mut Counted<E>) -> u8
    ensures unknown_word { error_kind error.now ≡ ErrorKind.InvalidData → (result ≡ 2)
        × IsTold E.contents errors.old errors.new usage_line }
    ensures no_memory { error_kind error.now ≢ ErrorKind.InvalidData → (result ≡ 1)
        × IsTold E.contents errors.old errors.new no_memory_line }
{
    if error.kind() == ErrorKind::InvalidData {
        tell(errors, USAGE_LINE);
        return UNKNOWN_WORD;
    }
    tell(errors, NO_MEMORY_LINE);
    REFUSED
}

/// Writes what is printed of the cause in a line; where there is no memory for that line, it says so instead.
fn refuse<C: Display, E: Write>(alloc: Global, cause: &C, errors: &mut Counted<E>)
    ensures { TellsCause E.contents errors.old errors.new (C.output cause.now) }
{
    match line_of(alloc, cause) {
        Ok(line) => tell(errors, line.as_str()),
        Err(_) => tell(errors, NO_MEMORY_LINE),
    }
}

/// `refused: `, what is printed of the cause, and a newline.
fn line_of<C: Display>(alloc: Global, cause: &C) -> Result<String, AllocError>
    ensures { IfOk result (λ line. (text : Text) × IfSome (C.output cause.now) (λ stated. text ≡ stated)
        × (string_bytes line ≡ refusal_line text)) }
{
    let text = cause.to_string(alloc)?;
    let mut line = String::from_str(alloc, "refused: ")?;
    line.push_str(text.as_str())?;
    line.push_str("\n")?;
    Ok(line)
}

/// Writes the text. Where that fails there is nowhere to say so.
fn tell<E: Write>(errors: &mut Counted<E>, text: &str)
    ensures { IsTold E.contents errors.old errors.new text.now }
{
    let _ = errors.write_all(text.as_bytes());
}
