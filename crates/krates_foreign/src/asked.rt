//! The setting that words give.

ghost use Rattle.std.specs.Prelude.{◌≡◌, IfErr, IfOk, map, string_bytes};
ghost use Rattle.std.specs.Str.Lines.{lines};
ghost use Rattle.krates_cli.specs.Options.{options_view};
ghost use Rattle.krates_foreign.specs.Asked.{AsksFor, IsAloneRefused, IsUnasked, AskAlone};

use crate::refusal::CallRefusal;
use krates_cli::{Options, OptionsError, laws, options_of};
use std::alloc::{AllocError, Global};
use std::str;

/// The options that the words are, one word per line: those of `krates-list` that concern the setting. It is refused as `Words` where
/// they aren't UTF-8, aren't options, or set a program or a crate to be explained, and only there. It may instead
/// return `Memory`.
pub(crate) fn options_in(alloc: Global, words: &[u8]) -> Result<Options, CallRefusal>
    ensures asked { IfOk result (λ options. AsksFor words.now (options_view options)) }
    ensures refused { IfErr result (IsUnasked words.now) }
{
    laws::one_command_line();
    let Ok(text) = str::from_utf8(words) else {
        return Err(CallRefusal::Words);
    };
    let words = words_in(alloc, text)?;
    match options_of(alloc, &words) {
        Ok(options) => alone(options),
        Err(OptionsError::Unknown) => Err(CallRefusal::Words),
        Err(OptionsError::Memory) => Err(CallRefusal::Memory),
    }
}

/// The lines of a text.
fn words_in(alloc: Global, text: &str) -> Result<Vec<String>, AllocError>
    ensures { IfOk result (λ words. map string_bytes words.items ≡ lines text.now) }
{
    let mut words = Vec::new(alloc);
    for line in text.lines() {
        words.push(String::from_str(alloc, line)?)?;
    }
    Ok(words)
}

/// The options, where they give only a setting.
fn alone(options: Options) -> Result<Options, CallRefusal>
    ensures same { IfOk result (λ same. (same ≡ options) × AskAlone (options_view options)) }
    ensures refused { IfErr result (IsAloneRefused (options_view options)) }
{
    if options.cargo.is_some() || options.why.is_some() {
        return Err(CallRefusal::Words);
    }
    Ok(options)
}
