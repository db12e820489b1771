//! Lists of words, made a part at a time.

ghost use Rattle.std.specs.Prelude.{◌≡◌, ◌++◌, ◌∷◌, [], IfOk, OnOk, map, string_bytes, codes};
ghost use Rattle.std.specs.Option.{option_map};
ghost use Rattle.krates_cm.specs.Document.{text_view, texts_view};
ghost use Rattle.krates_cargo.specs.Command.{Adds, flag, joined, listed, valued};

use std::alloc::{AllocError, Global};

/// Adds a word.
pub(crate) fn push_word(
    alloc: Global,
    words: &mut Vec<String>,
    word: &str,
) -> Result<(), AllocError>
    ensures { OnOk result (Adds words.old words.new (word.now ∷ [])) }
{
    words.push(String::from_str(alloc, word)?)?;
    Ok(())
}

/// Adds a word where the flag is set.
pub(crate) fn push_flag(
    alloc: Global,
    words: &mut Vec<String>,
    is_set: bool,
    word: &str,
) -> Result<(), AllocError>
    ensures { OnOk result (Adds words.old words.new (flag is_set word.now)) }
{
    if is_set {
        push_word(alloc, words, word)?;
    }
    Ok(())
}

/// Adds an option and its value, where there is one.
pub(crate) fn push_valued(
    alloc: Global,
    words: &mut Vec<String>,
    option: &str,
    value: &Option<String>,
) -> Result<(), AllocError>
    ensures { OnOk result (Adds words.old words.new (valued option.now (option_map text_view value.now))) }
{
    if let Some(value) = value {
        push_word(alloc, words, option)?;
        push_word(alloc, words, value.as_str())?;
    }
    Ok(())
}

/// Adds an option and names as one word, with the separator between each two of them, where there is a name.
pub(crate) fn push_listed(
    alloc: Global,
    words: &mut Vec<String>,
    option: &str,
    separator: &str,
    names: &[String],
) -> Result<(), AllocError>
    ensures { OnOk result (Adds words.old words.new (listed option.now separator.now (map text_view names.now))) }
{
    if !names.is_empty() {
        push_word(alloc, words, option)?;
        words.push(joined(alloc, names, separator)?)?;
    }
    Ok(())
}

/// Adds copies of all words.
pub(crate) fn push_all(
    alloc: Global,
    words: &mut Vec<String>,
    others: &[String],
) -> Result<(), AllocError>
    ensures { OnOk result (Adds words.old words.new (map text_view others.now)) }
{
    for word in others {
        push_word(alloc, words, word.as_str())?;
    }
    Ok(())
}

/// The names as one text, with the separator between each two.
fn joined(alloc: Global, names: &[String], separator: &str) -> Result<String, AllocError>
    ensures { IfOk result (λ text. text_view text ≡ joined separator.now (map text_view names.now)) }
{
    let Some((first, rest)) = names.split_first() else {
        return Ok(String::new(alloc));
    };
    let mut text = String::from_str(alloc, first.as_str())?;
    for name in rest {
        text.push_str(separator)?;
        text.push_str(name.as_str())?;
    }
    Ok(text)
}
