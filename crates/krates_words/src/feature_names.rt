//! The names of features in what `--features` takes.

ghost use Rattle.std.specs.Prelude.{◌≡◌, ◌++◌, IfOk, OnOk, map, string_bytes};
ghost use Rattle.krates_words.specs.FeatureNames.{names_in, names_of, word_in, words_in};

use std::alloc::{AllocError, Global};

/// The names between commas and spaces in these texts, in order.
pub(crate) fn feature_names(alloc: Global, texts: &[String]) -> Result<Vec<String>, AllocError>
    ensures { IfOk result (λ names. map string_bytes names.items ≡ names_of (map string_bytes texts.now)) }
{
    let mut names = Vec::new(alloc);
    for text in texts {
        push_names(&mut names, text.as_str())?;
    }
    Ok(names)
}

/// Adds the names between the commas and spaces of a text.
fn push_names(names: &mut Vec<String>, text: &str) -> Result<(), AllocError>
    ensures { OnOk result (map string_bytes names.new.items
        ≡ map string_bytes names.old.items ++ names_in text.now) }
{
    for part in text.split(',') {
        push_words(names, part)?;
    }
    Ok(())
}

/// Adds the words between the spaces of a text.
fn push_words(names: &mut Vec<String>, text: &str) -> Result<(), AllocError>
    ensures { OnOk result (map string_bytes names.new.items
        ≡ map string_bytes names.old.items ++ words_in text.now) }
{
    for word in text.split(' ') {
        push_word(names, word)?;
    }
    Ok(())
}

/// Adds a word, unless it is empty.
fn push_word(names: &mut Vec<String>, word: &str) -> Result<(), AllocError>
    ensures { OnOk result (map string_bytes names.new.items
        ≡ map string_bytes names.old.items ++ word_in word.now) }
{
    if !word.is_empty() {
        names.push(String::from_str(*names.allocator(), word)?)?;
    }
    Ok(())
}
