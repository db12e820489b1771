//! What completes the words in a shell.

use crate::command::{EDGES, KINDS};
use crate::known::{KnownWord, WORDS};
use crate::known_options::{FOR_ANSWERS, KnownOption, Takes};
use crate::rules;
use krates_text::text::Text;
use std::alloc::{AllocError, Global};

static BASH: &str =
    r#"# What completes `cargo krates` in bash, as `cargo krates completions bash` prints it. Source it behind what completes cargo.
_cargo_krates() {
    local current=${COMP_WORDS[COMP_CWORD]} before=${COMP_WORDS[COMP_CWORD - 1]} word= known= place
    for ((place = 1; place < COMP_CWORD; place++)); do
        case ${COMP_WORDS[place]} in
        krates | -*) ;;
        *) word=${COMP_WORDS[place]} && break ;;
        esac
    done
"#;

static BASH_END: &str = r#"    mapfile -t COMPREPLY < <(compgen -W "$known" -- "$current")
    if [[ ${#COMPREPLY[@]} -eq 0 && -n $word ]]; then
        compopt -o filenames
        mapfile -t COMPREPLY < <(compgen -f -- "$current")
    fi
}
complete -F _cargo_krates cargo-krates

_cargo_or_krates() {
    if [[ $COMP_CWORD -gt 1 && ${COMP_WORDS[1]} == krates ]]; then
        _cargo_krates
    elif declare -F _cargo > /dev/null; then
        _cargo "$@"
    fi
}
complete -F _cargo_or_krates cargo
"#;

static ZSH: &str = r#"#compdef cargo-krates
# What completes `cargo krates` in zsh, as `cargo krates completions zsh` prints it. Save it as _cargo-krates in a folder of $fpath.
_cargo-krates() {
    local state
    local -a known all
    _arguments -C '1: :->word' '*:: :->options'
"#;

static ZSH_END: &str = r#"        esac
        ;;
    esac
}

_cargo-krates "$@"
"#;

static FISH: &str =
    r#"# What completes `cargo krates` in fish, as `cargo krates completions fish` prints it. Save it in ~/.config/fish/completions/cargo-krates.fish, and
# source it in config.fish for `cargo krates`.
function __cargo_krates_words
    set -l words (commandline -opc)
    set -l program (basename $words[1])
    set -e words[1]
    if test $program = cargo
        test "$words[1]" = krates; or return 1
        set -e words[1]
    end
    string match -v -- '-*' $words
    return 0
end

function __cargo_krates_needs_word
    set -l words (__cargo_krates_words); or return 1
    test (count $words) -eq 0
end

function __cargo_krates_has_word
    set -l words (__cargo_krates_words); or return 1
    contains -- "$words[1]" $argv
end

for program in cargo cargo-krates
"#;

/// What completes the words in this shell: bash, zsh or fish. The only error is running out of memory. Time O(length of the text).
pub(crate) fn completions(alloc: Global, shell: &str) -> Result<String, AllocError> {
    let mut script = Text::new(alloc);
    match shell {
        "zsh" => push_zsh(&mut script),
        "fish" => push_fish(&mut script),
        _ => push_bash(&mut script),
    }
    script.whole()
}

/// The values that an option can have, where they are known.
fn values(takes: Takes) -> &'static [&'static str] {
    match takes {
        Takes::OneOf(_, values) | Takes::ArgumentOf(values) => values,
        Takes::Rules => &rules::NAMES,
        Takes::Edges => &EDGES,
        Takes::Kind => &KINDS,
        _ => &[],
    }
}

/// Adds the names of the words.
fn push_names(script: &mut Text) {
    for word in &WORDS {
        write!(script, "{} ", word.name);
    }
}

/// Adds the options of these, each with a blank behind it.
fn push_options(options: &[KnownOption], script: &mut Text) {
    for option in options {
        if option.is_argument() {
            push_values(option, script);
        } else {
            write!(script, "--{} ", option.name);
        }
    }
}

/// Adds the values that an option can have, each with a blank behind it.
fn push_values(option: &KnownOption, script: &mut Text) {
    for value in values(option.takes) {
        write!(script, "{value} ");
    }
}

// ---- bash

/// Adds what completes the words in bash.
fn push_bash(script: &mut Text) {
    script.push_str(BASH);
    script.push_str("    case $word in\n    '') known=\"");
    push_names(script);
    script.push_str("help --help --version\" ;;\n");
    push_bash_words(script);
    script.push_str("    esac\n    case $before in\n");
    push_bash_own_values(script);
    push_bash_common_values(script);
    script.push_str("    esac\n");
    script.push_str(BASH_END);
}

/// Adds what can follow each word.
fn push_bash_words(script: &mut Text) {
    for word in &WORDS {
        push_bash_word(word, script);
    }
}

/// Adds what can follow the options that not all words take.
fn push_bash_own_values(script: &mut Text) {
    for word in &WORDS {
        push_bash_values(word.own, script);
    }
}

/// Adds what can follow the others.
fn push_bash_common_values(script: &mut Text) {
    for group in &FOR_ANSWERS {
        push_bash_values(group.options, script);
    }
}

/// Adds what can follow a word.
fn push_bash_word(word: &KnownWord, script: &mut Text) {
    write!(script, "    {}", word.name);
    if let Some(alias) = word.alias {
        write!(script, " | {alias}");
    }
    script.push_str(") known=\"");
    push_options(word.own, script);
    if word.is_answer {
        push_common_options(script);
    }
    script.push_str("--help\" ;;\n");
}

/// Adds the options of all words that answer.
fn push_common_options(script: &mut Text) {
    for group in &FOR_ANSWERS {
        push_options(group.options, script);
    }
}

/// Adds what can follow those of these options whose values are known.
fn push_bash_values(options: &[KnownOption], script: &mut Text) {
    for option in options {
        if !option.is_argument() && !values(option.takes).is_empty() {
            write!(script, "    --{}) known=\"", option.name);
            push_values(option, script);
            script.push_str("\" ;;\n");
        }
    }
}

// ---- zsh

/// Adds what completes the words in zsh.
fn push_zsh(script: &mut Text) {
    script.push_str(ZSH);
    script.push_str("    all=(\n");
    push_zsh_common_options(script);
    script.push_str("    )\n    case $state in\n    word)\n        known=(\n");
    push_zsh_names(script);
    script.push_str(
        "        )\n        _describe word known\n        ;;\n    options)\n        case $words[1] in\n",
    );
    push_zsh_words(script);
    script.push_str(ZSH_END);
}

/// Adds the options of all words that answer.
fn push_zsh_common_options(script: &mut Text) {
    for group in &FOR_ANSWERS {
        push_zsh_options(group.options, script);
    }
}

/// Adds the words, each with what it answers.
fn push_zsh_names(script: &mut Text) {
    for word in &WORDS {
        write!(script, "        '{}:", word.name);
        push_quoted(word.about, script);
        script.push_str("'\n");
    }
}

/// Adds what can follow each word.
fn push_zsh_words(script: &mut Text) {
    for word in &WORDS {
        push_zsh_word(word, script);
    }
}

/// Adds what can follow a word.
fn push_zsh_word(word: &KnownWord, script: &mut Text) {
    write!(script, "        {}", word.name);
    if let Some(alias) = word.alias {
        write!(script, " | {alias}");
    }
    script.push_str(")\n            known=(\n");
    push_zsh_options(word.own, script);
    script.push_str("            )\n            _arguments $known");
    if word.is_answer {
        script.push_str(" $all");
    }
    script.push_str("\n            ;;\n");
}

/// Adds options, each with what it does.
fn push_zsh_options(options: &[KnownOption], script: &mut Text) {
    for option in options {
        script.push_str("        '");
        push_zsh_option(option, script);
        script.push_str("'\n");
    }
}

/// Adds an option with what it does and takes.
fn push_zsh_option(option: &KnownOption, script: &mut Text) {
    if option.is_argument() {
        script.push_str(":");
        push_quoted(option.name, script);
    } else {
        write!(script, "*--{}[", option.name);
        push_quoted(option.help, script);
        script.push_str("]");
    }
    if option.is_argument() || option.takes_value() {
        push_zsh_values(option, script);
    }
}

/// Adds the values that an option can have, or files where they aren't known.
fn push_zsh_values(option: &KnownOption, script: &mut Text) {
    if !option.is_argument() {
        script.push_str(":value");
    }
    if values(option.takes).is_empty() {
        script.push_str(":_files");
    } else {
        script.push_str(":(");
        push_values(option, script);
        script.push_str(")");
    }
}

/// Adds a text that stands between single quotes, in which brackets and colons mean nothing.
fn push_quoted(text: &str, script: &mut Text) {
    for character in text.chars() {
        match character {
            '\'' => script.push_str(r"'\''"),
            '[' | ']' | ':' | '\\' => write!(script, "\\{character}"),
            '{' | '}' => {}
            _ => write!(script, "{character}"),
        }
    }
}

// ---- fish

/// Adds what completes the words in fish.
fn push_fish(script: &mut Text) {
    script.push_str(FISH);
    push_fish_names(script);
    push_fish_words(script);
    push_fish_common_options(script);
    script.push_str("end\n");
}

/// Adds the words, each with what it answers.
fn push_fish_names(script: &mut Text) {
    for word in &WORDS {
        write!(
            script,
            "    complete -c $program -n __cargo_krates_needs_word -f -a {} -d '",
            word.name
        );
        push_fish_text(word.about, script);
        script.push_str("'\n");
    }
}

/// Adds the options that not all words take.
fn push_fish_words(script: &mut Text) {
    for word in &WORDS {
        push_fish_options(Some(word), word.own, script);
    }
}

/// Adds those of all words that answer.
fn push_fish_common_options(script: &mut Text) {
    for group in &FOR_ANSWERS {
        push_fish_options(None, group.options, script);
    }
}

/// Adds options of this word, or of all that answer, each with what it does.
fn push_fish_options(word: Option<&KnownWord>, options: &[KnownOption], script: &mut Text) {
    for option in options {
        script.push_str("    complete -c $program -n '__cargo_krates_has_word ");
        match word {
            Some(word) => push_word(word, script),
            None => push_answers(script),
        }
        script.push_str("'");
        push_fish_option(option, script);
        script.push_str(" -d '");
        push_fish_text(option.help, script);
        script.push_str("'\n");
    }
}

/// Adds the names of a word, each with a blank behind it.
fn push_word(word: &KnownWord, script: &mut Text) {
    write!(script, "{} ", word.name);
    if let Some(alias) = word.alias {
        write!(script, "{alias} ");
    }
}

/// Adds the names of all words that answer, each with a blank behind it.
fn push_answers(script: &mut Text) {
    for word in &WORDS {
        if word.is_answer {
            push_word(word, script);
        }
    }
}

/// Adds an option with what it takes.
fn push_fish_option(option: &KnownOption, script: &mut Text) {
    if !option.is_argument() {
        write!(script, " -l {}", option.name);
        if let Some(short) = option.short {
            write!(script, " -s {short}");
        }
        if option.takes_value() {
            script.push_str(" -r");
        }
    }
    if !values(option.takes).is_empty() {
        script.push_str(" -f -a '");
        push_values(option, script);
        script.push_str("'");
    }
}

/// Adds a text that stands between single quotes.
fn push_fish_text(text: &str, script: &mut Text) {
    for character in text.chars() {
        match character {
            '\'' | '\\' => write!(script, "\\{character}"),
            '{' | '}' => {}
            _ => write!(script, "{character}"),
        }
    }
}
