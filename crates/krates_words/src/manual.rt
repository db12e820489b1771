//! The manual page of the words.

use crate::command::VERSION;
use crate::known::WORDS;
use crate::known_options::{FOR_ANSWERS, KnownOption, Takes};
use krates_text::text::Text;
use std::alloc::{AllocError, Global};

static HEAD: &str = r".SH NAME
cargo\-krates \- which crates cargo builds in a workspace, and why
.SH SYNOPSIS
.B cargo krates
.I WORD
.RI [ OPTIONS ]
.SH DESCRIPTION
Answers a question about the crates that a workspace needs, of a document that
.B cargo metadata
writes, or of one in a file. Without options it is about what
.B cargo build
would build here;
.B \-\-by krates
answers for the graph of the Rust crate krates. SPEC names a package as cargo's
.B \-p
does: serde, serde@1.0.152, or its id.
.SH WORDS
";

static END: &str = r".SH EXIT STATUS
.TP
.B 0
The answer is printed, or it is yes.
.TP
.B 1
The answer is no: the crate isn't unreachable, the documents differ where
.B \-\-exit\-code
asks for it, or there is no order.
.TP
.B 2
The words are wrong.
.TP
.B 3
There is no answer, as standard error says: no document, no cargo or rustc, or no memory.
.SH ENVIRONMENT
.TP
.B CARGO, RUSTC
The programs that are run in place of cargo and rustc.
.TP
.B RUSTFLAGS, CARGO_ENCODED_RUSTFLAGS
The flags under which rustc describes a machine.
.TP
.B NO_COLOR
Where it is set, there are no colours.
.TP
.B COLUMNS
How wide help is printed.
.SH SEE ALSO
.BR cargo (1),
.BR cargo\-tree (1),
.BR cargo\-metadata (1)
";

/// The manual page of the words, for man. The only error is running out of memory. Time O(length of the text).
pub(crate) fn manual(alloc: Global) -> Result<String, AllocError> {
    let mut page = Text::new(alloc);
    write!(
        page,
        ".TH CARGO\\-KRATES 1 \"\" \"cargo\\-krates {VERSION}\" \"User Commands\"\n"
    );
    page.push_str(HEAD);
    push_words(&mut page);
    page.push_str(".SH OPTIONS\n");
    push_groups(&mut page);
    page.push_str(END);
    page.whole()
}

/// Adds the words, each with its own options.
fn push_words(page: &mut Text) {
    for word in &WORDS {
        write!(page, ".SS {}\n", word.name);
        push_text(word.about, page);
        page.push_str(".\n");
        push_options(word.own, page);
    }
}

/// Adds the options of all words that answer, heading by heading.
fn push_groups(page: &mut Text) {
    for group in &FOR_ANSWERS {
        write!(page, ".SS {}\n", group.heading.unwrap_or("Options"));
        push_options(group.options, page);
    }
}

/// Adds options, each with what it does.
fn push_options(options: &[KnownOption], page: &mut Text) {
    for option in options {
        page.push_str(".TP\n.B ");
        push_name(option, page);
        page.push_str("\n");
        push_text(option.help, page);
        page.push_str(".\n");
    }
}

/// Adds the name of an option, with that of what it takes.
fn push_name(option: &KnownOption, page: &mut Text) {
    if option.is_argument() {
        push_text(option.name, page);
        return;
    }
    if let Some(short) = option.short {
        write!(page, "\\-{short}, ");
    }
    page.push_str("\\-\\-");
    push_text(option.name, page);
    if let Some(name) = value_name(option.takes) {
        write!(page, " {name}");
    }
}

/// What help calls the value of an option, if it takes one.
fn value_name(takes: Takes) -> Option<&'static str> {
    match takes {
        Takes::Nothing | Takes::Argument { .. } | Takes::ArgumentOf(_) => None,
        Takes::One(name) | Takes::Each(name) | Takes::OneOf(name, _) | Takes::Number(name) => {
            Some(name)
        }
        Takes::Rules => Some("RULES"),
        Takes::Edges => Some("KINDS"),
        Takes::Kind => Some("KIND"),
        Takes::Document | Takes::Certified => Some("FILE"),
    }
}

/// Adds a text in which nothing means something to man. Where help has the end of a line, there is a blank.
fn push_text(text: &str, page: &mut Text) {
    for (number, part) in text.split("{n}").enumerate() {
        if number > 0 {
            page.push_str(" ");
        }
        push_part(part, page);
    }
}

/// Adds a part of a text.
fn push_part(part: &str, page: &mut Text) {
    for character in part.chars() {
        match character {
            '-' => page.push_str("\\-"),
            '\\' => page.push_str("\\e"),
            _ => write!(page, "{character}"),
        }
    }
}
