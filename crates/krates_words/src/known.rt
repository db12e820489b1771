//! Which words are known, and what help says about them.

use crate::known_options::{
    ALL, CHARSET, DEPTH, DOT, EXIT_CODE, FORMAT, IDS, INVERT, JSON, KRATE, KnownOption,
    MAYBE_KRATE, MERMAID, NO_DEDUPE, OLD, PREFIX, PRUNE, SERIAL, SHELL, SIDE, SPEC_VERSION, STEPS,
    TIMESTAMP, UNITS,
};

/// A word.
#[derive(Clone, Copy)]
pub(crate) struct KnownWord {
    /// How it is written.
    pub(crate) name: &'static str,
    /// Another way to write it.
    pub(crate) alias: Option<&'static str>,
    /// What it answers.
    pub(crate) about: &'static str,
    /// What not all words take: what follows it, and options.
    pub(crate) own: &'static [KnownOption],
    /// Whether it answers about a document, and takes the options of all that do.
    pub(crate) is_answer: bool,
}

/// The words.
pub(crate) static WORDS: [KnownWord; 16] = [
    KnownWord {
        name: "list",
        alias: None,
        about: "The crates that are built, a line for each",
        own: &[IDS, SIDE, UNITS, JSON],
        is_answer: true,
    },
    KnownWord {
        name: "tree",
        alias: None,
        about: "What the workspace or a crate needs, as a tree",
        own: &[
            MAYBE_KRATE,
            INVERT,
            DEPTH,
            PRUNE,
            NO_DEDUPE,
            PREFIX,
            CHARSET,
            FORMAT,
            JSON,
        ],
        is_answer: true,
    },
    KnownWord {
        name: "dependents",
        alias: None,
        about: "Which crates need a crate, all the way up",
        own: &[
            KRATE, DEPTH, PRUNE, NO_DEDUPE, PREFIX, CHARSET, FORMAT, JSON,
        ],
        is_answer: true,
    },
    KnownWord {
        name: "why",
        alias: None,
        about: "Why a crate is built, step by step from the workspace",
        own: &[KRATE, STEPS, DOT, JSON],
        is_answer: true,
    },
    KnownWord {
        name: "features",
        alias: None,
        about: "Which features of a crate are enabled, each with a reason",
        own: &[KRATE, JSON],
        is_answer: true,
    },
    KnownWord {
        name: "duplicates",
        alias: None,
        about: "Which names are built in several versions, and who needs each",
        own: &[JSON],
        is_answer: true,
    },
    KnownWord {
        name: "licences",
        alias: Some("licenses"),
        about: "Under which licences the crates are, and which state none",
        own: &[JSON],
        is_answer: true,
    },
    KnownWord {
        name: "uses",
        alias: None,
        about: "Which crates are shipped, and which are for building or development alone",
        own: &[JSON],
        is_answer: true,
    },
    KnownWord {
        name: "order",
        alias: None,
        about: "The crates in an order to build them: each behind all that it needs",
        own: &[JSON],
        is_answer: true,
    },
    KnownWord {
        name: "graph",
        alias: None,
        about: "A picture of the crates and what they need, for Graphviz or Mermaid",
        own: &[DOT, MERMAID, DEPTH, PRUNE, JSON],
        is_answer: true,
    },
    KnownWord {
        name: "diff",
        alias: None,
        about: "What went and what came since another document: crates, dependencies, features",
        own: &[OLD, EXIT_CODE, JSON],
        is_answer: true,
    },
    KnownWord {
        name: "sbom",
        alias: None,
        about: "A bill of materials: CycloneDX, as JSON",
        own: &[SPEC_VERSION, TIMESTAMP, SERIAL, JSON],
        is_answer: true,
    },
    KnownWord {
        name: "unreachable",
        alias: None,
        about: "Whether it is certain that a crate isn't built",
        own: &[KRATE, SIDE, JSON],
        is_answer: true,
    },
    KnownWord {
        name: "certify",
        alias: None,
        about: "A certificate, as JSON, that someone else can check against the document",
        own: &[MAYBE_KRATE, ALL],
        is_answer: true,
    },
    KnownWord {
        name: "completions",
        alias: None,
        about: "What completes these words in a shell: bash, zsh, fish",
        own: &[SHELL],
        is_answer: false,
    },
    KnownWord {
        name: "man",
        alias: None,
        about: "The manual page of these words, for man",
        own: &[],
        is_answer: false,
    },
];
