//! What the words say of pictures.

use crate::error::WordsError;
use crate::values::texts;
use clap::ArgMatches;
use std::alloc::Global;

/// In which language a picture is.
#[derive(Clone, Copy, Debug, PartialEq, Eq)]
pub enum PictureForm {
    /// DOT, which Graphviz draws: `--dot`, and where nothing is said.
    Dot,
    /// That of Mermaid: `--mermaid`.
    Mermaid,
}

/// What the words say of a picture of crates.
#[derive(Debug, Drop)]
pub struct PictureWords {
    /// In which language it is.
    pub form: PictureForm,
    /// How many links are at most between a crate and what is asked for: `--depth`.
    pub depth: Option<u64>,
    /// The package specifications or ids of the crates that are left out, with what only they lead to: `--prune`.
    pub pruned: Vec<String>,
}

/// How it is printed why a crate is there.
#[derive(Clone, Copy, Debug, PartialEq, Eq)]
pub enum WhyForm {
    /// In sentences.
    Sentences,
    /// Step by step: `--steps`.
    Steps,
    /// As a picture in the language DOT: `--dot`.
    Dot,
}

impl PictureWords {
    /// What the words say of it. They are refused as wrong where they name several forms.
    pub(crate) fn of(alloc: Global, found: &ArgMatches<'_>) -> Result<PictureWords, WordsError> {
        let has_json = found.get_flag("json");
        let form = match (found.get_flag("dot"), found.get_flag("mermaid")) {
            (false, true) if !has_json => PictureForm::Mermaid,
            (_, false) if !has_json => PictureForm::Dot,
            (false, false) => PictureForm::Dot,
            _ => {
                return Err(WordsError::wrong(
                    alloc,
                    "'--dot', '--mermaid' and '--json' are forms of one answer: write one of them",
                ));
            }
        };
        let pruned = texts(alloc, found, "prune")?;
        Ok(PictureWords {
            form,
            depth: found.get_one("depth"),
            pruned,
        })
    }
}

impl WhyForm {
    /// What the words say of it. They are refused as wrong where they ask for a picture and for something else.
    pub(crate) fn of(alloc: Global, found: &ArgMatches<'_>) -> Result<WhyForm, WordsError> {
        let has_steps = found.get_flag("steps");
        if !found.get_flag("dot") {
            return Ok(if has_steps {
                WhyForm::Steps
            } else {
                WhyForm::Sentences
            });
        }
        if has_steps || found.get_flag("json") {
            return Err(WordsError::wrong(
                alloc,
                "'--dot' can't stand beside '--steps' or '--json'",
            ));
        }
        Ok(WhyForm::Dot)
    }
}
