//! Which kinds of dependencies are followed, by `--edges` as `cargo tree` reads it and by `--ignore-kind`.

ghost use Rattle.std.specs.Prelude.{◌≡◌};
ghost use Rattle.krates_words.specs.SettingWords.{kind_name};

use crate::error::WordsError;
use krates_rules::kind::DepKind;
use std::alloc::{AllocError, Global};

static KINDS: [DepKind; 3] = [DepKind::Normal, DepKind::Build, DepKind::Dev];

/// The kinds that aren't followed.
pub(crate) fn ignored(
    alloc: Global,
    edges: &[&str],
    ignored: &[&str],
) -> Result<Vec<DepKind>, AllocError> {
    let mut kinds = Vec::new(alloc);
    for kind in &KINDS {
        let name = name_of(*kind);
        if !is_followed(edges, name) || ignored.contains(&name) {
            kinds.push(*kind)?;
        }
    }
    Ok(kinds)
}

/// How a kind is written.
pub(crate) fn name_of(kind: DepKind) -> &'static str
    ensures { result.now ≡ kind_name kind }
{
    match kind {
        DepKind::Normal => "normal",
        DepKind::Build => "build",
        DepKind::Dev => "dev",
    }
}

/// Whether the kind of this name is followed.
fn is_followed(edges: &[&str], name: &str) -> bool {
    if edges.iter().any(|edge| edge.starts_with("no-")) {
        !edges
            .iter()
            .any(|edge| edge.strip_prefix("no-") == Some(name))
    } else {
        edges.is_empty() || edges.iter().any(|edge| *edge == name || *edge == "all")
    }
}

/// Refuses kinds to follow together with kinds not to follow.
pub(crate) fn check(alloc: Global, edges: &[&str]) -> Result<(), WordsError> {
    let left_out = edges.iter().find(|edge| edge.starts_with("no-"));
    let followed = edges.iter().find(|edge| !edge.starts_with("no-"));
    match (left_out, followed) {
        (Some(left_out), Some(followed)) => Err(WordsError::wrong(
            alloc,
            format_args!("'{followed}' can't stand beside '{left_out}' in '--edges <KINDS>'"),
        )),
        _ => Ok(()),
    }
}
