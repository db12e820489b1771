//! Ids of the stable form: `LEFT#FRAGMENT`, where the fragment is `NAME@VERSION`, or the version alone.

ghost use Rattle.std.specs.Prelude.{◌≡◌, IfSome, IfNone};
ghost use Rattle.krates_cm.specs.Document.{Text};
ghost use Rattle.krates_text.specs.Cuts.{Lacks};
ghost use Rattle.krates_ids.specs.Identity as identity;
ghost use Rattle.krates_ids.specs.Identity.{IsStableForm};
ghost use Rattle.krates_ids.specs.Separators.{blank};
ghost use Rattle.krates_ids.specs.Spans.{MarksParts};
ghost use Rattle.krates_ids.specs.StableParts.{FindsName, FindsEscapedQuery, TellsName, IsWithSource};

use crate::cuts::{cut_first, cut_last, has};
use crate::span::{Parts, Span, span_of};

/// A text of the stable form, split into its parts.
#[derive(Clone, Copy)]
pub(crate) struct StablePieces<'a> {
    pub left: &'a str,
    pub fragment: &'a str,
    pub name: &'a str,
    pub version: &'a str,
    /// Where the name is in the left part; `None` where it is in the fragment.
    pub name_in_left: Option<usize>,
}

/// Whether the left part is that of a git source.
fn is_git(left: &str) -> bool
    ensures { result ≡ identity.is_git left.now }
{
    left.starts_with("git+")
}

/// The name in a left part, and where it is.
fn name_in(left: &str) -> Option<(usize, &str)>
    ensures { FindsName left.now result }
{
    let Some((before, piece)) = cut_last(left, '/') else {
        return None;
    };
    let start = before.len() + 1;
    if is_git(left) {
        if let Some((name, _)) = cut_last(piece, '?') {
            return Some((start, name));
        }
    }
    Some((start, piece))
}

/// The pieces of a text of the stable form; none where it is not of that form.
pub(crate) fn stable_pieces(text: &str) -> Option<StablePieces<'_>>
    requires { Lacks blank text.now }
    ensures found { IfSome result (λ s.
        IsStableForm text.now s.left.now s.fragment.now s.name.now s.version.now) }
    ensures named { IfSome result (λ s.
        TellsName s.left.now s.fragment.now s.name.now s.version.now s.name_in_left) }
    ensures none { IfNone result ((left fragment name version : Text)
        → IsStableForm text.now left fragment name version → ⊥) }
{
    let Some((left, fragment)) = cut_last(text, '#') else {
        return None;
    };
    if let Some((name, version)) = cut_first(fragment, '@') {
        return Some(StablePieces {
            left,
            fragment,
            name,
            version,
            name_in_left: None,
        });
    }
    if has(fragment, '/') {
        return None;
    }
    if has(fragment, '?') {
        return None;
    }
    let Some((start, name)) = name_in(left) else {
        return None;
    };
    Some(StablePieces {
        left,
        fragment,
        name,
        version: fragment,
        name_in_left: Some(start),
    })
}

/// The query of a git source, and the part before its `?`, where the query has an escape.
pub(crate) fn escaped_query(left: &str) -> Option<(&str, &str)>
    ensures { FindsEscapedQuery left.now result }
{
    if !is_git(left) {
        return None;
    }
    let Some((front, query)) = cut_last(left, '?') else {
        return None;
    };
    if has(query, '/') {
        return None;
    }
    if !has(query, '%') {
        return None;
    }
    Some((front, query))
}

/// The spans of the parts of a text that is a source, `#` and the fragment.
pub(crate) fn parts_in(text: &str, stable: StablePieces<'_>) -> Parts
    requires { (source : Text) × IsWithSource text.now source stable.fragment.now
        stable.name.now stable.version.now stable.name_in_left }
    ensures { (source : Text) → IsWithSource text.now source stable.entry.fragment.now
        stable.entry.name.now stable.entry.version.now stable.entry.name_in_left
        → MarksParts text.now result stable.entry.name.now stable.entry.version.now source }
{
    let fragment_start = text.len() - stable.fragment.len();
    let source = Span {
        start: 0,
        end: fragment_start - 1,
    };
    match stable.name_in_left {
        Some(start) => Parts {
            name: span_of(text, stable.name, start),
            version: span_of(text, stable.version, fragment_start),
            source,
        },
        None => Parts {
            name: span_of(text, stable.name, fragment_start),
            version: span_of(text, stable.version, fragment_start + stable.name.len() + 1),
            source,
        },
    }
}
