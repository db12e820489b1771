//! The room for the edges of an outline: how many are drawn at most.
ghost use Rattle.std.specs.Prelude.{◌≡◌, ◌≤◌, length, map};
ghost use Rattle.std.specs.List.{sum_by};
ghost use Rattle.krates_selection.specs.Selection.{counted};
ghost use Rattle.krates_drawing.specs.Drawing.{planned_edges};
ghost use Rattle.krates_drawing.specs.Room.{most_edges, times_drawn, times_leading, times_named as named};
ghost use Rattle.krates_drawing.specs.Views.{meaning_view, outline_view};

use crate::outline::{Meaning, Outline};

/// How many edges are drawn of an outline at most: the list of them is made with this room, and grows no more. Each kept edge is
/// drawn once, or once for each feature that it gives, each toggled feature at most once, and a feature leads to its crate and at most
/// to all that its references name. A count that has reached its greatest value stays there. Time: O(n) for n edges and references.
pub(crate) fn edges_at_most(outline: &Outline) -> usize
    ensures count { result ≡ counted (most_edges (outline_view outline.now)) }
    ensures enough { counted (length (planned_edges (outline_view outline.now))) ≤ result }
{
    let given = times_given(outline);
    let led = times_led(outline);
    given
        .saturating_add(outline.toggled.len())
        .saturating_add(led)
}

/// How often the kept edges are drawn.
fn times_given(outline: &Outline) -> usize
    ensures { result ≡ counted (sum_by times_drawn (outline_view outline.now).links) }
{
    let mut count: usize = 0;
    for link in &outline.links {
        count = count.saturating_add(link.given.len().max(1));
    }
    count
}

/// How often the enabled features lead to their crates, and at most to what their references name.
fn times_led(outline: &Outline) -> usize
    ensures { result ≡ counted (sum_by times_leading (outline_view outline.now).features) }
{
    let mut count: usize = 0;
    for named in &outline.features {
        count = count
            .saturating_add(1)
            .saturating_add(named_by_all(&named.meanings));
    }
    count
}

/// How much these references name.
fn named_by_all(meanings: &[Meaning]) -> usize
    ensures { result ≡ counted (sum_by named (map meaning_view meanings.now)) }
{
    let mut count: usize = 0;
    for meaning in meanings {
        count = count.saturating_add(times_named(meaning));
    }
    count
}

/// How much a reference names.
fn times_named(meaning: &Meaning) -> usize
    ensures { result ≡ named (meaning_view meaning.now) }
{
    match meaning {
        Meaning::OwnFeature(_) => 1,
        Meaning::Crates(krates) => krates.len(),
        Meaning::FeatureOf { krates, .. } => krates.len(),
    }
}
