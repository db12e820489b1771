//! The links between built crates as pairs of positions, of which trees can be made.
ghost use Rattle.std.specs.Prelude.{◌≡◌, ◌↔◌, ℕ, [], IfOk, MatchOption, OnOk};
ghost use Rattle.krates_build_answers.specs.Adding.{Adds, IsOfSome};
ghost use Rattle.krates_build_answers.specs.Positions.{ArePositionsOf, StandsAt};

use crate::built_crates::BuiltCrates;
use crate::links::BuildLink;
use std::alloc::{AllocError, Global};

/// For each of the links the positions of what needs and of what is needed, among the crates that are built: links of which an end isn't
/// among them are left out. The only error is running out of memory. Time O(l log n) for l links and n crates that are built.
///
/// ```text
/// let pairs = link_positions(alloc, &built, &build_links(alloc, &units)?)?;
/// ```
pub fn link_positions(
    alloc: Global,
    built: &BuiltCrates,
    links: &[BuildLink],
) -> Result<Vec<(usize, usize)>, AllocError>
    ensures { IfOk result (λ pairs. ArePositionsOf built.now links.now pairs.items) }
{
    let mut pairs = Vec::new(alloc);
    for link in links {
        add_positions(built, link, &mut pairs)?;
    }
    Ok(pairs)
}

/// Adds those of a link.
fn add_positions(
    built: &BuiltCrates,
    link: &BuildLink,
    pairs: &mut Vec<(usize, usize)>,
) -> Result<(), AllocError>
    ensures { OnOk result (Adds (StandsAt built.now link.now) pairs.old.items pairs.new.items) }
{
    match positions_of(built, link) {
        Some(pair) => add(pairs, pair),
        None => Ok(()),
    }
}

/// The positions of the ends of a link; `None` where one isn't among the crates that are built.
fn positions_of(built: &BuiltCrates, link: &BuildLink) -> Option<(usize, usize)>
    ensures { MatchOption result ((p : ℕ × ℕ) → ¬ StandsAt built.now link.now p)
        (λ pair. (p : ℕ × ℕ) → (pair ≡ p) ↔ StandsAt built.now link.now p) }
{
    built.agrees();
    let from = built.position(link.from)?;
    let to = built.position(link.to)?;
    Some((from, to))
}

/// Adds a pair at the end.
fn add(pairs: &mut Vec<(usize, usize)>, pair: (usize, usize)) -> Result<(), AllocError>
    ensures { OnOk result (Adds (λ p. pair ≡ p) pairs.old.items pairs.new.items) }
{
    pairs.push(pair)?;
    Ok(())
}
