//! Worked examples of what cargo builds, reckoned by hand from the Cargo Book.
#![tactic(auto)]

#[cfg(test)]
mod answers;
#[cfg(test)]
mod builds;
#[cfg(test)]
mod certificates;
#[cfg(test)]
mod checks;
#[cfg(test)]
mod differences;
#[cfg(test)]
mod linking;
#[cfg(test)]
mod lists;
#[cfg(test)]
mod naming;
#[cfg(test)]
mod of_build;
#[cfg(test)]
mod requests;
#[cfg(test)]
mod resolvers;
#[cfg(test)]
mod runs;
#[cfg(test)]
mod sides;
#[cfg(test)]
mod tables;
#[cfg(test)]
mod unanswered;
#[cfg(test)]
mod units;
#[cfg(test)]
mod why;
