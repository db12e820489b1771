//! Worked examples of texts, JSON among them, the graph, ids, metadata and printed steps: what the lowest crates,
//! and those of the document, answer where the answer is known.
//!
//! They are separate from the crates that they test, since a crate with tests is proved twice. What is expected is in
//! constants, which cost no proof: a row in the body of a test costs as much as a small function.
#![tactic(auto)]

#[cfg(test)]
mod certificates;
#[cfg(test)]
mod closure;
#[cfg(test)]
mod correction;
#[cfg(test)]
mod derivation_texts;
#[cfg(test)]
mod documents;
#[cfg(test)]
mod expressions;
#[cfg(test)]
mod graph;
#[cfg(test)]
mod ids;
#[cfg(test)]
mod json_texts;
#[cfg(test)]
mod machines;
#[cfg(test)]
mod names;
#[cfg(test)]
mod packages;
#[cfg(test)]
mod passing;
#[cfg(test)]
mod paths;
#[cfg(test)]
mod queries;
#[cfg(test)]
mod reading;
#[cfg(test)]
mod references;
#[cfg(test)]
mod refusals;
#[cfg(test)]
mod rustc_cfg;
#[cfg(test)]
mod shown_texts;
#[cfg(test)]
mod specifications;
#[cfg(test)]
mod targets;
#[cfg(test)]
mod texts;
#[cfg(test)]
mod writing;
