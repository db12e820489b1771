//! Worked examples of the program: what it answers to words, documents, runs of cargo and failing streams where the answer is known, with
//! ample memory and with little.
//!
//! They are separate from the crate that they test, since a crate with tests is proved twice. An example is a row of a table.
//!
//! A test doesn't get the path of another program, so this test program acts as cargo: cargo's first word is `metadata`, and
//! the test of this name writes the document. By that test it also acts as rustc, and as whoever asks.
#![tactic(auto)]

#[cfg(test)]
mod acting;
#[cfg(test)]
mod asked;
#[cfg(test)]
mod by_build;
#[cfg(test)]
mod by_cargo;
#[cfg(test)]
mod calls;
#[cfg(test)]
mod certificates;
#[cfg(test)]
mod foreign;
#[cfg(test)]
mod hostile;
#[cfg(test)]
mod inputs;
#[cfg(test)]
mod large;
#[cfg(test)]
mod listing;
#[cfg(test)]
mod little_memory;
#[cfg(test)]
mod no_programs;
#[cfg(test)]
mod options;
#[cfg(test)]
mod streams;
#[cfg(test)]
mod versions;
#[cfg(test)]
mod why;

#[cfg(test)]
use crate::acting::Ending;
#[cfg(test)]
use std::process::Abort;
#[cfg(test)]
use std::test::Fail;

/// Acts as another program, if words follow. This is the first word that cargo is given for a document.
#[cfg(test)]
#[test]
fn metadata(rt: HostRuntime) -> Result<(), Fail> {
    match acting::act(&rt)? {
        Ending::Success => Ok(()),
        Ending::Killed => rt.abort(),
    }
}
