//! Worked examples of documents: which are admitted, the answers to the questions of the rules, and what is selected; what builds answer
//! where the answer is known; and what the two checkers do.
//!
//! The checkers are asked about lists of steps and lists of facts, written by hand, whose answers are known, and about what a build
//! explains; drawn graphs, how many nodes and edges there may be, and for the reports that people want.
//!
//! Calls with little memory: a call answers that memory ran out only where a growth was refused, and then changes nothing that has to be
//! unchanged. No clause can say that memory suffices, so it is shown here: under every small budget a call is refused or answered as with
//! ample memory. And what the library answers of documents and lists that are larger than any number in the sources.
//!
//! Commands, and runs of a substitute for cargo. A test doesn't get the path of another program, so this test program is the substitute itself:
//! cargo's first word is `metadata`, and the test of this name does what `fake-cargo` does.
//!
//! They are separate from the crates that they test, since a crate with tests is proved twice. An example is a row of a table: a
//! line in small languages, of documents and of facts, and the text that answers it.
#![tactic(auto)]

#[cfg(test)]
mod admission;
#[cfg(test)]
mod asked;
#[cfg(test)]
mod builders;
#[cfg(test)]
mod building;
#[cfg(test)]
mod builds_by_cargo;
#[cfg(test)]
mod changes;
#[cfg(test)]
mod checks_by_index;
#[cfg(test)]
mod closed_lists;
#[cfg(test)]
mod command;
#[cfg(test)]
mod declared;
#[cfg(test)]
mod derivations;
#[cfg(test)]
mod drawing;
#[cfg(test)]
mod edges;
#[cfg(test)]
mod explained;
#[cfg(test)]
mod facts;
#[cfg(test)]
mod indexed;
#[cfg(test)]
mod large;
#[cfg(test)]
mod large_settings;
#[cfg(test)]
mod limits;
#[cfg(test)]
mod lists;
#[cfg(test)]
mod lookups;
#[cfg(test)]
mod of_document;
#[cfg(test)]
mod of_graph;
#[cfg(test)]
mod of_selection;
#[cfg(test)]
mod own_types;
#[cfg(test)]
mod pairs;
#[cfg(test)]
mod printed;
#[cfg(test)]
mod public_names;
#[cfg(test)]
mod questions;
#[cfg(test)]
mod reaching;
#[cfg(test)]
mod readme;
#[cfg(test)]
mod readme_program;
#[cfg(test)]
mod real_documents;
#[cfg(test)]
mod rebuilt;
#[cfg(test)]
mod reports;
#[cfg(test)]
mod selection;
#[cfg(test)]
mod setting;
#[cfg(test)]
mod settings;
#[cfg(test)]
mod stand_in;
#[cfg(test)]
mod starved_builds;
#[cfg(test)]
mod starved_checks;
#[cfg(test)]
mod starved_commands;
#[cfg(test)]
mod starved_documents;
#[cfg(test)]
mod starved_graphs;
#[cfg(test)]
mod starved_ids;
#[cfg(test)]
mod starved_queries;
#[cfg(test)]
mod starved_setters;
#[cfg(test)]
mod steps;
#[cfg(test)]
mod table;
#[cfg(test)]
mod work;

#[cfg(test)]
use std::test::Fail;

/// Acts as cargo, if words follow.
#[cfg(test)]
#[test]
fn metadata(rt: HostRuntime) -> Result<(), Fail> {
    let status = stand_in::run(&rt)?;
    if status == 0 {
        return Ok(());
    }
    std::process::Abort::exit(&rt, i32::from(status));
}
