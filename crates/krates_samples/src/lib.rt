//! The small languages of documents, settings and facts in which worked examples are written, the tables that one function goes through, what is
//! said of the rows that fail, a document that is large, calls with little memory, and the substitute for cargo.
#![tactic(auto)]

pub mod documents;
pub mod facts;
pub mod failures;
pub mod large;
pub mod settings;
pub mod stand_in;
pub mod starving;
pub mod table;
pub mod targets;
