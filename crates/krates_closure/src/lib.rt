//! What follows from clauses over numbered facts: which facts are derivable, and steps that derive them.
//!
//! A clause says that its fact holds where all its premises hold (a Horn clause). No premise is negated, so there is one answer, whatever
//! the order. What the facts are is the caller's, who numbers those that can be asked, and writes down a clause for each way in which one
//! of them follows from others.
#![tactic(auto)]

pub mod clause_number;
pub mod clauses;
mod closing;
pub mod closure;
pub mod fact_number;
pub mod laws;
mod needed;

pub use clause_number::ClauseNumber;
pub use clauses::{Clause, Clauses};
pub use closure::Closure;
pub use fact_number::FactNumber;
