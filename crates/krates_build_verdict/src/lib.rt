//! Certificates of what cargo builds, judged against a document and what a build is asked for: a verdict is one line, and a certificate that
//! doesn't hold is refused for its first fault. No search is asked and none is trusted.
#![tactic(auto)]

mod built_crates;
mod claim;
pub mod judging;
pub mod laws;
mod lost;
mod machines;
pub mod refusal;
pub mod subject;
mod told;
pub mod verdict;

pub use judging::judge_bytes;
pub use refusal::BuildRefusal;
pub use subject::BuildSubject;
pub use verdict::BuildVerdict;
