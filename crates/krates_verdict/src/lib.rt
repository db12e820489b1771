//! Certificates judged against a document and a setting, over any reader and writer: a verdict is one line, and a certificate that
//! doesn't hold is refused for a cause that is true of it. No search is asked and none is trusted.
#![tactic(auto)]

mod crates_of_facts;
pub mod judging;
pub mod laws;
pub mod named_fact;
pub mod refusal;
pub mod subject;
pub mod verdict;

pub use judging::{run, run_under};
pub use named_fact::NamedFact;
pub use refusal::Refusal;
pub use subject::CertificateSubject;
pub use verdict::Verdict;
