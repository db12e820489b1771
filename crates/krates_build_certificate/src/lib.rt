//! Certificates of what cargo builds, as JSON: a list of steps by which facts follow, or a list of facts that is closed, with the setting and
//! the machines of the build. Facts are lists of words here, which name crates, links and targets as the document does. One party writes one,
//! and another reads and checks it.
#![tactic(auto)]

pub mod certificate;
pub mod certificate_error;
mod fields;
pub mod laws;
pub mod machine_text;
mod object;
pub mod step;

pub use certificate::{BuildCertificate, BuildClaim};
pub use certificate_error::BuildCertificateError;
pub use machine_text::MachineText;
pub use step::NamedStep;
