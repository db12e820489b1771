//! Certificates of what a resolution keeps, as JSON: a list of steps by which facts follow, or a list of facts that is closed, with the
//! setting under which it was made. One party writes one, and another reads and checks it.
#![tactic(auto)]

pub mod certificate;
pub mod certificate_error;
mod fact;
pub mod laws;
pub mod part;
mod read;
mod step;
mod write;

pub use certificate::Certificate;
pub use certificate_error::CertificateError;
pub use part::CertificatePart;
