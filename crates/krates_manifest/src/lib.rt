//! What the manifest of a workspace's root says of a build, which no document of `cargo metadata` has: the resolver.
#![tactic(auto)]

mod fields;
pub mod laws;
pub mod manifest_error;
pub mod resolver;
mod root_package;

pub use manifest_error::ManifestError;
pub use resolver::resolver_of;
