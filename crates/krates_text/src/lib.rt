//! The small languages of a manifest and of cargo's metadata: paths, feature references, cfg expressions and the
//! targets at which they are asked; and texts that are written without an error at each write.
#![tactic(auto)]

pub mod cfg;
pub mod copies;
pub mod features;
pub mod json_line;
pub mod laws;
pub mod passing;
pub mod path;
pub mod rustc_cfg;
pub mod target;
pub mod text;
pub mod texts;
