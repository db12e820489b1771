//! What `cargo krates` answers by what cargo builds, where the answer is known.

mod answered;
mod certified;
mod kept;
mod pictures;
mod reasons;
mod refused;
