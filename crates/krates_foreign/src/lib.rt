//! The calls for other languages: bytes come in, and a text or a refusal goes out, by a status and a length. `krates_c`
//! exports these calls.
#![tactic(auto)]

mod asked;
mod calls;
mod document;
mod drawn_lines;
mod handing;
mod judged;
pub mod laws;
mod refusal;
mod status;

pub use calls::{check, graph, list, why};
pub use handing::{Answer, hand_over};
pub use refusal::CallRefusal;
pub use status::Status;
