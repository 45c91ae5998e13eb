//! What a certificate says of a plan: `accept` says it for the bytes of both, `verify_plan` and `run_verify` for what
//! readers give, as a value and as a line with a status.
//!
//! Below it stand the checker of certificates, the reader of plan texts, and what reads and writes streams. It names
//! nothing of the search.
#![tactic(auto)]

pub mod acceptance;
mod answering;
pub mod answers;
pub mod finding;
pub mod laws;
pub mod verification;

pub use acceptance::{AcceptError, accept};
pub use answers::{answer_line, status_of_answer};
pub use cert_check::{Answer, Answered};
pub use finding::find_plan;
pub use verification::{run_verify, verify_found, verify_plan};
