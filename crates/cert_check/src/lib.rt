//! The checker of certificates, for plans that were read. It trusts neither the program that writes them nor any analysis
//! of pairs: what it accepts is safe, as its `laws` say, and the contract of `accept` in the crate `verifying`.
//!
//! `pairs` lays a proof beside the two messages of its pair, node by node (`nodes`, `bits`). `faults` follows the wire of
//! a fault through one participant at a time, place by place. `certified` checks the proofs of a whole plan, and `accepted`
//! keeps a plan that they made safe. `acceptance` reads a certificate, and checks each proof as it comes
//! (`remembered`, `memos`, `tallies`), as it stands in the text where that suffices (`quick`). `checkers` does the same for a
//! certificate that comes in pieces. `laws` says what proofs of all pairs are worth.
#![tactic(auto)]

pub mod acceptance;
pub mod accepted;
pub mod answers;
mod bits;
pub mod certified;
pub mod checkers;
pub mod faults;
pub mod laws;
mod memos;
mod nodes;
pub mod pairs;
mod quick;
mod remembered;
mod tallies;

pub use acceptance::{accept_certificate, check_certificate, check_certificate_at};
pub use accepted::Accepted;
pub use answers::{Answer, Answered, Judged};
pub use certified::accept_plan;
pub use checkers::{Checker, FeedError};
pub use faults::check_fault;
pub use pairs::check_pair;
