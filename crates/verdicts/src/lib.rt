//! The verdicts of all pairs of a plan, and whether the plan is safe for every set that may start together. `table`
//! makes all verdicts with their proofs; `faults` finds the pairs that are not safe, and makes no proof;
//! `certificate_lines` makes the certificate of the plan, each different line once, and holds one proof at a time;
//! `certificate_text` is its text as one. `Checked` is a plan with its faults. `table_with` and `faults_with` share the
//! work among threads, by the queue of pair_queue: `workers` has one worker, `sharing` all of them.
#![tactic(auto)]

pub mod certificates;
pub mod checked;
pub mod errors;
pub mod gates;
mod known;
mod lines;
pub mod listed;
mod parts;
mod samples;
pub mod searches;
pub mod shared_searches;
pub mod shared_walks;
pub mod sharing;
pub mod tables;
pub mod texts;
pub mod walks;
mod workers;

pub use certificates::{certificate_lines, certificate_text};
pub use checked::Checked;
pub use errors::TableError;
pub use gates::{Gate, NoGate};
pub use listed::Faults;
pub use searches::faults;
pub use shared_searches::faults_with;
pub use shared_walks::table_with;
pub use sharing::MOST_WORKERS;
pub use tables::Table;
pub use texts::CertificateLines;
pub use walks::table;
