//! The exact lines of `decode`: the transactions of a dump in bytes.
//!
//! `bytes` writes what a transaction shows, `lines` its line and the one that counts. `telling` is the sink that gathers the
//! lines, and `writing` the one that writes them. `runs` has the report of a dump, as it is written.
#![tactic(auto)]

mod bytes;
pub mod lines;
pub mod runs;
pub mod telling;
mod writing;

pub use lines::{push_count, push_transaction};
pub use runs::{write_decoded, write_decoded_beside};
pub use writing::ByteCounts;
