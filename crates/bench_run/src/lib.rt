//! Rehearses a plan: its starters play on a bench, each in a thread of its own, and put the same bit wherever they may
//! choose. `starters` reads who starts, `filling` says what is put, `players` plays one seat, `rounds` all of them, and
//! `runs` reads and writes.
#![tactic(auto)]

pub mod filling;
pub mod gates;
pub mod laws;
pub mod lines;
mod patience;
mod players;
pub mod rehearsing;
pub mod rounds;
pub mod runs;
mod starters;
pub mod values;

pub use filling::filled;
pub use gates::{Gate, NoGate};
pub use lines::{outcome_report, push_wire_line, push_won_line, status_of_outcome};
pub use rehearsing::rehearse;
pub use runs::run_bench;
pub use values::{Outcome, Rehearsal, Unplayed};
