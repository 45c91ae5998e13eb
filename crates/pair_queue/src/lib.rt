//! The numbers 0 to n - 1, handed out to one owner and up to seven thieves: each number once, whatever the schedule of
//! the threads that have the seats. No call but `open_queue` takes memory, and none waits or takes a lock.
//!
//! The numbers lie in a first-in first-out deque, with an end mark for each seat after them. `tickets` has what lies
//! there and what a seat knows, `steps` the rule that every push and every take keeps and what each of them tells a
//! seat. `laws` says what a dispatch log hands out, and that what a seat knows of it is so.
#![tactic(auto)]

pub mod answers;
pub mod laws;
mod open;
pub mod seats;
pub mod settling;
mod steps;
mod takes;
mod tickets;

pub use answers::{SettleFault, Take};
pub use open::{MOST_NUMBERS, MOST_THIEVES, open_queue};
pub use seats::{Owner, Thief};
pub use settling::{Settled, Unsettled, settle};
