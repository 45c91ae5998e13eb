//! Captures without short pulses: a level that a line has for less than a least time is ignored.
//!
//! `filtering` takes samples, block by block, and hands out samples. It keeps the two lines as they are and as they go
//! on (`wires`), and nothing else. `following` goes on from the samples that are left to transactions.
#![tactic(auto)]

pub mod filtering;
pub mod following;
pub mod laws;
mod wires;

pub use filtering::Filter;
pub use following::QuietFollower;
