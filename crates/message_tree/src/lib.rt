//! Messages on the two-wire bus, as trees: what a controller sends and reads, and how it goes on after each answer.
#![tactic(auto)]

pub mod bits;
mod copies;
pub mod counts;
pub mod items;
pub mod laws;
mod sizes;
pub mod tree;

pub use bits::{Address, Bit, Pattern};
pub use counts::Count;
pub use items::{Item, Kind};
pub use tree::{Frame, Payload, Tail};
