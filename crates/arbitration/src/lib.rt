//! Arbitration between two participants (UM10204, 3.1.8): in which slots both may end, and in which one may go on while
//! the other has lost, over all runs of the two alone.
#![tactic(auto)]

mod beginnings;
mod bits;
mod compare;
mod endings;
mod frames;
pub mod laws;
mod laying;
mod likeness;
pub mod pairs;
mod reads;
mod rows;
mod senders;
pub mod spans;

pub use pairs::{LaidOut, laid_out, of_pair};
pub use spans::{Outcomes, Slots};
