//! A bench: the participants of a safe plan that start together, on one shared wire of atomic words.
//!
//! `hands` says what the host and each seat know of the bench, `steps` the rule that each step on a word keeps and what
//! it tells.
#![tactic(auto)]

pub mod errors;
pub mod finishing;
mod hands;
pub mod opening;
mod putting;
pub mod seats;
mod seeing;
mod steps;

pub use errors::{FinishFault, PutError, Sight};
pub use finishing::{Played, Unfinished, finish};
pub use opening::{MOST_SLOTS, open_bench};
pub use places::Offered;
pub use plays::{OpenError, Put};
pub use seats::{Bench, Host, Seat, Standing};
