//! Plays of a bench: what the participants who start together put, slot by slot, and the wire that comes of it.
//!
//! `starters` says who may start together, `puts` has what one participant may put in one slot, `tally` the word that
//! counts the puts of one slot. A play is a definition of this crate's specs, and `laws` says what holds of it.
#![tactic(auto)]

pub mod laws;
pub mod puts;
pub mod starters;
pub mod tally;

pub use puts::Put;
pub use run_errors::OpenError;
pub use starters::{RefusedStarters, check_starters, refused_among};
pub use tally::Tally;
