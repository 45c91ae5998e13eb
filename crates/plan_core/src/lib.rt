//! Plans: who may send what, and the model of the bus that says what may come of it.
#![tactic(auto)]

pub mod builder;
mod labels;
pub mod laws;
pub mod limits;
pub mod names;
pub mod pair_laws;
mod pairs;
pub mod plans;
mod sender_places;
pub mod senders;

pub use builder::{BuildError, Builder};
pub use labels::labels_differ;
pub use names::{Name, NameError};
pub use plans::{Participant, Plan};
pub use senders::Sends;
