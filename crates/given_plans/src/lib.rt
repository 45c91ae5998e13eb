//! A plan that is given as a plan text, or as one brief or several: which plan that is, where its parts stand, and the text
//! that is refused. Which of the two a text is, its first word tells.
#![tactic(auto)]

pub mod plans;
pub mod sources;

pub use plans::{GivenPlan, Halted, Provenance, Refusal, RefusedText, find_given};
pub use sources::{find_among, find_in_briefs};
