//! What is told of texts that are refused where they were to give a plan: to people, to compilers' users, to editors and programs.
//!
//! `names` has what the command line calls the files of a run. `refusals` has the refusal that is the answer of a run, and `further`
//! what else is refused in the same texts.
#![tactic(auto)]

mod further;
mod names;
mod refusals;

pub use further::{Further, FurtherOne};
pub use names::NamedSources;
pub use refusals::RefusedNamed;
