//! What holds of whole texts: how a text of a plan or of a brief that is laid out relates to what it was, what one brief and
//! several briefs mean, how a plan that is meant relates to what the briefs say, and of what kind the samples of a dump
//! are. No program calls it. A law does nothing: its contract is the theorem.
#![tactic(auto)]

pub mod briefs;
pub mod dumps;
pub mod layouts;
pub mod meanings;
