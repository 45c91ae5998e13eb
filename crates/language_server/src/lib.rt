//! What editors ask of `twire lsp`: the Language Server Protocol, 3.17, over one reader and one writer.
//!
//! Nothing here decides anything. What is wrong with a text is found by the runs of the other commands, and shown as
//! `diagnostics` has it.
//!
//! `frames` cuts the input into frames, `rpc` says what one of them asks, and `answers` writes what is said. `serving` is the
//! loop, and `handling` does what is asked. `workspace` has what is open, and what is known and told of it: `changes` what an editor
//! changes in texts, `formatting` their layout, and `telling` says what is wrong without being asked. `questions` answers what is asked
//! of a place.
#![tactic(auto)]

mod answers;
mod changes;
mod formatting;
mod frames;
mod handling;
mod questions;
mod rpc;
mod serving;
mod telling;
mod workspace;

pub use serving::serve;
