//! What may be written at a place of a text: what the reader would take there.
//!
//! `completions` asks the reader and lists it, `paths` has the files that a head may name, `sendings` what a controller may list, and
//! `sides` what may be a side of a `never`.
#![tactic(auto)]

mod completions;
mod paths;
mod sendings;
mod sides;

pub use completions::completions_at;
