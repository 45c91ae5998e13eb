//! Value change dumps (IEEE 1364-2005, clause 18): the levels of the two lines of a bus, as a simulator or a logic analyser
//! recorded them.
//!
//! `Reader` takes a dump in pieces of any size, cut anywhere, and answers its samples. `scanner` cuts the pieces into
//! tokens, with `bytes`, which tells white space and counts lines. `words` says what a single token is. `dumps` has what the
//! tokens so far have said, with `definitions` and `changes` for the two parts of a dump, `wires` for the two lines and
//! `probes` for how they are found. `beside` has who is told of the tokens, and the further lines that are followed.
//! `places` has where a dump was refused, and what could have stood there. `laws` says of the dumps that the grammar of
//! docs/CAPTURES.md spells which samples they have, and of others which token is refused, or which signal is missing.
#![tactic(auto)]

mod beside;
mod bytes;
mod changes;
mod definitions;
mod dumps;
pub mod errors;
pub mod laws;
pub mod places;
pub mod probes;
pub mod reader;
pub mod samples;
mod scanner;
mod wires;
mod words;

pub use beside::{Nobody, Tokens};
pub use errors::Refusal;
pub use places::{Expected, Opened, Place, Wrong};
pub use probes::Probe;
pub use reader::{EndError, Last, Reader};
pub use run_errors::{Signal, VcdError};
pub use samples::{Further, Level, Sample};
