//! Dumps, decoded block by block: each block is read, and the transactions that end in it are handed on to a sink.
//!
//! A sink says by its `ghost sink` what its calls do. `decode` promises that these calls came with just the transactions
//! of the dump, in order; or why not with all of them. `sinks` also has the one that adds to each transaction the
//! participants of a plan that explain it, and hands both on. `decode_beside` also tells another of all that it reads.
#![tactic(auto)]

mod following;
pub mod runs;
pub mod sinks;

pub use runs::{Ending, decode, decode_beside};
pub use sinks::{ExplainedSink, Explaining, TransactionSink};
