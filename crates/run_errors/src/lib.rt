//! Why a dump is refused, and why a bench is not opened, with the codes that are printed: what a run may end with, apart from
//! the crates that find it. `vcd_read` and `plays` hand these types on.
#![tactic(auto)]

pub mod benches;
pub mod dumps;

pub use benches::OpenError;
pub use dumps::{Signal, VcdError};
